//! Reading pieces and writing their records.
ghost use Rattle.std.specs.Prelude.{◌≡◌, ◌≤◌, ◌<◌, ◌+◌, ◌*◌, ◌%◌, ◌^◌, ◌-◌, min, true, false, ℕ, List, [], Some, Err, length, is_some, IfOk, OnOk, OnErr, IsOk};
ghost use Rattle.outside_io.specs.Causes.{HasCause, HasReadCause, HasWriteCause, Rose, fault_by};
ghost use Rattle.outside_io.specs.Told.{Appends, AppendsPart};
ghost use Rattle.capture_file.specs.Capture.{spelling};
ghost use Rattle.rist_wire.specs.Session.{IsSession};
ghost use Rattle.rist_wire.specs.Writing.{next_pair, after_pair};
ghost use Rattle.rist_pack.specs.Capture.{record_with, packed_record, nonces_of, HasGiven};
ghost use Rattle.rist_pack.specs.Packing.{Packs, pack_fault, passage};
ghost use Rattle.rist_pack.specs.declared.packing.Turn.TheVariants as Turn;
ghost use Rattle.rist_pack.specs.Inside.Steps.{PacksPiece};

use crate::datagram::{put_piece, time_of};
use crate::{PackBad, PackSettings};
use block_source::{PIECE_LEN, PieceFault, read_piece};
use capture_file::{Head, WriteFault, Writer};
use link_channels::MAX_DATAGRAM;
use outside_io::{Sink, Source};
use psk_seal::Sealer;
use rist_wire::{Session, Shutter};

// Writes the record of piece k.
fn write_piece<K: Sink>(
    shutter: &mut Shutter,
    nulls: bool,
    settings: &PackSettings,
    k: u64,
    piece: &[u8],
    capture: &mut Writer<K>,
) -> Result<(), WriteFault>
    requires paired { is_some shutter.old.sealer ≡ is_some shutter.old.session.pass }
    requires given { HasGiven k shutter.old.sealer }
    requires nulls { nulls ≡ shutter.old.session.nulls }
    requires flow { settings.now.flow % 2 ≡ 0 }
    requires place { 1316 * k ≤ 2 ^ 40 }
    requires gap { settings.now.gap ≤ 1000000 }
    requires piece { length piece.now ≤ 1316 }
    requires begun { capture.old.begun ≡ true }
    ensures ok { OnOk result (Appends capture.old.contents capture.new.contents
        (spelling (record_with shutter.old.session (next_pair shutter.old.sealer) settings.now k piece.now))) }
    ensures err { OnErr result (AppendsPart capture.old.contents capture.new.contents
        (spelling (record_with shutter.old.session (next_pair shutter.old.sealer) settings.now k piece.now))) }
    ensures begun { capture.new.begun ≡ true }
    ensures state { shutter.new ≡ record shutter.old { sealer = after_pair shutter.old.sealer } }
    ensures cause { HasCause capture.old.faults capture.new.faults result }
{
    let mut block = [0; MAX_DATAGRAM];
    let (channel, end) = put_piece(shutter, nulls, settings, k, piece, &mut block);
    let head = Head {
        link: 0,
        channel,
        length: end as u16,
        us: time_of(settings, k),
    };
    capture.add(&head, &block[..end])
}

/// Whether the source goes on after a piece.
enum Turn {
    On,
    Over,
}

// Reads piece k and writes its record, if it has an octet.
fn pack_piece<S: Source, K: Sink>(
    shutter: &mut Shutter,
    nulls: bool,
    settings: &PackSettings,
    k: u64,
    source: &mut S,
    capture: &mut Writer<K>,
) -> Result<Turn, PackBad>
    requires paired { is_some shutter.old.sealer ≡ is_some shutter.old.session.pass }
    requires given { HasGiven k shutter.old.sealer }
    requires nulls { nulls ≡ shutter.old.session.nulls }
    requires flow { settings.now.flow % 2 ≡ 0 }
    requires place { 1316 * k ≤ 2 ^ 40 }
    requires gap { settings.now.gap ≤ 1000000 }
    requires begun { capture.old.begun ≡ true }
    ensures value { PacksPiece
        (packed_record shutter.old.session (nonces_of shutter.old.sealer) settings.now) k
        (passage (S.remaining source.old) (S.remaining source.new) capture.old capture.new) result }
    ensures ahead { result ≡ Err PackBad.ReadFault → S.ahead source.new ≡ [] }
    ensures begun { capture.new.begun ≡ true }
    // A pair was given where the source goes on.
    ensures state { IfOk result (λ turn. turn ≡ Turn.On
        → shutter.new ≡ record shutter.old { sealer = after_pair shutter.old.sealer }) }
    ensures read { HasReadCause (fault_by pack_fault result) (S.faults source.old) (S.faults source.new) }
    ensures write { HasWriteCause (fault_by pack_fault result) capture.old.faults capture.new.faults }
    // After a failed write nothing is read.
    ensures stopped { result ≡ Err PackBad.WriteFault → S.faults source.new ≡ S.faults source.old }
{
    let mut piece = [0; PIECE_LEN];
    let count = match read_piece(k, source, &mut piece) {
        Ok(count) => count,
        Err(PieceFault::ReadFault) => return Err(PackBad::ReadFault),
        Err(PieceFault::TooLong) => return Err(PackBad::TooLong),
    };
    if count == 0 {
        return Ok(Turn::Over);
    }
    match write_piece(shutter, nulls, settings, k, &piece[..count], capture) {
        Ok(()) if count == PIECE_LEN => Ok(Turn::On),
        Ok(()) => Ok(Turn::Over),
        Err(_) => Err(PackBad::WriteFault),
    }
}

/// Reads a source to its end, and writes the capture of its pieces, each in a datagram of the session. The sealer gives
/// each of them a pair, where the session has a passphrase.
pub fn pack<S: Source, K: Sink>(
    session: &Session,
    sealer: Option<Sealer>,
    settings: &PackSettings,
    source: &mut S,
    capture: &mut Writer<K>,
) -> Result<(), PackBad>
    requires session { IsSession session.now }
    requires paired { is_some sealer ≡ is_some session.now.pass }
    requires given { HasGiven 0 sealer }
    requires fresh { capture.old.begun ≡ false }
    requires flow { settings.now.flow % 2 ≡ 0 }
    requires gap { (1 ≤ settings.now.gap) × (settings.now.gap ≤ 1000000) }
    ensures work { Packs (packed_record session.now (nonces_of sealer) settings.now)
        (passage (S.remaining source.old) (S.remaining source.new) capture.old capture.new) result }
    ensures ahead { result ≡ Err PackBad.ReadFault → S.ahead source.new ≡ [] }
    ensures begun { capture.new.begun ≡ true }
    ensures read { HasReadCause (fault_by pack_fault result) (S.faults source.old) (S.faults source.new) }
    ensures write { HasWriteCause (fault_by pack_fault result) capture.old.faults capture.new.faults }
    // After a failed write nothing is read.
    ensures stopped { result ≡ Err PackBad.WriteFault → S.faults source.new ≡ S.faults source.old }
    // A source that is no longer than that is packed to its end, where no call fails.
    ensures complete { (b : List ℕ) → S.remaining source.old ≡ Some b → length b ≤ 2 ^ 40
        → (Rose (S.faults source.old) (S.faults source.new) → ⊥)
        → (Rose capture.old.faults capture.new.faults → ⊥) → IsOk result }
{
    match capture.begin() {
        Ok(()) => {}
        Err(_) => return Err(PackBad::WriteFault),
    }
    let mut shutter = Shutter::with(session, sealer);
    let mut k = 0;
    loop {
        match pack_piece(&mut shutter, session.nulls, settings, k, source, capture) {
            Ok(Turn::On) => k += 1,
            Ok(Turn::Over) => return Ok(()),
            Err(bad) => return Err(bad),
        }
    }
}
