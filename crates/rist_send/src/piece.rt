//! The next piece of a source: of octets 1,316 of them, and of datagrams the payload of one.
ghost use Rattle.std.specs.Prelude.{◌≡◌, ◌≤◌, ◌<◌, ◌+◌, ◌*◌, ◌^◌, ℕ, [], Bool, true, Some, None, Ok, Err, IfOk, length, map};
ghost use Rattle.outside_io.specs.Causes.{HasReadCause, NoFault, fault_by};
ghost use Rattle.block_source.specs.Reading.{ReadsPiece, front_of, piece_fault};
ghost use Rattle.sender_rules.specs.Bonding.{link_count};
ghost use Rattle.link_channels.specs.declared.bounds.TheConstants.{MAX_LINKS, MAX_PAYLOAD as max_payload};
ghost use Rattle.rist_sender.specs.Sender.{StaysSet};
ghost use Rattle.rist_send.specs.Payloads.{ReadsPayload};
ghost use Rattle.rist_send.specs.Run.{Run, setup_of};
ghost use Rattle.rist_send.specs.Turns.{BringsPiece, BringsPayload, BringsThere, BringsDue, BringsNext, SendsRead, stage_after};
ghost use Rattle.rist_send.specs.Waiting.{IsNeverReady, LeavesUnread};
ghost use Rattle.rist_send.specs.Sending.{read_fault};
ghost use Rattle.rist_send.specs.Inside.Moves.{IsAt, Moves, MovesBy, IsPlace, with_source};
ghost use Rattle.rist_send.specs.declared.settings.SendSettings.{SendSettings as Settings};
ghost use Rattle.rist_send.specs.declared.progress.Stage.TheVariants as Stage;

use crate::fault::{refusal, unread};
use crate::progress::{Progress, Stage};
use crate::{SendFault, SendSettings};
use block_source::{MAX_LEN, PIECE_LEN, PieceFault, read_piece};
use link_channels::MAX_PAYLOAD;
use live_source::LiveSource;
use outside_io::Source;
use outside_net::{Link, TellingLink};
use rist_sender::Sender;

/// How many payloads are sent of datagrams at most (this profile).
const MAX_PAYLOADS: u64 = 1 << 40;

// What the source is at after piece k, of so many octets.
fn stage_after(moment: u64, k: u64, least: usize, count: usize) -> Stage
    requires within { k < 2 ^ 40 }
    ensures value { result ≡ stage_after moment k least count }
    ensures place { IsPlace result }
{
    if count < least {
        Stage::Ended(moment)
    } else {
        Stage::Reading(k + 1)
    }
}

// Sends a piece that was read. Behind one of fewer octets than `least` the source has ended, and an empty one isn't sent.
fn send_read<L: Link>(
    k: u64,
    least: usize,
    piece: &[u8],
    sender: &mut Sender,
    links: &mut [L],
    progress: &mut Progress,
) -> Result<(), SendFault>
    requires payload { length piece.now ≤ max_payload }
    requires place { k < 2 ^ 40 }
    requires links { length links.old ≡ link_count sender.old.bonding }
    requires few { length links.old ≤ MAX_LINKS }
    ensures work { MovesBy ⟦<L as TellingLink>⟧.tells
        sender.old sender.new progress.old progress.new links.old links.new
        (λ setup from. SendsRead setup k least (Ok piece.now) result from) }
    ensures set { StaysSet sender.old sender.new }
    ensures at { IsPlace progress.new.stage }
    ensures source { fault_by read_fault result ≡ NoFault }
{
    progress.stage = stage_after(progress.moment, k, least, piece.len());
    if piece.is_empty() {
        return Ok(());
    }
    match sender.send(progress.moment, piece, links) {
        Ok(()) => Ok(()),
        Err(bad) => Err(refusal(bad)),
    }
}

// Reads piece k of the source's octets, unless more than 2^40 stand before it.
fn read_octets<S: Source>(
    k: u64,
    source: &mut S,
    piece: &mut [u8; PIECE_LEN],
) -> Result<usize, PieceFault>
    ensures value { ReadsPiece k (S.remaining source.old) (S.remaining source.new) (front_of piece.new result) }
    ensures within { IfOk result (λ count. (count ≤ 1316) × (1316 * k + count ≤ 2 ^ 40)) }
    ensures ahead { result ≡ Err PieceFault.ReadFault → S.ahead source.new ≡ [] }
    ensures cause { HasReadCause (fault_by piece_fault result) (S.faults source.old) (S.faults source.new) }
{
    if k > MAX_LEN / PIECE_LEN as u64 {
        return Err(PieceFault::TooLong);
    }
    read_piece(k, source, piece)
}

// Reads and sends piece k of the source's octets.
fn bring_piece<S: LiveSource, L: Link>(
    k: u64,
    sender: &mut Sender,
    source: &mut S,
    links: &mut [L],
    progress: &mut Progress,
) -> Result<(), SendFault>
    requires place { k ≤ 2 ^ 40 }
    requires untold { S.payloads source.old ≡ None }
    // Asked for a whole piece, the source said that it is there.
    requires there { S.stands source.old 1316 }
    requires at { IsPlace progress.old.stage }
    requires links { length links.old ≡ link_count sender.old.bonding }
    requires few { length links.old ≤ MAX_LINKS }
    ensures work { (settings : Settings) (from : Run)
        → IsAt sender.old progress.old
        (with_source from (S.remaining source.old) (S.payloads source.old) (map L.reads links.old)) from
        → Moves ⟦<L as TellingLink>⟧.tells
        sender.old sender.new progress.new
        (with_source from (S.remaining source.new) (S.payloads source.new) (map L.reads links.new))
        links.old links.new from
        (BringsPiece (setup_of settings sender.old (length links.old)) k result from) }
    ensures set { StaysSet sender.old sender.new }
    ensures at { IsPlace progress.new.stage }
    ensures ahead { result ≡ Err SendFault.ReadFault → S.ahead source.new ≡ [] }
    ensures cause { HasReadCause (fault_by read_fault result) (S.faults source.old) (S.faults source.new) }
{
    let mut piece = [0; PIECE_LEN];
    match read_octets(k, source, &mut piece) {
        Ok(count) => send_read(k, PIECE_LEN, &piece[..count], sender, links, progress),
        Err(fault) => Err(unread(fault)),
    }
}

// Reads the payload of the next datagram, whole, as the one at place k.
fn read_next<S: LiveSource>(
    k: u64,
    source: &mut S,
    block: &mut [u8; MAX_PAYLOAD],
) -> Result<usize, PieceFault>
    requires place { k ≤ 2 ^ 40 }
    ensures value { ReadsPayload k (S.payloads source.old) (S.payloads source.new) (front_of block.new result) }
    ensures within { IfOk result (λ count. (count ≤ max_payload) × (k < 2 ^ 40)) }
    ensures same { S.remaining source.new ≡ S.remaining source.old }
    ensures ahead { result ≡ Err PieceFault.ReadFault → S.ahead source.new ≡ [] }
    ensures cause { HasReadCause (fault_by piece_fault result) (S.faults source.old) (S.faults source.new) }
{
    if k >= MAX_PAYLOADS {
        return Err(PieceFault::TooLong);
    }
    match source.read_payload(block) {
        Ok(count) => Ok(count),
        Err(_) => Err(PieceFault::ReadFault),
    }
}

// Reads the payload of the next datagram, and sends it whole, as piece k.
fn bring_payload<S: LiveSource, L: Link>(
    k: u64,
    sender: &mut Sender,
    source: &mut S,
    links: &mut [L],
    progress: &mut Progress,
) -> Result<(), SendFault>
    requires place { k ≤ 2 ^ 40 }
    requires untold { S.remaining source.old ≡ None }
    requires at { IsPlace progress.old.stage }
    requires links { length links.old ≡ link_count sender.old.bonding }
    requires few { length links.old ≤ MAX_LINKS }
    ensures work { (settings : Settings) (from : Run)
        → IsAt sender.old progress.old
        (with_source from (S.remaining source.old) (S.payloads source.old) (map L.reads links.old)) from
        → Moves ⟦<L as TellingLink>⟧.tells
        sender.old sender.new progress.new
        (with_source from (S.remaining source.new) (S.payloads source.new) (map L.reads links.new))
        links.old links.new from
        (BringsPayload (setup_of settings sender.old (length links.old)) k result from) }
    ensures set { StaysSet sender.old sender.new }
    ensures at { IsPlace progress.new.stage }
    ensures ahead { result ≡ Err SendFault.ReadFault → S.ahead source.new ≡ [] }
    ensures cause { HasReadCause (fault_by read_fault result) (S.faults source.old) (S.faults source.new) }
{
    let mut block = [0; MAX_PAYLOAD];
    match read_next(k, source, &mut block) {
        Ok(count) => send_read(k, 1, &block[..count], sender, links, progress),
        Err(fault) => Err(unread(fault)),
    }
}

// Reads and sends piece k, where the source has it there. One that isn't there is not waited for.
fn bring_ready<S: LiveSource, L: Link>(
    k: u64,
    sender: &mut Sender,
    source: &mut S,
    links: &mut [L],
    progress: &mut Progress,
) -> Result<(), SendFault>
    requires place { k ≤ 2 ^ 40 }
    requires at { IsPlace progress.old.stage }
    requires links { length links.old ≡ link_count sender.old.bonding }
    requires few { length links.old ≤ MAX_LINKS }
    ensures work { (settings : Settings) (from : Run)
        → IsAt sender.old progress.old
        (with_source from (S.remaining source.old) (S.payloads source.old) (map L.reads links.old)) from
        → Moves ⟦<L as TellingLink>⟧.tells
        sender.old sender.new progress.new
        (with_source from (S.remaining source.new) (S.payloads source.new) (map L.reads links.new))
        links.old links.new from
        (BringsDue (setup_of settings sender.old (length links.old)) k result from) }
    ensures set { StaysSet sender.old sender.new }
    ensures at { IsPlace progress.new.stage }
    ensures ahead { result ≡ Err SendFault.ReadFault → S.ahead source.new ≡ [] }
    ensures cause { HasReadCause (fault_by read_fault result) (S.faults source.old) (S.faults source.new) }
    // Where the source says yes, the piece is brought.
    ensures said { (answers : ℕ → Bool) → S.ready source.old ≡ Some answers → answers 0 ≡ true
        → (settings : Settings) (from : Run)
        → IsAt sender.old progress.old
        (with_source from (S.remaining source.old) (S.payloads source.old) (map L.reads links.old)) from
        → Moves ⟦<L as TellingLink>⟧.tells
        sender.old sender.new progress.new
        (with_source from (S.remaining source.new) (S.payloads source.new) (map L.reads links.new))
        links.old links.new from
        (BringsThere (setup_of settings sender.old (length links.old)) k result from) }
    // Where it says no, it isn't read.
    ensures waits { IsNeverReady (S.ready source.old) → LeavesUnread (S.ready source.new)
        (S.faults source.old) (S.faults source.new) progress.old.stage progress.new.stage }
{
    if !source.gather(PIECE_LEN) {
        // The turn goes on without it.
        return Ok(());
    }
    if source.is_in_datagrams() {
        bring_payload(k, sender, source, links, progress)
    } else {
        bring_piece(k, sender, source, links, progress)
    }
}

// Reads and sends piece k, where it is due and there.
fn bring_due<S: LiveSource, L: Link>(
    k: u64,
    settings: &SendSettings,
    sender: &mut Sender,
    source: &mut S,
    links: &mut [L],
    progress: &mut Progress,
) -> Result<(), SendFault>
    requires gap { settings.now.gap ≤ 1000000 }
    requires at { IsPlace progress.old.stage }
    requires place { k ≤ 2 ^ 40 }
    requires links { length links.old ≡ link_count sender.old.bonding }
    requires few { length links.old ≤ MAX_LINKS }
    ensures work { (from : Run)
        → IsAt sender.old progress.old
        (with_source from (S.remaining source.old) (S.payloads source.old) (map L.reads links.old)) from
        → Moves ⟦<L as TellingLink>⟧.tells
        sender.old sender.new progress.new
        (with_source from (S.remaining source.new) (S.payloads source.new) (map L.reads links.new))
        links.old links.new from
        (BringsNext (setup_of settings.now sender.old (length links.old)) (Stage.Reading k) result from) }
    ensures set { StaysSet sender.old sender.new }
    ensures at { IsPlace progress.new.stage }
    ensures ahead { result ≡ Err SendFault.ReadFault → S.ahead source.new ≡ [] }
    ensures cause { HasReadCause (fault_by read_fault result) (S.faults source.old) (S.faults source.new) }
    ensures waits { IsNeverReady (S.ready source.old) → LeavesUnread (S.ready source.new)
        (S.faults source.old) (S.faults source.new) progress.old.stage progress.new.stage }
{
    if progress.is_due(settings, k) {
        bring_ready(k, sender, source, links, progress)
    } else {
        Ok(())
    }
}

/// Reads and sends the next piece, where it is due and there.
pub(crate) fn bring_next<S: LiveSource, L: Link>(
    settings: &SendSettings,
    sender: &mut Sender,
    source: &mut S,
    links: &mut [L],
    progress: &mut Progress,
) -> Result<(), SendFault>
    requires gap { settings.now.gap ≤ 1000000 }
    requires at { IsPlace progress.old.stage }
    requires links { length links.old ≡ link_count sender.old.bonding }
    requires few { length links.old ≤ MAX_LINKS }
    ensures work { (from : Run)
        → IsAt sender.old progress.old
        (with_source from (S.remaining source.old) (S.payloads source.old) (map L.reads links.old)) from
        → Moves ⟦<L as TellingLink>⟧.tells
        sender.old sender.new progress.new
        (with_source from (S.remaining source.new) (S.payloads source.new) (map L.reads links.new))
        links.old links.new from
        (BringsNext (setup_of settings.now sender.old (length links.old)) from.progress.stage result from) }
    ensures set { StaysSet sender.old sender.new }
    ensures at { IsPlace progress.new.stage }
    ensures ahead { result ≡ Err SendFault.ReadFault → S.ahead source.new ≡ [] }
    ensures cause { HasReadCause (fault_by read_fault result) (S.faults source.old) (S.faults source.new) }
    ensures waits { IsNeverReady (S.ready source.old) → LeavesUnread (S.ready source.new)
        (S.faults source.old) (S.faults source.new) progress.old.stage progress.new.stage }
{
    match progress.stage {
        Stage::Reading(k) => bring_due(k, settings, sender, source, links, progress),
        Stage::Ended(_) => Ok(()),
    }
}
