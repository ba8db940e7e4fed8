//! The datagram that a piece is sent in.
ghost use Rattle.std.specs.Prelude.{◌≡◌, ◌≤◌, ◌<◌, ◌%◌, ◌^◌, true, length, take, is_some, IsSome};
ghost use Rattle.rist_wire.specs.Media.{can_restore};
ghost use Rattle.rist_wire.specs.Writing.{next_pair, after_pair};
ghost use Rattle.rist_wire.specs.Sent.{media_channel, media_datagram};
ghost use Rattle.rist_pack.specs.Capture.{time_of, stamp_of, media_with, piece_octets, HasGiven};

use crate::PackSettings;
use link_channels::{Channel, MAX_DATAGRAM, MAX_PAYLOAD};
use receiver_rules::tick_of;
use rist_wire::Shutter;
use ts_nulls::{Strip, strip};

// The time of piece k, in microseconds from the first.
pub(crate) fn time_of(settings: &PackSettings, k: u64) -> u64
    requires place { k < 2 ^ 32 }
    requires gap { settings.now.gap ≤ 1000000 }
    ensures value { result ≡ time_of settings.now k }
{
    k * settings.gap
}

fn stamp_of(settings: &PackSettings, k: u64) -> u32
    requires place { k < 2 ^ 32 }
    requires gap { settings.now.gap ≤ 1000000 }
    ensures value { result ≡ stamp_of settings.now k }
{
    (tick_of(time_of(settings, k)) % (1 << 32)) as u32
}

// Writes the datagram of what is sent of piece k to the front of a block.
fn put_sent(
    shutter: &mut Shutter,
    settings: &PackSettings,
    k: u64,
    strip: Option<Strip>,
    payload: &[u8],
    block: &mut [u8; MAX_DATAGRAM],
) -> (Channel, usize)
    requires paired { is_some shutter.old.sealer ≡ is_some shutter.old.session.pass }
    requires given { HasGiven k shutter.old.sealer }
    requires flow { settings.now.flow % 2 ≡ 0 }
    requires place { k < 2 ^ 32 }
    requires gap { settings.now.gap ≤ 1000000 }
    requires payload { length payload.now ≤ MAX_PAYLOAD }
    requires strip { IsSome strip → shutter.old.session.nulls ≡ true }
    requires whole { can_restore strip payload.now ≡ true }
    ensures channel { result.0 ≡ media_channel shutter.old.session }
    ensures octets { take result.1 block.new
        ≡ media_datagram shutter.old.session (next_pair shutter.old.sealer)
        (media_with settings.now k (record { strip = strip; payload = payload.now })) }
    ensures state { shutter.new ≡ record shutter.old { sealer = after_pair shutter.old.sealer } }
    ensures within { result.1 ≤ MAX_DATAGRAM }
{
    let number = settings.first as u64 + k;
    let stamp = stamp_of(settings, k);
    match shutter.media(settings.flow, false, number, stamp, strip, payload, block) {
        Ok(sent) => sent,
        Err(_) => unreachable!(),
    }
}

// Writes the datagram of piece k to the front of a block, and says on which channel it goes and how many octets it
// has. Null packets are deleted from it where the session deletes them.
#[tactic(auto, unfolding(crate::specs::Capture::piece_octets))]
pub(crate) fn put_piece(
    shutter: &mut Shutter,
    nulls: bool,
    settings: &PackSettings,
    k: u64,
    piece: &[u8],
    block: &mut [u8; MAX_DATAGRAM],
) -> (Channel, usize)
    requires paired { is_some shutter.old.sealer ≡ is_some shutter.old.session.pass }
    requires given { HasGiven k shutter.old.sealer }
    requires nulls { nulls ≡ shutter.old.session.nulls }
    requires flow { settings.now.flow % 2 ≡ 0 }
    requires place { k < 2 ^ 32 }
    requires gap { settings.now.gap ≤ 1000000 }
    requires piece { length piece.now ≤ 1316 }
    ensures channel { result.0 ≡ media_channel shutter.old.session }
    ensures octets { take result.1 block.new
        ≡ piece_octets shutter.old.session (next_pair shutter.old.sealer) settings.now k piece.now }
    ensures state { shutter.new ≡ record shutter.old { sealer = after_pair shutter.old.sealer } }
    ensures within { result.1 ≤ MAX_DATAGRAM }
{
    let mut kept = [0; MAX_PAYLOAD];
    if nulls {
        if let Some((told, len)) = strip(piece, &mut kept) {
            return put_sent(shutter, settings, k, Some(told), &kept[..len], block);
        }
    }
    put_sent(shutter, settings, k, None, piece, block)
}
