//! The RTP packets of media (RFC 3550, section 5.1).
ghost use Rattle.gre_tunnel.specs.declared.tunnel.Tunnel.{Tunnel};
ghost use Rattle.link_channels.specs.declared.bounds.TheConstants.{MAX_PAYLOAD};
ghost use Rattle.std.specs.Prelude.{◌≡◌, ◌+◌, ◌%◌, ◌≤◌, ◌<◌, Ok, Some, true, length, take, is_none};
ghost use Rattle.rist_wire.specs.declared.item.Kind.TheVariants.{Media as MediaKind};
ghost use Rattle.rist_wire.specs.declared.item.Item.TheVariants.{Media as MediaItem};
ghost use Rattle.rist_wire.specs.Media.{can_restore};
ghost use Rattle.rist_wire.specs.Messages.{item_by};
ghost use Rattle.rist_wire.specs.Writing.{media_out};
ghost use Rattle.rist_wire.specs.Packets.{upper_for, media_octets, media_value};

use link_channels::MAX_DATAGRAM;
use rist_ext::{ExtWord, RIST_PROFILE};
use rtp_packet::{RtpHead, write};
use seq_unwrap::Width;
use ts_nulls::Strip;

fn upper_for(width: Width, number: u64) -> Option<u16>
    ensures value { result ≡ upper_for width number }
{
    match width {
        Width::W16 => None,
        Width::W32 => Some((number / 65536 % 65536) as u16),
    }
}

/// Writes the RTP packet of media at the front of a block, and says how many octets it has.
pub(crate) fn put_media(
    width: Width,
    flow: u32,
    again: bool,
    number: u64,
    stamp: u32,
    strip: Option<Strip>,
    payload: &[u8],
    out: &mut [u8; MAX_DATAGRAM],
) -> usize
    requires flow { flow % 2 ≡ 0 }
    requires payload { length payload.now ≤ MAX_PAYLOAD }
    requires whole { can_restore strip payload.now ≡ true }
    ensures octets { take result out.new
        ≡ media_octets width (media_out flow again number stamp strip payload.now) }
    ensures item { (tunnel : Tunnel) → item_by tunnel MediaKind (take result out.new)
        ≡ Ok (MediaItem (media_value width (media_out flow again number stamp strip payload.now))) }
    ensures within { result ≤ 1548 }
{
    let head = RtpHead {
        number: (number % 65536) as u16,
        stamp,
        ssrc: flow + u32::from(again),
    };
    let word = ExtWord {
        strip,
        upper: upper_for(width, number),
    };
    if word.strip.is_none() && word.upper.is_none() {
        return write(&head, None, payload, out);
    }
    let octets = word.write();
    write(&head, Some((RIST_PROFILE, &octets)), payload, out)
}
