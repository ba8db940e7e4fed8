//! Media packets: what a payload is sent as, and the datagram of a packet.
ghost use Rattle.std.specs.Prelude.{◌≡◌, ◌≤◌, ◌%◌, length, take, is_some, is_err, IfOk, OnOk, OnErr};
ghost use Rattle.rist_wire.specs.Writing.{next_pair, after_pair, is_spent};
ghost use Rattle.rist_wire.specs.Packets.{media_octets};
ghost use Rattle.rist_wire.specs.Datagrams.{IsDatagram};
ghost use Rattle.rist_wire.specs.declared.item.Kind.TheVariants as kinds;
ghost use Rattle.rist_sender.specs.Messages.{media_of};
ghost use Rattle.rist_sender.specs.Calls.{packet_for};
ghost use Rattle.rist_sender.specs.Inside.Kept.{IsSendable};

use link_channels::{Channel, MAX_DATAGRAM, MAX_PAYLOAD};
use psk_seal::Spent;
use retransmit_store::Sent;
use rist_wire::Shutter;
use ts_nulls::strip;

/// The packet that a payload is sent as at an effective time.
pub(crate) fn sent_as(nulls: bool, number: u64, time: u64, payload: &[u8]) -> Sent
    requires payload { length payload.now ≤ MAX_PAYLOAD }
    ensures value { result ≡ packet_for nulls number time payload.now }
    ensures sendable { IsSendable nulls result }
{
    let stamp = (time % (1 << 32)) as u32;
    if nulls {
        let mut kept = [0; MAX_PAYLOAD];
        if let Some((told, len)) = strip(payload, &mut kept) {
            return Sent::with(number, stamp, Some(told), &kept[..len]);
        }
    }
    Sent::with(number, stamp, None, payload)
}

/// Makes the datagram of a packet, sent again or not.
pub(crate) fn seal_packet(
    shutter: &mut Shutter,
    flow: u32,
    again: bool,
    sent: &Sent,
    out: &mut [u8; MAX_DATAGRAM],
) -> Result<(Channel, usize), Spent>
    requires paired { is_some shutter.old.sealer ≡ is_some shutter.old.session.pass }
    requires flow { flow % 2 ≡ 0 }
    requires sendable { IsSendable shutter.old.session.nulls sent.now }
    ensures datagram { IfOk result (λ made. IsDatagram shutter.old.session (next_pair shutter.old.sealer)
        kinds.Media (media_octets shutter.old.session.width (media_of flow again sent.now))
        made.0 (take made.1 out.new)) }
    ensures within { IfOk result (λ made. made.1 ≤ MAX_DATAGRAM) }
    ensures state { OnOk result (shutter.new ≡ record shutter.old { sealer = after_pair shutter.old.sealer }) }
    ensures spent { is_err result ≡ is_spent shutter.old.sealer }
    ensures same { OnErr result (shutter.new ≡ shutter.old) }
{
    shutter.media(
        flow,
        again,
        sent.number(),
        sent.stamp(),
        sent.strip(),
        sent.payload(),
        out,
    )
}
