//! One datagram: it is made under the sealer's next pair, and written on a link.

ghost use Rattle.link_channels.specs.declared.bounds.TheConstants.{MAX_LINKS};

use crate::answer::Answer;
use crate::media::seal_packet;
use crate::on_link::write_on;
use crate::sender::Sender;
use link_channels::{Channel, MAX_DATAGRAM};
use outside_net::Link;
use psk_seal::Spent;
use retransmit_store::Sent;

impl Sender {
    ghost use Rattle.std.specs.Prelude.{◌≡◌, ◌≤◌, ◌<◌, length, is_err, take, IsSome, Some, true, false, IfOk, OnOk};
    ghost use Rattle.std.specs.Prelude.{OnErr};
    ghost use Rattle.rist_wire.specs.Writing.{next_pair, after_pair, is_spent};
    ghost use Rattle.rist_wire.specs.Datagrams.{IsDatagram};
    ghost use Rattle.rist_wire.specs.declared.item.Kind.TheVariants as kinds;
    ghost use Rattle.keepalive_msg.specs.Keepalive.{spelling as keepalive_spelling};
    ghost use Rattle.keepalive_msg.specs.Writing.{message_of as keepalive_of};
    ghost use Rattle.rist_sender.specs.Sender.{has_keepalives};
    ghost use Rattle.rist_sender.specs.Links.{WritesOn};
    ghost use Rattle.rist_sender.specs.Inside.Kept.{down_with, IsSendable};
    ghost use Rattle.rist_sender.specs.Messages.{media_of};
    ghost use Rattle.rist_wire.specs.Packets.{media_octets};
    ghost use Rattle.sender_rules.specs.Sendings.{Packet};
    ghost use Rattle.sender_rules.specs.Stored.{packet_with};
    ghost use Rattle.retransmit_store.specs.State.{packets_in};

    /// Makes the datagram of a compound.
    pub(crate) fn seal_control(
        &mut self,
        compound: &[u8],
        out: &mut [u8; MAX_DATAGRAM],
    ) -> Result<(Channel, usize), Spent>
        requires compound { length compound.now ≤ 1400 }
        ensures datagram { IfOk result (λ sent. IsDatagram self.old.session (next_pair self.old.sealer)
            kinds.Control compound.now sent.0 (take sent.1 out.new)) }
        ensures within { IfOk result (λ sent. sent.1 ≤ MAX_DATAGRAM) }
        ensures state { OnOk result (self.new ≡ record self.old { sealer = after_pair self.old.sealer }) }
        ensures spent { is_err result ≡ is_spent self.old.sealer }
        ensures same { OnErr result (self.new ≡ self.old) }
    {
        self.shutter.control(compound, out)
    }

    /// Makes the datagram of a keepalive.
    pub(crate) fn seal_keepalive(
        &mut self,
        out: &mut [u8; MAX_DATAGRAM],
    ) -> Result<(Channel, usize), Spent>
        requires main { has_keepalives self.old.session.profile ≡ true }
        ensures datagram { IfOk result (λ sent. IsDatagram self.old.session (next_pair self.old.sealer)
            kinds.Keepalive (keepalive_spelling (keepalive_of self.old.flow)) sent.0 (take sent.1 out.new)) }
        ensures within { IfOk result (λ sent. sent.1 ≤ MAX_DATAGRAM) }
        ensures state { OnOk result (self.new ≡ record self.old { sealer = after_pair self.old.sealer }) }
        ensures spent { is_err result ≡ is_spent self.old.sealer }
        ensures same { OnErr result (self.new ≡ self.old) }
    {
        self.shutter.keepalive(self.flow, out)
    }

    /// Makes the datagram of a packet that is sent for the first time.
    pub(crate) fn seal_first(
        &mut self,
        sent: &Sent,
        out: &mut [u8; MAX_DATAGRAM],
    ) -> Result<(Channel, usize), Spent>
        requires sendable { IsSendable self.old.session.nulls sent.now }
        ensures datagram { IfOk result (λ made. IsDatagram self.old.session (next_pair self.old.sealer) kinds.Media
            (media_octets self.old.session.width (media_of self.old.flow false sent.now))
            made.0 (take made.1 out.new)) }
        ensures within { IfOk result (λ made. made.1 ≤ MAX_DATAGRAM) }
        ensures state { OnOk result (self.new ≡ record self.old { sealer = after_pair self.old.sealer }) }
        ensures spent { is_err result ≡ is_spent self.old.sealer }
        ensures same { OnErr result (self.new ≡ self.old) }
    {
        seal_packet(&mut self.shutter, self.flow, false, sent, out)
    }

    /// Makes the datagram of a stored packet that is sent again.
    pub(crate) fn seal_again(
        &mut self,
        number: u64,
        out: &mut [u8; MAX_DATAGRAM],
    ) -> Result<(Channel, usize), Spent>
        requires stored { IsSome (packet_with (packets_in self.old.store) number) }
        ensures datagram { (packet : Packet) → packet_with (packets_in self.old.store) number ≡ Some packet
            → IfOk result (λ made. IsDatagram self.old.session (next_pair self.old.sealer) kinds.Media
            (media_octets self.old.session.width (media_of self.old.flow true packet)) made.0 (take made.1 out.new)) }
        ensures within { IfOk result (λ made. made.1 ≤ MAX_DATAGRAM) }
        ensures state { OnOk result (self.new ≡ record self.old { sealer = after_pair self.old.sealer }) }
        ensures spent { is_err result ≡ is_spent self.old.sealer }
        ensures same { OnErr result (self.new ≡ self.old) }
    {
        match self.store.copy(number) {
            Some(sent) => seal_packet(&mut self.shutter, self.flow, true, sent, out),
            None => unreachable!(),
        }
    }

    /// Writes a datagram on a link, which is down from then on where the write fails.
    pub(crate) fn write<L: Link>(
        &mut self,
        links: &mut [L],
        link: u8,
        channel: Channel,
        octets: &[u8],
    ) -> Answer
        requires among { link < length links.old }
        requires few { link < MAX_LINKS }
        ensures writes { WritesOn (record {
          taken = L.taken;
          knows = L.knows;
          faults = L.faults;
          reads = L.reads;
          ends = L.ends;
        }) link (record { channel = channel; octets = octets.now; answer = result }) links.old links.new }
        ensures state { self.new ≡ record self.old { down = down_with link result self.old.down } }
    {
        let answer = write_on(links, link, channel, octets);
        if answer == Answer::Failed {
            self.down[usize::from(link)] = true;
        }
        answer
    }
}
