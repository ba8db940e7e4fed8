//! What datagrams come from and go to.
ghost use Rattle.std.specs.Prelude.{◌≡◌, ℕ, List, Bool, IfOk};
ghost use Rattle.std.specs.Option.{option_map};
ghost use Rattle.std.specs.declared.option.Option.{Option};
ghost use Rattle.outside_io.specs.Causes.{RoseWhere, HasCause};
ghost use Rattle.link_channels.specs.declared.channel.Channel.{Channel};
ghost use Rattle.outside_net.specs.Streams.{later, IsFirst};
ghost use Rattle.outside_net.specs.Links.{Answer, Datagram, answer_of, IsWithin, IsOver, KnowsAfter, has_read_failed};
ghost use Rattle.outside_net.specs.Links.{has_come_to_end, taken_with, IsBefore};

use crate::figures::ReceiverFigures;
use link_channels::{Channel, MAX_DATAGRAM};
use outside_io::Failed;

/// The answer to a read.
#[derive(Clone, Copy, Debug, PartialEq, Eq)]
pub enum Got {
    /// A datagram of so many octets, at the front of the block.
    Datagram(Channel, usize),
    /// None was there at this call.
    Quiet,
    /// None will come any more.
    End,
    /// The call failed.
    Failed,
}

/// Gives datagrams and takes datagrams, on channels. A datagram goes to its channel's peer, or in a tunnel of several flows
/// to that of its flow. No read waits.
pub trait Link {
    /// The answers that its reads have still to give, by the number of the read from the next one on, where it tells
    /// them.
    ghost reads: { Self → Option (ℕ → Answer) };

    /// The datagrams that it took, the oldest first, where it tells them.
    ghost taken: { Self → Option (List Datagram) };

    /// Whether the peer of a channel is known.
    ghost knows: { Self → Channel → Bool };

    /// Whether it was known before the datagram came that the last read gave.
    ghost knew: { Self → Channel → Bool };

    /// How many calls failed. It never falls.
    ghost faults: { Self → ℕ };

    /// How many reads answered that none will come any more. It never falls.
    ghost ends: { Self → ℕ };

    /// The next datagram, if there is one now, at the front of the block. Whoever sent it is its channel's peer, unless
    /// the link has a stated one, or the datagram is refused.
    fn read(&mut self, buf: &mut [u8; MAX_DATAGRAM]) -> Got
        ensures within { IsWithin result }
        ensures value { IsFirst (reads self.old) (answer_of result buf.new) }
        ensures reads { reads self.new ≡ option_map later (reads self.old) }
        // After an end no datagram is left to give.
        ensures over { IsOver (answer_of result buf.new) (reads self.new) }
        ensures peer { KnowsAfter (knows self.old) (knows self.new) result }
        ensures before { IsBefore (knows self.old) (knew self.new) result }
        ensures same { taken self.new ≡ taken self.old }
        ensures cause { RoseWhere (has_read_failed result) (faults self.old) (faults self.new) }
        ensures end { RoseWhere (has_come_to_end result) (ends self.old) (ends self.new) };

    /// Takes the datagram that the last read gave for a stranger's: the peers are again those from before it.
    fn refuse(&mut self)
        ensures peers { (c : Channel) → knows self.new c ≡ knew self.old c }
        ensures before { (c : Channel) → knew self.new c ≡ knew self.old c }
        ensures reads { reads self.new ≡ reads self.old }
        ensures taken { taken self.new ≡ taken self.old }
        ensures ends { ends self.new ≡ ends self.old }
        ensures faults { faults self.new ≡ faults self.old };

    /// Sends a datagram to the channel's peer. `false` says that none is known yet, and then nothing was taken.
    fn write(&mut self, channel: Channel, octets: &[u8]) -> Result<bool, Failed>
        ensures taken { taken self.new ≡ option_map (taken_with channel octets.now result) (taken self.old) }
        ensures peer { IfOk result (λ went. went ≡ knows self.old channel) }
        ensures same { reads self.new ≡ reads self.old }
        ensures peers { (c : Channel) → knows self.new c ≡ knows self.old c }
        ensures before { (c : Channel) → knew self.new c ≡ knew self.old c }
        ensures ends { ends self.new ≡ ends self.old }
        ensures cause { HasCause (faults self.old) (faults self.new) result };

    /// The datagram that the last read gave is for the flow at a place of its tunnel, from 0 on: who sent it is that flow's
    /// peer. A link that has one peer for all flows does nothing.
    fn assign(&mut self, flow: u8)
        ensures peers { (c : Channel) → knows self.new c ≡ knows self.old c }
        ensures before { (c : Channel) → knew self.new c ≡ knew self.old c }
        ensures reads { reads self.new ≡ reads self.old }
        ensures taken { taken self.new ≡ taken self.old }
        ensures ends { ends self.new ≡ ends self.old }
        ensures faults { faults self.new ≡ faults self.old }
    {}

    /// What is written from now on goes to the peer of the flow at a place, where a datagram was assigned to it, and else to
    /// its channel's peer.
    fn address(&mut self, flow: u8)
        ensures peers { (c : Channel) → knows self.new c ≡ knows self.old c }
        ensures before { (c : Channel) → knew self.new c ≡ knew self.old c }
        ensures reads { reads self.new ≡ reads self.old }
        ensures taken { taken self.new ≡ taken self.old }
        ensures ends { ends self.new ≡ ends self.old }
        ensures faults { faults self.new ≡ faults self.old }
    {}

    /// Whether it wants to be told the figures of the receiver at a moment in microseconds.
    fn wants(&self, us: u64) -> bool {
        false
    }

    /// Is told the figures of the receiver of the flow at a place, from 0 on, at a moment in microseconds. It is no read and no
    /// write.
    fn tell(&mut self, us: u64, flow: u8, figures: &ReceiverFigures)
        ensures peers { (c : Channel) → knows self.new c ≡ knows self.old c }
        ensures before { (c : Channel) → knew self.new c ≡ knew self.old c }
        ensures reads { reads self.new ≡ reads self.old }
        ensures taken { taken self.new ≡ taken self.old }
        ensures ends { ends self.new ≡ ends self.old }
        ensures faults { faults self.new ≡ faults self.old }
    {}

    /// Waits until a datagram is there, for so many milliseconds at most, where the link can wait. It is no read.
    fn rest(&self, limit: u8) {}
}
