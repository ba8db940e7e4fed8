//! A link whose datagrams are recorded.
ghost use Rattle.std.specs.Prelude.{◌≡◌, ◌≤◌, length};
ghost use Rattle.std.specs.Option.{option_map};
ghost use Rattle.link_channels.specs.declared.bounds.TheConstants.{MAX_DATAGRAM};
ghost use Rattle.outside_io.specs.Causes.{RoseWhere};
ghost use Rattle.outside_net.specs.Links.{IsWithin, IsOver, KnowsAfter, IsBefore, answer_of, has_come_to_end, has_read_failed};
ghost use Rattle.outside_net.specs.Streams.{IsFirst, later};
ghost use Rattle.recorded_link.specs.Recorded.{IsRecorded, KeepsWhere};

use crate::Recording;
use link_channels::{Channel, MAX_DATAGRAM};
use outside_io::{Failed, Sink};
use outside_net::{Clock, Got, Link, ReceiverFigures};

/// A link; what its reads give is recorded too, where a recording is. A recording that ends doesn't end the link. To whoever
/// reads and writes it, it is the link behind.
#[derive(Drop)]
pub struct Recorded<L, K: Sink, C> {
    pub link: L,
    pub recording: Option<Recording<K, C>>,
}

impl<L: Link, K: Sink, C: Clock> Recorded<L, K, C> {
    /// Records a datagram, where a recording is.
    fn keep(&mut self, channel: Channel, octets: &[u8])
        requires fits { length octets.now ≤ MAX_DATAGRAM }
        ensures link { self.new.link ≡ self.old.link }
        ensures keeps { KeepsWhere channel octets.now self.old.recording self.new.recording }
    {
        if let Some(recording) = &mut self.recording {
            recording.keep(channel, octets);
        }
    }
}

impl<L: Link, K: Sink, C: Clock> Link for Recorded<L, K, C> {
    ghost reads = { λ recorded. L.reads recorded.link };

    ghost taken = { λ recorded. L.taken recorded.link };

    ghost knows = { λ recorded. L.knows recorded.link };

    ghost knew = { λ recorded. L.knew recorded.link };

    ghost faults = { λ recorded. L.faults recorded.link };

    ghost ends = { λ recorded. L.ends recorded.link };

    /// Reads the link behind, and records what it gives.
    fn read(&mut self, buf: &mut [u8; MAX_DATAGRAM]) -> Got
        ensures within { IsWithin result }
        ensures value { IsFirst (L.reads self.old.link) (answer_of result buf.new) }
        ensures reads { L.reads self.new.link ≡ option_map later (L.reads self.old.link) }
        ensures over { IsOver (answer_of result buf.new) (L.reads self.new.link) }
        ensures peer { KnowsAfter (L.knows self.old.link) (L.knows self.new.link) result }
        ensures before { IsBefore (L.knows self.old.link) (L.knew self.new.link) result }
        ensures same { L.taken self.new.link ≡ L.taken self.old.link }
        ensures cause { RoseWhere (has_read_failed result) (L.faults self.old.link) (L.faults self.new.link) }
        ensures end { RoseWhere (has_come_to_end result) (L.ends self.old.link) (L.ends self.new.link) }
        // A read that gave a datagram has put its record, where the recording goes on; one that gave none has put nothing.
        ensures recorded { IsRecorded result buf.new self.old.recording self.new.recording }
    {
        let got = self.link.read(buf);
        if let Got::Datagram(channel, count) = got {
            self.keep(channel, &buf[..count]);
        }
        got
    }

    fn refuse(&mut self) {
        self.link.refuse();
    }

    fn write(&mut self, channel: Channel, octets: &[u8]) -> Result<bool, Failed> {
        self.link.write(channel, octets)
    }

    fn assign(&mut self, flow: u8) {
        self.link.assign(flow);
    }

    fn address(&mut self, flow: u8) {
        self.link.address(flow);
    }

    fn wants(&self, us: u64) -> bool {
        self.link.wants(us)
    }

    fn tell(&mut self, us: u64, flow: u8, figures: &ReceiverFigures) {
        self.link.tell(us, flow, figures);
    }

    fn rest(&self, limit: u8) {
        self.link.rest(limit);
    }
}
