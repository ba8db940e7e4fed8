//! What a link's datagrams are recorded to.
ghost use Rattle.std.specs.Prelude.{◌≡◌, ◌<◌, ◌≤◌, true, length};
ghost use Rattle.link_channels.specs.declared.bounds.TheConstants.{MAX_DATAGRAM, MAX_LINKS};
ghost use Rattle.recorded_link.specs.Recorded.{Keeps, Puts};

use capture_file::{Head, Writer};
use link_channels::Channel;
use outside_io::Sink;
use outside_net::Clock;
use std::marker::Model;

/// The records of a link's datagrams: each goes to a capture, at a moment of a clock, until a write fails.
#[derive(Drop)]
pub struct Recording<K: Sink, C> {
    writer: Writer<K>,
    clock: C,
    place: u8,
    goes: bool,
}

impl<K: Sink, C> Model for Recording<K, C> {
    ghost use Rattle.std.specs.Prelude.{◌≡◌, ◌<◌, true};
    ghost use Rattle.link_channels.specs.declared.bounds.TheConstants.{MAX_LINKS};
    ghost use Rattle.recorded_link.specs.Recorded.{RecordingState};

    ghost Value = { RecordingState };

    ghost view = { λ r. record { place = r.place; goes = r.goes; contents = r.writer.contents } };

    ghost invariant = { λ r. (r.writer.begun ≡ true) × (r.place < MAX_LINKS) };
}

impl<K: Sink, C: Clock> Recording<K, C> {
    /// A recording to a sink in which the capture's name stands already. Several links may write to one capture, each through a
    /// sink of its own, where a record is one write.
    pub fn onward(sink: K, clock: C, place: u8) -> Recording<K, C>
        requires among { place < MAX_LINKS }
        ensures value { result ≡ record { place = place; goes = true; contents = K.contents sink } }
    {
        Recording {
            writer: Writer::onward(sink),
            clock,
            place,
            goes: true,
        }
    }

    /// Writes the record of a datagram, at a moment of the clock, if no write failed before.
    pub fn keep(&mut self, channel: Channel, octets: &[u8])
        requires fits { length octets.now ≤ MAX_DATAGRAM }
        ensures { Keeps channel octets.now self.old self.new }
    {
        if self.goes {
            self.goes = self.put(channel, octets);
        }
    }

    /// Writes the record of a datagram. Whether that was done.
    fn put(&mut self, channel: Channel, octets: &[u8]) -> bool
        requires fits { length octets.now ≤ MAX_DATAGRAM }
        ensures puts { Puts self.old.place channel octets.now result self.old.contents self.new.contents }
        ensures place { self.new.place ≡ self.old.place }
    {
        let head = Head {
            link: self.place,
            channel,
            length: octets.len() as u16,
            us: self.clock.now(),
        };
        match self.writer.add(&head, octets) {
            Ok(()) => true,
            Err(_) => false,
        }
    }
}
