//! A receiver whose counts are written at the end, as a visitor of a capture's records.
use crate::Replayer;
use crate::text::{TEXT_LEN, put_text};
use capture_file::Head;
use capture_walk::{VisitBad, Visitor};
use outside_io::{Failed, Nowhere, Sink};

/// Steps the items of records on a receiver whose payloads nobody wants, and writes its counts at the end.
#[derive(Drop)]
pub struct Counter {
    /// The receiver with its session.
    pub replayer: Replayer,
}

impl Visitor for Counter {
    ghost use Rattle.std.specs.Prelude.{[], false};
    ghost use Rattle.rist_replay.specs.Replay.{HasReplayed};
    ghost use Rattle.rist_replay.specs.Counted.{counted};

    ghost so_far = { λ c rs. [] };

    ghost whole = { λ c. counted c.replayer.opener c.replayer.receiver.buffer.limits };

    ghost has_seen = { λ c rs. HasReplayed c.replayer.opener c.replayer.receiver rs };

    ghost has_ended = { λ _ rs. Unit {0} };

    ghost wants_memory = { false };

    fn record<K: Sink>(
        &mut self,
        head: &Head,
        octets: &mut [u8],
        _sink: &mut K,
    ) -> Result<(), VisitBad> {
        self.replayer.record(head, octets, &mut Nowhere)
    }

    fn finish<K: Sink>(&mut self, sink: &mut K) -> Result<(), Failed> {
        let mut text = [0; TEXT_LEN];
        let end = put_text(&self.replayer.receiver.counts(), &mut text);
        sink.put(&text[..end])
    }
}
