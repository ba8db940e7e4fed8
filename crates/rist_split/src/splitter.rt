//! The receivers of several flows as a visitor of a capture's records.
ghost use Rattle.std.specs.Prelude.{◌≡◌, length, vec_len};
ghost use Rattle.rist_wire.specs.Among.{ArePorts};
ghost use Rattle.rist_fan.specs.Fan.{flows_in};

use crate::finding::{item_of, place_of};
use crate::start::Start;
use capture_file::Head;
use capture_walk::{VisitBad, Visitor};
use link_channels::MAX_PAYLOAD;
use outside_io::{Failed, Sink};
use rist_ends::{Told, what_of};
use rist_fan::{Came, Fan};
use rist_wire::Opener;
use std::marker::PhantomData;

/// Opens a tunnel's datagrams, and tells their items to the receivers of the ports.
#[derive(Drop)]
pub(crate) struct Splitter<'a, B: Start, K: Sink + Drop> {
    pub(crate) opener: Opener,
    pub(crate) ports: &'a [u16],
    pub(crate) fan: Fan<K>,
    pub(crate) came: Vec<Came>,
    /// Where a payload is put whose null packets were deleted.
    pub(crate) block: [u8; MAX_PAYLOAD],
    pub(crate) of: PhantomData<B>,
    ghost are_ports: { ArePorts ports.now },
    ghost room: { vec_len came ≡ length (flows_in fan) },
}

impl<'a, B: Start, K: Sink + Drop> Visitor for Splitter<'a, B, K> {
    ghost use Rattle.std.specs.Prelude.{[], false};
    ghost use Rattle.rist_split.specs.Inside.Splitting.{HasSplit};

    ghost so_far = { λ s rs. [] };

    ghost whole = { λ s rs. [] };

    ghost has_seen = { λ s rs. HasSplit K.contents K.faults B.start s.opener s.ports.now (flows_in s.fan) rs };

    ghost has_ended = { λ s rs. HasSplit K.contents K.faults B.start s.opener s.ports.now (flows_in s.fan) rs };

    ghost wants_memory = { false };

    fn record<L: Sink>(
        &mut self,
        head: &Head,
        octets: &mut [u8],
        _sink: &mut L,
    ) -> Result<(), VisitBad> {
        let found = self.opener.take_any(self.ports, head.channel, octets);
        let place = place_of(&found);
        let item = item_of(found);
        let told = Told {
            link: head.link,
            us: head.us,
            what: what_of(&item, &mut self.block),
        };
        self.fan.step(place, &told, &mut self.came);
        Ok(())
    }

    // The end is told when the walk is over.
    fn finish<L: Sink>(&mut self, _sink: &mut L) -> Result<(), Failed> {
        Ok(())
    }
}
