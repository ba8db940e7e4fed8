//! All datagrams that were ever put on a link, one way.
ghost use Rattle.std.specs.Prelude.{◌≡◌, ◌≤◌, ◌++◌, ◌∷◌, ◌==◌, not, [], length, take, IfOk, IfSome, OnErr, option_map, slice_get};
ghost use Rattle.link_channels.specs.declared.bounds.TheConstants.{MAX_DATAGRAM};

use link_channels::{Channel, MAX_DATAGRAM};
use outside_io::{Failed, NoMemory, copy_front};
use outside_net::{Got, Link, Octets};
use std::alloc::Global;
use std::marker::Model;

/// A datagram that was put.
#[derive(Drop)]
pub(crate) struct Put {
    channel: Channel,
    octets: Octets,
}

impl Model for Put {
    ghost use Rattle.link_channels.specs.declared.bounds.TheConstants.{MAX_DATAGRAM};
    ghost use Rattle.std.specs.Prelude.{◌≤◌, length};
    ghost use Rattle.outside_net.specs.Links.{Datagram};

    ghost Value = { Datagram };

    ghost view = { λ p. record { channel = p.channel; octets = p.octets } };

    ghost invariant = { λ p. length p.octets ≤ MAX_DATAGRAM };
}

/// A link that keeps each datagram which is written, and gives none by itself: what comes out of it is taken by its
/// place. Each channel's peer is known. A write fails where memory is short, and only there.
#[derive(Drop)]
pub(crate) struct Wire {
    alloc: Global,
    put: Vec<Put>,
    faults: u64,
}

impl Model for Wire {
    ghost use Rattle.rist_world.specs.World.{WireState};

    ghost Value = { WireState };

    ghost view = { λ w. record { put = w.put.items; faults = w.faults } };
}

impl Wire {
    /// A link on which nothing was put yet.
    pub(crate) fn with(alloc: Global) -> Wire
        ensures value { result ≡ record { put = []; faults = 0 } }
    {
        Wire {
            alloc,
            put: Vec::new(alloc),
            faults: 0,
        }
    }

    /// Puts a datagram behind the others.
    pub(crate) fn put(&mut self, channel: Channel, octets: &[u8]) -> Result<(), NoMemory>
        ensures value { IfOk result (λ done. self.new ≡ record self.old {
          put = self.old.put ++ record { channel = channel; octets = octets.now } ∷ [];
        }) }
        ensures same { OnErr result (self.new ≡ self.old) }
    {
        if octets.len() > MAX_DATAGRAM {
            return Err(NoMemory);
        }
        let octets = Octets::of(self.alloc, octets)?;
        match self.put.push(Put { channel, octets }) {
            Ok(()) => Ok(()),
            Err(_) => Err(NoMemory),
        }
    }

    /// Copies the datagram at a place, from 0, into the front of the block, if it is there.
    pub(crate) fn at(&self, place: u64, block: &mut [u8; MAX_DATAGRAM]) -> Option<(Channel, usize)>
        ensures value { option_map (λ d. record { channel = d.0; octets = take d.1 block.new }) result
            ≡ slice_get self.now.put place }
        ensures within { IfSome result (λ d. d.1 ≤ MAX_DATAGRAM) }
    {
        let Ok(place) = usize::try_from(place) else {
            return None;
        };
        match self.put.get(place) {
            Some(put) => Some((put.channel, copy_front(put.octets.as_slice(), block))),
            None => None,
        }
    }

    /// How many datagrams were put.
    pub(crate) fn len(&self) -> usize
        ensures value { result ≡ length self.now.put }
    {
        self.put.len()
    }

    /// Whether a write has failed.
    pub(crate) fn failed(&self) -> bool
        ensures value { result ≡ not (self.now.faults == 0) }
    {
        self.faults != 0
    }
}

impl Link for Wire {
    ghost use Rattle.std.specs.Prelude.{Some, true};
    ghost use Rattle.outside_net.specs.Links.{Quiet};

    // Nothing comes by itself.
    ghost reads = { λ wire. Some (λ k. Quiet) };

    ghost taken = { λ wire. Some wire.put };

    ghost knows = { λ wire channel. true };

    ghost knew = { λ wire channel. true };

    ghost faults = { λ wire. wire.faults };

    ghost ends = { λ wire. 0 };

    fn read(&mut self, _buf: &mut [u8; MAX_DATAGRAM]) -> Got {
        Got::Quiet
    }

    fn refuse(&mut self) {}

    fn write(&mut self, channel: Channel, octets: &[u8]) -> Result<bool, Failed> {
        match self.put(channel, octets) {
            Ok(()) => Ok(true),
            Err(_) => {
                self.faults = self.faults.saturating_add(1);
                Err(Failed)
            }
        }
    }
}
