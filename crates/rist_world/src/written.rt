//! What a receiver writes, in memory.
ghost use Rattle.std.specs.Prelude.{◌≡◌, ◌++◌, [], Some, OnOk, OnErr};
ghost use Rattle.outside_io.specs.Causes.{HasCause};
ghost use Rattle.outside_io.specs.Told.{Appends, AppendsPart};

use outside_io::{Failed, Sink};
use std::alloc::Global;
use std::marker::Model;

/// A sink that keeps all octets. A write fails where memory is short, and only there.
#[derive(Drop)]
pub(crate) struct Written {
    octets: Vec<u8>,
    faults: u64,
}

impl Model for Written {
    ghost use Rattle.rist_world.specs.World.{WrittenState};

    ghost Value = { WrittenState };

    ghost view = { λ w. record { octets = w.octets.items; faults = w.faults } };
}

impl Written {
    /// Nothing was written yet.
    pub(crate) fn with(alloc: Global) -> Written
        ensures value { result ≡ record { octets = []; faults = 0 } }
    {
        Written {
            octets: Vec::new(alloc),
            faults: 0,
        }
    }

    /// What was written.
    pub(crate) fn octets(&self) -> &[u8]
        ensures value { result.now ≡ self.now.octets }
    {
        &self.octets
    }
}

impl Sink for Written {
    ghost contents = { λ sink. Some sink.octets };

    ghost faults = { λ sink. sink.faults };

    fn put(&mut self, piece: &[u8]) -> Result<(), Failed> {
        if self.octets.extend_from_slice(piece).is_err() {
            self.faults = self.faults.saturating_add(1);
            return Err(Failed);
        }
        Ok(())
    }
}
