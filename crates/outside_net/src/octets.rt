//! The octets of a datagram in memory.
ghost use Rattle.std.specs.Prelude.{◌≡◌, IfOk};

use outside_io::NoMemory;
use std::alloc::Global;
use std::marker::Model;

/// Some octets, seen as a list.
#[derive(Drop)]
pub struct Octets {
    octets: Vec<u8>,
}

impl Model for Octets {
    ghost use Rattle.std.specs.Prelude.{ℕ, List};

    ghost Value = { List ℕ };

    ghost view = { λ o. o.octets.items };
}

impl Octets {
    pub fn of(alloc: Global, octets: &[u8]) -> Result<Octets, NoMemory>
        ensures value { IfOk result (λ copy. copy ≡ octets.now) }
    {
        Ok(Octets {
            octets: Vec::from_slice(alloc, octets)?,
        })
    }

    pub fn as_slice(&self) -> &[u8]
        ensures value { result.now ≡ self.now }
    {
        &self.octets
    }
}
