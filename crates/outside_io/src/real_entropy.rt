//! The system's random source. What it gives is not told: the trusted edge of the system.
ghost use Rattle.std.specs.Prelude.{◌≡◌, None, IfOk};
ghost use Rattle.std.specs.Int.{w32, from_be_bytes};
ghost use Rattle.outside_io.specs.Causes.{has_failed};

use crate::{Entropy, Failed};
use std::io;
use std::random::RandomSource;

/// The system's random source, with a count of its faults.
#[derive(Drop)]
pub struct RealEntropy<'a, R> {
    rt: &'a R,
    faults: u64,
}

impl<'a, R> RealEntropy<'a, R> {
    ghost use Rattle.std.specs.Prelude.{◌≡◌};

    /// A source of which no call has failed.
    pub fn new(rt: &'a R) -> RealEntropy<'a, R>
        ensures fresh { result.faults ≡ 0 }
    {
        RealEntropy { rt, faults: 0 }
    }
}

impl<'a, R: RandomSource> Entropy for RealEntropy<'a, R> {
    ghost remaining = { λ _. None };

    ghost faults = { λ entropy. entropy.faults };

    fn word(&mut self) -> Result<u32, Failed> {
        let mut octets = [0; 4];
        let filled = self.rt.fill_bytes(&mut octets);
        let word = word_of(filled, octets);
        if word.is_err() {
            self.faults = self.faults.saturating_add(1);
        }
        word
    }
}

/// The word of four octets, where they were filled.
fn word_of(filled: io::Result<()>, octets: [u8; 4]) -> Result<u32, Failed>
    ensures value { IfOk result (λ word. word ≡ from_be_bytes w32 octets) }
    ensures failed { has_failed result ≡ has_failed filled }
{
    match filled {
        Ok(()) => Ok(u32::from_be_bytes(octets)),
        Err(_) => Err(Failed),
    }
}
