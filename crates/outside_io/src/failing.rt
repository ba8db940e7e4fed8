//! The calls of an object in memory, some of which are to fail.
ghost use Rattle.std.specs.Prelude.{◌≡◌, ◌≤◌, ◌↔◌, IfOk, IsTrue};
ghost use Rattle.outside_io.specs.Calls.{Calls, no_calls, next_count, FailsNext};

use crate::NoMemory;
use std::alloc::Global;
use std::marker::Model;

/// Counts the calls and the faults, and says which calls are to fail.
#[derive(Drop)]
pub struct FailingCalls {
    failing: Vec<u64>,
    made: u64,
    faults: u64,
}

impl Model for FailingCalls {
    ghost Value = { Calls };

    ghost view = { λ c. record { failing = c.failing.items; made = c.made; faults = c.faults } };
}

impl FailingCalls {
    /// The calls that are to fail are listed by their places, from 0.
    pub fn with(alloc: Global, failing: &[u64]) -> Result<FailingCalls, NoMemory>
        ensures value { IfOk result (λ calls. calls ≡ no_calls failing.now) }
    {
        Ok(FailingCalls::of(Vec::from_slice(alloc, failing)?))
    }

    pub fn of(failing: Vec<u64>) -> FailingCalls
        ensures value { result ≡ no_calls failing.items }
    {
        FailingCalls {
            failing,
            made: 0,
            faults: 0,
        }
    }

    /// Counts a call, and says whether it is to fail.
    pub fn next_fails(&mut self) -> bool
        ensures value { IsTrue result ↔ FailsNext self.old }
        ensures state { self.new ≡ record self.old { made = next_count self.old.made } }
    {
        let call = self.made;
        self.made = call.saturating_add(1);
        self.failing.contains(&call)
    }

    /// Counts a fault.
    pub fn count_fault(&mut self)
        ensures state { self.new ≡ record self.old { faults = next_count self.old.faults } }
        ensures later { self.old.faults ≤ self.new.faults }
    {
        self.faults = self.faults.saturating_add(1);
    }
}
