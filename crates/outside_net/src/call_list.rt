//! The calls of an object in memory that are to fail.
ghost use Rattle.std.specs.Prelude.{◌≡◌, IfOk};

use outside_io::NoMemory;
use std::alloc::Global;
use std::marker::Model;

/// Calls that are to fail, by their places from 0, and how many calls were made.
#[derive(Drop)]
pub struct CallList {
    failing: Vec<u64>,
    made: u64,
}

impl Model for CallList {
    ghost use Rattle.outside_net.specs.Scripts.{CallPlaces};

    ghost Value = { CallPlaces };

    ghost view = { λ c. record { failing = c.failing.items; made = c.made } };
}

impl CallList {
    ghost use Rattle.std.specs.Prelude.{◌≡◌, IfOk};
    ghost use Rattle.outside_net.specs.Scripts.{fails_next, call_made};

    pub fn with(alloc: Global, failing: &[u64]) -> Result<CallList, NoMemory>
        ensures value { IfOk result (λ calls. calls ≡ record { failing = failing.now; made = 0 }) }
    {
        Ok(CallList {
            failing: Vec::from_slice(alloc, failing)?,
            made: 0,
        })
    }

    /// Counts a call, and says whether it is to fail.
    pub fn next_fails(&mut self) -> bool
        ensures value { result ≡ fails_next self.old }
        ensures state { self.new ≡ call_made self.old }
    {
        let call = self.made;
        self.made = call.saturating_add(1);
        self.failing.contains(&call)
    }
}
