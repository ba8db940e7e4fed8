//! A clock in memory.
ghost use Rattle.std.specs.Prelude.{◌≡◌, IfOk};

use crate::Clock;
use outside_io::NoMemory;
use std::alloc::Global;
use std::marker::Model;

/// Gives these moments, and then the last one again and again; 0 where there is none.
#[derive(Drop)]
pub struct ScriptClock {
    list: Vec<u64>,
    at: usize,
}

impl Model for ScriptClock {
    ghost use Rattle.std.specs.Prelude.{◌≡◌, ◌≤◌, ◌<◌, ◌⊎◌, ℕ, List, length, drop};

    ghost Value = { List ℕ };

    ghost view = { λ c. drop c.at c.list.items };

    ghost invariant = { λ c. (c.at ≡ 0) ⊎ (c.at < length c.list.items) };
}

impl ScriptClock {
    pub fn with(alloc: Global, moments: &[u64]) -> Result<ScriptClock, NoMemory>
        ensures value { IfOk result (λ clock. clock ≡ moments.now) }
    {
        Ok(ScriptClock {
            list: Vec::from_slice(alloc, moments)?,
            at: 0,
        })
    }
}

impl Clock for ScriptClock {
    ghost use Rattle.std.specs.Prelude.{Some};
    ghost use Rattle.outside_net.specs.Scripts.{moments_of};

    ghost moments = { λ clock. Some (moments_of clock) };

    fn now(&mut self) -> u64 {
        let at = self.at;
        if at + 1 < self.list.len() {
            self.at = at + 1;
        }
        if at < self.list.len() {
            self.list[at]
        } else {
            0
        }
    }
}
