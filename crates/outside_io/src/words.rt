//! Random words in memory.
ghost use Rattle.std.specs.Prelude.{◌≡◌, ◌≤◌, ◌⊎◌, [], ◌∷◌, length, drop, Some, IfOk, OnOk, OnErr};
ghost use Rattle.outside_io.specs.Calls.{no_calls, FailsNext, CountsCall};
ghost use Rattle.outside_io.specs.Causes.{HasCause};
ghost use Rattle.outside_io.specs.Memory.{MemoryWords};
ghost use Rattle.outside_io.specs.Told.{Takes};

use crate::failing::FailingCalls;
use crate::{Entropy, Failed, NoMemory};
use std::alloc::Global;
use std::marker::Model;

/// Gives these words. Past the last of them a call fails.
#[derive(Drop)]
pub struct Words {
    words: Vec<u32>,
    at: usize,
    calls: FailingCalls,
}

impl Model for Words {
    ghost Value = { MemoryWords };

    ghost view = { λ w. record { remaining = drop w.at w.words.items; calls = w.calls } };

    ghost invariant = { λ w. w.at ≤ length w.words.items };
}

impl Words {
    /// The calls that are to fail are listed by their places, from 0.
    pub fn with(alloc: Global, words: &[u32], failing: &[u64]) -> Result<Words, NoMemory>
        ensures value { IfOk result (λ given. given
            ≡ record { remaining = words.now; calls = no_calls failing.now }) }
    {
        Ok(Words {
            words: Vec::from_slice(alloc, words)?,
            at: 0,
            calls: FailingCalls::with(alloc, failing)?,
        })
    }
}

impl Entropy for Words {
    ghost remaining = { λ words. Some words.remaining };

    ghost faults = { λ words. words.calls.faults };

    fn word(&mut self) -> Result<u32, Failed>
        ensures ok { IfOk result (λ word. Takes (Some self.old.remaining) (Some self.new.remaining) (word ∷ [])) }
        ensures err { OnErr result (Some self.new.remaining ≡ Some self.old.remaining) }
        ensures cause { HasCause self.old.calls.faults self.new.calls.faults result }
        ensures calls { CountsCall self.old.calls self.new.calls result }
        // It fails exactly where the call is to fail or no word remains.
        ensures refused { OnErr result (FailsNext self.old.calls ⊎ (self.old.remaining ≡ [])) }
        ensures complete { OnOk result (FailsNext self.old.calls → ⊥) }
    {
        if self.calls.next_fails() || self.at == self.words.len() {
            self.calls.count_fault();
            return Err(Failed);
        }
        let word = self.words[self.at];
        self.at += 1;
        Ok(word)
    }
}
