//! A source in memory that gives as many octets as are asked for.
ghost use Rattle.std.specs.Prelude.{◌≡◌, ◌≤◌, ◌<◌, ◌-◌, ◌+◌, ◌++◌, length, min, take, drop, Some, IfOk, OnOk, OnErr};
ghost use Rattle.std.specs.Io.{ReadsAtMost};
ghost use Rattle.outside_io.specs.Calls.{no_calls, FailsNext, call_done, call_failed};
ghost use Rattle.outside_io.specs.Causes.{HasCause};
ghost use Rattle.outside_io.specs.Memory.{MemorySource};
ghost use Rattle.outside_io.specs.Told.{Takes, IsEmpty};

use crate::failing::FailingCalls;
use crate::{Failed, NoMemory, Source, copy_front};
use std::alloc::Global;
use std::marker::Model;

/// A source that gives these octets, as many as are asked for.
#[derive(Drop)]
pub struct Bytes {
    octets: Vec<u8>,
    at: usize,
    calls: FailingCalls,
}

impl Model for Bytes {
    ghost Value = { MemorySource };

    ghost view = { λ s. record { remaining = drop s.at s.octets.items; calls = s.calls } };

    ghost invariant = { λ s. s.at ≤ length s.octets.items };
}

impl Bytes {
    /// The calls that are to fail are listed by their places, from 0.
    pub fn with(alloc: Global, octets: &[u8], failing: &[u64]) -> Result<Bytes, NoMemory>
        ensures value { IfOk result (λ source. source
            ≡ record { remaining = octets.now; calls = no_calls failing.now }) }
    {
        Ok(Bytes {
            octets: Vec::from_slice(alloc, octets)?,
            at: 0,
            calls: FailingCalls::with(alloc, failing)?,
        })
    }
}

// Gives the octets from a place on, as many as fit and none past the end.
pub(crate) fn give(octets: &[u8], at: usize, end: usize, buf: &mut [u8]) -> usize
    requires order { at ≤ end }
    requires inside { end ≤ length octets.now }
    ensures count { result ≡ min (length buf.old) (end - at) }
    ensures given { drop at octets.now ≡ take result buf.new ++ drop (at + result) octets.now }
    ensures size { length buf.new ≡ length buf.old }
{
    copy_front(&octets[at..end], buf)
}

impl Source for Bytes {
    ghost remaining = { λ source. Some source.remaining };

    ghost faults = { λ source. source.calls.faults };

    fn read(&mut self, buf: &mut [u8]) -> Result<usize, Failed>
        ensures within { ReadsAtMost result buf.new }
        ensures ok { IfOk result (λ count.
            Takes (Some self.old.remaining) (Some self.new.remaining) (take count buf.new)) }
        ensures end { IfOk result (λ count. count ≡ 0 → 0 < length buf.new
            → IsEmpty (Some self.new.remaining)) }
        ensures err { OnErr result (Some self.new.remaining ≡ Some self.old.remaining) }
        ensures cause { HasCause self.old.calls.faults self.new.calls.faults result }
        // It gives all that fits.
        ensures count { IfOk result (λ count. count ≡ min (length buf.old) (length self.old.remaining)) }
        ensures state { IfOk result (λ count. self.new
            ≡ record { remaining = drop count self.old.remaining; calls = call_done self.old.calls }) }
        ensures same { OnErr result (self.new ≡ record self.old { calls = call_failed self.old.calls }) }
        // It fails exactly where the call is to fail.
        ensures refused { OnErr result (FailsNext self.old.calls) }
        ensures complete { OnOk result (FailsNext self.old.calls → ⊥) }
    {
        if self.calls.next_fails() {
            self.calls.count_fault();
            return Err(Failed);
        }
        let count = give(&self.octets, self.at, self.octets.len(), buf);
        self.at += count;
        Ok(count)
    }
}
