//! A source in memory that is cut at stated places.
ghost use Rattle.std.specs.Prelude.{◌≡◌, ◌≤◌, ◌<◌, ◌+◌, length, drop, take, Some, IfOk, OnOk, OnErr};
ghost use Rattle.std.specs.Io.{ReadsAtMost};
ghost use Rattle.outside_io.specs.Calls.{FailsNext, call_failed};
ghost use Rattle.outside_io.specs.Causes.{HasCause};
ghost use Rattle.outside_io.specs.Memory.{CutSource, cut_source, after_read, IsNextCut, IsEarlier, ReadsToCut};
ghost use Rattle.outside_io.specs.Told.{Takes, IsEmpty};

use crate::bytes::give;
use crate::failing::FailingCalls;
use crate::{Failed, NoMemory, Source};
use std::alloc::Global;
use std::marker::Model;

/// A source that gives these octets, and none past the next cut in one read.
#[derive(Drop)]
pub struct Pieces {
    octets: Vec<u8>,
    cuts: Vec<usize>,
    at: usize,
    calls: FailingCalls,
}

impl Model for Pieces {
    ghost Value = { CutSource };

    ghost view = { λ s. record { remaining = drop s.at s.octets.items; given = s.at; cuts = s.cuts.items; calls = s.calls } };

    ghost invariant = { λ s. s.at ≤ length s.octets.items };
}

impl Pieces {
    /// A cut is the number of octets before it. The calls that are to fail are listed by their places, from 0.
    pub fn with(
        alloc: Global,
        octets: &[u8],
        cuts: &[usize],
        failing: &[u64],
    ) -> Result<Pieces, NoMemory>
        ensures value { IfOk result (λ source. source ≡ cut_source octets.now cuts.now failing.now) }
    {
        Ok(Pieces {
            octets: Vec::from_slice(alloc, octets)?,
            cuts: Vec::from_slice(alloc, cuts)?,
            at: 0,
            calls: FailingCalls::with(alloc, failing)?,
        })
    }
}

// The next cut after one more is looked at.
fn earlier_cut(at: usize, cut: usize, next: usize) -> usize
    ensures value { IsEarlier at cut next result }
{
    if at < cut && cut < next {
        return cut;
    }
    next
}

// Where a read from this place is cut.
fn next_cut(cuts: &[usize], at: usize, end: usize) -> usize
    requires inside { at ≤ end }
    ensures value { IsNextCut cuts.now (length cuts.now) at end result }
{
    let mut next = end;
    let mut i = 0;
    while i < cuts.len() {
        next = earlier_cut(at, cuts[i], next);
        i += 1;
    }
    next
}

impl Source for Pieces {
    ghost remaining = { λ source. Some source.remaining };

    ghost faults = { λ source. source.calls.faults };

    fn read(&mut self, buf: &mut [u8]) -> Result<usize, Failed>
        ensures within { ReadsAtMost result buf.new }
        ensures ok { IfOk result (λ count.
            Takes (Some self.old.remaining) (Some self.new.remaining) (take count buf.new)) }
        ensures end { IfOk result (λ count. count ≡ 0 → 0 < length buf.new
            → IsEmpty (Some self.new.remaining)) }
        ensures err { OnErr result (Some self.new.remaining ≡ Some self.old.remaining) }
        ensures cause { HasCause self.old.calls.faults self.new.calls.faults result }
        // It gives what stands before the next cut, as far as it fits.
        ensures cut { IfOk result (λ count. ReadsToCut self.old (length buf.old) count) }
        ensures state { IfOk result (λ count. self.new ≡ after_read self.old count) }
        ensures same { OnErr result (self.new ≡ record self.old { calls = call_failed self.old.calls }) }
        // It fails exactly where the call is to fail.
        ensures refused { OnErr result (FailsNext self.old.calls) }
        ensures complete { OnOk result (FailsNext self.old.calls → ⊥) }
    {
        if self.calls.next_fails() {
            self.calls.count_fault();
            return Err(Failed);
        }
        let end = next_cut(&self.cuts, self.at, self.octets.len());
        let count = give(&self.octets, self.at, end, buf);
        self.at += count;
        Ok(count)
    }
}
