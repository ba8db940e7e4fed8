//! A sink in memory.
ghost use Rattle.std.specs.Prelude.{◌≡◌, ◌<◌, ◌≤◌, ◌+◌, ◌-◌, ◌++◌, ◌↔◌, ◌⊎◌, [], length, take, Some, IfOk, IsTrue, OnOk, OnErr, vec_capacity};
ghost use Rattle.outside_io.specs.Calls.{no_calls, FailsNext, CountsCall};
ghost use Rattle.outside_io.specs.Causes.{HasCause};
ghost use Rattle.outside_io.specs.Memory.{MemorySink};
ghost use Rattle.outside_io.specs.Told.{Appends, AppendsPart};

use crate::failing::FailingCalls;
use crate::{Failed, NoMemory, Sink};
use std::alloc::Global;
use std::marker::Model;

/// A sink that keeps what it takes, up to its room in octets. A piece past it fails after the front part that fits.
#[derive(Drop)]
pub struct Store8 {
    octets: Vec<u8>,
    room: usize,
    calls: FailingCalls,
}

impl Model for Store8 {
    ghost Value = { MemorySink };

    ghost view = { λ s. record { contents = s.octets.items; room = s.room; calls = s.calls } };

    ghost invariant = { λ s. (length s.octets.items ≤ s.room) × (s.room ≤ vec_capacity s.octets) };
}

impl Store8 {
    /// Takes its room when it is made. The calls that are to fail are listed by their places, from 0.
    pub fn with(alloc: Global, room: usize, failing: &[u64]) -> Result<Store8, NoMemory>
        ensures value { IfOk result (λ sink. sink
            ≡ record { contents = []; room = room; calls = no_calls failing.now }) }
    {
        Ok(Store8 {
            octets: Vec::with_capacity(alloc, room)?,
            room,
            calls: FailingCalls::with(alloc, failing)?,
        })
    }

    /// What it took.
    pub fn octets(&self) -> &[u8]
        ensures value { result.now ≡ self.now.contents }
    {
        &self.octets
    }

    /// Whether it took no octet.
    pub fn is_empty(&self) -> bool
        ensures value { IsTrue result ↔ (self.now.contents ≡ []) }
    {
        self.octets.is_empty()
    }
}

// Appends a piece for which there is room.
fn keep(octets: &mut Vec<u8>, piece: &[u8])
    requires room { length octets.old.items + length piece.now ≤ vec_capacity octets.old }
    ensures value { octets.new.items ≡ octets.old.items ++ piece.now }
    ensures same { vec_capacity octets.old ≤ vec_capacity octets.new }
{
    let _ = octets.extend_from_slice(piece);
}

impl Sink for Store8 {
    ghost contents = { λ sink. Some sink.contents };

    ghost faults = { λ sink. sink.calls.faults };

    fn put(&mut self, piece: &[u8]) -> Result<(), Failed>
        ensures ok { OnOk result (Appends (Some self.old.contents) (Some self.new.contents) piece.now) }
        ensures err { OnErr result (AppendsPart (Some self.old.contents) (Some self.new.contents) piece.now) }
        ensures cause { HasCause self.old.calls.faults self.new.calls.faults result }
        // A piece that is taken fits the room, which stays.
        ensures within { length self.new.contents ≤ self.new.room }
        ensures same { self.new.room ≡ self.old.room }
        // A call that is to fail takes nothing, and any other the front part that has room.
        ensures failed { FailsNext self.old.calls → self.new.contents ≡ self.old.contents }
        ensures front { (FailsNext self.old.calls → ⊥)
            → self.new.contents ≡ self.old.contents
            ++ take (self.old.room - length self.old.contents) piece.now }
        ensures calls { CountsCall self.old.calls self.new.calls result }
        // It fails exactly where the call is to fail or the piece has no room.
        ensures refused { OnErr result (FailsNext self.old.calls
            ⊎ (self.old.room < length self.old.contents + length piece.now)) }
        ensures complete { OnOk result ((FailsNext self.old.calls → ⊥)
            × (length self.old.contents + length piece.now ≤ self.old.room)) }
    {
        if self.calls.next_fails() {
            self.calls.count_fault();
            return Err(Failed);
        }
        let space = self.room - self.octets.len();
        if piece.len() <= space {
            keep(&mut self.octets, piece);
            return Ok(());
        }
        keep(&mut self.octets, &piece[..space]);
        self.calls.count_fault();
        Err(Failed)
    }
}
