//! A source in memory of either form.
ghost use Rattle.std.specs.Prelude.{◌≡◌, ◌<◌, length, take, IfOk, OnOk, OnErr};
ghost use Rattle.std.specs.Io.{ReadsAtMost};
ghost use Rattle.outside_io.specs.Calls.{FailsNext};
ghost use Rattle.outside_io.specs.Causes.{HasCause};
ghost use Rattle.outside_io.specs.Told.{Takes, IsEmpty};

use crate::{Bytes, Failed, Pieces, Source};

/// A source in memory: whole, or cut at stated places.
#[derive(Drop)]
pub enum MemSource {
    Whole(Bytes),
    Cut(Pieces),
}

impl Source for MemSource {
    ghost use Rattle.outside_io.specs.MemSource.{mem_remaining, source_calls, GivesCount, after_read, after_fault};

    ghost remaining = { mem_remaining };

    ghost faults = { λ source. (source_calls source).faults };

    fn read(&mut self, buf: &mut [u8]) -> Result<usize, Failed>
        ensures within { ReadsAtMost result buf.new }
        ensures ok { IfOk result (λ count.
            Takes (mem_remaining self.old) (mem_remaining self.new) (take count buf.new)) }
        ensures end { IfOk result (λ count. count ≡ 0 → 0 < length buf.new
            → IsEmpty (mem_remaining self.new)) }
        ensures err { OnErr result (mem_remaining self.new ≡ mem_remaining self.old) }
        ensures cause { HasCause (source_calls self.old).faults (source_calls self.new).faults result }
        // It gives what a source of its form gives.
        ensures count { IfOk result (λ count. GivesCount self.old (length buf.old) count) }
        ensures state { IfOk result (λ count. self.new ≡ after_read self.old count) }
        ensures same { OnErr result (self.new ≡ after_fault self.old) }
        // It fails exactly where the call is to fail.
        ensures refused { OnErr result (FailsNext (source_calls self.old)) }
        ensures complete { OnOk result (FailsNext (source_calls self.old) → ⊥) }
    {
        match self {
            MemSource::Whole(source) => source.read(buf),
            MemSource::Cut(source) => source.read(buf),
        }
    }
}
