//! What is done with the records of a capture.
ghost use Rattle.std.specs.Prelude.{◌≡◌, ◌++◌, ◌∷◌, [], ℕ, List, Bool, IsTrue, OnOk, OnErr, IsErrOf};
ghost use Rattle.capture_file.specs.Capture.{Record, Fits};
ghost use Rattle.capture_file.specs.Heads.{record_of};
ghost use Rattle.outside_io.specs.Causes.{HasCause, HasWriteCause, fault_by};
ghost use Rattle.outside_io.specs.Told.{Writes, WritesPart};
ghost use Rattle.capture_walk.specs.Causes.{visit_fault};
ghost use Rattle.capture_walk.specs.declared.visitor.VisitBad.TheVariants.{Memory};

use capture_file::Head;
use outside_io::{Failed, Sink};
use std::fmt::{self, Display, Formatter, Write};

/// Why a record was not taken.
#[derive(Clone, Copy, Debug, PartialEq, Eq)]
pub enum VisitBad {
    /// Memory was refused.
    Memory,
    /// A write to the sink failed.
    WriteFault,
}

impl Display for VisitBad {
    ghost use Rattle.std.specs.Prelude.{Some};
    ghost use Rattle.capture_walk.specs.Text.{visit_text};

    ghost output = { λ bad. Some (visit_text bad) };

    fn fmt<W: Write>(&self, f: &mut Formatter<W>) -> fmt::Result {
        f.write_str(match self {
            VisitBad::Memory => "out of memory",
            VisitBad::WriteFault => "write failed",
        })
    }
}

/// Takes the records of a capture in their order, then the end, and writes something of them.
pub trait Visitor {
    /// What it has written after these records, the oldest first.
    ghost so_far: { Self → List Record → List ℕ };

    /// What it has written after these records and the end.
    ghost whole: { Self → List Record → List ℕ };

    /// These are the records that it took, and no call failed.
    ghost has_seen: { Self → List Record → Type 0 };

    /// These are the records that it took, and the end after them, and no call failed.
    ghost has_ended: { Self → List Record → Type 0 };

    /// Whether it may want memory for a record.
    ghost wants_memory: { Bool };

    /// Takes a record. Its octets may be changed in place.
    fn record<K: Sink>(
        &mut self,
        head: &Head,
        octets: &mut [u8],
        sink: &mut K,
    ) -> Result<(), VisitBad>
        requires fits { Fits (record_of head.now octets.old) }
        ensures seen { OnOk result ((done : List Record) → has_seen self.old done
            → has_seen self.new (done ++ record_of head.now octets.old ∷ [])) }
        ensures sink { OnOk result ((done : List Record) → has_seen self.old done
            → Writes (K.contents sink.old) (K.contents sink.new)
            (so_far self.old done) (so_far self.old (done ++ record_of head.now octets.old ∷ []))) }
        ensures part { OnErr result ((done : List Record) → has_seen self.old done
            → WritesPart (K.contents sink.old) (K.contents sink.new)
            (so_far self.old done) (so_far self.old (done ++ record_of head.now octets.old ∷ []))) }
        // Where memory was refused nothing was written.
        ensures none { IsErrOf result Memory → K.contents sink.new ≡ K.contents sink.old }
        ensures memory { IsErrOf result Memory → IsTrue wants_memory }
        ensures same { (so_far self.new ≡ so_far self.old) × (whole self.new ≡ whole self.old) }
        ensures cause { HasWriteCause (fault_by visit_fault result) (K.faults sink.old) (K.faults sink.new) };

    /// Takes the end.
    fn finish<K: Sink>(&mut self, sink: &mut K) -> Result<(), Failed>
        ensures seen { OnOk result ((done : List Record) → has_seen self.old done → has_ended self.new done) }
        ensures sink { OnOk result ((done : List Record) → has_seen self.old done
            → Writes (K.contents sink.old) (K.contents sink.new)
            (so_far self.old done) (whole self.old done)) }
        ensures part { OnErr result ((done : List Record) → has_seen self.old done
            → WritesPart (K.contents sink.old) (K.contents sink.new)
            (so_far self.old done) (whole self.old done)) }
        ensures cause { HasCause (K.faults sink.old) (K.faults sink.new) result };
}
