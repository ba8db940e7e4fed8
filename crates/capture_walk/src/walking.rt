//! The walk: each record is read and brought, and then the end.
ghost use Rattle.std.specs.Prelude.{◌≡◌, ◌≤◌, ◌<◌, ◌⊎◌, ◌^◌, ◌++◌, ◌∷◌, true, false, [], ℕ, List, Option, IsErrOf, IsTrue, OnOk, OnErr};
ghost use Rattle.outside_io.specs.Causes.{HasReadCause, HasWriteCause, fault_by};
ghost use Rattle.outside_io.specs.Told.{Writes, WritesPart};
ghost use Rattle.capture_file.specs.Capture.{Record, Fits};
ghost use Rattle.capture_file.specs.Heads.{record_of};
ghost use Rattle.capture_walk.specs.Causes.{walk_fault, visit_fault};
ghost use Rattle.capture_walk.specs.Leaves.{Brought, IfBrought, Leaves, passage};
ghost use Rattle.capture_walk.specs.Inside.Turns.{EndsBy, IfOn, IfOver};
ghost use Rattle.capture_walk.specs.Inside.Sofar.{Sofar};
ghost use Rattle.capture_walk.specs.declared.walk_bad.WalkBad.TheVariants.{ReadFault, WriteFault, Memory};
ghost use Rattle.capture_walk.specs.declared.visitor.VisitBad.TheVariants.{Memory as VisitMemory};

use crate::records::Records;
use crate::visitor::{VisitBad, Visitor};
use crate::walk_bad::WalkBad;
use capture_file::Head;
use outside_io::Sink;

/// Brings each record of a file to a visitor, and then the end: after the last record, and also where no record stands
/// at an offset, where a read fails, or where a record ends past 2^40 octets. No more than one record is kept.
pub fn walk<R: Records, V: Visitor, K: Sink>(
    reader: &mut R,
    visitor: &mut V,
    sink: &mut K,
) -> Result<(), WalkBad>
    requires start { R.has_read reader.old (R.remaining reader.old) [] }
    requires running { R.spent reader.old ≡ false }
    requires fresh { V.has_seen visitor.old [] }
    requires empty { V.so_far visitor.old [] ≡ [] }
    ensures work { Leaves (R.form reader.old) (V.so_far visitor.old) (V.whole visitor.old) 0
        (passage (R.remaining reader.old) (R.remaining reader.new) (K.contents sink.old) (K.contents sink.new))
        result }
    // Unless a write failed or memory was refused, the visitor took the whole records that were read, and the end.
    ensures seen { IfBrought result (Brought (R.form reader.old) (R.remaining reader.old) (R.remaining reader.new)
        (V.has_ended visitor.new) result) }
    // Where a write fails before the capture has come to an end, no read has failed.
    ensures stopped { IsErrOf result WriteFault
        → (R.faults reader.new ≡ R.faults reader.old) ⊎ (R.spent reader.new ≡ true) }
    // Memory is the answer only of a visitor that wants some.
    ensures memory { IsErrOf result Memory → IsTrue V.wants_memory }
    ensures ahead { IsErrOf result ReadFault → R.ahead reader.new ≡ [] }
    ensures read { HasReadCause (fault_by walk_fault result) (R.faults reader.old) (R.faults reader.new) }
    ensures write { HasWriteCause (fault_by walk_fault result) (K.faults sink.old) (K.faults sink.new) }
{
    loop {
        match visit_next(reader, visitor, sink) {
            Ok(true) => {}
            Ok(false) => return Ok(()),
            Err(bad) => return Err(bad),
        }
    }
}

/// Reads a record and brings it to the visitor; says whether there was one. Else brings the end.
fn visit_next<R: Records, V: Visitor, K: Sink>(
    reader: &mut R,
    visitor: &mut V,
    sink: &mut K,
) -> Result<bool, WalkBad>
    requires running { R.spent reader.old ≡ false }
    ensures on { IfOn result ((first u : Option (List ℕ))
        → Sofar (V.so_far visitor.old) R.has_read V.has_seen first reader.old visitor.old u (K.contents sink.old)
        → Sofar (V.so_far visitor.old) R.has_read V.has_seen first reader.new visitor.new u (K.contents sink.new)) }
    ensures over { IfOver result (λ end. (first u : Option (List ℕ))
        → Sofar (V.so_far visitor.old) R.has_read V.has_seen first reader.old visitor.old u (K.contents sink.old)
        → EndsBy (R.form reader.old) (V.so_far visitor.old) (V.whole visitor.old) (V.has_ended visitor.new)
        (passage first (R.remaining reader.new) u (K.contents sink.new)) end) }
    ensures same { IfOn result ((V.so_far visitor.new ≡ V.so_far visitor.old)
        × (V.whole visitor.new ≡ V.whole visitor.old)) }
    ensures form { R.form reader.new ≡ R.form reader.old }
    ensures progress { IfOn result ((R.at reader.old < R.at reader.new)
        × (R.at reader.new ≤ 2 ^ 40) × (R.spent reader.new ≡ false)) }
    // Where the write of a record failed, no read has.
    ensures stopped { IsErrOf result WriteFault
        → (R.faults reader.new ≡ R.faults reader.old) ⊎ (R.spent reader.new ≡ true) }
    // Memory is the answer only of a visitor that wants some.
    ensures memory { IsErrOf result Memory → IsTrue V.wants_memory }
    ensures ahead { IsErrOf result ReadFault → R.ahead reader.new ≡ [] }
    ensures read { HasReadCause (fault_by walk_fault result) (R.faults reader.old) (R.faults reader.new) }
    ensures write { HasWriteCause (fault_by walk_fault result) (K.faults sink.old) (K.faults sink.new) }
{
    match reader.next_record() {
        Ok(Some(head)) => match bring(reader, &head, visitor, sink) {
            Ok(()) => Ok(true),
            Err(VisitBad::WriteFault) => Err(WalkBad::WriteFault),
            Err(VisitBad::Memory) => Err(WalkBad::Memory),
        },
        Ok(None) => match visitor.finish(sink) {
            Ok(()) => Ok(false),
            Err(_) => Err(WalkBad::WriteFault),
        },
        Err(bad) => match visitor.finish(sink) {
            Ok(()) => Err(bad),
            Err(_) => Err(WalkBad::WriteFault),
        },
    }
}

/// Brings the record that was read last to the visitor, its octets where they stand in the reader.
fn bring<R: Records, V: Visitor, K: Sink>(
    reader: &mut R,
    head: &Head,
    visitor: &mut V,
    sink: &mut K,
) -> Result<(), VisitBad>
    requires fits { Fits (record_of head.now (R.octets reader.old)) }
    ensures read { (first : Option (List ℕ)) (done : List Record)
        → R.has_read reader.old first done → R.has_read reader.new first done }
    ensures form { R.form reader.new ≡ R.form reader.old }
    ensures place { (R.at reader.new ≡ R.at reader.old) × (R.spent reader.new ≡ R.spent reader.old) }
    ensures source { (R.remaining reader.new ≡ R.remaining reader.old) × (R.ahead reader.new ≡ R.ahead reader.old)
        × (R.faults reader.new ≡ R.faults reader.old) }
    ensures seen { OnOk result ((done : List Record) → V.has_seen visitor.old done
        → V.has_seen visitor.new (done ++ record_of head.now (R.octets reader.old) ∷ [])) }
    ensures sink { OnOk result ((done : List Record) → V.has_seen visitor.old done
        → Writes (K.contents sink.old) (K.contents sink.new) (V.so_far visitor.old done)
        (V.so_far visitor.old (done ++ record_of head.now (R.octets reader.old) ∷ []))) }
    ensures part { OnErr result ((done : List Record) → V.has_seen visitor.old done
        → WritesPart (K.contents sink.old) (K.contents sink.new) (V.so_far visitor.old done)
        (V.so_far visitor.old (done ++ record_of head.now (R.octets reader.old) ∷ []))) }
    ensures none { IsErrOf result VisitMemory → K.contents sink.new ≡ K.contents sink.old }
    ensures memory { IsErrOf result VisitMemory → IsTrue V.wants_memory }
    ensures same { (V.so_far visitor.new ≡ V.so_far visitor.old) × (V.whole visitor.new ≡ V.whole visitor.old) }
    ensures cause { HasWriteCause (fault_by visit_fault result) (K.faults sink.old) (K.faults sink.new) }
{
    reader.lend(
        visitor,
        sink,
        |octets: &mut [u8], visitor: &mut V, sink: &mut K|
            requires { Fits (record_of head.now octets.now) }
        { visitor.record(head, octets, sink) },
    )
}
