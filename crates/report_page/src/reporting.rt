//! The report: a walk whose visitor writes a page.
ghost use Rattle.std.specs.Prelude.{◌≡◌, ◌⊎◌, [], true, false, IsErrOf};
ghost use Rattle.outside_io.specs.Causes.{HasReadCause, HasWriteCause, fault_by};
ghost use Rattle.capture_walk.specs.Causes.{walk_fault};
ghost use Rattle.capture_walk.specs.Leaves.{Leaves, passage};
ghost use Rattle.capture_walk.specs.declared.walk_bad.WalkBad.TheVariants.{ReadFault, WriteFault, Memory};
ghost use Rattle.report_page.specs.Reported.{HasReported, reported};

use crate::page_writer::PageWriter;
use capture_walk::{Records, WalkBad, walk};
use outside_io::Sink;

/// Counts the step of each record of a file, in its session, and then writes one page: what the session came to in all
/// and over time. It is written also where no record stands at an offset, where a read fails, and where a record ends
/// past 2^40 octets, of the whole records before. No memory is taken.
pub fn report<R: Records, K: Sink>(
    mut writer: PageWriter,
    reader: &mut R,
    sink: &mut K,
) -> Result<(), WalkBad>
    requires fresh { HasReported writer.opener writer.counter [] }
    requires start { R.has_read reader.old (R.remaining reader.old) [] }
    requires running { R.spent reader.old ≡ false }
    ensures work { Leaves (R.form reader.old) (λ rs. []) (reported writer.opener writer.counter.buffer.limits) 0
        (passage (R.remaining reader.old) (R.remaining reader.new) (K.contents sink.old) (K.contents sink.new))
        result }
    // Where a write fails before the capture has come to an end, no read has failed.
    ensures stopped { IsErrOf result WriteFault
        → (R.faults reader.new ≡ R.faults reader.old) ⊎ (R.spent reader.new ≡ true) }
    ensures memory { IsErrOf result Memory → ⊥ }
    ensures ahead { IsErrOf result ReadFault → R.ahead reader.new ≡ [] }
    ensures read { HasReadCause (fault_by walk_fault result) (R.faults reader.old) (R.faults reader.new) }
    ensures write { HasWriteCause (fault_by walk_fault result) (K.faults sink.old) (K.faults sink.new) }
{
    walk(reader, &mut writer, sink)
}
