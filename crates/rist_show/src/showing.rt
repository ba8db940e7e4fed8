//! The showing: a walk whose visitor writes lines.
ghost use Rattle.std.specs.Prelude.{◌≡◌, ◌⊎◌, [], true, false, IsErrOf};
ghost use Rattle.outside_io.specs.Causes.{HasReadCause, HasWriteCause, fault_by};
ghost use Rattle.capture_walk.specs.Causes.{walk_fault};
ghost use Rattle.capture_walk.specs.Leaves.{Leaves, passage};
ghost use Rattle.capture_walk.specs.declared.walk_bad.WalkBad.TheVariants.{ReadFault, WriteFault};
ghost use Rattle.rist_wire.specs.Session.{IsSession};
ghost use Rattle.rist_show.specs.Lines.{lines};

use crate::printer::Printer;
use capture_walk::{Records, WalkBad, walk};
use link_channels::MAX_PAYLOAD;
use outside_io::Sink;
use rist_wire::{Opener, Session};
use std::alloc::Global;

/// Writes a line for each record of a file: what its datagram is in a session, or the first test that fails and where.
/// A JSON object without blanks, its members in the order of their names, and a line feed. Times are in microseconds;
/// each line is written at once.
pub fn show<R: Records, K: Sink>(
    alloc: Global,
    session: &Session,
    reader: &mut R,
    sink: &mut K,
) -> Result<(), WalkBad>
    requires session { IsSession session.now }
    requires start { R.has_read reader.old (R.remaining reader.old) [] }
    requires running { R.spent reader.old ≡ false }
    ensures work { Leaves (R.form reader.old) (lines session.now) (lines session.now) 0
        (passage (R.remaining reader.old) (R.remaining reader.new) (K.contents sink.old) (K.contents sink.new))
        result }
    // Where a write fails before the capture has come to an end, no read has failed.
    ensures stopped { IsErrOf result WriteFault
        → (R.faults reader.new ≡ R.faults reader.old) ⊎ (R.spent reader.new ≡ true) }
    ensures ahead { IsErrOf result ReadFault → R.ahead reader.new ≡ [] }
    ensures read { HasReadCause (fault_by walk_fault result) (R.faults reader.old) (R.faults reader.new) }
    ensures write { HasWriteCause (fault_by walk_fault result) (K.faults sink.old) (K.faults sink.new) }
{
    let opener = match Opener::with(alloc, session) {
        Ok(opener) => opener,
        Err(_) => return Err(WalkBad::Memory),
    };
    let mut printer = Printer {
        alloc,
        opener,
        block: [0; MAX_PAYLOAD],
    };
    walk(reader, &mut printer, sink)
}
