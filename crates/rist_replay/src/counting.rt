//! The counting: a walk whose visitor writes counts.
ghost use Rattle.std.specs.Prelude.{◌≡◌, ◌⊎◌, [], true, false, IsErrOf};
ghost use Rattle.outside_io.specs.Causes.{HasReadCause, HasWriteCause, fault_by};
ghost use Rattle.capture_walk.specs.Causes.{walk_fault};
ghost use Rattle.capture_walk.specs.Leaves.{Leaves, passage};
ghost use Rattle.capture_walk.specs.declared.walk_bad.WalkBad.TheVariants.{ReadFault, WriteFault, Memory};
ghost use Rattle.rist_replay.specs.Replay.{HasReplayed};
ghost use Rattle.rist_replay.specs.Counted.{counted};

use crate::Replayer;
use crate::counter::Counter;
use capture_walk::{Records, WalkBad, walk};
use outside_io::Sink;

/// Steps each record of a file on a receiver that was told nothing, in its session, and then writes nine lines: how many media
/// packets had each verdict, and how many datagrams were refused. They are written also where no record stands at an
/// offset, where a read fails, and where a record ends past 2^40 octets, of the whole records before. No memory is taken.
pub fn count<R: Records, K: Sink>(
    replayer: Replayer,
    reader: &mut R,
    sink: &mut K,
) -> Result<(), WalkBad>
    requires fresh { HasReplayed replayer.opener replayer.receiver [] }
    requires start { R.has_read reader.old (R.remaining reader.old) [] }
    requires running { R.spent reader.old ≡ false }
    ensures work { Leaves (R.form reader.old) (λ rs. []) (counted replayer.opener replayer.receiver.buffer.limits) 0
        (passage (R.remaining reader.old) (R.remaining reader.new) (K.contents sink.old) (K.contents sink.new))
        result }
    // Where a write fails before the capture has come to an end, no read has failed.
    ensures stopped { IsErrOf result WriteFault
        → (R.faults reader.new ≡ R.faults reader.old) ⊎ (R.spent reader.new ≡ true) }
    ensures memory { IsErrOf result Memory → ⊥ }
    ensures ahead { IsErrOf result ReadFault → R.ahead reader.new ≡ [] }
    ensures read { HasReadCause (fault_by walk_fault result) (R.faults reader.old) (R.faults reader.new) }
    ensures write { HasWriteCause (fault_by walk_fault result) (K.faults sink.old) (K.faults sink.new) }
{
    let mut counter = Counter { replayer };
    walk(reader, &mut counter, sink)
}
