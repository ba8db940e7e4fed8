//! A split of a capture into outputs.
ghost use Rattle.std.specs.Prelude.{◌≡◌, [], false, length};
ghost use Rattle.std.specs.List.{list_any};
ghost use Rattle.link_channels.specs.declared.profile.Profile.TheVariants.{Main};
ghost use Rattle.receiver_rules.specs.declared.limits.Limits.{Limits};
ghost use Rattle.rist_wire.specs.Among.{ArePorts};
ghost use Rattle.rist_desk.specs.Desk.{is_cut_off};
ghost use Rattle.rist_split.specs.Outputs.{IsMade, SplitsInto};
ghost use Rattle.rist_split.specs.Inside.Making.{is_cut};

use crate::made::SplitMemory;
use crate::seating::{seated, unseated};
use crate::splitting::{SplitEnd, split};
use capture_walk::{Records, WalkBad};
use outside_io::Sink;
use rist_ends::Answer;
use rist_fan::{Came, Fan};

/// Tells each record of a file to the receiver of the output that its port names, and then each receiver the end. WriteFault is
/// the answer exactly where a write to some output failed, which ends that output alone: the others go on to the end of the
/// records. Else the answer is how the records ended. The sinks stand in their list again. No memory is taken.
pub fn split_into<R: Records, K: Sink + Drop>(
    made: SplitMemory<K>,
    ports: &[u16],
    reader: &mut R,
    sinks: &mut Vec<K>,
) -> Result<(), WalkBad>
    requires main { made.opener.profile ≡ Main }
    requires ports { ArePorts ports.now }
    requires made { (limits : Limits) × IsMade limits (length ports.now) made }
    requires places { length sinks.old.items ≡ length ports.now }
    requires start { R.has_read reader.old (R.remaining reader.old) [] }
    requires running { R.spent reader.old ≡ false }
    // Each output has what a replay at its port writes of the whole records that were read, or a front part of that where a
    // write of its own failed.
    ensures work { (limits : Limits) → IsMade limits (length ports.now) made
        → SplitsInto (R.form reader.old) (R.remaining reader.old) (R.remaining reader.new) (R.ahead reader.new)
        (R.faults reader.old) (R.faults reader.new) K.contents K.faults ports.now made.opener limits
        sinks.old.items sinks.new.items result }
    ensures places { length sinks.new.items ≡ length sinks.old.items }
{
    let SplitMemory {
        opener,
        receivers,
        came,
        flows,
    } = made;
    let mut flows = seated(sinks, receivers, flows);
    let first = flows.remove(0);
    let SplitEnd {
        end,
        came,
        first,
        more,
    } = split(opener, ports, Fan::with(first, flows), came, reader);
    unseated(first, more, sinks);
    if has_failed(&came) {
        Err(WalkBad::WriteFault)
    } else {
        end
    }
}

/// Whether a write failed in the end or before it, at some place.
fn has_failed(came: &[Came]) -> bool
    ensures value { result ≡ list_any is_cut came.now }
{
    came.iter().any(|came| is_cut_off(came.answer))
}

fn is_cut_off(answer: Answer) -> bool
    ensures value { result ≡ is_cut_off answer }
{
    match answer {
        Answer::Stopped | Answer::WriteFault => true,
        Answer::Verdict(_) | Answer::Spent | Answer::Made | Answer::Nothing => false,
    }
}
