//! The end, told to what a desk leaves.
ghost use Rattle.std.specs.Prelude.{List};
ghost use Rattle.rist_desk.specs.declared.step.Step.{Step};
ghost use Rattle.turn_desk.specs.Stands.{StandAs, IsEnded};

use crate::parts::Parts;
use outside_io::Sink;
use rist_desk::DeskOrigin;
use rist_ends::{Answer, Outs, Told, What};

/// Tells the end, which makes no datagrams: all that is held goes out to the sink.
pub fn tell_end<N: DeskOrigin, K: Sink + Drop>(
    parts: Parts<K>,
    outs: &mut Outs,
) -> (Answer, Parts<K>)
    ensures ended { (history : List Step) → StandAs N.given K.contents K.faults parts history
        → IsEnded N.given K.contents K.faults history result.0 outs.new result.1 }
{
    let Parts {
        mut receiver,
        mut sink,
    } = parts;
    let told = Told {
        link: 0,
        us: 0,
        what: What::End,
    };
    let answer = receiver.step_into(&told, outs, &mut sink);
    (answer, Parts { receiver, sink })
}
