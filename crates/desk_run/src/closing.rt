//! The end of a run that keeps its steps.
ghost use Rattle.std.specs.Prelude.{◌≡◌, ◌≤◌, List, length, reverse, is_some, true, false, Some};
ghost use Rattle.link_channels.specs.declared.bounds.TheConstants.{MAX_LINKS};
ghost use Rattle.outside_io.specs.Causes.{RoseWhere};
ghost use Rattle.rist_compare.specs.declared.tear.Tear.{Tear};
ghost use Rattle.rist_ends.specs.Receiver.{settings_of};
ghost use Rattle.rist_desk.specs.declared.step.Step.{Step};
ghost use Rattle.rist_desk.specs.Desk.{StandsFor, state_of};
ghost use Rattle.desk_run.specs.declared.ending.Ending.{Ending};
ghost use Rattle.desk_run.specs.Endings.{is_spent, is_link_failed, any_worker, all_workers, is_write_fault, IsSound};
ghost use Rattle.desk_run.specs.Endings.{IsWithoutRoom};
ghost use Rattle.desk_run.specs.Receiving.{own_lists, HasReceived, IsTorn};

use crate::deciding::{ending_of, has_fault, last_of};
use crate::ending::Ending;
use outside_io::Sink;
use rist_compare::compare;
use rist_desk::{Desk, DeskOrigin, StepTrace, Worker};
use rist_ends::{Outs, Receiver};

/// What a run leaves.
#[derive(Drop)]
pub struct Received<T, K> {
    pub ending: Ending,
    pub receiver: Receiver,
    /// The steps of the run, where they are kept.
    pub trace: T,
    pub sink: K,
}

/// Ends a run whose workers have ended: the lists that were kept are compared, and then the end is told. The first
/// ending that fits is answered.
pub fn conclude<N: DeskOrigin, T: StepTrace + Drop, K: Sink + Drop, L, C, U: StepTrace>(
    desk: Desk<N, T, K>,
    workers: &[Worker<L, C, U>],
) -> Received<T, K>
    requires few { length workers.now ≤ MAX_LINKS }
    // However it ends, the kept list is a legal history of the receiver, and the sink holds what it releases.
    ensures stands { (steps : List Step) → T.list result.trace ≡ Some steps → StandsFor N.given
        (state_of result.receiver (T.list result.trace) (T.limit result.trace)
        (K.contents result.sink) (K.faults result.sink)) (reverse steps) }
    ensures tells { is_some (T.list result.trace) ≡ N.given.tells_steps }
    ensures settings { settings_of result.receiver ≡ N.given.settings }
    // WriteFault comes exactly where the sink's count rose.
    ensures fault { RoseWhere (is_write_fault result.ending) N.given.faults (K.faults result.sink) }
    ensures spent { result.ending ≡ Ending.Spent → any_worker is_spent workers.now ≡ true }
    ensures full { result.ending ≡ Ending.TraceFull → IsWithoutRoom workers.now N.given
        (state_of result.receiver (T.list result.trace) (T.limit result.trace)
        (K.contents result.sink) (K.faults result.sink)) }
    ensures torn { (tear : Tear) → result.ending ≡ Ending.Torn tear → IsSound workers.now
        × IsTorn N.given (T.list result.trace) (K.contents result.sink) (own_lists U.list workers.now) tear }
    ensures down { result.ending ≡ Ending.LinksDown → IsSound workers.now
        × (all_workers is_link_failed workers.now ≡ true)
        × HasReceived N.given (T.list result.trace) (K.contents result.sink) (own_lists U.list workers.now) }
    ensures done { result.ending ≡ Ending.Done → IsSound workers.now
        × (all_workers is_link_failed workers.now ≡ false)
        × HasReceived N.given (T.list result.trace) (K.contents result.sink) (own_lists U.list workers.now) }
{
    let tear = compare(desk.kept(), workers);
    let failed = has_fault(desk.kept());
    let mut outs = Outs::none();
    let (answer, receiver, trace, sink) = desk.finish(&mut outs);
    let ending = ending_of(workers, last_of(failed, &answer), tear);
    Received {
        ending,
        receiver,
        trace,
        sink,
    }
}
