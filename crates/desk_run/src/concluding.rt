//! The end of a run in turns.
ghost use Rattle.std.specs.Prelude.{◌≡◌, ◌<◌, ℕ, List, Some, length, slice_get};
ghost use Rattle.rist_desk.specs.declared.step.Step.{Step};
ghost use Rattle.rist_desk.specs.Desk.{is_cut_off};
ghost use Rattle.turn_desk.specs.Own.{IsOf, passes_in};
ghost use Rattle.desk_run.specs.Turns.{AreOwned, HasConcluded, FitsAfter, ending_by};

use crate::deciding::{Last, ending_of};
use crate::ending::Ending;
use outside_io::Sink;
use rist_desk::{DeskOrigin, Step, Worker};
use rist_ends::{Answer, Outs, Receiver};
use turn_desk::{Parts, Shared, TurnDesk, tell_end};
use turn_lock::Pass;

/// What a desk in turns leaves once the end was told.
#[derive(Drop)]
pub struct Closed<K> {
    /// A write failed in the end or before it.
    pub cut: bool,
    pub receiver: Receiver,
    pub sink: K,
}

fn is_cut_off(answer: Answer) -> bool
    ensures value { result ≡ is_cut_off answer }
{
    match answer {
        Answer::Stopped | Answer::WriteFault => true,
        Answer::Verdict(_) | Answer::Spent | Answer::Made | Answer::Nothing => false,
    }
}

/// Takes all passes back, in order, and tells the end. The history of the run is made of what the passes own.
pub fn conclude_turns<N: DeskOrigin, K: Sink + Drop>(
    desk: TurnDesk<N, K>,
    passes: Vec<Pass<Step, Shared<N, K>>>,
) -> Closed<K>
    requires some { 0 < passes_in desk }
    requires all { length passes.items ≡ passes_in desk }
    requires own { (k : ℕ) (p : _) → slice_get passes.items k ≡ Some p → IsOf desk k p }
    ensures concluded { (own : List (List Step)) → AreOwned own passes.items → HasConcluded N.given own passes.items
        result.cut result.receiver (K.contents result.sink) (K.faults result.sink) }
{
    let mut outs = Outs::none();
    let parts = desk.close(passes);
    let (answer, Parts { receiver, sink }) = tell_end::<N, K>(parts, &mut outs);
    Closed {
        cut: is_cut_off(answer),
        receiver,
        sink,
    }
}

/// The first ending that fits the workers, where no write failed. Nothing is torn in turns.
pub fn ending_after<L, C, U>(workers: &[Worker<L, C, U>]) -> Ending
    ensures fits { FitsAfter workers.now result }
{
    ending_of(workers, Last::Told, None)
}

/// The ending of a run in turns: a write failed, or the first ending that fits the workers.
pub fn ending_by(cut: bool, after: Ending) -> Ending
    ensures value { result ≡ ending_by cut after }
{
    if cut { Ending::WriteFault } else { after }
}
