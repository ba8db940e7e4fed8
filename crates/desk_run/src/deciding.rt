//! Which ending fits first.
ghost use Rattle.std.specs.Prelude.{◌≡◌, ◌⊎◌, reverse, true, false, Some, None};
ghost use Rattle.std.specs.List.{list_any, list_all};
ghost use Rattle.rist_desk.specs.Legal.{is_fault};
ghost use Rattle.desk_run.specs.declared.ending.Ending.{Ending};
ghost use Rattle.desk_run.specs.Endings.{is_spent, is_without_room, is_link_failed, any_worker, all_workers};
ghost use Rattle.desk_run.specs.Endings.{is_write_fault, IsSound};
ghost use Rattle.desk_run.specs.Inside.Deciding.{has_fault, last_of, has_failed};

use crate::ending::Ending;
use outside_net::Full;
use rist_compare::Tear;
use rist_desk::{Ended, Mark, Step, Worker};
use rist_ends::Answer;

/// What became of the end.
#[derive(Clone, Copy, PartialEq, Eq)]
pub(crate) enum Last {
    /// It was told.
    Told,
    /// A write failed in it or before it.
    Failed,
    /// The trace had no room for it.
    Full,
}

fn is_fault(mark: Mark) -> bool
    ensures value { result ≡ is_fault mark }
{
    match mark {
        Mark::WriteFault => true,
        Mark::Plain | Mark::Verdict(_) | Mark::Spent => false,
    }
}

/// Whether a write failed in the last of these steps.
pub(crate) fn has_fault(kept: &[Step]) -> bool
    ensures value { result ≡ has_fault (reverse kept.now) }
{
    match kept {
        [.., step] => is_fault(step.mark),
        [] => false,
    }
}

/// What became of the end, by what the desk answered, and by whether a write failed before.
pub(crate) fn last_of(failed: bool, last: &Result<Answer, Full>) -> Last
    ensures value { result ≡ last_of failed last.now }
{
    match last {
        Ok(Answer::Stopped | Answer::WriteFault) => Last::Failed,
        Ok(Answer::Verdict(_) | Answer::Spent | Answer::Made | Answer::Nothing) => Last::Told,
        Err(Full) => if failed { Last::Failed } else { Last::Full },
    }
}

fn is_spent(end: Option<Ended>) -> bool
    ensures value { result ≡ is_spent end }
{
    matches!(end, Some(Ended::Spent))
}

fn is_without_room(end: Option<Ended>) -> bool
    ensures value { result ≡ is_without_room end }
{
    matches!(end, Some(Ended::TraceFull))
}

fn is_link_failed(end: Option<Ended>) -> bool
    ensures value { result ≡ is_link_failed end }
{
    matches!(end, Some(Ended::Failed))
}

fn any_spent<L, C, U>(workers: &[Worker<L, C, U>]) -> bool
    ensures value { result ≡ any_worker is_spent workers.now }
{
    workers.iter().any(|w| is_spent(w.end))
}

fn any_without_room<L, C, U>(workers: &[Worker<L, C, U>]) -> bool
    ensures value { result ≡ any_worker is_without_room workers.now }
{
    workers.iter().any(|w| is_without_room(w.end))
}

fn all_failed<L, C, U>(workers: &[Worker<L, C, U>]) -> bool
    ensures value { result ≡ all_workers is_link_failed workers.now }
{
    workers.iter().all(|w| is_link_failed(w.end))
}

/// The first ending that fits.
pub(crate) fn ending_of<L, C, U>(
    workers: &[Worker<L, C, U>],
    last: Last,
    tear: Option<Tear>,
) -> Ending
    ensures fault { is_write_fault result ≡ has_failed last }
    ensures spent { result ≡ Ending.Spent → any_worker is_spent workers.now ≡ true }
    ensures full { result ≡ Ending.TraceFull → (any_worker is_spent workers.now ≡ false)
        × ((any_worker is_without_room workers.now ≡ true) ⊎ (last ≡ Last.Full)) }
    ensures torn { (t : Tear) → result ≡ Ending.Torn t
        → IsSound workers.now × (last ≡ Last.Told) × (tear ≡ Some t) }
    ensures down { result ≡ Ending.LinksDown → IsSound workers.now × (last ≡ Last.Told) × (tear ≡ None)
        × (all_workers is_link_failed workers.now ≡ true) }
    ensures done { result ≡ Ending.Done → IsSound workers.now × (last ≡ Last.Told) × (tear ≡ None)
        × (all_workers is_link_failed workers.now ≡ false) }
{
    if last == Last::Failed {
        return Ending::WriteFault;
    }
    if any_spent(workers) {
        return Ending::Spent;
    }
    if last == Last::Full || any_without_room(workers) {
        return Ending::TraceFull;
    }
    match tear {
        Some(tear) => Ending::Torn(tear),
        None => if all_failed(workers) {
            Ending::LinksDown
        } else {
            Ending::Done
        },
    }
}
