//! The run.
ghost use Rattle.std.specs.Prelude.{◌≡◌, ◌<◌, ◌≤◌, ◌^◌, ℕ, List, length, reverse, slice_index_or, is_some, true, false};
ghost use Rattle.link_channels.specs.declared.bounds.TheConstants.{MAX_LINKS};
ghost use Rattle.std.specs.Prelude.{None, Some};
ghost use Rattle.rist_desk.specs.Work.{own_told};
ghost use Rattle.outside_io.specs.Causes.{RoseWhere};
ghost use Rattle.rist_compare.specs.declared.tear.Tear.{Tear};
ghost use Rattle.rist_ends.specs.Receiver.{settings_of};
ghost use Rattle.rist_desk.specs.declared.step.Step.{Step};
ghost use Rattle.rist_desk.specs.Desk.{IsNew, StandsFor, state_of};
ghost use Rattle.rist_desk.specs.Serving.{Serves, ServesOn};
ghost use Rattle.desk_run.specs.declared.ending.Ending.{Ending};
ghost use Rattle.desk_run.specs.Endings.{is_spent, is_link_failed, any_worker, all_workers, is_write_fault, IsSound};
ghost use Rattle.desk_run.specs.Endings.{IsWithoutRoom};
ghost use Rattle.desk_run.specs.Receiving.{IsUnused, given_by, own_lists, HasReceived, IsTorn};

use desk_run::{Ending, Received, conclude};
use outside_io::Sink;
use outside_net::{Clock, Link, TellingLink};
use rist_desk::{Desk, DeskOrigin, ServingLimits, StepTrace, Worker, serve};
use rist_ends::Receiver;
use std::marker::Brand;
use std::sync::{Mutex, Wait};
use std::thread::Threads;

/// The run of a desk under a name.
fn named_run<
    N: DeskOrigin + Send + Sync,
    T: StepTrace + Drop + Send,
    K: Sink + Drop + Send,
    L: Link + Drop + Send,
    C: Clock + Drop + Send,
    U: StepTrace + Drop + Send,
    R: Threads + Wait + Sync,
>(
    rt: &R,
    receiver: Receiver,
    trace: T,
    workers: &mut [Worker<L, C, U>],
    sink: K,
    limits: &ServingLimits,
) -> Received<T, K>
    requires fresh { IsNew N.given
        (state_of receiver (T.list trace) (T.limit trace) (K.contents sink) (K.faults sink)) }
    requires some { 0 < length workers.old }
    requires few { length workers.old ≤ MAX_LINKS }
    requires turns { (0 < limits.now.turns) × (limits.now.turns ≤ 2 ^ 40) }
    ensures served { (i : ℕ) (d : _) → i < length workers.old → Serves C.moments
        ⟦<L as TellingLink>⟧.tells
        (λ own. own_told (U.list own) None) limits.now i (slice_index_or workers.old i d)
        (slice_index_or workers.new i d) }
    ensures on { (i : ℕ) (d : _) → i < length workers.old → ServesOn N.given C.moments
        ⟦<L as TellingLink>⟧.tells
        (record { list = U.list; seen = λ own. None; limit = U.limit }) limits.now i
        (slice_index_or workers.old i d) (slice_index_or workers.new i d) }
    ensures stands { (steps : List Step) → T.list result.trace ≡ Some steps → StandsFor N.given
        (state_of result.receiver (T.list result.trace) (T.limit result.trace)
        (K.contents result.sink) (K.faults result.sink)) (reverse steps) }
    ensures tells { is_some (T.list result.trace) ≡ N.given.tells_steps }
    ensures settings { settings_of result.receiver ≡ N.given.settings }
    ensures fault { RoseWhere (is_write_fault result.ending) N.given.faults (K.faults result.sink) }
    ensures spent { result.ending ≡ Ending.Spent → any_worker is_spent workers.new ≡ true }
    ensures full { result.ending ≡ Ending.TraceFull → IsWithoutRoom workers.new N.given
        (state_of result.receiver (T.list result.trace) (T.limit result.trace)
        (K.contents result.sink) (K.faults result.sink)) }
    ensures torn { (tear : Tear) → result.ending ≡ Ending.Torn tear → IsSound workers.new
        × IsTorn N.given (T.list result.trace) (K.contents result.sink) (own_lists U.list workers.new) tear }
    ensures down { result.ending ≡ Ending.LinksDown → IsSound workers.new
        × (all_workers is_link_failed workers.new ≡ true)
        × HasReceived N.given (T.list result.trace) (K.contents result.sink) (own_lists U.list workers.new) }
    ensures done { result.ending ≡ Ending.Done → IsSound workers.new
        × (all_workers is_link_failed workers.new ≡ false)
        × HasReceived N.given (T.list result.trace) (K.contents result.sink) (own_lists U.list workers.new) }
{
    let desk: Mutex<Desk<N, T, K>> = Mutex::new(Desk::with(receiver, trace, sink));
    serve(rt, workers, &desk, limits);
    conclude(desk.into_inner(), workers)
}

/// Receives on the links of all workers, each in a thread of its own where one can be made, until each has ended; what
/// the receiver plays out goes to the sink. Then the lists that were kept are compared, and then the end is told. The
/// receiver is to be a new one, the trace and the sink empty; all three are given back. The first ending that fits is
/// answered. What the clauses say of one ending is denied by those of each other, so each comes exactly where they say.
/// Places of workers are those of their links, from 0.
pub fn receive<
    T: StepTrace + Drop + Send,
    K: Sink + Drop + Send,
    L: Link + Drop + Send,
    C: Clock + Drop + Send,
    U: StepTrace + Drop + Send,
    R: Threads + Wait + Sync,
>(
    rt: &R,
    receiver: Receiver,
    trace: T,
    workers: &mut [Worker<L, C, U>],
    sink: K,
    limits: &ServingLimits,
) -> Received<T, K>
    requires unused { IsUnused
        (state_of receiver (T.list trace) (T.limit trace) (K.contents sink) (K.faults sink)) }
    requires some { 0 < length workers.old }
    requires few { length workers.old ≤ MAX_LINKS }
    requires turns { (0 < limits.now.turns) × (limits.now.turns ≤ 2 ^ 40) }
    // Each worker's own list and link hold its turns' steps and what these made.
    ensures served { (i : ℕ) (d : _) → i < length workers.old → Serves C.moments
        ⟦<L as TellingLink>⟧.tells
        (λ own. own_told (U.list own) None) limits.now i (slice_index_or workers.old i d)
        (slice_index_or workers.new i d) }
    // What it wrote is what its steps made by the rules, where the desk's trace tells its steps; and why a trace was
    // full is told.
    ensures on { (i : ℕ) (d : _) → i < length workers.old → ServesOn
        (given_by (state_of receiver (T.list trace) (T.limit trace) (K.contents sink) (K.faults sink))) C.moments
        ⟦<L as TellingLink>⟧.tells
        (record { list = U.list; seen = λ own. None; limit = U.limit }) limits.now i
        (slice_index_or workers.old i d) (slice_index_or workers.new i d) }
    // However it ends, the kept list is a legal history of the receiver, and the sink holds what it releases.
    ensures stands { (steps : List Step) → T.list result.trace ≡ Some steps → StandsFor
        (given_by (state_of receiver (T.list trace) (T.limit trace) (K.contents sink) (K.faults sink)))
        (state_of result.receiver (T.list result.trace) (T.limit result.trace)
        (K.contents result.sink) (K.faults result.sink)) (reverse steps) }
    ensures tells { is_some (T.list result.trace) ≡ is_some (T.list trace) }
    ensures settings { settings_of result.receiver ≡ settings_of receiver }
    // WriteFault comes exactly where the sink's count rose.
    ensures fault { RoseWhere (is_write_fault result.ending) (K.faults sink) (K.faults result.sink) }
    ensures spent { result.ending ≡ Ending.Spent → any_worker is_spent workers.new ≡ true }
    ensures full { result.ending ≡ Ending.TraceFull → IsWithoutRoom workers.new
        (given_by (state_of receiver (T.list trace) (T.limit trace) (K.contents sink) (K.faults sink)))
        (state_of result.receiver (T.list result.trace) (T.limit result.trace)
        (K.contents result.sink) (K.faults result.sink)) }
    ensures torn { (tear : Tear) → result.ending ≡ Ending.Torn tear → IsSound workers.new × IsTorn
        (given_by (state_of receiver (T.list trace) (T.limit trace) (K.contents sink) (K.faults sink)))
        (T.list result.trace) (K.contents result.sink) (own_lists U.list workers.new) tear }
    ensures down { result.ending ≡ Ending.LinksDown → IsSound workers.new
        × (all_workers is_link_failed workers.new ≡ true) × HasReceived
        (given_by (state_of receiver (T.list trace) (T.limit trace) (K.contents sink) (K.faults sink)))
        (T.list result.trace) (K.contents result.sink) (own_lists U.list workers.new) }
    ensures done { result.ending ≡ Ending.Done → IsSound workers.new
        × (all_workers is_link_failed workers.new ≡ false) × HasReceived
        (given_by (state_of receiver (T.list trace) (T.limit trace) (K.contents sink) (K.faults sink)))
        (T.list result.trace) (K.contents result.sink) (own_lists U.list workers.new) }
{
    named_run::<Brand, T, K, L, C, U, R>(rt, receiver, trace, workers, sink, limits)
}
