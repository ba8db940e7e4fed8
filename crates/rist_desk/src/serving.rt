//! All workers, side by side.
ghost use Rattle.std.specs.Prelude.{◌≡◌, ◌<◌, ◌≤◌, ◌*◌, ◌^◌, ℕ, length, slice_index_or, Some};
ghost use Rattle.link_channels.specs.declared.bounds.TheConstants.{MAX_LINKS};
ghost use Rattle.outside_io.specs.Causes.{RoseWhere};
ghost use Rattle.rist_desk.specs.Turns.{Feed, IsServed};
ghost use Rattle.rist_desk.specs.Work.{holds, own_told};
ghost use Rattle.rist_desk.specs.Serving.{IsFeed, Serves, ServesOn, ServesWith, MayServe, Leaves};
ghost use Rattle.rist_desk.specs.Inside.Going.{is_link_end, is_link_failure};

use crate::access::Access;
use crate::ended::Ended;
use crate::flows::Flows;
use crate::pace::Pace;
use crate::shares::Shares;
use crate::turn::make_turn;
use crate::worker::{ServingLimits, Worker};
use link_channels::{MAX_DATAGRAM, MAX_PAYLOAD};
use outside_net::{Clock, Link, TellingLink};
use rist_ends::Outs;
use std::sync::Wait;
use std::thread;
use std::thread::Threads;

/// Makes turns up to the last, and says why it was the last.
fn all_turns<S: Flows<U, M>, U, M: Drop, L: Link, C: Clock, R: Wait>(
    rt: &R,
    desk: &S,
    worker: &mut Worker<L, C, U>,
    place: u8,
    limits: &ServingLimits,
) -> Ended
    requires place { place < MAX_LINKS }
    requires turns { (0 < limits.now.turns) × (limits.now.turns ≤ 2 ^ 40) }
    requires own { S.owns desk.now place worker.old.trace }
    requires left { 2 * limits.now.turns ≤ S.good_for worker.old.trace }
    ensures own { S.owns desk.now place worker.new.trace }
    ensures served { (f : Feed) → IsFeed f worker.old.opener place limits.now (C.moments worker.old.clock)
        (L.reads worker.old.link) (L.knows worker.old.link)
        → IsServed S.work f (L.knows worker.new.link) result
        (C.moments worker.new.clock) (L.reads worker.new.link)
        (holds (S.tells.told worker.old.trace) (L.taken worker.old.link))
        (holds (S.tells.told worker.new.trace) (L.taken worker.new.link)) }
    ensures session { worker.new.opener ≡ worker.old.opener }
    ensures full { result ≡ Ended.TraceFull → S.tells.Lacks worker.new.trace }
    ensures spent { result ≡ Ended.Spent → S.tells.Keyed }
    ensures stopped { result ≡ Ended.Stopped → S.over worker.new.trace }
    ensures fault { result ≡ Ended.WriteFault → S.over worker.new.trace }
    ensures ends { RoseWhere (is_link_end (Some result)) (L.ends worker.old.link) (L.ends worker.new.link) }
    ensures faults { RoseWhere (is_link_failure (Some result)) (L.faults worker.old.link) (L.faults worker.new.link) }
{
    let mut access = Access {
        rt,
        desk,
        room: S::room(),
        payload: [0; MAX_PAYLOAD],
    };
    let mut block = [0; MAX_DATAGRAM];
    let mut pace = Pace {
        ticked: None,
        since: None,
        rest: 0,
    };
    let mut made: u64 = 0;
    'turns: loop {
        let last = made + 1 >= limits.turns;
        worker.link.rest(pace.rest);
        match make_turn(
            &mut access,
            worker,
            place,
            limits,
            last,
            &mut pace,
            &mut block,
        ) {
            Ok(()) => made += 1,
            Err(end) => return end,
        }
    }
}

/// Makes all turns of the worker at a place on these flows, in the thread that calls.
fn serve_flows_one<S: Flows<U, M>, U, M: Drop, L: Link, C: Clock, R: Wait>(
    rt: &R,
    desk: &S,
    worker: &mut Worker<L, C, U>,
    place: usize,
    limits: &ServingLimits,
)
    requires place { place < MAX_LINKS }
    requires turns { (0 < limits.now.turns) × (limits.now.turns ≤ 2 ^ 40) }
    requires own { S.owns desk.now place worker.old.trace }
    requires left { 2 * limits.now.turns ≤ S.good_for worker.old.trace }
    ensures own { Leaves S.owns S.over desk.now place worker.new }
    ensures on { ServesWith S.work C.moments
        ⟦<L as TellingLink>⟧.tells
        S.tells limits.now place worker.old worker.new }
{
    let end = all_turns::<S, U, M, L, C, R>(rt, desk, worker, place as u8, limits);
    worker.end = Some(end);
}

/// Serves the links of all workers on these flows, each in a thread of its own where one can be made. Their places are 0, 1
/// and so on.
pub fn serve_flows<
    S: Flows<U, M> + Sync,
    U: Drop + Send,
    M: Drop + Send,
    L: Link + Drop + Send,
    C: Clock + Drop + Send,
    R: Threads + Wait + Sync,
>(rt: &R, workers: &mut [Worker<L, C, U>], desk: &S, limits: &ServingLimits)
    requires some { 0 < length workers.old }
    requires few { length workers.old ≤ MAX_LINKS }
    requires turns { (0 < limits.now.turns) × (limits.now.turns ≤ 2 ^ 40) }
    requires own { (i : ℕ) (d : _) → i < length workers.old
        → MayServe S.owns S.good_for desk.now limits.now i (slice_index_or workers.old i d) }
    ensures own { (i : ℕ) (d : _) → i < length workers.old
        → Leaves S.owns S.over desk.now i (slice_index_or workers.new i d) }
    // What its own list has gained is what was planned of what its link gave, and what it wrote is what that made.
    ensures on { (i : ℕ) (d : _) → i < length workers.old → ServesWith S.work C.moments
        ⟦<L as TellingLink>⟧.tells
        S.tells limits.now i (slice_index_or workers.old i d) (slice_index_or workers.new i d) }
{
    let count = workers.len();
    thread::for_each_mut(
        rt,
        workers,
        count,
        &|i, worker| { serve_flows_one::<S, U, M, L, C, R>(rt, desk, worker, i, limits) },
    );
}

/// Makes all turns of the worker at a place, in the thread that calls.
pub fn serve_one<S: Shares<U>, U, L: Link, C: Clock, R: Wait>(
    rt: &R,
    desk: &S,
    worker: &mut Worker<L, C, U>,
    place: usize,
    limits: &ServingLimits,
)
    requires place { place < MAX_LINKS }
    requires turns { (0 < limits.now.turns) × (limits.now.turns ≤ 2 ^ 40) }
    requires own { S.is_of desk.now place worker.old.trace }
    requires left { 2 * limits.now.turns ≤ S.left worker.old.trace }
    ensures own { Leaves S.is_of S.broken desk.now place worker.new }
    ensures on { ServesOn S.given C.moments
        ⟦<L as TellingLink>⟧.tells
        (record { list = S.list; seen = S.seen; limit = S.limit }) limits.now place worker.old worker.new }
{
    serve_flows_one::<S, U, Outs, L, C, R>(rt, desk, worker, place, limits);
}

/// Serves the links of all workers, each in a thread of its own where one can be made. Their places are 0, 1 and so on.
pub fn serve<
    S: Shares<U> + Sync,
    U: Drop + Send,
    L: Link + Drop + Send,
    C: Clock + Drop + Send,
    R: Threads + Wait + Sync,
>(rt: &R, workers: &mut [Worker<L, C, U>], desk: &S, limits: &ServingLimits)
    requires some { 0 < length workers.old }
    requires few { length workers.old ≤ MAX_LINKS }
    requires turns { (0 < limits.now.turns) × (limits.now.turns ≤ 2 ^ 40) }
    requires own { (i : ℕ) (d : _) → i < length workers.old
        → MayServe S.is_of S.left desk.now limits.now i (slice_index_or workers.old i d) }
    ensures own { (i : ℕ) (d : _) → i < length workers.old
        → Leaves S.is_of S.broken desk.now i (slice_index_or workers.new i d) }
    ensures served { (i : ℕ) (d : _) → i < length workers.old → Serves C.moments
        ⟦<L as TellingLink>⟧.tells
        (λ own. own_told (S.list own) (S.seen own)) limits.now i (slice_index_or workers.old i d) (slice_index_or workers.new i d) }
    // What it wrote is what its steps made by the rules, where the steps that they were made after are told; and why a
    // trace was full is told.
    ensures on { (i : ℕ) (d : _) → i < length workers.old → ServesOn S.given C.moments
        ⟦<L as TellingLink>⟧.tells
        (record { list = S.list; seen = S.seen; limit = S.limit }) limits.now i
        (slice_index_or workers.old i d) (slice_index_or workers.new i d) }
{
    serve_flows::<S, U, Outs, L, C, R>(rt, workers, desk, limits);
}
