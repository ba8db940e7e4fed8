//! The links of both ends, served together.
ghost use Rattle.std.specs.Prelude.{◌≡◌, ◌<◌, ◌≤◌, ◌+◌, ◌++◌, ◌∷◌, ◌^◌, ℕ, List, [], length, map, reverse, take, drop};
ghost use Rattle.link_channels.specs.declared.bounds.TheConstants.{MAX_LINKS};
ghost use Rattle.std.specs.Prelude.{slice_index_or, vec_capacity};
ghost use Rattle.rist_desk.specs.Serving.{MayServe};
ghost use Rattle.rist_desk.specs.declared.worker.Worker.{Worker as ServedWorker};
ghost use Rattle.rist_gateway.specs.declared.either_worker.EitherWorker.{EitherWorker as ServedPart};
ghost use Rattle.rist_gateway.specs.declared.side_worker.SideWorker.{SideWorker as Side};
ghost use Rattle.rist_gateway.specs.Workers.{ServesWith, shared_as, trace_as, sides_as, side_clock};
ghost use Rattle.rist_gateway.specs.Inside.Sides.{HasRoom, LookAtLinks, MayLookAtLinks, receiving_part, sending_part};
ghost use Rattle.rist_gateway.specs.Inside.Sides.{seated_sides, sending_parts, side_pass};

use crate::either_worker::EitherWorker;
use crate::shares_beside::SharesBeside;
use crate::side_worker::SideWorker;
use crate::threads::gate;
use outside_net::{Clock, Link, TellingLink};
use rist_desk::{ServingLimits, Shares, Worker};
use std::sync::Wait;
use std::thread::Threads;

/// Sets all these clocks with as many of the last passes into parts, the last one first.
pub(crate) fn seat_sides<L: Drop, C: Drop, U: Drop, P: Drop>(
    clocks: &mut Vec<C>,
    passes: &mut Vec<P>,
    parts: &mut Vec<EitherWorker<L, C, U, C, P>>,
)
    requires few { length clocks.old.items ≤ MAX_LINKS }
    requires many { length clocks.old.items ≤ length passes.old.items }
    requires room { length clocks.old.items ≤ vec_capacity parts.old }
    requires no_parts { parts.old.items ≡ [] }
    ensures seated { (first : ℕ) → length passes.old.items ≡ first + length clocks.old.items
        → (passes.new.items ≡ take first passes.old.items)
        × (parts.new.items ≡ sending_parts (seated_sides 0 clocks.old.items (drop first passes.old.items))) }
    ensures none { clocks.new.items ≡ [] }
    ensures room { (vec_capacity clocks.new ≡ vec_capacity clocks.old)
        × (vec_capacity passes.new ≡ vec_capacity passes.old)
        × (vec_capacity parts.old ≤ vec_capacity parts.new) }
{
    while let Some(clock) = clocks.pop() {
        let Some(pass) = passes.pop() else {
            unreachable!()
        };
        let _ = parts.push(EitherWorker::Sending(SideWorker {
            link: clocks.len() as u8,
            clock,
            pass,
            end: None,
        }));
    }
}

/// Gives the clock and the pass of a side worker back.
fn unseat_side<L: Drop, C: Drop, U: Drop, P: Drop>(
    part: EitherWorker<L, C, U, C, P>,
    clocks: &mut Vec<C>,
    passes: &mut Vec<P>,
)
    ensures given { (side : Side C P) → part ≡ sending_part side
        → length clocks.old.items < vec_capacity clocks.old → length passes.old.items < vec_capacity passes.old
        → (clocks.new.items ≡ clocks.old.items ++ side_clock side ∷ [])
        × (passes.new.items ≡ passes.old.items ++ side_pass side ∷ []) }
    ensures clocks { length clocks.new.items ≤ length clocks.old.items + 1 }
    ensures passes { length passes.new.items ≤ length passes.old.items + 1 }
    ensures room { (vec_capacity clocks.old ≤ vec_capacity clocks.new)
        × (vec_capacity passes.old ≤ vec_capacity passes.new) }
{
    match part {
        EitherWorker::Sending(side) => {
            let _ = clocks.push(side.clock);
            let _ = passes.push(side.pass);
        }
        EitherWorker::Receiving(_) => {}
    }
}

/// Gives the clocks and the passes of side workers back, behind those that are there.
pub(crate) fn unseat_sides<L: Drop, C: Drop, U: Drop, P: Drop>(
    mut parts: Vec<EitherWorker<L, C, U, C, P>>,
    clocks: &mut Vec<C>,
    passes: &mut Vec<P>,
)
    requires clocks { length clocks.old.items + length parts.items ≤ vec_capacity clocks.old }
    requires passes { length passes.old.items + length parts.items ≤ vec_capacity passes.old }
    ensures value { (sides : List (Side C P)) → parts.items ≡ sending_parts sides
        → (clocks.new.items ≡ clocks.old.items ++ map side_clock sides)
        × (passes.new.items ≡ passes.old.items ++ map side_pass sides) }
    ensures room { (vec_capacity clocks.old ≤ vec_capacity clocks.new)
        × (vec_capacity passes.old ≤ vec_capacity passes.new) }
{
    while let Some(part) = parts.pop() {
        unseat_side(part, clocks, passes);
    }
}

/// Puts workers before the parts, which stand in the opposite order.
fn gather<L: Drop, C: Drop, U: Drop, D: Drop, P: Drop>(
    workers: &mut Vec<Worker<L, C, U>>,
    parts: &mut Vec<EitherWorker<L, C, U, D, P>>,
)
    requires room { length workers.old.items + length parts.old.items ≤ vec_capacity parts.old }
    ensures parts { parts.new.items ≡ map receiving_part workers.old.items ++ reverse parts.old.items }
    ensures none { workers.new.items ≡ [] }
    ensures room { vec_capacity workers.new ≡ vec_capacity workers.old }
    ensures more { vec_capacity parts.old ≤ vec_capacity parts.new }
{
    while let Some(worker) = workers.pop() {
        let _ = parts.push(EitherWorker::Receiving(worker));
    }
    parts.reverse();
}

/// Puts the worker of a part back into its list, where it is one.
fn put_back<L: Drop, C: Drop, U: Drop, D: Drop, P: Drop>(
    part: EitherWorker<L, C, U, D, P>,
    workers: &mut Vec<Worker<L, C, U>>,
)
    ensures put { (w : ServedWorker L C U) → part ≡ receiving_part w
        → length workers.old.items < vec_capacity workers.old → workers.new.items ≡ workers.old.items ++ w ∷ [] }
    ensures room { vec_capacity workers.old ≤ vec_capacity workers.new }
{
    match part {
        EitherWorker::Receiving(worker) => {
            let _ = workers.push(worker);
        }
        EitherWorker::Sending(_) => {}
    }
}

/// Takes the worker of the last part.
fn take_one<L: Drop, C: Drop, U: Drop, D: Drop, P: Drop>(
    parts: &mut Vec<EitherWorker<L, C, U, D, P>>,
    workers: &mut Vec<Worker<L, C, U>>,
)
    ensures taken { (w : ServedWorker L C U) (left : List (ServedPart L C U D P))
        → parts.old.items ≡ left ++ receiving_part w ∷ [] → length workers.old.items < vec_capacity workers.old
        → (workers.new.items ≡ workers.old.items ++ w ∷ []) × (parts.new.items ≡ left) }
    ensures room { vec_capacity workers.old ≤ vec_capacity workers.new }
{
    match parts.pop() {
        Some(part) => put_back(part, workers),
        None => {}
    }
}

/// Takes so many workers from before the parts, and sets these in the opposite order again.
fn scatter<L: Drop, C: Drop, U: Drop, D: Drop, P: Drop>(
    workers: &mut Vec<Worker<L, C, U>>,
    parts: &mut Vec<EitherWorker<L, C, U, D, P>>,
    count: usize,
)
    requires none { workers.old.items ≡ [] }
    requires room { count ≤ vec_capacity workers.old }
    ensures apart { (ws : List (ServedWorker L C U)) (rest : List (ServedPart L C U D P))
        → parts.old.items ≡ map receiving_part ws ++ rest → length ws ≡ count
        → (workers.new.items ≡ ws) × (parts.new.items ≡ reverse rest) }
{
    parts.reverse();
    let mut left = count;
    while left > 0 {
        left -= 1;
        take_one(parts, workers);
    }
}

/// Serves the links of all workers, and looks at the links that are sent on, each in a thread of its own where one can
/// be made. What looks at them stands with the last one first.
pub(crate) fn serve_both<
    S: Shares<U> + SharesBeside<P> + Sync,
    L: Link + Drop + Send,
    C: Clock + Drop + Send,
    U: Drop + Send,
    P: Drop + Send,
    R: Threads + Wait + Sync,
>(
    rt: &R,
    workers: &mut Vec<Worker<L, C, U>>,
    parts: &mut Vec<EitherWorker<L, C, U, C, P>>,
    desk: &S,
    limits: &ServingLimits,
)
    requires some { 0 < length workers.old.items }
    requires few { length workers.old.items ≤ MAX_LINKS }
    requires turns { (0 < limits.now.turns) × (limits.now.turns ≤ 2 ^ 40) }
    requires room { HasRoom parts.old.items (vec_capacity parts.old) (length workers.old.items) }
    requires may { (i : ℕ) (d : _) → i < length workers.old.items
        → MayServe S.is_of S.left desk.now limits.now i (slice_index_or workers.old.items i d) }
    requires may_look { MayLookAtLinks (sides_as S.is_beside S.looks_left S.looks) desk.now limits.now
        (length workers.old.items) parts.old.items }
    ensures count { length workers.new.items ≡ length workers.old.items }
    ensures on { (i : ℕ) (d : _) → i < length workers.old.items → ServesWith
        (shared_as S.given (trace_as S.list S.seen S.limit) S.is_of S.left S.broken
        (sides_as S.is_beside S.looks_left S.looks)) desk.now C.moments
        ⟦<L as TellingLink>⟧.tells
        limits.now i (slice_index_or workers.old.items i d) (slice_index_or workers.new.items i d) }
    ensures looked { LookAtLinks (sides_as S.is_beside S.looks_left S.looks) desk.now C.moments limits.now
        (length workers.old.items) parts.old.items parts.new.items }
{
    let count = workers.len();
    gather(workers, parts);
    gate(rt, parts.as_mut_slice(), desk, limits);
    scatter(workers, parts, count);
}
