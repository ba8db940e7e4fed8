//! Links served on both sides of what is shared.
ghost use Rattle.std.specs.Prelude.{◌≡◌, ◌<◌, ◌≤◌, ◌+◌, ◌^◌, ℕ, Some, IfNone, false, length, slice_index_or};
ghost use Rattle.rist_gateway.specs.Workers.{IsPlaced, LooksWith, MayBegin, MayLook, ServesPart};
ghost use Rattle.rist_gateway.specs.Workers.{shared_as, sides_as, trace_as};
ghost use Rattle.rist_gateway.specs.Sides.{IsSideServed, SideTurn};

use crate::either_worker::EitherWorker;
use crate::found::{Found, end_by, found_after, is_quiet, pause_micros, still_after};
use crate::shares_beside::SharesBeside;
use crate::side_worker::{SideEnded, SideWorker};
use outside_net::{Clock, Link, TellingLink};
use rist_desk::{ServingLimits, Shares, serve_one};
use std::sync::Wait;
use std::sync::atomic::AtomicU64;
use std::thread;
use std::thread::Threads;
use std::time::Duration;

/// Waits between two turns, by how many there were since the sink was put to last. Nothing that is shared is held meanwhile.
fn pause<R: Wait>(rt: &R, still: u64) {
    let micros = pause_micros(still);
    AtomicU64::new(0).park_timeout(rt, 0, Duration::from_micros(micros));
}

/// Makes one turn: one moment, and one aside. It says why it is the last, if it is.
fn side_turn<S: SharesBeside<P>, P, C: Clock, R: Wait>(
    rt: &R,
    desk: &S,
    side: &mut SideWorker<C, P>,
    idle: u64,
    last: bool,
    found: &mut Option<Found>,
) -> Option<SideEnded>
    requires own { (number : ℕ) × S.is_beside desk.now number side.old.pass }
    requires left { 1 ≤ S.looks_left side.old.pass }
    ensures own { (number : ℕ) → S.is_beside desk.now number side.old.pass
        → S.is_beside desk.now number side.new.pass }
    ensures left { S.looks_left side.old.pass ≤ S.looks_left side.new.pass + 1 }
    ensures made { SideTurn S.looks side.old.link (C.moments side.old.clock) (C.moments side.new.clock)
        idle last found.old found.new result }
    ensures link { side.new.link ≡ side.old.link }
    ensures more { IfNone result (last ≡ false) }
{
    let us = side.clock.now();
    let looked = desk.aside(rt, &mut side.pass, us, side.link);
    *found = found_after(*found, us, looked);
    end_by(looked, last, is_quiet(idle, *found, us))
}

/// Makes turns up to the last, and says why it was the last.
fn side_turns<S: SharesBeside<P>, P, C: Clock, R: Wait>(
    rt: &R,
    desk: &S,
    side: &mut SideWorker<C, P>,
    limits: &ServingLimits,
) -> SideEnded
    requires turns { (0 < limits.now.turns) × (limits.now.turns ≤ 2 ^ 40) }
    requires own { (number : ℕ) × S.is_beside desk.now number side.old.pass }
    requires left { limits.now.turns ≤ S.looks_left side.old.pass }
    ensures own { (number : ℕ) → S.is_beside desk.now number side.old.pass
        → S.is_beside desk.now number side.new.pass }
    ensures served { (told : ℕ → ℕ) → C.moments side.old.clock ≡ Some told
        → IsSideServed S.looks side.old.link limits.now told result (C.moments side.new.clock) }
    ensures link { side.new.link ≡ side.old.link }
{
    let mut found = None;
    let mut made: u64 = 0;
    let mut still: u64 = 0;
    'turns: loop {
        let last = made + 1 >= limits.turns;
        let before = found;
        match side_turn(rt, desk, side, limits.idle, last, &mut found) {
            Some(end) => return end,
            None => {}
        }
        still = still_after(still, before, found);
        pause(rt, still);
        made += 1;
    }
}

/// Makes all turns of a side worker.
fn serve_side<S: SharesBeside<P>, P, C: Clock, R: Wait>(
    rt: &R,
    desk: &S,
    side: &mut SideWorker<C, P>,
    place: usize,
    limits: &ServingLimits,
)
    requires turns { (0 < limits.now.turns) × (limits.now.turns ≤ 2 ^ 40) }
    requires may { MayLook (sides_as S.is_beside S.looks_left S.looks) desk.now limits.now place side.old }
    ensures { LooksWith (sides_as S.is_beside S.looks_left S.looks) desk.now C.moments
        limits.now place side.old side.new }
{
    // The place is that of its pass, for the proof alone.
    let _ = place;
    let end = side_turns(rt, desk, side, limits);
    side.end = Some(end);
}

/// Serves one part.
fn serve_part<S: Shares<U> + SharesBeside<P>, L: Link, C: Clock, U, D: Clock, P, R: Wait>(
    rt: &R,
    desk: &S,
    part: &mut EitherWorker<L, C, U, D, P>,
    place: usize,
    limits: &ServingLimits,
)
    requires placed { IsPlaced part.old place }
    requires turns { (0 < limits.now.turns) × (limits.now.turns ≤ 2 ^ 40) }
    requires may { MayBegin (shared_as S.given (trace_as S.list S.seen S.limit) S.is_of S.left S.broken
        (sides_as S.is_beside S.looks_left S.looks)) desk.now limits.now place part.old }
    ensures { ServesPart (shared_as S.given (trace_as S.list S.seen S.limit) S.is_of S.left S.broken
        (sides_as S.is_beside S.looks_left S.looks)) desk.now C.moments D.moments
        ⟦<L as TellingLink>⟧.tells
        limits.now place part.old part.new }
{
    match part {
        EitherWorker::Receiving(worker) => serve_one(rt, desk, worker, place, limits),
        EitherWorker::Sending(side) => serve_side(rt, desk, side, place, limits),
    }
}

/// Serves all parts, each in a thread of its own where one can be made: receives on the links of the first ones, whose
/// places are 0, 1 and so on, at most sixteen, and looks at the links of the others, on which the shared sink sends.
pub fn gate<
    S: Shares<U> + SharesBeside<P> + Sync,
    L: Link + Drop + Send,
    C: Clock + Drop + Send,
    U: Drop + Send,
    D: Clock + Drop + Send,
    P: Drop + Send,
    R: Threads + Wait + Sync,
>(rt: &R, parts: &mut [EitherWorker<L, C, U, D, P>], desk: &S, limits: &ServingLimits)
    requires some { 0 < length parts.old }
    requires placed { (i : ℕ) (d : _) → i < length parts.old → IsPlaced (slice_index_or parts.old i d) i }
    requires turns { (0 < limits.now.turns) × (limits.now.turns ≤ 2 ^ 40) }
    requires may { (i : ℕ) (d : _) → i < length parts.old → MayBegin
        (shared_as S.given (trace_as S.list S.seen S.limit) S.is_of S.left S.broken
        (sides_as S.is_beside S.looks_left S.looks)) desk.now limits.now i (slice_index_or parts.old i d) }
    ensures { (i : ℕ) (d : _) → i < length parts.old → ServesPart
        (shared_as S.given (trace_as S.list S.seen S.limit) S.is_of S.left S.broken
        (sides_as S.is_beside S.looks_left S.looks)) desk.now C.moments D.moments
        ⟦<L as TellingLink>⟧.tells
        limits.now i (slice_index_or parts.old i d) (slice_index_or parts.new i d) }
{
    let count = parts.len();
    thread::for_each_mut(
        rt,
        parts,
        count,
        &|i, part| { serve_part(rt, desk, part, i, limits) },
    );
}
