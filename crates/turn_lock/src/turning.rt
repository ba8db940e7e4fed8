//! A turn of a lock.
ghost use Rattle.std.specs.Prelude.{◌≡◌, ◌<◌, ◌+◌, ◌^◌, [], ◌∷◌, None, length, true, false};
ghost use Rattle.turn_lock.specs.declared.rule.Stage.TheVariants.{Idle, Holds};
ghost use Rattle.turn_lock.specs.History.{added};
ghost use Rattle.turn_lock.specs.Turns.{GivesBack, IsFree, Took, HasTurn, entries, after};
ghost use Rattle.turn_lock.specs.Passes.{IsPassOf, Stepped, turns_left};

use crate::lock::TurnLock;
use crate::pass::Pass;
use crate::plays::{PassOn, PassOnIf, Stay, Take};
use crate::rule::{Acts, Chosen, Turned, View};
use atomic_table::Seat;
use std::hint::spin_loop;
use std::marker::Brand;
use std::sync::Wait;

/// The word where any thread may take the turn.
const FREE: u64 = 0;
/// The word where the turn is taken, and no thread sleeps.
const TAKEN: u64 = 1;
/// The word where the turn is taken, and a thread may sleep.
const AWAITED: u64 = 2;
/// The word where the turn is taken, and a thread that has slept asks for the next.
const ASKED: u64 = 3;
/// The word where a thread that has slept may take the turn.
const LEFT: u64 = 4;

/// How often a thread looks before it sleeps: some microseconds.
const LOOKS: u32 = 100;

/// How often a thread is woken before it asks that the next turn be left to those that sleep.
const WAKES: u64 = 2;

impl<E, X: Turned<E>> TurnLock<E, X> {
    /// Waits for its turn, and makes one step of the value. The pass has then seen all turns up to this one.
    pub fn step<A, M, B, R: Wait>(&self, rt: &R, pass: &mut Pass<E, X>, ask: &A, room: &mut M) -> B
    where
        X: Acts<E, A, M, B>,
        requires asks { X.Acts.asks ask.now room.old }
        requires own { IsPassOf self.now pass.old }
        requires left { 0 < turns_left pass.old }
        ensures own { IsPassOf self.now pass.new }
        ensures stepped { Stepped X.Acts.adds X.Acts.answers pass.old pass.new ask.now room.old room.new result }
    {
        let mut value = self.take(rt, &mut pass.seat);
        let answer = value.act(ask, room);
        self.give::<A, M, B, Brand>(&mut pass.seat, value, ask, room, &answer);
        pass.calls += 1;
        answer
    }

    // Takes the turn where the word is `free`, and says whether it did.
    fn try_turn(&self, seat: &mut Seat<Option<X>, View<E>>, free: u64, taken: u64) -> bool
        requires own { seat.old.table_id ≡ self.now.table.shared.table_id }
        requires ready { (seat.old.me.0.stage ≡ Idle) × (length seat.old.me.0.owns ≡ 1) }
        requires words { IsFree free × (IsFree taken → ⊥) }
        ensures own { seat.new.table_id ≡ seat.old.table_id }
        ensures took { result ≡ true → Took X.stands seat.old.me seat.new.me }
        ensures missed { result ≡ false → seat.new.me ≡ seat.old.me }
    {
        self.table
            .shared
            .compare_exchange::<Take<X>>(seat, 0, free, taken)
            == free
    }

    // Tells the pass that has the turn that a thread waits, where the word is `seen`. Returns the word that it found.
    fn mark(&self, seat: &mut Seat<Option<X>, View<E>>, seen: u64, wanted: u64) -> u64
        requires own { seat.old.table_id ≡ self.now.table.shared.table_id }
        requires words { (IsFree seen → ⊥) × (IsFree wanted → ⊥) }
        ensures own { seat.new.table_id ≡ seat.old.table_id }
        ensures still { seat.new.me ≡ seat.old.me }
    {
        self.table
            .shared
            .compare_exchange::<Stay>(seat, 0, seen, wanted)
    }

    // Looks some times, as long as the turn is taken and no thread sleeps: a turn is mostly shorter than what it costs to sleep
    // and be woken. Returns the word that it saw.
    fn linger(&self) -> u64 {
        for _ in 0..LOOKS {
            let seen = self.table.shared.peek(0);
            if seen != TAKEN {
                return seen;
            }
            spin_loop();
        }
        TAKEN
    }

    // Waits for the turn. The value is then the pass's.
    fn wait<R: Wait>(&self, rt: &R, seat: &mut Seat<Option<X>, View<E>>)
        requires own { seat.old.table_id ≡ self.now.table.shared.table_id }
        requires ready { (seat.old.me.0.stage ≡ Idle) × (length seat.old.me.0.owns ≡ 1) }
        ensures own { seat.new.table_id ≡ seat.old.table_id }
        ensures took { Took X.stands seat.old.me seat.new.me }
    {
        let mut seen = FREE;
        let mut slept = 0u64;
        for _ in rt.forever() {
            if seen == FREE || (seen == LEFT && slept != 0) {
                // One that was woken can't know whether others still sleep.
                let taken = if slept == 0 { TAKEN } else { AWAITED };
                if self.try_turn(seat, seen, taken) {
                    return;
                }
                seen = self.linger();
                continue;
            }
            let wanted = if slept < WAKES { AWAITED } else { ASKED };
            if seen < wanted {
                let found = self.mark(seat, seen, wanted);
                if found != seen {
                    seen = found;
                    continue;
                }
                seen = wanted;
            }
            self.table.shared.park(rt, 0, (seen % (1 << 32)) as u32);
            slept = slept.saturating_add(1);
            seen = self.linger();
        }
        unreachable!()
    }

    // Waits for its turn, and takes the value.
    fn take<R: Wait>(&self, rt: &R, seat: &mut Seat<Option<X>, View<E>>) -> X
        requires own { seat.old.table_id ≡ self.now.table.shared.table_id }
        requires ready { (seat.old.me.0.stage ≡ Idle) × (length seat.old.me.0.owns ≡ 1) × (seat.old.me.1 ≡ []) }
        ensures own { seat.new.table_id ≡ seat.old.table_id }
        ensures turn { HasTurn X.stands seat.old.me.0 seat.new.me result }
    {
        self.wait(rt, seat);
        let value = self.table.shared.exchange(seat, 0, None);
        value.unwrap()
    }

    // Gives the value back, and passes the turn on. The ask, the memory and the answer are for the proof alone: the call
    // picks what they add.
    fn give<A, M, B, N: Chosen<E>>(
        &self,
        seat: &mut Seat<Option<X>, View<E>>,
        value: X,
        ask: &A,
        room: &M,
        answer: &B,
    )
        requires own { seat.old.table_id ≡ self.now.table.shared.table_id }
        requires holds { seat.old.me.0.stage ≡ Holds }
        requires out { seat.old.me.1 ≡ (0, None) ∷ [] }
        requires stands { X.stands value (added N.entry (entries seat.old.me.0.seen)) }
        ensures own { seat.new.table_id ≡ seat.old.table_id }
        ensures done { seat.new.me ≡ (after seat.old.me.0 N.entry, []) }
    {
        let _ = ask;
        let _ = room;
        let _ = answer;
        let empty = self.table.shared.exchange(seat, 0, Some(value));
        let None = empty else { unreachable!() };
        self.pass_on::<N>(seat);
    }

    // Passes the turn on, and wakes one that may sleep.
    fn pass_on<N: Chosen<E>>(&self, seat: &mut Seat<Option<X>, View<E>>)
        requires own { seat.old.table_id ≡ self.now.table.shared.table_id }
        requires holds { seat.old.me.0.stage ≡ Holds }
        requires back { GivesBack X.stands N.entry seat.old.me }
        ensures own { seat.new.table_id ≡ seat.old.table_id }
        ensures done { seat.new.me ≡ (after seat.old.me.0 N.entry, []) }
    {
        if self.pass_if::<N>(seat, TAKEN) {
            return;
        }
        if !self.pass_if::<N>(seat, AWAITED) {
            self.table.shared.swap::<PassOn<N>>(seat, 0, LEFT);
        }
        self.table.shared.wake_one(0);
    }

    // Passes the turn on to any thread where the word is `taken`, and says whether it did.
    fn pass_if<N: Chosen<E>>(&self, seat: &mut Seat<Option<X>, View<E>>, taken: u64) -> bool
        requires own { seat.old.table_id ≡ self.now.table.shared.table_id }
        requires holds { seat.old.me.0.stage ≡ Holds }
        requires back { GivesBack X.stands N.entry seat.old.me }
        ensures own { seat.new.table_id ≡ seat.old.table_id }
        ensures done { result ≡ true → seat.new.me ≡ (after seat.old.me.0 N.entry, []) }
        ensures kept { result ≡ false → seat.new.me ≡ seat.old.me }
    {
        self.table
            .shared
            .compare_exchange::<PassOnIf<N>>(seat, 0, taken, FREE)
            == taken
    }
}

impl<E, X> Pass<E, X> {
    /// How many turns were taken with it.
    pub fn calls(&self) -> u64
        ensures value { result + turns_left self.now ≡ 2 ^ 58 }
    {
        self.calls
    }
}
