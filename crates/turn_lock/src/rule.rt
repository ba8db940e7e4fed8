//! What a value has to say of itself, and what the table of a lock keeps of it.
use atomic_table::TableRule;
use std::collections::LinkedList;
use std::marker::{Brand, PhantomData};

/// A value that stands for a history: a list of entries, the newest first.
pub trait Turned<E> {
    ghost use Rattle.std.specs.Prelude.{List};

    /// The value stands for this history.
    ghost stands: { Self → List E → Type 0 };
}

/// One kind of step of a value: what it is told, memory of the caller's that it may write to, and what it answers.
pub trait Acts<E, A, M, B>: Turned<E> {
    ghost use Rattle.std.specs.Prelude.{List, Option};
    ghost use Rattle.turn_lock.specs.History.{added};

    /// What may be told, with what memory.
    ghost asks: { A → M → Type 0 };

    /// What a step adds to the history, of what it is told, what it leaves in the memory, and what it answers.
    ghost adds: { A → M → B → Option E };

    /// What a step may leave and answer, of the history before.
    ghost answers: { List E → A → M → M → B → Type 0 };

    /// Makes the step.
    fn act(&mut self, ask: &A, room: &mut M) -> B
        requires asks { asks ask.now room.old }
        ensures stands { (h : List E) → Self.Turned.stands self.old h
            → Self.Turned.stands self.new (added (adds ask.now room.new result) h) }
        ensures answers { (h : List E) → Self.Turned.stands self.old h
            → answers h ask.now room.old room.new result };
}

/// One turn: the pass that had it, and what it added, if anything.
pub struct Turn<E> {
    pub pass: u64,
    pub entry: Option<E>,
}

/// Where a pass stands.
pub enum Stage {
    /// It has no turn.
    Idle,
    /// It has its turn, and the value with it.
    Holds,
}

/// What a pass knows. No value of it is made.
pub struct View<E> {
    pub stage: Stage,
    /// The turns that it has seen, the newest first.
    pub seen: LinkedList<Turn<E>>,
    /// The first of the numbers that it has turns under.
    pub first: u64,
    /// For each of its numbers what was added under it, the newest first.
    pub owns: LinkedList<LinkedList<E>>,
    /// What the passes saw that it took in, in their order.
    pub met: LinkedList<LinkedList<Turn<E>>>,
    /// How many turns may still be taken with it.
    pub left: u64,
}

/// What a turn adds. The call that passes the turn on picks it, for the proof alone.
pub trait Chosen<E> {
    ghost use Rattle.std.specs.Prelude.{Option};

    ghost entry: { Option E };
}

impl<E> Chosen<E> for Brand {
    ghost use Rattle.std.specs.Prelude.{None};

    ghost entry = { None };
}

/// The rule of a lock's table.
pub struct Law<X> {
    value: PhantomData<X>,
}

impl<E, X: Turned<E>> TableRule<Option<X>, View<E>, u64> for Law<X> {
    ghost use Rattle.turn_lock.specs.Turns.{Kept, opener};

    ghost holds = { Kept X.stands };

    ghost first = { opener };
}
