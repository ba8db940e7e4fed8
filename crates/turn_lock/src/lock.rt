//! The lock.
ghost use Rattle.std.specs.Prelude.{◌≡◌};

use crate::rule::{Law, Turned, View};
use atomic_table::Table;
use std::alloc::Global;

/// A lock over a value that stands for a history. A turn goes to whichever thread comes to it first, as with a `Mutex`. One
/// that was woken some times and found the turn taken asks for the next, which is then left to those that have slept.
#[derive(Drop)]
pub struct TurnLock<E, X: Turned<E>> {
    /// Its one word says whether the turn is taken, and whether a thread may sleep. Its slot has the value between two turns.
    pub table: Table<Option<X>, View<E>, u64, Law<X>, Global>,
    ghost one: { (table.shared.table_id.words ≡ 1) × (table.shared.table_id.slots ≡ 1) },
}
