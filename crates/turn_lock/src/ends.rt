//! How a lock is opened and closed.
ghost use Rattle.std.specs.Prelude.{◌≡◌, ◌≤◌, ◌<◌, [], None, Some, IfOk, IfErr, length, vec_capacity};
ghost use Rattle.turn_lock.specs.Turns.{opener};
ghost use Rattle.turn_lock.specs.Passes.{AreFresh, AreAll, IsClosed, passes_of};
ghost use Rattle.turn_lock.specs.Inside.Dealing.{AreDealt, AreJoined};

use crate::lock::TurnLock;
use crate::pass::Pass;
use crate::plays::OneOff;
use crate::rule::{Turned, View};
use atomic_table::{Refused, Seat, Table};
use std::alloc::{AllocFailed, Global};

// A lock with the one seat that all passes are cut from.
fn laid<E, X: Turned<E>>(
    alloc: Global,
    value: X,
    passes: u64,
) -> Result<(TurnLock<E, X>, Seat<Option<X>, View<E>>), X>
    requires stands { X.stands value [] }
    ensures ok { IfOk result (λ r. (r.0.table.shared.key ≡ passes)
        × (r.1.table_id ≡ r.0.table.shared.table_id) × (r.1.me ≡ (opener passes, []))) }
    ensures err { IfErr result (λ x. x ≡ value) }
{
    let mut slots = Vec::new(alloc);
    if let Err(failed) = slots.push(Some(value)) {
        let AllocFailed { value } = failed;
        slots.destroy_empty();
        return Err(value.unwrap());
    }
    match Table::new(alloc, &[0], slots, &passes) {
        Ok((table, seat)) => Ok((TurnLock { table }, seat)),
        Err(Refused { mut slots }) => {
            let value = slots.pop().unwrap();
            slots.destroy_empty();
            Err(value.unwrap())
        }
    }
}

impl<E, X: Turned<E>> TurnLock<E, X> {
    /// A lock over a value that stands for an empty history, with its passes in the order of their numbers. The value
    /// comes back where memory is wanting.
    pub fn open(
        alloc: Global,
        value: X,
        passes: u64,
    ) -> Result<(TurnLock<E, X>, Vec<Pass<E, X>>), X>
        requires stands { X.stands value [] }
        requires some { 0 < passes }
        ensures ok { IfOk result (λ r. (passes_of r.0 ≡ passes) × AreFresh r.0 r.1.items) }
        ensures err { IfErr result (λ x. x ≡ value) }
    {
        let Ok(mut all) = Vec::with_capacity(alloc, passes as usize) else {
            return Err(value);
        };
        let (lock, seat) = laid(alloc, value, passes)?;
        lock.deal(seat, passes, &mut all);
        Ok((lock, all))
    }

    // Cuts off one pass after another; the last is what is left.
    fn deal(&self, seat: Seat<Option<X>, View<E>>, passes: u64, all: &mut Vec<Pass<E, X>>)
        requires own { seat.table_id ≡ self.now.table.shared.table_id }
        requires opens { seat.me ≡ (opener passes, []) }
        requires some { 0 < passes }
        requires room { (all.old.items ≡ []) × (passes ≤ vec_capacity all.old) }
        ensures { AreDealt self.now.table.shared.table_id passes all.new.items }
    {
        let mut seat = seat;
        for k in 0..passes - 1 {
            let other = self.table.shared.split_seat::<OneOff>(&mut seat);
            let Ok(()) = all.push(Pass {
                seat: other,
                calls: 0,
            }) else {
                unreachable!()
            };
        }
        let Ok(()) = all.push(Pass { seat, calls: 0 }) else {
            unreachable!()
        };
    }

    /// The value, once each pass is back, in the order of their numbers. No memory is taken.
    pub fn close(self, passes: Vec<Pass<E, X>>) -> X
        requires some { 0 < passes_of self }
        requires all { AreAll self passes.items }
        ensures closed { IsClosed X.stands passes.items result }
    {
        let seat = self.gather(passes);
        let TurnLock { table } = self;
        let mut closed = table.close_with(seat);
        let value = closed.take(0);
        closed.free();
        value.unwrap()
    }

    // All passes in one.
    fn gather(&self, mut passes: Vec<Pass<E, X>>) -> Seat<Option<X>, View<E>>
        requires some { 0 < passes_of self.now }
        requires all { AreAll self.now passes.items }
        ensures { AreJoined self.now.table.shared.table_id passes.items result }
    {
        let Pass { mut seat, calls: _ } = passes.pop().unwrap();
        while let Some(pass) = passes.pop() {
            let Pass {
                seat: other,
                calls: _,
            } = pass;
            self.table.shared.join_seat::<OneOff>(&mut seat, other);
        }
        passes.destroy_empty();
        seat
    }
}
