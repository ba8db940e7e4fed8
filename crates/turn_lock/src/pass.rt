//! A pass of a turn lock.
ghost use Rattle.std.specs.Prelude.{◌≡◌, ◌+◌, [], length};
ghost use Rattle.turn_lock.specs.declared.rule.Stage.TheVariants.{Idle};

use crate::rule::View;
use atomic_table::Seat;

/// The right to take turns, 2^58 at most.
#[derive(Drop)]
pub struct Pass<E, X> {
    pub seat: Seat<Option<X>, View<E>>,
    /// How many turns were taken with it.
    pub calls: u64,
    ghost idle: { (seat.me.0.stage ≡ Idle) × (seat.me.1 ≡ []) × (length seat.me.0.owns ≡ 1) × (seat.me.0.met ≡ []) },
    ghost counts: { calls + seat.me.0.left ≡ 288230376151711744 },
}
