//! What a desk of several flows was made with, for contracts alone.
use std::marker::Brand;

/// A name for a desk of several flows: what each of its places was made with. Each call of a program picks it.
pub trait FanOrigin {
    ghost use Rattle.std.specs.Prelude.{ℕ, List};
    ghost use Rattle.rist_desk.specs.Desk.{Given};

    /// What the receiver at each place and its sink were made with.
    ghost given: { ℕ → Given };

    /// How many places there are.
    ghost places: { ℕ };

    /// The port of each place.
    ghost ports: { List ℕ };
}

impl FanOrigin for Brand {
    ghost use Rattle.std.specs.Prelude.{[]};
    ghost use Rattle.rist_desk.specs.Desk.{nothing_given};

    ghost given = { λ v. nothing_given };

    ghost places = { 1 };

    ghost ports = { [] };
}
