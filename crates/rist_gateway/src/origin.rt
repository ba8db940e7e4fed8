//! What a sending end was made as, for contracts alone.
use std::marker::Brand;

/// A name for a sending end: what it was when it was made. Each call of a program picks it.
pub trait OnwardOrigin {
    ghost use Rattle.rist_gateway.specs.Onward.{OnwardState};

    ghost first: { OnwardState };
}

impl OnwardOrigin for Brand {
    ghost use Rattle.rist_gateway.specs.Onward.{nothing_first};

    ghost first = { nothing_first };
}
