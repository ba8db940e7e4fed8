//! What a desk was made with, for contracts alone.
use std::marker::Brand;

/// A name for a desk: what it was made with. Each call of a program picks it.
pub trait DeskOrigin {
    ghost use Rattle.rist_desk.specs.Desk.{Given};

    ghost given: { Given };
}

impl DeskOrigin for Brand {
    ghost use Rattle.rist_desk.specs.Desk.{nothing_given};

    ghost given = { nothing_given };
}
