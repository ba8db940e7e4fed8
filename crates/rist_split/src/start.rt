//! What a split begins with, for contracts alone.
use std::marker::Brand;

/// A name for a split: what it began with. Each call of a program picks it.
pub trait Start {
    ghost use Rattle.rist_split.specs.Inside.Splitting.{SplitStart};

    ghost start: { SplitStart };
}

impl Start for Brand {
    ghost use Rattle.rist_split.specs.Inside.Splitting.{no_start};

    ghost start = { no_start };
}
