//! A step of all places, as an entry of a history.
use rist_desk::Step;
use std::collections::LinkedList;
use std::marker::Model;

/// A row of a history: for each place, in order, the step that was made there, or none where that place had ended. No
/// value of it is made: it is what a lock's history is of.
#[derive(Drop)]
pub struct FanStep {
    pub steps: LinkedList<Option<Step>>,
}

impl Model for FanStep {
    ghost use Rattle.rist_fan.specs.Seen.{FanStep};

    ghost Value = { FanStep };

    ghost view = { λ row. record { steps = row.steps } };
}
