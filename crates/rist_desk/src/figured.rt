//! A step with the figures after it.
use outside_net::ReceiverFigures;
use rist_ends::Answer;

/// What a step answered, and the figures of the receiver after it.
#[derive(Clone, Copy)]
pub struct Figured {
    pub answer: Answer,
    pub figures: ReceiverFigures,
}
