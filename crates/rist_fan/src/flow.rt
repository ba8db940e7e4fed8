//! One of several flows, and what a step came to there.
ghost use Rattle.std.specs.Prelude.{◌≡◌, [], None};

use outside_net::ReceiverFigures;
use rist_ends::{Answer, Outs, Receiver};

/// A receiver and its sink.
#[derive(Drop)]
pub struct Flow<K> {
    pub receiver: Receiver,
    pub sink: K,
}

/// What a step came to at one receiver, in memory of the caller's.
#[derive(Drop)]
pub struct Came {
    pub answer: Answer,
    /// The datagrams that it made, where the answer is `Made`.
    pub outs: Outs,
    /// The receiver's figures after it.
    pub figures: ReceiverFigures,
}

impl Came {
    /// Memory for a step, before there was one.
    pub fn none() -> Came
        ensures answer { result.answer ≡ Answer.Nothing }
        ensures outs { (result.outs.first.octets ≡ []) × (result.outs.second ≡ None) × (result.outs.asked ≡ []) }
    {
        Came {
            answer: Answer::Nothing,
            outs: Outs::none(),
            figures: ReceiverFigures::default(),
        }
    }
}
