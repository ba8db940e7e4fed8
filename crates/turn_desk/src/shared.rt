//! What the lock is passed on over.
use crate::parts::Parts;
use outside_io::Sink;
use rist_desk::{DeskOrigin, Figured, Step};
use rist_ends::{Answer, Outs, Told};
use std::marker::PhantomData;
use turn_lock::{Acts, Turned};

/// A receiver and its sink, under a name. They lie in a box, so that a turn moves no more than a pointer.
#[derive(Drop)]
pub struct Shared<N, K> {
    pub parts: Box<Parts<K>>,
    pub of: PhantomData<N>,
}

impl<N: DeskOrigin, K: Sink> Turned<Step> for Shared<N, K> {
    ghost use Rattle.turn_desk.specs.Stands.{Stands};

    ghost stands = { λ v h. Stands N.given K.contents K.faults v.parts.value.receiver v.parts.value.sink h };
}

impl<'a, N: DeskOrigin, K: Sink> Acts<Step, Told<'a>, Outs, Answer> for Shared<N, K> {
    ghost use Rattle.turn_desk.specs.Stands.{MayBeTold, Answers, step_added};

    ghost asks = { λ told outs. MayBeTold told };

    ghost adds = { step_added };

    ghost answers = { Answers N.given };

    fn act(&mut self, ask: &Told<'a>, room: &mut Outs) -> Answer {
        let parts = &mut *self.parts;
        parts.receiver.step_into(ask, room, &mut parts.sink)
    }
}

impl<'a, N: DeskOrigin, K: Sink> Acts<Step, Told<'a>, Outs, Figured> for Shared<N, K> {
    ghost use Rattle.turn_desk.specs.Stands.{MayBeTold, AnswersFigured, figured_added};

    ghost asks = { λ told outs. MayBeTold told };

    ghost adds = { figured_added };

    ghost answers = { AnswersFigured N.given };

    fn act(&mut self, ask: &Told<'a>, room: &mut Outs) -> Figured {
        let parts = &mut *self.parts;
        let answer = parts.receiver.step_into(ask, room, &mut parts.sink);
        let figures = parts.receiver.figures();
        Figured { answer, figures }
    }
}
