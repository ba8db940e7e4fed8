//! What is done at a desk that is shared in turns.
ghost use Rattle.std.specs.Prelude.{◌≡◌, ◌<◌, ◌≤◌, ◌+◌, [], ℕ, None, Some, IfOk, IfErr};
ghost use Rattle.rist_ends.specs.Told.{IsFit, IsNoEnd};
ghost use Rattle.rist_desk.specs.Desk.{IsNew, state_of};
ghost use Rattle.turn_lock.specs.Passes.{Stepped, IsClosed, turns_left};
ghost use Rattle.turn_desk.specs.Stands.{Answers, AnswersFigured, StandAs, figured_added, step_added};
ghost use Rattle.turn_desk.specs.Asides.{LooksAt, no_added};
ghost use Rattle.turn_desk.specs.Own.{AreFreshFor, AreAllOf, IsOf, IsBeside, passes_in};

use crate::aside::{Aside, NoRoom};
use crate::desk::TurnDesk;
use crate::parts::Parts;
use crate::shared::Shared;
use outside_io::Sink;
use rist_desk::{Beside, DeskOrigin, Figured, Side, Step};
use rist_ends::{Answer, Outs, Receiver, Told};
use std::alloc::{AllocFailed, Global};
use std::marker::PhantomData;
use std::sync::Wait;
use turn_lock::{Pass, TurnLock};

impl<N: DeskOrigin, K: Sink + Drop> TurnDesk<N, K> {
    /// A desk over a receiver that has made no step and an empty sink, with its passes in order. Both come back where
    /// memory is wanting.
    pub fn open(
        alloc: Global,
        receiver: Receiver,
        sink: K,
        passes: u64,
    ) -> Result<(TurnDesk<N, K>, Vec<Pass<Step, Shared<N, K>>>), Parts<K>>
        requires fresh { IsNew N.given (state_of receiver (Some []) None (K.contents sink) (K.faults sink)) }
        requires few { (0 < passes) × (passes ≤ 32) }
        ensures ok { IfOk result (λ r. (passes_in r.0 ≡ passes) × AreFreshFor r.0 r.1.items) }
        ensures err { IfErr result (λ p. (p.receiver ≡ receiver) × (p.sink ≡ sink)) }
    {
        let parts = match Box::new(alloc, Parts { receiver, sink }) {
            Ok(parts) => parts,
            Err(AllocFailed { value }) => return Err(value),
        };
        let shared = Shared {
            parts,
            of: PhantomData,
        };
        match TurnLock::open(alloc, shared, passes) {
            Ok((lock, all)) => Ok((TurnDesk { lock }, all)),
            Err(Shared { parts, of: _ }) => Err(Box::into_inner(parts)),
        }
    }

    /// Waits for its turn and makes one step of the pass's link; the datagrams that it makes stand in `outs`.
    pub fn step_in_turn<R: Wait>(
        &self,
        rt: &R,
        pass: &mut Pass<Step, Shared<N, K>>,
        told: &Told<'_>,
        outs: &mut Outs,
    ) -> Answer
        requires fits { IsFit told.now }
        requires going { IsNoEnd told.now.what }
        requires own { IsOf self.now told.now.link pass.old }
        requires left { 0 < turns_left pass.old }
        ensures own { IsOf self.now told.now.link pass.new }
        ensures stepped { Stepped step_added (Answers N.given) pass.old pass.new told.now outs.old outs.new result }
    {
        self.lock
            .step::<Told<'_>, Outs, Answer, R>(rt, pass, told, outs)
    }

    /// Waits for its turn and makes one step of the pass's link, as `step_in_turn` does; the figures are those after it.
    pub fn step_figured_in_turn<R: Wait>(
        &self,
        rt: &R,
        pass: &mut Pass<Step, Shared<N, K>>,
        told: &Told<'_>,
        outs: &mut Outs,
    ) -> Figured
        requires fits { IsFit told.now }
        requires going { IsNoEnd told.now.what }
        requires own { IsOf self.now told.now.link pass.old }
        requires left { 0 < turns_left pass.old }
        ensures own { IsOf self.now told.now.link pass.new }
        ensures stepped { Stepped figured_added (AnswersFigured N.given) pass.old pass.new told.now outs.old outs.new
            result }
    {
        self.lock
            .step::<Told<'_>, Outs, Figured, R>(rt, pass, told, outs)
    }

    /// The receiver and the sink, once each pass is back, in order. They stand for the one history of which each pass has
    /// its own steps. No memory is taken.
    pub fn close(self, passes: Vec<Pass<Step, Shared<N, K>>>) -> Parts<K>
        requires some { 0 < passes_in self }
        requires all { AreAllOf self passes.items }
        ensures closed { IsClosed (StandAs N.given K.contents K.faults) passes.items result }
    {
        let TurnDesk { lock } = self;
        let Shared { parts, of: _ } = lock.close(passes);
        Box::into_inner(parts)
    }
}

impl<N: DeskOrigin, K: Beside + Drop> TurnDesk<N, K> {
    /// Waits for its turn and hands one aside on to the sink: one read of its link at a place, at a moment in
    /// microseconds, and what is due there. It is no step: the history stays as it is.
    pub fn aside<R: Wait>(
        &self,
        rt: &R,
        pass: &mut Pass<Step, Shared<N, K>>,
        us: u64,
        link: u8,
    ) -> Side
        requires own { (number : ℕ) × IsBeside self.now number pass.old }
        requires left { 0 < turns_left pass.old }
        ensures own { (number : ℕ) → IsBeside self.now number pass.old → IsBeside self.now number pass.new }
        ensures left { turns_left pass.old ≡ turns_left pass.new + 1 }
        ensures stepped { Stepped no_added
            (λ h ask was is answer. LooksAt K.contents K.faults K.looks ask.us ask.link answer)
            pass.old pass.new (record { us = us; link = link }) (record {}) (record {}) result }
    {
        let mut room = NoRoom;
        self.lock
            .step::<Aside, NoRoom, Side, R>(rt, pass, &Aside { us, link }, &mut room)
    }
}
