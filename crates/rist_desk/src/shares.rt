//! What the steps of several threads are made on.
ghost use Rattle.std.specs.Prelude.{◌≡◌, ◌≤◌, ◌+◌, ℕ, IfOk, OnErr, List, Option, true};
ghost use Rattle.std.specs.Option.{option_map};
ghost use Rattle.rist_ends.specs.Told.{IsFit, IsNoEnd};
ghost use Rattle.rist_ends.specs.Outcome.{outcome_with};
ghost use Rattle.rist_desk.specs.Made.{step_after, steps_with};
ghost use Rattle.rist_desk.specs.Desk.{AreFiguresThere, is_cut_off};
ghost use Rattle.rist_desk.specs.Sending.{IsDueThere, LacksRoom};

use crate::desk::Desk;
use crate::figured::Figured;
use crate::origin::DeskOrigin;
use crate::trace::{StepTrace, keep};
use outside_io::Sink;
use outside_net::{Full, Trace};
use rist_ends::{Answer, Outs, Told};
use std::sync::{Mutex, Wait};

/// A receiver that threads share. Each has something of its own (`U`) that keeps its steps, or stands for them.
pub trait Shares<U> {
    ghost use Rattle.rist_desk.specs.declared.step.Step.{Step};
    ghost use Rattle.rist_desk.specs.Desk.{Given};

    /// What it was made with.
    ghost given: { Given };

    /// A thread's own steps, the oldest first, where they are told.
    ghost list: { U → Option (List Step) };

    /// All steps that a thread has seen, its own and those of others, the oldest first, where they are told.
    ghost seen: { U → Option (List Step) };

    /// How many of its own there may be, where there is such a limit.
    ghost limit: { U → Option ℕ };

    /// What is a thread's own is of this one, for the steps of a link.
    ghost is_of: { Self → ℕ → U → Type 0 };

    /// How many steps may still be made with it.
    ghost left: { U → ℕ };

    /// By what it has seen, a write of the sink failed before.
    ghost broken: { U → Type 0 };

    /// Makes one step; the datagrams that it makes stand in `outs`. It is Full, and none is made, only where a trace is
    /// at its limit.
    fn step<R: Wait>(
        &self,
        rt: &R,
        own: &mut U,
        told: &Told<'_>,
        outs: &mut Outs,
    ) -> Result<Answer, Full>
        requires fits { IsFit told.now }
        requires going { IsNoEnd told.now.what }
        requires own { is_of self.now told.now.link own.old }
        requires left { 1 ≤ left own.old }
        ensures own { is_of self.now told.now.link own.new }
        ensures left { left own.old ≤ left own.new + 1 }
        ensures list { IfOk result (λ answer. list own.new
            ≡ option_map (steps_with (step_after told.now (outcome_with answer outs.new))) (list own.old)) }
        ensures same { OnErr result (list own.new ≡ list own.old) }
        ensures unseen { OnErr result (seen own.new ≡ seen own.old) }
        ensures due { IfOk result (λ answer. IsDueThere given (seen own.old) (seen own.new) told.now
            (outcome_with answer outs.new)) }
        ensures full { OnErr result (LacksRoom given (limit own.new) (list own.new)) }
        // A step that found a failed write, or in which one failed, tells of it.
        ensures broken { IfOk result (λ answer. is_cut_off answer ≡ true → broken own.new) };

    /// Makes one step as `step` does, and tells the figures after it, of the same moment: no step of another thread lies between.
    fn step_figured<R: Wait>(
        &self,
        rt: &R,
        own: &mut U,
        told: &Told<'_>,
        outs: &mut Outs,
    ) -> Result<Figured, Full>
        requires fits { IsFit told.now }
        requires going { IsNoEnd told.now.what }
        requires own { is_of self.now told.now.link own.old }
        requires left { 1 ≤ left own.old }
        ensures own { is_of self.now told.now.link own.new }
        ensures left { left own.old ≤ left own.new + 1 }
        ensures list { IfOk result (λ f. list own.new
            ≡ option_map (steps_with (step_after told.now (outcome_with f.answer outs.new))) (list own.old)) }
        ensures same { OnErr result (list own.new ≡ list own.old) }
        ensures unseen { OnErr result (seen own.new ≡ seen own.old) }
        ensures due { IfOk result (λ f. IsDueThere given (seen own.old) (seen own.new) told.now
            (outcome_with f.answer outs.new)) }
        ensures full { OnErr result (LacksRoom given (limit own.new) (list own.new)) }
        ensures broken { IfOk result (λ f. is_cut_off f.answer ≡ true → broken own.new) }
        ensures figures { IfOk result (λ f.
            AreFiguresThere given told.now (outcome_with f.answer outs.new) f.figures) };
}

impl<N: DeskOrigin, T: StepTrace + Drop, K: Sink + Drop, U: StepTrace> Shares<U>
    for Mutex<Desk<N, T, K>> {
    ghost use Rattle.std.specs.Prelude.{◌^◌, None};

    ghost given = { N.given };

    ghost list = { U.list };

    // A trace of the thread's own knows nothing of the others' steps.
    ghost seen = { λ own. None };

    ghost limit = { U.limit };

    ghost is_of = { λ desk link own. Unit {0} };

    ghost left = { λ own. 2 ^ 58 };

    ghost broken = { λ own. Unit {0} };

    fn step<R: Wait>(
        &self,
        rt: &R,
        own: &mut U,
        told: &Told<'_>,
        outs: &mut Outs,
    ) -> Result<Answer, Full> {
        own.room()?;
        let answer = self.lock(rt).step(told, outs)?;
        keep(own, told, answer, outs);
        Ok(answer)
    }

    fn step_figured<R: Wait>(
        &self,
        rt: &R,
        own: &mut U,
        told: &Told<'_>,
        outs: &mut Outs,
    ) -> Result<Figured, Full> {
        own.room()?;
        let figured = self.lock(rt).step_figured(told, outs)?;
        keep(own, told, figured.answer, outs);
        Ok(figured)
    }
}
