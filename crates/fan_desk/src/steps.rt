//! What is done at a desk of several flows.
ghost use Rattle.std.specs.Prelude.{◌≡◌, ◌<◌, ◌+◌, ℕ, Some, IfOk, IfErr, length, slice_get, true};
ghost use Rattle.rist_ends.specs.Told.{IsFit, IsNoEnd};
ghost use Rattle.rist_ends.specs.declared.outcome.Answer.TheVariants.{Stopped};
ghost use Rattle.rist_desk.specs.Desk.{is_cut_off};
ghost use Rattle.turn_lock.specs.Passes.{Stepped, IsClosed, turns_left};
ghost use Rattle.rist_fan.specs.declared.flow.Came.{Came};
ghost use Rattle.rist_fan.specs.Fan.{AreNew, flows_in};
ghost use Rattle.fan_desk.specs.Rows.{Answers, AnswersFigured, StandAs, row_added};
ghost use Rattle.fan_desk.specs.Own.{AreFreshFor, AreAllOf, HasSeenFault, IsOf, KnowsEnds, passes_in};

use crate::desk::FanDesk;
use crate::fan_step::FanStep;
use crate::origin::FanOrigin;
use crate::shared::SharedFan;
use crate::told::FanTold;
use outside_io::Sink;
use rist_ends::Told;
use rist_fan::{Came, Fan};
use std::alloc::{AllocFailed, Global};
use std::marker::PhantomData;
use std::sync::Wait;
use turn_lock::{Pass, TurnLock};

impl<N: FanOrigin, K: Sink + Drop> FanDesk<N, K> {
    /// A desk over receivers that have made no step and sinks that hold nothing, with its passes in order. The fan comes
    /// back as it was where memory is wanting.
    pub fn open(
        alloc: Global,
        fan: Fan<K>,
        passes: u64,
    ) -> Result<(FanDesk<N, K>, Vec<Pass<FanStep, SharedFan<N, K>>>), Fan<K>>
        requires places { length (flows_in fan) ≡ N.places }
        requires fresh { AreNew N.given K.contents K.faults (flows_in fan) }
        requires some { 0 < passes }
        ensures ok { IfOk result (λ r. (passes_in r.0 ≡ passes) × AreFreshFor r.0 r.1.items) }
        ensures err { IfErr result (λ f. f ≡ fan) }
    {
        let fan = match Box::new(alloc, fan) {
            Ok(fan) => fan,
            Err(AllocFailed { value }) => return Err(value),
        };
        let shared = SharedFan {
            fan,
            of: PhantomData,
        };
        match TurnLock::open(alloc, shared, passes) {
            Ok((lock, all)) => Ok((FanDesk { lock }, all)),
            Err(SharedFan { fan, of: _ }) => Err(Box::into_inner(fan)),
        }
    }

    /// Waits for its turn. The receiver at the place then makes its step of what is told, and each other one, or each where
    /// there is no such place, that of a datagram that was refused; a tick goes to all. What came of it at each place stands
    /// in `came`. The row of these steps is added to the history, unless each place had ended.
    pub fn step_in_turn<R: Wait>(
        &self,
        rt: &R,
        pass: &mut Pass<FanStep, SharedFan<N, K>>,
        place: Option<u8>,
        told: &Told<'_>,
        came: &mut Vec<Came>,
    )
        requires fits { IsFit told.now }
        requires going { IsNoEnd told.now.what }
        requires room { length came.old.items ≡ N.places }
        requires own { IsOf self.now told.now.link pass.old }
        requires left { 0 < turns_left pass.old }
        ensures room { length came.new.items ≡ N.places }
        ensures own { IsOf self.now told.now.link pass.new }
        // Each place answers what is due there after what it has seen of the history, whatever came of it at others.
        ensures stepped { Stepped row_added (Answers N.given) pass.old pass.new
            (record { place = place; told = told.now }) came.old.items came.new.items tt }
        // So, and what came of it has the figures of each place after it.
        ensures figured { Stepped row_added (AnswersFigured N.given) pass.old pass.new
            (record { place = place; told = told.now }) came.old.items came.new.items tt }
        // A place whose write failed before, by the turns that the pass had seen, makes no step.
        ensures failed { (v : ℕ) (c : Came) → slice_get came.new.items v ≡ Some c → HasSeenFault v pass.old
            → c.answer ≡ Stopped }
        // One that makes no step in a row of the pass is seen to have ended.
        ensures ends { KnowsEnds N.places pass.old → KnowsEnds N.places pass.new }
        // One that found a failed write, or in which one failed, is seen to have ended.
        ensures broken { (v : ℕ) (c : Came) → slice_get came.new.items v ≡ Some c → is_cut_off c.answer ≡ true
            → HasSeenFault v pass.new }
    {
        self.lock
            .step::<FanTold<'_>, Vec<Came>, (), R>(rt, pass, &FanTold { place, told: *told }, came);
    }

    /// The receivers and their sinks, once each pass is back, in order. Each stands for what it saw of the one history of
    /// which each pass has its own rows. No memory is taken.
    pub fn close(self, passes: Vec<Pass<FanStep, SharedFan<N, K>>>) -> Fan<K>
        requires some { 0 < passes_in self }
        requires all { AreAllOf self passes.items }
        ensures places { length (flows_in result) ≡ N.places }
        ensures closed { IsClosed (StandAs N.given K.contents K.faults) passes.items result }
    {
        let FanDesk { lock } = self;
        let SharedFan { fan, of: _ } = lock.close(passes);
        Box::into_inner(fan)
    }
}
