//! What several threads look at the links of a sink on.
ghost use Rattle.std.specs.Prelude.{◌≤◌, ◌+◌, ℕ};

use rist_desk::{Beside, Desk, DeskOrigin, Side, Step, StepTrace};
use std::sync::{Mutex, Wait};
use turn_desk::{Shared, TurnDesk};
use turn_lock::Pass;

/// A receiver that threads share, whose sink has links of its own. A thread that looks at one of them has something of
/// its own (`P`): a pass, or nothing.
pub trait SharesBeside<P> {
    ghost use Rattle.rist_desk.specs.declared.beside.Side.{Side};

    /// What a look may come to, at a moment in microseconds, on the link at a place.
    ghost looks: { ℕ → ℕ → Side → Type 0 };

    /// What is a thread's own is of this one, by this number, and no step was made with it.
    ghost is_beside: { Self → ℕ → P → Type 0 };

    /// How many looks may still be made with it.
    ghost looks_left: { P → ℕ };

    /// Hands one aside on to the sink: one read of its link at a place, at a moment in microseconds, and what is due there.
    /// A look is no step.
    fn aside<R: Wait>(&self, rt: &R, own: &mut P, us: u64, link: u8) -> Side
        requires own { (number : ℕ) × is_beside self.now number own.old }
        requires left { 1 ≤ looks_left own.old }
        ensures own { (number : ℕ) → is_beside self.now number own.old → is_beside self.now number own.new }
        ensures left { looks_left own.old ≤ looks_left own.new + 1 }
        ensures looks { looks us link result };
}

impl<N: DeskOrigin, T: StepTrace + Drop, K: Beside + Drop> SharesBeside<()>
    for Mutex<Desk<N, T, K>> {
    ghost use Rattle.std.specs.Prelude.{◌^◌};
    ghost use Rattle.turn_desk.specs.Asides.{LooksAt};

    ghost looks = { LooksAt K.contents K.faults K.looks };

    ghost is_beside = { λ desk number own. Unit {0} };

    ghost looks_left = { λ own. 2 ^ 58 };

    #[tactic(auto, using(crate::proofs::SideLemmas::looks_handed))]
    fn aside<R: Wait>(&self, rt: &R, own: &mut (), us: u64, link: u8) -> Side {
        let _ = own;
        self.lock(rt).aside(us, link)
    }
}

impl<N: DeskOrigin, K: Beside + Drop> SharesBeside<Pass<Step, Shared<N, K>>> for TurnDesk<N, K> {
    ghost use Rattle.turn_lock.specs.Passes.{turns_left};
    ghost use Rattle.turn_desk.specs.Asides.{LooksAt};
    ghost use Rattle.turn_desk.specs.Own.{IsBeside};

    ghost looks = { LooksAt K.contents K.faults K.looks };

    ghost is_beside = { IsBeside };

    ghost looks_left = { turns_left };

    fn aside<R: Wait>(
        &self,
        rt: &R,
        own: &mut Pass<Step, Shared<N, K>>,
        us: u64,
        link: u8,
    ) -> Side {
        self.aside(rt, own, us, link)
    }
}
