//! What the workers of links make their steps on.
ghost use Rattle.turn_lock.specs.Turns.{entries};
ghost use Rattle.turn_lock.specs.Passes.{turns_seen};

use crate::desk::TurnDesk;
use crate::shared::Shared;
use outside_io::Sink;
use outside_net::Full;
use rist_desk::{DeskOrigin, Figured, Shares, Step};
use rist_ends::{Answer, Outs, Told};
use std::sync::Wait;
use turn_lock::Pass;

impl<N: DeskOrigin, K: Sink + Drop> Shares<Pass<Step, Shared<N, K>>> for TurnDesk<N, K> {
    ghost use Rattle.std.specs.Prelude.{None};
    ghost use Rattle.turn_lock.specs.Passes.{turns_left};
    ghost use Rattle.turn_desk.specs.Own.{IsOf, all_seen, own_list, HasSeenFault};

    ghost given = { N.given };

    ghost list = { own_list };

    ghost seen = { all_seen };

    ghost limit = { λ pass. None };

    ghost is_of = { IsOf };

    ghost left = { turns_left };

    ghost broken = { HasSeenFault };

    fn step<R: Wait>(
        &self,
        rt: &R,
        own: &mut Pass<Step, Shared<N, K>>,
        told: &Told<'_>,
        outs: &mut Outs,
    ) -> Result<Answer, Full> {
        Ok(self.step_in_turn(rt, own, told, outs))
    }

    fn step_figured<R: Wait>(
        &self,
        rt: &R,
        own: &mut Pass<Step, Shared<N, K>>,
        told: &Told<'_>,
        outs: &mut Outs,
    ) -> Result<Figured, Full> {
        Ok(self.step_figured_in_turn(rt, own, told, outs))
    }
}
