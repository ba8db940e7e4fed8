//! What keeps the steps of one link.
ghost use Rattle.std.specs.Prelude.{◌≡◌, List};
ghost use Rattle.rist_desk.specs.declared.step.Step.{Step};

use outside_net::Trace;
use rist_desk::{Step, StepTrace, Worker};

/// The worker of a link, which keeps steps of its own.
pub trait OwnSteps {
    /// Its own steps, the oldest first.
    ghost own: { Self → List Step };

    /// Its own steps, the oldest first; none where it doesn't tell them.
    fn own(&self) -> &[Step]
        ensures value { result.now ≡ own self.now };
}

impl<L, C, U: StepTrace> OwnSteps for Worker<L, C, U> {
    ghost use Rattle.std.specs.Prelude.{unwrap_or, []};

    ghost own = { λ w. unwrap_or (U.list w.trace) [] };

    fn own(&self) -> &[Step] {
        self.trace.kept()
    }
}
