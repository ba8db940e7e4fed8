//! The end of a run over several flows.
ghost use Rattle.std.specs.Prelude.{◌≡◌, ◌<◌, ◌∷◌, ℕ, List, Some, length, slice_get};
ghost use Rattle.rist_fan.specs.Seen.{FanStep};
ghost use Rattle.fan_desk.specs.Own.{IsOf, passes_in};
ghost use Rattle.fan_run.specs.Concluded.{AreOwnedRows, HaveConcluded};

use fan_desk::{FanDesk, FanOrigin, FanStep, SharedFan, tell_end};
use outside_io::Sink;
use rist_fan::{Came, Flow};
use turn_lock::Pass;

/// Takes all passes back, in order, and tells each place the end. The one history of the run is made of the rows that the
/// passes own.
pub(crate) fn conclude_flows<N: FanOrigin, K: Sink + Drop>(
    desk: FanDesk<N, K>,
    passes: Vec<Pass<FanStep, SharedFan<N, K>>>,
    came: &mut Vec<Came>,
) -> (Flow<K>, Vec<Flow<K>>)
    requires some { 0 < passes_in desk }
    requires all { length passes.items ≡ passes_in desk }
    requires own { (k : ℕ) (p : _) → slice_get passes.items k ≡ Some p → IsOf desk k p }
    requires room { length came.old.items ≡ N.places }
    ensures places { length (result.0 ∷ result.1.items) ≡ N.places }
    ensures room { length came.new.items ≡ N.places }
    ensures concluded { (own : List (List FanStep)) → AreOwnedRows own passes.items
        → HaveConcluded N.given K.contents K.faults own passes.items (result.0 ∷ result.1.items) came.new.items }
{
    let fan = desk.close(passes);
    tell_end::<N, K>(fan, came)
}
