//! The passes of a desk of several flows, and what is the workers' own.
ghost use Rattle.std.specs.Prelude.{◌≡◌, ◌≤◌, [], length, map, vec_capacity};
ghost use Rattle.std.specs.List.{All};
ghost use Rattle.fan_run.specs.Passes.{HasRooms, pass_of};

use fan_desk::{FanOrigin, FanStep, RowPass, SharedFan};
use outside_io::Sink;
use rist_fan::Came;
use turn_lock::Pass;

/// Sets each pass beside memory for what its steps come to, in room that was taken for them. The list that they stood in
/// keeps its room.
pub(crate) fn row_passes<N: FanOrigin, K: Sink + Drop>(
    passes: &mut Vec<Pass<FanStep, SharedFan<N, K>>>,
    mut rooms: Vec<Vec<Came>>,
    mut own: Vec<RowPass<N, K>>,
) -> Vec<RowPass<N, K>>
    requires rooms { length rooms.items ≡ length passes.old.items }
    requires places { All (λ came. length came.items ≡ N.places) rooms.items }
    requires room { length passes.old.items ≤ vec_capacity own }
    requires none { own.items ≡ [] }
    ensures passes { map pass_of result.items ≡ passes.old.items }
    ensures places { All (HasRooms N.places) result.items }
    ensures no_passes { passes.new.items ≡ [] }
    ensures same_room { vec_capacity passes.new ≡ vec_capacity passes.old }
{
    while let Some(pass) = passes.pop() {
        let Some(came) = rooms.pop() else {
            unreachable!()
        };
        let _ = own.push(RowPass { pass, came });
    }
    own.reverse();
    own
}

/// Puts the passes back into a list that has room for them.
pub(crate) fn passes_of<N: FanOrigin, K: Sink + Drop>(
    mut own: Vec<RowPass<N, K>>,
    passes: &mut Vec<Pass<FanStep, SharedFan<N, K>>>,
)
    requires none { passes.old.items ≡ [] }
    requires room { length own.items ≤ vec_capacity passes.old }
    ensures passes { passes.new.items ≡ map pass_of own.items }
{
    while let Some(one) = own.pop() {
        let RowPass { pass, came: _ } = one;
        let _ = passes.push(pass);
    }
    passes.reverse();
}
