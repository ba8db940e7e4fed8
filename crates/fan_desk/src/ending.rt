//! The end, told to what a desk of several flows leaves.
ghost use Rattle.std.specs.Prelude.{◌≡◌, ◌∷◌, List, length};
ghost use Rattle.rist_fan.specs.Seen.{FanStep};
ghost use Rattle.rist_fan.specs.Fan.{FanEnded, flows_in};
ghost use Rattle.fan_desk.specs.Rows.{StandAs};

use crate::origin::FanOrigin;
use outside_io::Sink;
use rist_fan::{Came, Fan, Flow};

/// Tells each place the end, in order, which makes no datagrams: all that is held goes out to the sinks.
pub fn tell_end<N: FanOrigin, K: Sink + Drop>(
    fan: Fan<K>,
    came: &mut Vec<Came>,
) -> (Flow<K>, Vec<Flow<K>>)
    requires places { length (flows_in fan) ≡ N.places }
    requires room { length came.old.items ≡ N.places }
    ensures places { length (result.0 ∷ result.1.items) ≡ N.places }
    ensures room { length came.new.items ≡ N.places }
    ensures ended { (history : List FanStep) → StandAs N.given K.contents K.faults fan history
        → FanEnded N.given K.contents K.faults (result.0 ∷ result.1.items) history came.new.items }
{
    fan.finish(came)
}
