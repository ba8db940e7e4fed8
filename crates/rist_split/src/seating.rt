//! Receivers with their sinks, and the sinks back.
ghost use Rattle.std.specs.Prelude.{◌≡◌, ◌≤◌, ◌+◌, ◌∷◌, [], length, map, vec_capacity};
ghost use Rattle.rist_split.specs.Inside.Making.{receiver_of, sink_of};

use rist_ends::Receiver;
use rist_fan::Flow;

/// Sets each receiver with its sink into a flow, in room that was taken for them. The list that the sinks stood in keeps
/// its room.
pub(crate) fn seated<K: Drop>(
    sinks: &mut Vec<K>,
    mut receivers: Vec<Receiver>,
    mut flows: Vec<Flow<K>>,
) -> Vec<Flow<K>>
    requires receivers { length receivers.items ≡ length sinks.old.items }
    requires room { length sinks.old.items ≤ vec_capacity flows }
    requires none { flows.items ≡ [] }
    ensures sinks { map sink_of result.items ≡ sinks.old.items }
    ensures receivers { map receiver_of result.items ≡ receivers.items }
    ensures none { sinks.new.items ≡ [] }
    ensures room { vec_capacity sinks.new ≡ vec_capacity sinks.old }
{
    while let Some(sink) = sinks.pop() {
        let Some(receiver) = receivers.pop() else {
            unreachable!()
        };
        let _ = flows.insert(0, Flow { receiver, sink });
    }
    flows
}

/// Puts the sinks of flows back into a list that has room for them.
pub(crate) fn unseated<K: Drop>(first: Flow<K>, mut more: Vec<Flow<K>>, sinks: &mut Vec<K>)
    requires none { sinks.old.items ≡ [] }
    requires room { length more.items + 1 ≤ vec_capacity sinks.old }
    ensures sinks { sinks.new.items ≡ map sink_of (first ∷ more.items) }
{
    while let Some(flow) = more.pop() {
        let Flow { receiver: _, sink } = flow;
        let _ = sinks.insert(0, sink);
    }
    let Flow { receiver: _, sink } = first;
    let _ = sinks.insert(0, sink);
}
