//! Receivers with their sinks, and the sinks back.
ghost use Rattle.std.specs.Prelude.{◌≡◌, ◌≤◌, ◌+◌, ◌∷◌, [], length, map, vec_capacity};
ghost use Rattle.run_fan.specs.Inside.Making.{counts_of, receiver_of, sink_of};

use rist_ends::{Counts, Receiver};
use rist_fan::Flow;

/// Sets each receiver with its sink into a flow, in room that was taken for them. The list that the sinks stood in keeps
/// its room.
pub(crate) fn seated<K: Drop>(
    sinks: &mut Vec<K>,
    mut receivers: Vec<Receiver>,
    mut flows: Vec<Flow<K>>,
) -> Vec<Flow<K>>
    requires receivers { length receivers.items ≡ length sinks.old.items }
    requires room { length sinks.old.items ≤ vec_capacity flows }
    requires none { flows.items ≡ [] }
    ensures sinks { map sink_of result.items ≡ sinks.old.items }
    ensures receivers { map receiver_of result.items ≡ receivers.items }
    ensures none { sinks.new.items ≡ [] }
    ensures room { vec_capacity sinks.new ≡ vec_capacity sinks.old }
{
    while let Some(sink) = sinks.pop() {
        let Some(receiver) = receivers.pop() else {
            unreachable!()
        };
        let _ = flows.insert(0, Flow { receiver, sink });
    }
    flows
}

/// Puts the sinks of flows back into a list that has room for them, and what their receivers counted into another.
pub(crate) fn unseated<K: Drop>(
    first: Flow<K>,
    mut more: Vec<Flow<K>>,
    sinks: &mut Vec<K>,
    mut counts: Vec<Counts>,
) -> Vec<Counts>
    requires none { (sinks.old.items ≡ []) × (counts.items ≡ []) }
    requires room { length more.items + 1 ≤ vec_capacity sinks.old }
    requires counts { length more.items + 1 ≤ vec_capacity counts }
    ensures sinks { sinks.new.items ≡ map sink_of (first ∷ more.items) }
    ensures counts { result.items ≡ map counts_of (first ∷ more.items) }
{
    while let Some(flow) = more.pop() {
        let Flow { receiver, sink } = flow;
        let _ = counts.insert(0, receiver.counts());
        let _ = sinks.insert(0, sink);
    }
    let Flow { receiver, sink } = first;
    let _ = counts.insert(0, receiver.counts());
    let _ = sinks.insert(0, sink);
    counts
}
