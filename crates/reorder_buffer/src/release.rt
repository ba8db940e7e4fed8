//! Writing what is due.
ghost use Rattle.std.specs.Prelude.{◌≡◌, ◌<◌, ◌^◌, [], length, IfOk, IsOk, OnOk, OnErr};
ghost use Rattle.std.specs.List.{filter};
ghost use Rattle.std.specs.Option.{ForSome};
ghost use Rattle.outside_io.specs.Causes.{HasCause};
ghost use Rattle.outside_io.specs.Told.{Appends, AppendsPart};
ghost use Rattle.receiver_rules.specs.Packets.{is_below, is_from, IsRising};
ghost use Rattle.receiver_rules.specs.Seen.{moment_of};
ghost use Rattle.reorder_buffer.specs.Inside.Release.{octets_below, floor_from};

use crate::ring::Ring;
use outside_io::{Failed, Sink};

/// What went out: how many packets, and the floor that is reached.
#[derive(Clone, Copy)]
pub struct Released {
    pub count: u32,
    pub floor: u64,
}

/// Writes the packets by rising number as long as one is due at a tick, or all without a tick, and takes each out once it is
/// written. So all go out below the floor that the packets due set: one above the highest of their numbers.
pub fn put_due<K: Sink>(
    ring: &mut Ring,
    from: u64,
    until: Option<u64>,
    sink: &mut K,
) -> Result<Released, Failed>
    requires rising { IsRising from ring.old.packets }
    requires few { length ring.old.packets < 2 ^ 32 }
    requires tick { ForSome until (λ t. t < 2 ^ 61) }
    ensures floor { IfOk result (λ r. r.floor ≡ floor_from from (moment_of until) ring.old.packets) }
    ensures rest { OnOk result (ring.new.packets
        ≡ filter (is_from (floor_from from (moment_of until) ring.old.packets)) ring.old.packets) }
    ensures capacity { ring.new.capacity ≡ ring.old.capacity }
    ensures ok { OnOk result (Appends (K.contents sink.old) (K.contents sink.new)
        (octets_below (floor_from from (moment_of until) ring.old.packets) ring.old.packets)) }
    ensures count { IfOk result (λ r. r.count
        ≡ length (filter (is_below (floor_from from (moment_of until) ring.old.packets)) ring.old.packets)) }
    ensures err { OnErr result (AppendsPart (K.contents sink.old) (K.contents sink.new)
        (octets_below (floor_from from (moment_of until) ring.old.packets) ring.old.packets)) }
    ensures complete { octets_below (floor_from from (moment_of until) ring.old.packets) ring.old.packets ≡ []
        → IsOk result }
    ensures cause { HasCause (K.faults sink.old) (K.faults sink.new) result }
{
    let mut floor = from;
    let mut count = 0;
    while ring.is_any_due(until) {
        put(ring.first_payload(), sink)?;
        floor = ring.floor_after_first();
        ring.drop_first();
        count += 1;
    }
    Ok(Released { count, floor })
}

/// Writes a payload. An empty one makes no piece.
fn put<K: Sink>(payload: &[u8], sink: &mut K) -> Result<(), Failed>
    ensures ok { OnOk result (Appends (K.contents sink.old) (K.contents sink.new) payload.now) }
    ensures err { OnErr result (AppendsPart (K.contents sink.old) (K.contents sink.new) payload.now) }
    ensures complete { payload.now ≡ [] → IsOk result }
    ensures cause { HasCause (K.faults sink.old) (K.faults sink.new) result }
{
    if payload.is_empty() {
        return Ok(());
    }
    sink.put(payload)
}
