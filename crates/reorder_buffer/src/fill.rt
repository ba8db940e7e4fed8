//! How full a buffer is.
ghost use Rattle.std.specs.Prelude.{◌≡◌, ◌+◌, ◌^◌, ◌<◌};
ghost use Rattle.receiver_rules.specs.Packets.{deadline_of};
ghost use Rattle.receiver_rules.specs.Bounds.{AreInRange, IsNearBase};
ghost use Rattle.reorder_buffer.specs.Fill.{ahead_of};

use receiver_rules::{Anchor, Clock, Limits};

/// How far ahead of a time a packet with this timestamp is due, by the base of its epoch.
pub fn lead(limits: &Limits, anchor: &Anchor, clock: &Clock, timestamp: u64, time: u64) -> u64
    requires limits { AreInRange limits.now }
    requires anchor { anchor.now.time < 2 ^ 61 }
    requires base { IsNearBase anchor.now.time clock.now.base }
    requires start { anchor.now.timestamp < 2 ^ 60 + 2 ^ 32 }
    requires timestamp { timestamp < 2 ^ 62 }
    ensures value { result ≡ ahead_of time (deadline_of limits.now anchor.now clock.now.base timestamp) }
{
    let deadline = clock.base
        + ((timestamp + limits.playout_delay) as i64 - anchor.timestamp as i64);
    ahead(time, deadline)
}

// How far a deadline lies ahead of a time, and 0 where it doesn't.
fn ahead(time: u64, deadline: i64) -> u64
    ensures value { result ≡ ahead_of time deadline }
{
    if deadline < 0 {
        return 0;
    }
    (deadline as u64).saturating_sub(time)
}
