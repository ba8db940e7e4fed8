ghost use Rattle.std.specs.Prelude.{◌≡◌, ◌+◌, ◌^◌, ◌<◌};
ghost use Rattle.std.specs.Option.{ForSome};
ghost use Rattle.seq_unwrap.specs.Nearest.{cycle_of};
ghost use Rattle.receiver_rules.specs.Packets.{number_of, timestamp_of, deadline_of, placed_packet, is_due_by};
ghost use Rattle.receiver_rules.specs.Epochs.{new_anchor as anchor_fixed};
ghost use Rattle.receiver_rules.specs.Seen.{seen, moment_of, highest_with, IsPlaceOf};
ghost use Rattle.receiver_rules.specs.Bounds.{AreInRange, IsEarlyAnchor, IsMidHighest, IsNearBase};

use crate::anchor::{Anchor, Highest};
use crate::arrival::Arrival;
use crate::clock::Clock;
use crate::limits::Limits;
use seq_unwrap::{Width, nearest};

/// Where an arrival belongs in its flow.
#[derive(Clone, Copy)]
pub struct Position {
    /// The extended sequence number.
    pub number: u64,
    /// The extended RTP timestamp, in ticks.
    pub timestamp: u64,
    /// When the packet is to be played out, in ticks of the receiver's clock. It may be negative.
    pub deadline: i64,
}

impl Position {
    ghost use Rattle.std.specs.Prelude.{◌≡◌, ◌^◌, ◌<◌};
    ghost use Rattle.std.specs.Option.{ForSome};
    ghost use Rattle.receiver_rules.specs.Packets.{is_due_by};
    ghost use Rattle.receiver_rules.specs.Seen.{moment_of};

    /// Whether the deadline is at the tick or before it. Without a tick each deadline is.
    pub fn is_due_by(&self, until: Option<u64>) -> bool
        requires { ForSome until (λ t. t < 2 ^ 61) }
        ensures { result ≡ is_due_by (moment_of until) self.now.deadline }
    {
        match until {
            Some(at) => self.deadline <= at as i64,
            None => true,
        }
    }
}

/// What an arrival fixes where it opens an epoch.
pub fn new_anchor(at: u64, arrival: &Arrival<'_>) -> Anchor
    requires clock { at < 2 ^ 61 }
    ensures value { result ≡ anchor_fixed at (seen arrival.now) }
    ensures early { IsEarlyAnchor at result }
{
    Anchor {
        flow: arrival.flow,
        time: at,
        number: (1 << 40) + u64::from(arrival.word),
        timestamp: (1 << 60) + u64::from(arrival.stamp),
    }
}

/// The kept packet with the highest number, after one more was kept.
pub fn highest_after(highest: Option<Highest>, number: u64, timestamp: u64) -> Highest
    ensures { result ≡ highest_with number timestamp highest }
{
    match highest {
        Some(highest) if number <= highest.number => highest,
        _ => Highest { number, timestamp },
    }
}

/// Where an arrival belongs, beside the kept packet with the highest number, by the clock of its epoch.
pub fn place_of(
    limits: &Limits,
    anchor: &Anchor,
    clock: &Clock,
    highest: Option<Highest>,
    arrival: &Arrival<'_>,
) -> Position
    requires limits { AreInRange limits.now }
    requires anchor { anchor.now.time < 2 ^ 61 }
    requires base { IsNearBase anchor.now.time clock.now.base }
    requires start { anchor.now.timestamp < 2 ^ 60 + 2 ^ 32 }
    requires highest { ForSome highest IsMidHighest }
    requires word { arrival.now.word < cycle_of arrival.now.width }
    ensures { IsPlaceOf result (placed_packet limits.now anchor.now clock.now.base highest (seen arrival.now)) }
{
    let number = extended_number(highest, arrival);
    let timestamp = extended_timestamp(highest, arrival);
    let deadline = deadline(limits, anchor, clock, timestamp);
    Position {
        number,
        timestamp,
        deadline,
    }
}

fn extended_number(highest: Option<Highest>, arrival: &Arrival<'_>) -> u64
    requires highest { ForSome highest IsMidHighest }
    requires word { arrival.now.word < cycle_of arrival.now.width }
    ensures { result ≡ number_of highest (seen arrival.now) }
{
    match highest {
        None => (1 << 40) + u64::from(arrival.word),
        Some(highest) => nearest(highest.number, arrival.width, arrival.word),
    }
}

fn extended_timestamp(highest: Option<Highest>, arrival: &Arrival<'_>) -> u64
    requires highest { ForSome highest IsMidHighest }
    ensures value { result ≡ timestamp_of highest (seen arrival.now) }
    ensures within { result < 2 ^ 62 + 2 ^ 32 }
{
    match highest {
        None => (1 << 60) + u64::from(arrival.stamp),
        Some(highest) => nearest(highest.timestamp, Width::W32, arrival.stamp),
    }
}

fn deadline(limits: &Limits, anchor: &Anchor, clock: &Clock, timestamp: u64) -> i64
    requires limits { AreInRange limits.now }
    requires anchor { anchor.now.time < 2 ^ 61 }
    requires base { IsNearBase anchor.now.time clock.now.base }
    requires start { anchor.now.timestamp < 2 ^ 60 + 2 ^ 32 }
    requires timestamp { timestamp < 2 ^ 62 + 2 ^ 32 }
    ensures { result ≡ deadline_of limits.now anchor.now clock.now.base timestamp }
{
    clock.base + ((timestamp + limits.playout_delay) as i64 - anchor.timestamp as i64)
}
