//! The packets that were kept, and each test made over all of them.
ghost use Rattle.std.specs.Prelude.{◌≡◌, ◌<◌, ◌≤◌, ◌^◌, ◌&&◌, ◌==◌, ◌∷◌, ◌++◌, List, map, nat_le, nat_lt, not, length, IfOk, OnOk};
ghost use Rattle.std.specs.List.{list_any, filter, position_or_len};
ghost use Rattle.std.specs.Option.{ForSome};
ghost use Rattle.receiver_rules.specs.Packets.{At, highest_of, distance, is_due_by, is_played_out, is_buffered, is_behind_playout, is_duplicate, is_beyond_capacity, insert_by_number, verdict_of, first_verdict, tests_of, placed_packet};
ghost use Rattle.receiver_rules.specs.Seen.{seen, moment_of, IsPlaceOf};
ghost use Rattle.receiver_rules.specs.Bounds.{AreInRange};
ghost use Rattle.plain_rules.specs.Receiver.Told.{payload_of};
ghost use Rattle.plain_rules.specs.Receiver.Kept.{kept_packet, kept_packets};
ghost use Rattle.plain_rules.specs.Inside.ReceiverKept.{at_number, at_deadline};

use receiver_rules::place::Position;
use receiver_rules::{Anchor, Arrival, Clock, Limits, Verdict};
use std::alloc::{AllocError, Global};

/// A packet that was kept.
#[derive(Clone, Copy)]
pub struct Kept<'a> {
    /// Its number, timestamp and deadline.
    pub place: Position,
    /// Its octets.
    pub payload: &'a [u8],
}

pub fn judge_arrival(
    limits: &Limits,
    anchor: &Anchor,
    clock: &Clock,
    kept: &[Kept<'_>],
    t: u64,
    arrival: &Arrival<'_>,
    place: &Position,
) -> Verdict
    requires limits { AreInRange limits.now }
    requires moment { t < 2 ^ 61 }
    requires place { IsPlaceOf place.now
        (placed_packet limits.now anchor.now clock.now.base (highest_of (kept_packets kept.now)) (seen arrival.now)) }
    ensures { result ≡ verdict_of limits.now anchor.now clock.now.base (kept_packets kept.now) t (seen arrival.now) }
{
    judge(limits, anchor, kept, t, arrival.flow, place)
}

/// The first test that fits, each test made on all that was kept.
fn judge(
    limits: &Limits,
    anchor: &Anchor,
    kept: &[Kept<'_>],
    t: u64,
    flow: u32,
    place: &Position,
) -> Verdict
    requires limits { AreInRange limits.now }
    requires moment { t < 2 ^ 61 }
    ensures { result ≡ first_verdict (tests_of limits.now anchor.now (kept_packets kept.now) t flow
        (at_deadline place.now.number place.now.deadline)) }
{
    if flow != anchor.flow {
        Verdict::Stranger
    } else if place.number >= 1 << 62 {
        Verdict::Exhausted
    } else if place.deadline <= t as i64 {
        Verdict::Late
    } else if is_behind(kept, Some(t), place.number) {
        Verdict::Behind
    } else if place.deadline > (t + 2 * limits.playout_delay) as i64 {
        Verdict::Early
    } else if is_twice(kept, place.number) {
        Verdict::Twice
    } else if is_outside_span(limits, kept, Some(t), place.number) {
        Verdict::Span
    } else {
        Verdict::Kept
    }
}

pub fn insert_in_order<'a>(ordered: &mut Vec<Kept<'a>>, packet: &Kept<'a>) -> Result<(), AllocError>
    ensures { OnOk result (kept_packets ordered.new.items
        ≡ insert_by_number (kept_packet packet.now) (kept_packets ordered.old.items)) }
{
    let at = place_among(ordered.as_slice(), packet);
    ordered.insert(at, *packet)?;
    Ok(())
}

/// How many packets come before another.
fn place_among(ordered: &[Kept<'_>], packet: &Kept<'_>) -> usize
    ensures value { result ≡ position_or_len (λ k. nat_lt packet.now.place.number k.place.number) ordered.now }
    ensures within { result ≤ length ordered.now }
{
    for (i, k) in ordered.iter().enumerate() {
        if packet.place.number < k.place.number {
            return i;
        }
    }
    ordered.len()
}

fn is_out(kept: &[Kept<'_>], until: Option<u64>, number: u64) -> bool
    requires { ForSome until (λ t. t < 2 ^ 61) }
    ensures { result ≡ is_played_out (kept_packets kept.now) (moment_of until) (at_number number) }
{
    is_any_due(kept, until, number)
}

fn is_any_due(kept: &[Kept<'_>], until: Option<u64>, number: u64) -> bool
    requires { ForSome until (λ t. t < 2 ^ 61) }
    ensures { result ≡ list_any
        (λ k. nat_le number k.place.number && is_due_by (moment_of until) k.place.deadline) kept.now }
{
    kept.iter()
        .any(|k| number <= k.place.number && k.place.is_due_by(until))
}

fn is_behind(kept: &[Kept<'_>], until: Option<u64>, number: u64) -> bool
    requires { ForSome until (λ t. t < 2 ^ 61) }
    ensures { result ≡ is_behind_playout (kept_packets kept.now) (moment_of until) (at_number number) }
{
    is_any_ahead(kept, until, number)
}

fn is_any_ahead(kept: &[Kept<'_>], until: Option<u64>, number: u64) -> bool
    requires { ForSome until (λ t. t < 2 ^ 61) }
    ensures { result ≡ list_any (λ k. nat_le number k.place.number
        && is_played_out (kept_packets kept.now) (moment_of until) (at_number k.place.number)) kept.now }
{
    kept.iter().any(|k| number <= k.place.number && is_out(kept, until, k.place.number))
}

fn is_twice(kept: &[Kept<'_>], number: u64) -> bool
    ensures { result ≡ is_duplicate (kept_packets kept.now) (at_number number) }
{
    is_any_same(kept, number)
}

fn is_any_same(kept: &[Kept<'_>], number: u64) -> bool
    ensures { result ≡ list_any (λ k. k.place.number == number) kept.now }
{
    kept.iter().any(|k| k.place.number == number)
}

fn is_outside_span(limits: &Limits, kept: &[Kept<'_>], until: Option<u64>, number: u64) -> bool
    requires { ForSome until (λ t. t < 2 ^ 61) }
    ensures { result ≡ is_beyond_capacity limits.now (kept_packets kept.now) (moment_of until) (at_number number) }
{
    is_any_far(kept, limits.capacity, until, number)
}

fn is_any_far(kept: &[Kept<'_>], capacity: u64, until: Option<u64>, number: u64) -> bool
    requires { ForSome until (λ t. t < 2 ^ 61) }
    ensures { result ≡ list_any (λ k. nat_le capacity (distance k.place.number number)
        && not (is_played_out (kept_packets kept.now) (moment_of until) (at_number k.place.number))) kept.now }
{
    kept.iter().any(|k| k.place.number.abs_diff(number) >= capacity
        && !is_out(kept, until, k.place.number))
}

/// Whether some packet waits at a time.
pub fn is_any_buffered(kept: &[Kept<'_>], t: u64) -> bool
    requires { t < 2 ^ 61 }
    ensures { result ≡ list_any (is_buffered (kept_packets kept.now) (At t)) (kept_packets kept.now) }
{
    is_any_waiting(kept, Some(t))
}

fn is_any_waiting(kept: &[Kept<'_>], until: Option<u64>) -> bool
    requires { ForSome until (λ t. t < 2 ^ 61) }
    ensures { result ≡ list_any (λ k. not (is_played_out (kept_packets kept.now) (moment_of until)
        (at_number k.place.number))) kept.now }
{
    kept.iter().any(|k| !is_out(kept, until, k.place.number))
}

/// Adds the payloads of the packets that are out, in the order in which they stand.
pub fn add_payloads_out<'a>(
    payloads: &mut Vec<&'a [u8]>,
    kept: &[Kept<'_>],
    ordered: &[Kept<'a>],
    until: Option<u64>,
) -> Result<(), AllocError>
    requires { ForSome until (λ t. t < 2 ^ 61) }
    ensures { OnOk result (map payload_of payloads.new.items ≡ map payload_of payloads.old.items
        ++ map (λ p. p.payload) (filter (is_played_out (kept_packets kept.now) (moment_of until)) (kept_packets ordered.now))) }
{
    for k in ordered {
        if is_out(kept, until, k.place.number) {
            payloads.push(k.payload)?;
        }
    }
    Ok(())
}

/// The payloads of some packets, in the order in which they stand.
pub fn payloads_in<'a>(alloc: Global, packets: &[Kept<'a>]) -> Result<Vec<&'a [u8]>, AllocError>
    ensures { IfOk result (λ payloads. map payload_of payloads.items
        ≡ map (λ p. p.payload) (kept_packets packets.now)) }
{
    let mut payloads = Vec::new(alloc);
    for k in packets {
        payloads.push(k.payload)?;
    }
    Ok(payloads)
}
