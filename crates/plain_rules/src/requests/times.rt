//! Since when a number is missing, and when it was asked for.
ghost use Rattle.std.specs.Prelude.{◌≡◌, ◌<◌, ◌≤◌, ◌^◌, ◌+◌, ◌∷◌, ◌++◌, [], ℕ, List};
ghost use Rattle.std.specs.List.{All};
ghost use Rattle.std.specs.Option.{ForSome};
ghost use Rattle.plain_rules.specs.declared.requests.asking.Made.{Made};
ghost use Rattle.request_rules.specs.Missing.{is_below_highest};
ghost use Rattle.request_rules.specs.Requests.{request_times, is_due};
ghost use Rattle.request_rules.specs.Times.{AreTimes};
ghost use Rattle.plain_rules.specs.Requests.Told.{IsSmallPolicy};
ghost use Rattle.plain_rules.specs.Inside.RequestsAsking.{found_in, requests_seen, IsSmallMark, IsSmallMade};

use crate::requests::asking::{Made, Mark};
use link_channels::has_passed_since;
use receiver_rules::tick_of;
use request_rules::Policy;

/// When a number was last asked for, and how often.
#[derive(Clone, Copy)]
pub struct Times {
    pub last: Option<u64>,
    pub count: u64,
}

/// Since when a number is missing.
pub fn found_time(marks: &[Mark], number: u64) -> u64
    requires small { All IsSmallMark marks.now }
    ensures value { result ≡ found_in marks.now number }
    ensures within { result < 2 ^ 61 }
{
    for mark in marks {
        if !is_below(mark.highest, number) {
            return mark.time;
        }
    }
    0
}

fn is_below(highest: Option<u64>, number: u64) -> bool
    ensures { result ≡ is_below_highest highest number }
{
    match highest {
        None => false,
        Some(highest) => number < highest,
    }
}

/// When a number was asked for.
pub fn times_of(made: &[Made], number: u64) -> Times
    requires small { All IsSmallMade made.now }
    ensures times { AreTimes result.last result.count (request_times (requests_seen made.now) number) }
    ensures within { ForSome result.last (λ t. t < 2 ^ 61) }
{
    let mut times = Times {
        last: None,
        count: 0,
    };
    for request in made {
        times = noted(times, request, number);
    }
    times
}

/// The times after one more request, which came before those so far.
fn noted(times: Times, request: &Made, number: u64) -> Times
    requires count { times.count < 2 ^ 63 }
    requires small { IsSmallMade request.now }
    requires within { ForSome times.last (λ t. t < 2 ^ 61) }
    ensures times { (newer : List Made)
        → AreTimes times.last times.count (request_times (requests_seen newer) number)
        → AreTimes result.last result.count (request_times (requests_seen (newer ++ request.now ∷ [])) number) }
    ensures within { ForSome result.last (λ t. t < 2 ^ 61) }
    ensures count { result.count ≤ times.count + 1 }
{
    if request.number == number {
        Times {
            last: Some(times.last.unwrap_or(request.time)),
            count: times.count + 1,
        }
    } else {
        times
    }
}

/// Whether a missing packet is due.
pub fn is_due(policy: &Policy, rtt: u64, t: u64, found: u64, times: &Times) -> bool
    requires policy { IsSmallPolicy policy.now }
    requires within { (rtt ≤ 10000000) × (found < 2 ^ 61) × ForSome times.now.last (λ l. l < 2 ^ 61) }
    ensures value { (all : List ℕ) → AreTimes times.now.last times.now.count all
        → result ≡ is_due policy.now rtt t found all }
{
    found + policy.reorder_tolerance <= t
        && has_passed_since(tick_of(rtt).max(policy.retry_interval), t, times.last)
        && times.count < policy.retry_limit
}
