//! What is missing and due, each number tested over all that was kept.
ghost use Rattle.std.specs.Prelude.{◌≡◌, ◌<◌, ◌≤◌, ◌^◌, ◌+◌, ◌-◌, ◌==◌, [], max, List, if◌then◌else◌, IfOk, OnOk};
ghost use Rattle.std.specs.List.{All, filter, list_any};
ghost use Rattle.std.specs.Option.{ForSome};
ghost use Rattle.receiver_rules.specs.Bounds.{AreInRange};
ghost use Rattle.receiver_rules.specs.Packets.{At, Ever, playout_floor};
ghost use Rattle.receiver_rules.specs.Seen.{moment_of};
ghost use Rattle.plain_rules.specs.Receiver.Kept.{kept_packets};
ghost use Rattle.request_rules.specs.Steps.{Step as RuleStep, longest_rtt};
ghost use Rattle.request_rules.specs.Words.{asked_numbers};
ghost use Rattle.request_rules.specs.Missing.{is_accepted, numbers_up_to};
ghost use Rattle.request_rules.specs.Requests.{requests_of, due_numbers};
ghost use Rattle.request_rules.specs.Building.{with_number, IsAboveLast};
ghost use Rattle.plain_rules.specs.Requests.Told.{IsSmallPolicy};
ghost use Rattle.plain_rules.specs.Inside.RequestsAsking.{AskingShows, IsSmallAsking, IsAskedOf, is_wanted};
ghost use Rattle.receiver_rules.specs.declared.bounds.TheConstants.{MAX_SPAN};

use crate::receiver::Kept;
use crate::requests::asking::Asking;
use crate::requests::times::{found_time, is_due, times_of};
use receiver_rules::Limits;
use request_rules::{Asked, NackKind, Policy};
use std::alloc::{AllocError, Global};

/// The request words for some numbers, and the numbers that they name.
#[derive(Drop)]
pub struct Named {
    pub words: Asked,
    pub numbers: Vec<u64>,
}

/// What is asked for at a time.
pub fn ask_at(
    alloc: Global,
    limits: &Limits,
    policy: &Policy,
    rtt: u64,
    t: u64,
    asking: &Asking<'_>,
) -> Result<Named, AllocError>
    requires limits { AreInRange limits.now }
    requires policy { IsSmallPolicy policy.now }
    requires small { IsSmallAsking asking.now }
    requires rtt { rtt ≤ 10000000 }
    requires time { t < 2 ^ 61 }
    ensures { IfOk result (λ s. (history : List RuleStep)
        → AskingShows limits.now policy.now asking.now history → rtt ≡ longest_rtt 16 history
        → IsAskedOf policy.now.kind
        (due_numbers limits.now policy.now history (requests_of limits.now policy.now history) t)
        s.words s.numbers.items) }
{
    let Some(anchor) = asking.run.anchor else {
        return Ok(no_request(alloc));
    };
    let Some(highest) = asking.run.highest else {
        return Ok(no_request(alloc));
    };
    let floor = floor_of(
        asking.run.kept.as_slice(),
        until_of(asking.run.has_ended, t),
    );
    let low = lowest(limits, anchor.number, floor, highest.number);
    ask_between(alloc, policy, rtt, t, asking, low, highest.number)
}

fn lowest(limits: &Limits, first: u64, floor: u64, highest: u64) -> u64
    requires { highest < 2 ^ 62 }
    ensures { result ≡ max (max first floor) (highest + 1 - limits.now.capacity) }
{
    first
        .max(floor)
        .max((highest + 1).saturating_sub(limits.capacity))
}

/// One above the highest number that was played out.
fn floor_of(kept: &[Kept<'_>], until: Option<u64>) -> u64
    requires until { ForSome until (λ t. t < 2 ^ 61) }
    requires below { All (λ k. k.place.number < 2 ^ 62) kept.now }
    ensures { result ≡ playout_floor (kept_packets kept.now) (moment_of until) }
{
    let mut floor = 0;
    for k in kept {
        if k.place.is_due_by(until) {
            floor = floor.max(k.place.number + 1);
        }
    }
    floor
}

/// The moment until which packets are played out: a time, or after the end all.
fn until_of(has_ended: bool, t: u64) -> Option<u64>
    requires { t < 2 ^ 61 }
    ensures value { moment_of result ≡ (if has_ended then Ever else At t) }
    ensures within { ForSome result (λ u. u < 2 ^ 61) }
{
    if has_ended { None } else { Some(t) }
}

fn no_request(alloc: Global) -> Named
    ensures words { result.words ≡ [] }
    ensures numbers { result.numbers.items ≡ [] }
{
    Named {
        words: Asked::none(),
        numbers: Vec::new(alloc),
    }
}

/// Asks for the numbers between two that are missing and due, as far as there is room.
fn ask_between(
    alloc: Global,
    policy: &Policy,
    rtt: u64,
    t: u64,
    asking: &Asking<'_>,
    low: u64,
    high: u64,
) -> Result<Named, AllocError>
    requires policy { IsSmallPolicy policy.now }
    requires small { IsSmallAsking asking.now }
    requires rtt { rtt ≤ 10000000 }
    requires near { high ≤ low + MAX_SPAN }
    requires high { high < 2 ^ 62 }
    ensures { IfOk result (λ s. IsAskedOf policy.now.kind
        (filter (is_wanted policy.now rtt t asking.now) (numbers_up_to low high)) s.words s.numbers.items) }
{
    let mut words = Asked::none();
    let mut numbers = Vec::new(alloc);
    for number in low..high {
        let is_wanted = is_wanted(policy, rtt, t, asking, number);
        look(policy.kind, &mut words, &mut numbers, is_wanted, number)?;
    }
    Ok(Named { words, numbers })
}

/// Asks for a number where it is wanted and there is room.
fn look(
    kind: NackKind,
    words: &mut Asked,
    numbers: &mut Vec<u64>,
    is_wanted: bool,
    number: u64,
) -> Result<(), AllocError>
    requires above { IsAboveLast kind words.old number }
    requires named { numbers.old.items ≡ asked_numbers kind words.old }
    ensures words { OnOk result
        (words.new ≡ (if is_wanted then with_number kind 64 words.old number else words.old)) }
    ensures named { OnOk result (numbers.new.items ≡ asked_numbers kind words.new) }
{
    if is_wanted {
        put(kind, words, numbers, number)?;
    }
    Ok(())
}

fn put(
    kind: NackKind,
    words: &mut Asked,
    numbers: &mut Vec<u64>,
    number: u64,
) -> Result<(), AllocError>
    requires above { IsAboveLast kind words.old number }
    requires named { numbers.old.items ≡ asked_numbers kind words.old }
    ensures words { OnOk result (words.new ≡ with_number kind 64 words.old number) }
    ensures named { OnOk result (numbers.new.items ≡ asked_numbers kind words.new) }
{
    if words.add(kind, number) {
        numbers.push(number)?;
    }
    Ok(())
}

/// Whether a number is missing and due.
fn is_wanted(policy: &Policy, rtt: u64, t: u64, asking: &Asking<'_>, number: u64) -> bool
    requires policy { IsSmallPolicy policy.now }
    requires small { IsSmallAsking asking.now }
    requires rtt { rtt ≤ 10000000 }
    ensures { result ≡ is_wanted policy.now rtt t asking.now number }
{
    let found = found_time(asking.marks.as_slice(), number);
    let times = times_of(asking.made.as_slice(), number);
    !is_accepted(asking.run.kept.as_slice(), number) && is_due(policy, rtt, t, found, &times)
}

fn is_accepted(kept: &[Kept<'_>], number: u64) -> bool
    ensures { result ≡ is_accepted (kept_packets kept.now) number }
{
    is_any(kept, number)
}

fn is_any(kept: &[Kept<'_>], number: u64) -> bool
    ensures { result ≡ list_any (λ k. k.place.number == number) kept.now }
{
    kept.iter().any(|k| k.place.number == number)
}
