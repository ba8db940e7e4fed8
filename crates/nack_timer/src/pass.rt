//! One look at each packet that a timer keeps as missing, by rising number.
ghost use Rattle.std.specs.Prelude.{◌≡◌, ◌≤◌, ◌<◌, ◌^◌, ◌+◌, ◌∷◌, ◌++◌, [], true, length, slice_get, List, if◌then◌else◌};
ghost use Rattle.std.specs.Option.{ForSome};
ghost use Rattle.std.specs.List.{list_any};
ghost use Rattle.request_rules.specs.Building.{IsAboveLast};
ghost use Rattle.nack_timer.specs.declared.entry.Missing.{Missing as Entry};
ghost use Rattle.nack_timer.specs.State.{AreRising};
ghost use Rattle.nack_timer.specs.Inside.Sound.{IsSmallEntry, IsSmallPolicy, AreSmall};
ghost use Rattle.nack_timer.specs.Inside.Pass.{is_wanted, is_wanted_one, is_live, is_due_entry, words_after, entry_after, words_of, entries_of};
ghost use Rattle.receiver_rules.specs.declared.bounds.TheConstants.{MAX_SPAN};

use crate::entry::Missing;
use circular_buffer::HeapCircularBuffer;
use link_channels::has_passed_since;
use reorder_buffer::Buffer;
use request_rules::{Asked, Policy};

/// Looks at each entry once: those that have come, or are looked for no more, are forgotten, and those that are due are
/// asked for.
pub fn look_at_all(
    missing: &mut HeapCircularBuffer<Missing>,
    policy: &Policy,
    rtt: u64,
    t: u64,
    low: u64,
    buffer: &Buffer,
) -> Asked
    requires policy { IsSmallPolicy policy.now }
    requires time { t < 2 ^ 61 }
    requires room { length missing.old.items ≤ missing.old.capacity }
    requires small { AreSmall missing.old.items }
    requires rising { AreRising 0 (low + MAX_SPAN) missing.old.items }
    ensures words { result ≡ words_of policy.now rtt t low buffer.now.held [] missing.old.items }
    ensures entries { missing.new.items ≡ entries_of policy.now rtt t low buffer.now.held [] missing.old.items }
    ensures capacity { missing.new.capacity ≡ missing.old.capacity }
{
    let mut words = Asked::none();
    let count = missing.len();
    for place in 0..count {
        look(missing, policy, rtt, t, low, buffer, &mut words);
    }
    words
}

/// Looks at the first entry, which goes to the end where it is still missing.
fn look(
    missing: &mut HeapCircularBuffer<Missing>,
    policy: &Policy,
    rtt: u64,
    t: u64,
    low: u64,
    buffer: &Buffer,
    words: &mut Asked,
)
    requires policy { IsSmallPolicy policy.now }
    requires time { t < 2 ^ 61 }
    requires room { length missing.old.items ≤ missing.old.capacity }
    requires small { AreSmall missing.old.items }
    requires above { (e : Entry) (rest : List Entry) → missing.old.items ≡ e ∷ rest
        → is_live low buffer.now.held e ≡ true → IsAboveLast policy.now.kind words.old e.number }
    ensures entries { (e : Entry) (rest : List Entry) → missing.old.items ≡ e ∷ rest → missing.new.items
        ≡ rest ++ (if is_live low buffer.now.held e then entry_after policy.now rtt t words.old e ∷ [] else []) }
    ensures words { (e : Entry) (rest : List Entry) → missing.old.items ≡ e ∷ rest → words.new
        ≡ (if is_live low buffer.now.held e then words_after policy.now rtt t words.old e else words.old) }
    ensures capacity { missing.new.capacity ≡ missing.old.capacity }
{
    if let Some(entry) = missing.pop_front() {
        if is_live(low, buffer, &entry) {
            let entry = ask(policy, rtt, t, entry, words);
            missing.push_back(entry);
        }
    }
}

/// Asks for an entry where it is due and there is room.
fn ask(policy: &Policy, rtt: u64, t: u64, entry: Missing, words: &mut Asked) -> Missing
    requires policy { IsSmallPolicy policy.now }
    requires time { t < 2 ^ 61 }
    requires small { IsSmallEntry entry }
    requires above { IsAboveLast policy.now.kind words.old entry.number }
    ensures entry { result ≡ entry_after policy.now rtt t words.old entry }
    ensures words { words.new ≡ words_after policy.now rtt t words.old entry }
{
    if is_due(policy, rtt, t, &entry) && words.add(policy.kind, entry.number) {
        Missing {
            number: entry.number,
            found: entry.found,
            last: Some(t),
            count: entry.count + 1,
        }
    } else {
        entry
    }
}

/// Whether some entry is missing and due.
pub fn is_any_due(
    missing: &HeapCircularBuffer<Missing>,
    policy: &Policy,
    rtt: u64,
    t: u64,
    low: u64,
    buffer: &Buffer,
) -> bool
    requires policy { IsSmallPolicy policy.now }
    requires time { t < 2 ^ 61 }
    requires small { AreSmall missing.now.items }
    ensures { result ≡ list_any (is_wanted policy.now rtt t low buffer.now.held) missing.now.items }
{
    let count = missing.len();
    for place in 0..count {
        if is_wanted_at(missing, place, policy, rtt, t, low, buffer) {
            return true;
        }
    }
    false
}

/// Whether the entry at a place is missing and due.
fn is_wanted_at(
    missing: &HeapCircularBuffer<Missing>,
    place: usize,
    policy: &Policy,
    rtt: u64,
    t: u64,
    low: u64,
    buffer: &Buffer,
) -> bool
    requires policy { IsSmallPolicy policy.now }
    requires time { t < 2 ^ 61 }
    requires small { AreSmall missing.now.items }
    ensures { result ≡ is_wanted_one policy.now rtt t low buffer.now.held (slice_get missing.now.items place) }
{
    match missing.get(place) {
        Some(entry) => is_due(policy, rtt, t, entry) && is_live(low, buffer, entry),
        None => false,
    }
}

/// Whether an entry is still missing, and still looked for.
fn is_live(low: u64, buffer: &Buffer, entry: &Missing) -> bool
    ensures { result ≡ is_live low buffer.now.held entry.now }
{
    low <= entry.number && !buffer.has(entry.number)
}

/// Whether an entry is due.
fn is_due(policy: &Policy, rtt: u64, t: u64, entry: &Missing) -> bool
    requires policy { IsSmallPolicy policy.now }
    requires time { t < 2 ^ 61 }
    requires small { IsSmallEntry entry.now }
    ensures value { result ≡ is_due_entry policy.now rtt t entry.now }
    ensures within { result ≡ true → entry.now.count < 32 }
{
    entry.found + policy.reorder_tolerance <= t
        && has_passed_since(rtt.max(policy.retry_interval), t, entry.last)
        && entry.count < policy.retry_limit
}
