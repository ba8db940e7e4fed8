ghost use Rattle.std.specs.Prelude.{◌≡◌, ◌≤◌, ◌<◌, ◌^◌, ◌+◌, ◌-◌, ◌++◌, max, length};
ghost use Rattle.circular_buffer.specs.Buffer.{keep_last};
ghost use Rattle.nack_timer.specs.State.{high_or};
ghost use Rattle.nack_timer.specs.Inside.Raise.{new_entries, found_between};

use crate::entry::Missing;
use crate::pass::{is_any_due, look_at_all};
use crate::settings::Settings;
use circular_buffer::HeapCircularBuffer;
use outside_io::NoMemory;
use reorder_buffer::Buffer;
use request_rules::{Asked, Policy};
use std::alloc::Global;
use std::marker::Model;

/// What is missing, and what was asked for. `raised` tells it of each packet that was kept and raises the highest number,
/// `renew` of one that opened an epoch, and `due` asks, at ticks of the receiver's clock, for what the buffer misses then. Only `with_span` takes memory.
#[derive(Drop)]
pub struct Timer {
    policy: Policy,
    high: Option<u64>,
    missing: HeapCircularBuffer<Missing>,
}

impl Model for Timer {
    ghost use Rattle.nack_timer.specs.State.{TimerState};
    ghost use Rattle.nack_timer.specs.Inside.Sound.{IsSoundTimer};

    ghost Value = { TimerState };

    ghost view = { λ t. record { policy = t.policy; span = t.missing.capacity; high = t.high; missing = t.missing.items } };

    ghost invariant = { λ t. IsSoundTimer t.policy t.missing.capacity t.high t.missing.items };
}

impl Timer {
    ghost use Rattle.std.specs.Prelude.{◌≡◌, ◌≤◌, ◌<◌, ◌^◌, ◌+◌, [], None, Some, IfOk, option_map};
    ghost use Rattle.std.specs.Option.{ForSome};
    ghost use Rattle.receiver_rules.specs.declared.limits.Limits.{Limits};
    ghost use Rattle.reorder_buffer.specs.declared.phase.Phase.TheVariants.{Open};
    ghost use Rattle.nack_timer.specs.State.{policy_of, IsInRange, high_or, AreRising};
    ghost use Rattle.request_rules.specs.Near.{AreNear};
    ghost use Rattle.nack_timer.specs.TimerAfter.{IsTimerAfter};
    ghost use Rattle.nack_timer.specs.OneMore.{RaisesAt, RenewsAt, AsksAt, StandsAfterTick, WouldAskAt};
    ghost use Rattle.nack_timer.specs.Inside.Raise.{raised_to, renewed_to};
    ghost use Rattle.nack_timer.specs.Inside.Pass.{words_of, entries_of};
    ghost use Rattle.receiver_rules.specs.declared.bounds.TheConstants.{MAX_SPAN};

    /// A timer for a buffer with this span, 1 to 16,384. It takes all its memory here.
    pub fn with_span(alloc: Global, span: u64, settings: Settings) -> Result<Timer, NoMemory>
        requires some { 1 ≤ span }
        requires few { span ≤ MAX_SPAN }
        requires settings { IsInRange settings }
        ensures value { IfOk result (λ t. t
            ≡ record { policy = policy_of settings; span = span; high = None; missing = [] }) }
        ensures state { IfOk result (λ t. (limits : Limits) → limits.capacity ≡ span → IsTimerAfter t limits []) }
    {
        let missing = HeapCircularBuffer::with_capacity(alloc, span as usize)?;
        Ok(Timer {
            policy: settings.policy(),
            high: None,
            missing,
        })
    }

    /// A packet was kept, at a tick of the receiver's clock, that raises the highest number to `high`. This looks at each
    /// number between, and at no more of them than the span.
    pub fn raised(&mut self, at: u64, high: u64)
        requires time { at < 2 ^ 61 }
        requires small { high < 2 ^ 62 }
        requires above { ForSome self.old.high (λ old. old < high) }

        ensures state { RaisesAt self.old self.new at high }
        ensures told { self.new.high ≡ Some high }
        ensures same { (self.new.policy ≡ self.old.policy) × (self.new.span ≡ self.old.span) }
    {
        self.raise(at, high);
    }

    /// A packet was kept, at a tick of the receiver's clock, that opened the next epoch, with this number. Nothing is missing
    /// in it yet, and nothing was asked for. The number may be lower than the one told last.
    pub fn renew(&mut self, at: u64, high: u64)
        requires time { at < 2 ^ 61 }
        requires small { high < 2 ^ 62 }

        ensures state { RenewsAt self.old self.new at high }
        ensures told { self.new.high ≡ Some high }
        ensures same { (self.new.policy ≡ self.old.policy) × (self.new.span ≡ self.old.span) }
    {
        let _ = at;
        self.begin(high);
    }

    /// The words by which to ask, at a tick of the receiver's clock to which its buffer has come, for what the buffer
    /// misses: at most 64. `rtt` is the longest round-trip time of all links, in ticks. This looks at each packet that is
    /// missing, or came since the last call, and at nothing else.
    pub fn due(&mut self, at: u64, buffer: &Buffer, rtt: u64) -> Asked
        requires time { at < 2 ^ 61 }
        requires clock { buffer.now.time ≡ at }
        requires running { buffer.now.phase ≡ Open }
        requires told { option_map (λ h. h.number) buffer.now.highest ≡ self.old.high }
        requires span { buffer.now.limits.capacity ≡ self.old.span }

        ensures requests { AsksAt self.old buffer.now at rtt result }
        ensures near { AreNear result }
        ensures state { StandsAfterTick self.old self.new buffer.now rtt }
        ensures same { (self.new.policy ≡ self.old.policy) × (self.new.span ≡ self.old.span) }
        ensures told { self.new.high ≡ self.old.high }
    {
        let span = self.missing.capacity() as u64;
        let Some(first) = buffer.first() else {
            return Asked::none();
        };
        let Some(high) = buffer.high() else {
            return Asked::none();
        };
        let low = lowest_wanted(buffer, first, high, span);
        self.ask_for_missing(at, low, buffer, rtt)
    }

    /// Whether `due` would ask for anything. It looks at no more than `due` does.
    pub fn would(&self, at: u64, buffer: &Buffer, rtt: u64) -> bool
        requires time { at < 2 ^ 61 }
        requires clock { buffer.now.time ≡ at }
        requires running { buffer.now.phase ≡ Open }
        requires told { option_map (λ h. h.number) buffer.now.highest ≡ self.now.high }
        requires span { buffer.now.limits.capacity ≡ self.now.span }

        ensures { WouldAskAt self.now buffer.now at rtt result }
    {
        let span = self.missing.capacity() as u64;
        let Some(first) = buffer.first() else {
            return false;
        };
        let Some(high) = buffer.high() else {
            return false;
        };
        let low = lowest_wanted(buffer, first, high, span);
        is_any_due(&self.missing, &self.policy, rtt, at, low, buffer)
    }

    /// Looks at each packet that it keeps as missing, from a number on.
    fn ask_for_missing(&mut self, at: u64, low: u64, buffer: &Buffer, rtt: u64) -> Asked
        requires time { at < 2 ^ 61 }
        requires near { high_or self.old.high ≤ low + MAX_SPAN }
        ensures words { result ≡ words_of self.old.policy rtt at low buffer.now.held [] self.old.missing }
        ensures state { self.new ≡ record {
          policy = self.old.policy;
          span = self.old.span;
          high = self.old.high;
          missing = entries_of self.old.policy rtt at low buffer.now.held [] self.old.missing;
        } }
    {
        look_at_all(&mut self.missing, &self.policy, rtt, at, low, buffer)
    }

    /// Only the highest number is known.
    fn begin(&mut self, high: u64)
        requires small { high < 2 ^ 62 }
        ensures { self.new ≡ renewed_to self.old high }
    {
        self.missing.clear();
        self.high = Some(high);
    }

    /// The highest number has risen: the numbers between are missing from then on.
    fn raise(&mut self, at: u64, high: u64)
        requires time { at < 2 ^ 61 }
        requires small { high < 2 ^ 62 }
        requires above { high_or self.old.high ≤ high }
        ensures value { self.new ≡ raised_to self.old at high }
        ensures order { AreRising 0 (high_or self.old.high) self.old.missing }
        ensures some { 1 ≤ self.old.span }
    {
        note_between(&mut self.missing, self.high, at, high);
        self.high = Some(high);
    }
}

/// The lowest number that is looked for: not below the first arrival's, above all that were played out, and less than
/// the span below the highest.
fn lowest_wanted(buffer: &Buffer, first: u64, high: u64, span: u64) -> u64
    requires small { high < 2 ^ 62 }
    ensures { result ≡ max (max first buffer.now.floor) (high + 1 - span) }
{
    let from = floor_of(buffer).max(first);
    from.max((high + 1).saturating_sub(span))
}

/// One above the highest number that was played out.
fn floor_of(buffer: &Buffer) -> u64
    ensures { result ≡ buffer.now.floor }
{
    match buffer.floor() {
        Some(number) => number + 1,
        None => 0,
    }
}

/// Notes that the numbers between the highest so far and a new one are missing.
fn note_between(missing: &mut HeapCircularBuffer<Missing>, highest: Option<u64>, at: u64, high: u64)
    requires room { length missing.old.items ≤ missing.old.capacity }
    requires small { high < 2 ^ 62 }
    requires below { high_or highest ≤ high }
    ensures items { missing.new.items ≡ keep_last missing.old.capacity
        (missing.old.items ++ found_between highest missing.old.capacity at high) }
    ensures capacity { missing.new.capacity ≡ missing.old.capacity }
{
    match highest {
        Some(old) => {
            let span = missing.capacity() as u64;
            let low = (old + 1).max((high + 1).saturating_sub(span));
            note_missing(missing, at, low, high);
        }
        None => {}
    }
}

/// Notes that the numbers from one up to another are missing.
fn note_missing(missing: &mut HeapCircularBuffer<Missing>, at: u64, low: u64, high: u64)
    requires room { length missing.old.items ≤ missing.old.capacity }
    ensures items { missing.new.items ≡ keep_last missing.old.capacity
        (missing.old.items ++ new_entries at low (high - low)) }
    ensures capacity { missing.new.capacity ≡ missing.old.capacity }
{
    for number in low..high {
        missing.push_back(Missing {
            number,
            found: at,
            last: None,
            count: 0,
        });
    }
}
