//! What is kept of the numbers of packets.
ghost use Rattle.std.specs.Prelude.{◌≡◌, ◌≢◌, ◌+◌, ◌-◌, ◌^◌, ◌<◌, List, [], length};
ghost use Rattle.std.specs.Option.{ForSome};
ghost use Rattle.seq_unwrap.specs.Nearest.{cycle_of, nearest};
ghost use Rattle.receiver_rules.specs.Seen.{seen};
ghost use Rattle.receiver_rules.specs.Steps.{Step};
ghost use Rattle.receiver_rules.specs.Epochs.{epochs_of};
ghost use Rattle.reorder_buffer.specs.StateAfter.{IsStateAfter};
ghost use Rattle.reorder_buffer.specs.declared.phase.Phase.TheVariants.{Failed};
ghost use Rattle.rist_ends.specs.Counts.{capped};
ghost use Rattle.rist_ends.specs.Numbers.{AreNumbersOf, missing_count, sent_count};
ghost use Rattle.rist_ends.specs.Taking.{above_number, closed, missing_of, number_by, numbers_with, sent_of, taken, with_kept};
ghost use Rattle.rist_ends.specs.Told.{IsFitWhat};

use crate::told::What;
use receiver_rules::{Arrival, Verdict};
use reorder_buffer::Buffer;
use seq_unwrap::Width;

/// The numbers of the newest epoch that were kept, and what came of the epochs before it. Each count stays at its
/// greatest value.
#[derive(Clone, Copy, Debug, PartialEq, Eq)]
pub struct Numbers {
    /// The lowest of them, and the greatest of all where there is none.
    pub low: u64,
    /// How many they are.
    pub kept: u64,
    /// How many numbers the epochs before it have.
    pub sent: u64,
    /// How many of those weren't kept.
    pub missing: u64,
}

impl Numbers {
    /// Of no epoch.
    pub fn none() -> Numbers
        ensures state { AreNumbersOf result [] }
    {
        Numbers {
            low: u64::MAX,
            kept: 0,
            sent: 0,
            missing: 0,
        }
    }

    /// Takes an arrival that was judged: whether it opened the next epoch, the highest number before it, and whether it
    /// was kept.
    pub fn take(&mut self, opened: bool, high: Option<u64>, kept: bool, arrival: &Arrival<'_>)
        requires high { ForSome high (λ n. n < 2 ^ 62) }
        requires word { arrival.now.word < cycle_of arrival.now.width }
        ensures value { self.new ≡ taken self.old opened high kept (seen arrival.now) }
    {
        if opened {
            self.close(high);
            self.keep_if(kept, None, arrival);
        } else {
            self.keep_if(kept, high, arrival);
        }
    }

    /// Takes what came with a step that has this verdict, where it has one: whether it opened the next epoch, and the
    /// highest number before it.
    pub(crate) fn take_step(
        &mut self,
        what: &What<'_>,
        verdict: Option<Verdict>,
        opened: bool,
        high: Option<u64>,
    )
        requires high { ForSome high (λ n. n < 2 ^ 62) }
        requires fits { IsFitWhat what.now }
        ensures value { self.new ≡ numbers_with verdict what.now opened high self.old }
    {
        match (verdict, what) {
            (Some(verdict), What::Media(arrival)) => self.take(
                opened,
                high,
                verdict.is_kept(),
                arrival,
            ),
            _ => {}
        }
    }

    /// How many packets were sent, where this is the highest number of the newest epoch.
    pub(crate) fn sent(&self, high: Option<u64>) -> u64
        requires high { ForSome high (λ n. n < 2 ^ 62) }
        ensures value { result ≡ sent_of self.now high }
    {
        self.sent
            .saturating_add(above_number(high).saturating_sub(self.low))
    }

    /// How many numbers the playout has passed without a packet, by its floor and by how many packets wait.
    pub(crate) fn missing(&self, floor: u64, waiting: u64) -> u64
        ensures value { result ≡ missing_of self.now floor waiting }
    {
        let passed = floor.saturating_sub(self.low);
        self.missing
            .saturating_add(passed.saturating_sub(self.kept.saturating_sub(waiting)))
    }

    // The newest epoch is over: this was its highest number.
    fn close(&mut self, high: Option<u64>)
        requires high { ForSome high (λ n. n < 2 ^ 62) }
        ensures value { self.new ≡ closed self.old high }
    {
        let sent = above_number(high).saturating_sub(self.low);
        self.sent = self.sent.saturating_add(sent);
        self.missing = self.missing.saturating_add(sent.saturating_sub(self.kept));
        self.low = u64::MAX;
        self.kept = 0;
    }

    // Takes the number of a packet that was kept, beside the highest one before it.
    fn keep_if(&mut self, kept: bool, high: Option<u64>, arrival: &Arrival<'_>)
        requires high { ForSome high (λ n. n < 2 ^ 62) }
        requires word { arrival.now.word < cycle_of arrival.now.width }
        ensures value { self.new ≡ with_kept self.old kept (number_by high (seen arrival.now)) }
    {
        if kept {
            self.low = self.low.min(number_of(high, arrival));
            self.kept = self.kept.saturating_add(1);
        }
    }
}

/// How many numbers the playout of a buffer has passed without a packet.
pub fn missing_now(buffer: &Buffer, numbers: &Numbers) -> u64
    ensures value { result ≡ missing_of numbers.now buffer.now.floor (length buffer.now.held) }
    ensures history { (history : List Step) → IsStateAfter buffer.now history → buffer.now.phase ≢ Failed
        → AreNumbersOf numbers.now (epochs_of buffer.now.limits history)
        → result ≡ capped (missing_count buffer.now.limits history) }
{
    let floor = match buffer.floor() {
        Some(number) => number + 1,
        None => 0,
    };
    numbers.missing(floor, buffer.held() as u64)
}

/// How many packets were sent, by the numbers that a buffer kept.
pub fn sent_now(buffer: &Buffer, numbers: &Numbers) -> u64
    ensures value { (history : List Step) → IsStateAfter buffer.now history → buffer.now.phase ≢ Failed
        → AreNumbersOf numbers.now (epochs_of buffer.now.limits history)
        → result ≡ capped (sent_count buffer.now.limits history) }
{
    numbers.sent(buffer.high())
}

// One above a number, and 0 where there is none.
fn above_number(high: Option<u64>) -> u64
    requires high { ForSome high (λ n. n < 2 ^ 62) }
    ensures value { result ≡ above_number high }
{
    match high {
        Some(number) => number + 1,
        None => 0,
    }
}

// An arrival's number, beside the highest one of its epoch.
fn number_of(high: Option<u64>, arrival: &Arrival<'_>) -> u64
    requires high { ForSome high (λ n. n < 2 ^ 62) }
    requires word { arrival.now.word < cycle_of arrival.now.width }
    ensures value { result ≡ number_by high (seen arrival.now) }
{
    match high {
        Some(number) => beside(number, arrival.width, arrival.word),
        None => (1 << 40) + u64::from(arrival.word),
    }
}

// The number with these lowest bits that is nearest to another, however low that is.
#[tactic(auto, unfolding(seq_unwrap::specs::Nearest::nearest))]
fn beside(reference: u64, width: Width, word: u32) -> u64
    requires high { reference < 2 ^ 62 }
    requires word { word < cycle_of width }
    ensures value { result ≡ nearest (cycle_of width) reference word }
{
    let cycle = width.cycle();
    let low = reference.saturating_sub(cycle / 2);
    low + (u64::from(word) + cycle - low % cycle) % cycle
}
