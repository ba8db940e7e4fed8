//! A step of the buffer, and what it adds.
ghost use Rattle.std.specs.Prelude.{◌≡◌, ◌<◌, ◌≤◌, ◌^◌, ℕ, max, length, List, ◌∷◌};
ghost use Rattle.seq_unwrap.specs.Nearest.{cycle_of};
ghost use Rattle.link_channels.specs.declared.bounds.TheConstants.{MAX_PAYLOAD};
ghost use Rattle.receiver_rules.specs.Steps.{Step, media_step, time_step, end_step, tick_of};
ghost use Rattle.receiver_rules.specs.Epochs.{epochs_of};
ghost use Rattle.receiver_rules.specs.Seen.{seen};
ghost use Rattle.reorder_buffer.specs.StateAfter.{IsStateAfter};
ghost use Rattle.reorder_buffer.specs.OneMore.{StandsAfter, Judges};
ghost use Rattle.reorder_buffer.specs.declared.phase.Phase.TheVariants.{Open, Ended};
ghost use Rattle.request_rules.specs.Steps.{Step as ReceiverStep, buffer_history};
ghost use Rattle.rist_ends.specs.Told.{IsFit, IsFitArrival, IsNoEnd, step_of, buffer_step, input_of};
ghost use Rattle.session_figures.specs.Amounts.{amounts_by, media_amounts, nothing_passed};
ghost use Rattle.session_figures.specs.Spreads.{timestamp_in};
ghost use Rattle.receiver_rules.specs.History.{verdict};
ghost use Rattle.rist_ends.specs.Numbers.{AreNumbersOf};

use crate::amounts::Amounts;
use outside_io::Nowhere;
use receiver_rules::{Arrival, Verdict, tick_of};
use reorder_buffer::Buffer;
use rist_ends::{Numbers, Told, What};

/// Makes the step of what is told, which isn't the end, and says what it adds beside the numbers that the playout
/// passes.
pub fn step_buffer(buffer: &mut Buffer, numbers: &mut Numbers, now: u64, told: &Told<'_>) -> Amounts
    requires running { buffer.old.phase ≡ Open }
    requires clock { buffer.old.time ≡ now }
    requires tick { now < 2 ^ 61 }
    requires fits { IsFit told.now }
    requires going { IsNoEnd told.now.what }
    ensures state { StandsAfter buffer.old buffer.new (buffer_step (step_of told.now)) }
    ensures numbers { (history : List ReceiverStep) → IsStateAfter buffer.old (buffer_history history)
        → AreNumbersOf numbers.old (epochs_of buffer.old.limits (buffer_history history))
        → AreNumbersOf numbers.new (epochs_of buffer.old.limits (buffer_history (step_of told.now ∷ history))) }
    ensures amounts { (history : List ReceiverStep) → IsStateAfter buffer.old (buffer_history history)
        → result ≡ amounts_by buffer.old.limits history told.now.link (tick_of told.now.us) nothing_passed
        (input_of told.now.us told.now.what) }
    ensures time { (buffer.new.time ≡ max now (tick_of told.now.us)) × (buffer.new.phase ≡ Open) }
    ensures limits { buffer.new.limits ≡ buffer.old.limits }
{
    let tick = tick_of(told.us);
    match &told.what {
        What::Media(arrival) => step_media(buffer, numbers, now, tick, told.link, arrival),
        What::Control(_) | What::Keepalive | What::Refused | What::Tick | What::End => {
            release(buffer, now.max(tick));
            Amounts::silent(told.link)
        }
    }
}

/// The timestamp of a media packet, and 0 where another thing came.
pub fn stamp_of(what: &What<'_>) -> u32
    ensures value { (us : ℕ) → result ≡ timestamp_in (input_of us what.now) }
{
    match what {
        What::Media(arrival) => arrival.stamp,
        What::Control(_) | What::Keepalive | What::Refused | What::Tick | What::End => 0,
    }
}

// A step with a media packet.
fn step_media(
    buffer: &mut Buffer,
    numbers: &mut Numbers,
    now: u64,
    tick: u64,
    link: u8,
    arrival: &Arrival<'_>,
) -> Amounts
    requires running { buffer.old.phase ≡ Open }
    requires clock { buffer.old.time ≡ now }
    requires tick { (now < 2 ^ 61) × (tick < 2 ^ 61) }
    requires fits { IsFitArrival arrival.now }
    ensures state { StandsAfter buffer.old buffer.new (media_step tick (seen arrival.now)) }
    ensures numbers { (history : List Step) → IsStateAfter buffer.old history
        → AreNumbersOf numbers.old (epochs_of buffer.old.limits history)
        → AreNumbersOf numbers.new (epochs_of buffer.old.limits (media_step tick (seen arrival.now) ∷ history)) }
    ensures amounts { (history : List Step) → IsStateAfter buffer.old history
        → result ≡ media_amounts link (verdict buffer.old.limits history tick (seen arrival.now)) arrival.now.again
        (length arrival.now.payload.now) nothing_passed }
    ensures time { (buffer.new.time ≡ max now tick) × (buffer.new.phase ≡ Open) }
    ensures limits { buffer.new.limits ≡ buffer.old.limits }
{
    let at = now.max(tick);
    let verdict = receive(buffer, numbers, at, arrival);
    Amounts::media(link, verdict, arrival.again, arrival.payload.len() as u64)
}

// Takes a media packet, and its number.
fn receive(buffer: &mut Buffer, numbers: &mut Numbers, at: u64, arrival: &Arrival<'_>) -> Verdict
    requires running { buffer.old.phase ≡ Open }
    requires tick { at < 2 ^ 61 }
    requires clock { buffer.old.time ≤ at }
    requires fits { IsFitArrival arrival.now }
    ensures verdict { Judges buffer.old at (seen arrival.now) result }
    ensures state { StandsAfter buffer.old buffer.new (media_step at (seen arrival.now)) }
    ensures numbers { (history : List Step) → IsStateAfter buffer.old history
        → AreNumbersOf numbers.old (epochs_of buffer.old.limits history)
        → AreNumbersOf numbers.new (epochs_of buffer.old.limits (media_step at (seen arrival.now) ∷ history)) }
    ensures time { (buffer.new.time ≡ at) × (buffer.new.phase ≡ Open) }
    ensures limits { buffer.new.limits ≡ buffer.old.limits }
{
    let epoch = buffer.epoch();
    let high = buffer.high();
    let verdict = match buffer.receive(at, arrival, &mut Nowhere) {
        Ok(verdict) => verdict,
        Err(_) => unreachable!(),
    };
    let opened = buffer.epoch() != epoch;
    numbers.take(opened, high, verdict.is_kept(), arrival);
    verdict
}

// Lets time pass.
fn release(buffer: &mut Buffer, at: u64)
    requires running { buffer.old.phase ≡ Open }
    requires tick { at < 2 ^ 61 }
    requires clock { buffer.old.time ≤ at }
    ensures state { StandsAfter buffer.old buffer.new (time_step at) }
    ensures time { (buffer.new.time ≡ at) × (buffer.new.phase ≡ Open) }
    ensures limits { buffer.new.limits ≡ buffer.old.limits }
{
    match buffer.release(at, &mut Nowhere) {
        Ok(_) => {}
        Err(_) => unreachable!(),
    }
}

/// Lets out all that waits.
pub fn flush(buffer: &mut Buffer)
    requires running { buffer.old.phase ≡ Open }
    ensures state { StandsAfter buffer.old buffer.new end_step }
    ensures ended { buffer.new.phase ≡ Ended }
    ensures limits { buffer.new.limits ≡ buffer.old.limits }
{
    match buffer.flush(&mut Nowhere) {
        Ok(_) => {}
        Err(_) => unreachable!(),
    }
}
