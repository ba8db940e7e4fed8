//! A receiver's steps on its buffer: at each first what is due is written, and then comes the event.
ghost use Rattle.std.specs.Prelude.{◌≡◌, ◌≢◌, IsSome, ◌<◌, ◌^◌, List, Some, None, true, is_some, IfOk, OnOk, OnErr};
ghost use Rattle.outside_io.specs.Causes.{HasCause};
ghost use Rattle.receiver_rules.specs.Steps.{Step, media_step, time_step, tick_of};
ghost use Rattle.receiver_rules.specs.History.{verdict};
ghost use Rattle.receiver_rules.specs.Seen.{seen};
ghost use Rattle.reorder_buffer.specs.StateAfter.{IsStateAfter};
ghost use Rattle.reorder_buffer.specs.OneMore.{StandsAfter, Releases, ReleasesPart};
ghost use Rattle.reorder_buffer.specs.declared.phase.Phase.TheVariants.{Open, Ended};
ghost use Rattle.rist_ends.specs.Told.{IsFit, IsFitArrival, step_of, buffer_step, ended_at, end_at};
ghost use Rattle.rist_ends.specs.Inside.Stepping.{IsMoved, SaysVerdict, IsJudged, IsHigh};
ghost use Rattle.reorder_buffer.specs.State.{IsNoLower};
ghost use Rattle.rist_ends.specs.Receiver.{HasFailed};

use crate::told::{Told, What};
use outside_io::Sink;
use receiver_rules::{Arrival, Verdict, tick_of};
use reorder_buffer::{Buffer, WriteFault};

/// A step that was made: the effective time then, and the verdict on a media packet.
#[derive(Clone, Copy)]
pub struct Stepped {
    pub at: u64,
    pub verdict: Option<Verdict>,
}

/// Makes the step of what is told.
pub fn step_buffer<K: Sink>(
    buffer: &mut Buffer,
    now: u64,
    told: &Told<'_>,
    sink: &mut K,
) -> Result<Stepped, WriteFault>
    requires running { buffer.old.phase ≡ Open }
    requires clock { buffer.old.time ≡ now }
    requires tick { now < 2 ^ 61 }
    requires fits { IsFit told.now }
    ensures moved { IfOk result (λ s. IsMoved buffer.old buffer.new s.at (ended_at told.now)) }
    ensures verdict { IfOk result (λ s. (history : List Step) → IsStateAfter buffer.old history
        → SaysVerdict s.verdict buffer.old.limits history (step_of told.now)) }
    ensures judged { IfOk result (λ s. IsJudged told.now.what s.verdict) }
    ensures high { OnOk result (IsHigh told.now.what buffer.old buffer.new) }
    ensures state { OnOk result (StandsAfter buffer.old buffer.new (buffer_step (step_of told.now))) }
    ensures sink { OnOk result
        (Releases buffer.old (buffer_step (step_of told.now)) (K.contents sink.old) (K.contents sink.new)) }
    ensures limits { buffer.new.limits ≡ buffer.old.limits }
    ensures failed { OnErr result (HasFailed buffer.new) }
    ensures part { OnErr result
        (ReleasesPart buffer.old (buffer_step (step_of told.now)) (K.contents sink.old) (K.contents sink.new)) }
    ensures cause { HasCause (K.faults sink.old) (K.faults sink.new) result }
{
    let tick = tick_of(told.us);
    match &told.what {
        What::Media(arrival) => step_media(buffer, now, tick, arrival, sink),
        What::End => step_end(buffer, now, tick, sink),
        What::Control(_) | What::Keepalive | What::Refused | What::Tick => {
            step_time(buffer, now, tick, sink)
        }
    }
}

/// A step with a media packet.
fn step_media<K: Sink>(
    buffer: &mut Buffer,
    now: u64,
    tick: u64,
    arrival: &Arrival<'_>,
    sink: &mut K,
) -> Result<Stepped, WriteFault>
    requires running { buffer.old.phase ≡ Open }
    requires clock { buffer.old.time ≡ now }
    requires tick { (now < 2 ^ 61) × (tick < 2 ^ 61) }
    requires fits { IsFitArrival arrival.now }
    ensures moved { IfOk result (λ s. IsMoved buffer.old buffer.new s.at Open) }
    ensures verdict { IfOk result (λ s. (history : List Step) → IsStateAfter buffer.old history
        → s.verdict ≡ Some (verdict buffer.old.limits history tick (seen arrival.now))) }
    ensures judged { IfOk result (λ s. is_some s.verdict ≡ true) }
    ensures high { OnOk result
        (buffer.new.epoch ≡ buffer.old.epoch → IsNoLower buffer.old.highest buffer.new.highest) }
    ensures opens { OnOk result (buffer.new.epoch ≢ buffer.old.epoch → IsSome buffer.new.highest) }
    ensures state { OnOk result (StandsAfter buffer.old buffer.new (media_step tick (seen arrival.now))) }
    ensures sink { OnOk result
        (Releases buffer.old (media_step tick (seen arrival.now)) (K.contents sink.old) (K.contents sink.new)) }
    ensures limits { buffer.new.limits ≡ buffer.old.limits }
    ensures failed { OnErr result (HasFailed buffer.new) }
    ensures part { OnErr result
        (ReleasesPart buffer.old (media_step tick (seen arrival.now)) (K.contents sink.old) (K.contents sink.new)) }
    ensures cause { HasCause (K.faults sink.old) (K.faults sink.new) result }
{
    let at = now.max(tick);
    let verdict = Some(buffer.receive(at, arrival, sink)?);
    Ok(Stepped { at, verdict })
}

/// A step with which only time passes.
fn step_time<K: Sink>(
    buffer: &mut Buffer,
    now: u64,
    tick: u64,
    sink: &mut K,
) -> Result<Stepped, WriteFault>
    requires running { buffer.old.phase ≡ Open }
    requires clock { buffer.old.time ≡ now }
    requires tick { (now < 2 ^ 61) × (tick < 2 ^ 61) }
    ensures moved { IfOk result (λ s. IsMoved buffer.old buffer.new s.at Open) }
    ensures silent { IfOk result (λ s. s.verdict ≡ None) }
    ensures high { OnOk result (buffer.new.highest ≡ buffer.old.highest) }
    ensures state { OnOk result (StandsAfter buffer.old buffer.new (time_step tick)) }
    ensures sink { OnOk result (Releases buffer.old (time_step tick) (K.contents sink.old) (K.contents sink.new)) }
    ensures limits { buffer.new.limits ≡ buffer.old.limits }
    ensures failed { OnErr result (HasFailed buffer.new) }
    ensures part { OnErr result (ReleasesPart buffer.old (time_step tick) (K.contents sink.old) (K.contents sink.new)) }
    ensures cause { HasCause (K.faults sink.old) (K.faults sink.new) result }
{
    let at = now.max(tick);
    buffer.release(at, sink)?;
    Ok(Stepped { at, verdict: None })
}

/// A step that ends the stream: what is due at its moment goes out, and then all that waits.
fn step_end<K: Sink>(
    buffer: &mut Buffer,
    now: u64,
    tick: u64,
    sink: &mut K,
) -> Result<Stepped, WriteFault>
    requires running { buffer.old.phase ≡ Open }
    requires clock { buffer.old.time ≡ now }
    requires tick { (now < 2 ^ 61) × (tick < 2 ^ 61) }
    ensures moved { IfOk result (λ s. IsMoved buffer.old buffer.new s.at Ended) }
    ensures silent { IfOk result (λ s. s.verdict ≡ None) }
    ensures state { OnOk result (StandsAfter buffer.old buffer.new (end_at tick)) }
    ensures sink { OnOk result (Releases buffer.old (end_at tick) (K.contents sink.old) (K.contents sink.new)) }
    ensures limits { buffer.new.limits ≡ buffer.old.limits }
    ensures failed { OnErr result (HasFailed buffer.new) }
    ensures part { OnErr result (ReleasesPart buffer.old (end_at tick) (K.contents sink.old) (K.contents sink.new)) }
    ensures cause { HasCause (K.faults sink.old) (K.faults sink.new) result }
{
    let at = now.max(tick);
    buffer.release(at, sink)?;
    buffer.flush(sink)?;
    Ok(Stepped { at, verdict: None })
}
