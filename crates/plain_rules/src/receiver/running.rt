//! What a plain program knows after some steps.
ghost use Rattle.std.specs.Prelude.{◌≡◌, ◌<◌, ◌^◌, [], ◌∷◌, ◌++◌, ◌&&◌, List, length, not, if◌then◌else◌, IfOk, OnOk, unwrap_or};
ghost use Rattle.std.specs.List.{All};
ghost use Rattle.std.specs.Option.{ForSome};
ghost use Rattle.seq_unwrap.specs.Nearest.{cycle_of};
ghost use Rattle.receiver_rules.specs.declared.limits.Limits.{Limits};
ghost use Rattle.receiver_rules.specs.Steps.{Step as RuleStep};
ghost use Rattle.receiver_rules.specs.Packets.{highest_of, is_kept, insert_by_number};
ghost use Rattle.receiver_rules.specs.Epochs.{new_anchor as anchor_fixed, epochs_of, opens_epoch};
ghost use Rattle.receiver_rules.specs.Seen.{seen, packet_at, start_of};
ghost use Rattle.receiver_rules.specs.Bounds.{AreInRange, IsEarlyAnchor, IsClockWithin, IsNearBase};
ghost use Rattle.plain_rules.specs.Receiver.Told.{step_of, history_of, IsFit};
ghost use Rattle.plain_rules.specs.Receiver.Kept.{kept_packets};
ghost use Rattle.plain_rules.specs.Receiver.Run.{IsSmallRun, RunShows};
ghost use Rattle.plain_rules.specs.Inside.ReceiverRun.{clock_now, kept_with, ordered_with, opens_here, SameButKept, IsBrought, IsKeptAfter, IsTurned, IsTaken};

use crate::receiver::kept::{Kept, insert_in_order, is_any_buffered, judge_arrival};
use crate::receiver::steps::{Event, Step};
use receiver_rules::clock::{clock_in, clock_with};
use receiver_rules::place::{Position, highest_after, new_anchor, place_of};
use receiver_rules::{Anchor, Arrival, Clock, Highest, Limits, Verdict};
use std::alloc::{AllocError, Global};

/// What a plain program knows after some steps.
#[derive(Drop)]
pub struct Run<'a> {
    /// The effective time, in ticks of 1/90,000 s.
    pub time: u64,
    /// Whether some step ended the stream.
    pub has_ended: bool,
    /// What the current epoch's first arrival fixed.
    pub anchor: Option<Anchor>,
    /// What its deadlines count from.
    pub clock: Clock,
    /// The packet with the highest number that it has kept.
    pub highest: Option<Highest>,
    /// All that it has kept, the newest first.
    pub kept: Vec<Kept<'a>>,
    /// The same by rising number.
    pub ordered: Vec<Kept<'a>>,
    /// When the last of them came, in ticks.
    pub last: u64,
    /// What was kept in earlier epochs, one after another, each one's by rising number.
    pub over: Vec<Kept<'a>>,
    /// The verdict on each arrival, in order.
    pub verdicts: Vec<Verdict>,
}

pub fn run_of<'a>(alloc: Global, limits: &Limits, steps: &[Step<'a>]) -> Result<Run<'a>, AllocError>
    requires limits { AreInRange limits.now }
    requires steps { All IsFit steps.now }
    ensures small { IfOk result IsSmallRun }
    ensures shows { IfOk result (λ run. RunShows limits.now run (history_of steps.now)) }
{
    let mut run = nothing_yet(alloc);
    for step in steps {
        take(&mut run, limits, step)?;
    }
    Ok(run)
}

/// What is known where no step was made.
pub fn nothing_yet<'a>(alloc: Global) -> Run<'a>
    ensures small { IsSmallRun result }
    ensures shows { (limits : Limits) → RunShows limits result [] }
{
    Run {
        time: 0,
        has_ended: false,
        anchor: None,
        clock: Clock::starting(0),
        highest: None,
        kept: Vec::new(alloc),
        ordered: Vec::new(alloc),
        last: 0,
        over: Vec::new(alloc),
        verdicts: Vec::new(alloc),
    }
}

/// One more step. After want of memory the run stands for no history.
pub fn take<'a>(run: &mut Run<'a>, limits: &Limits, step: &Step<'a>) -> Result<(), AllocError>
    requires limits { AreInRange limits.now }
    requires step { IsFit step.now }
    requires small { IsSmallRun run.old }
    ensures small { OnOk result (IsSmallRun run.new) }
    ensures shows { OnOk result ((history : List RuleStep) → RunShows limits.now run.old history
        → RunShows limits.now run.new (step_of step.now ∷ history)) }
{
    run.time = run.time.max(step.tick);
    match &step.event {
        Event::Media(arrival) => bring(run, limits, arrival),
        Event::TimeOnly => Ok(()),
        Event::End => {
            run.has_ended = true;
            Ok(())
        }
    }
}

/// An arrival, which may open an epoch.
fn bring<'a>(run: &mut Run<'a>, limits: &Limits, arrival: &Arrival<'a>) -> Result<(), AllocError>
    requires limits { AreInRange limits.now }
    requires word { arrival.now.word < cycle_of arrival.now.width }
    requires small { IsSmallRun run.old }
    ensures small { OnOk result (IsSmallRun run.new) }
    ensures after { OnOk result (IsTaken limits.now (seen arrival.now) run.old run.new) }
{
    let opens = opens_epoch(run, limits, run.time, arrival);
    turn(run, opens)?;
    judge(run, limits, arrival)
}

/// Whether an arrival at a time opens an epoch.
pub fn opens_epoch(run: &Run<'_>, limits: &Limits, t: u64, arrival: &Arrival<'_>) -> bool
    requires limits { AreInRange limits.now }
    requires small { IsSmallRun run.now }
    requires time { t < 2 ^ 61 }
    ensures value { result
        ≡ opens_here limits.now run.now.anchor (kept_packets run.now.kept.items) run.now.last t (seen arrival.now) }
    ensures shows { (history : List RuleStep) → RunShows limits.now run.now history
        → result ≡ opens_epoch limits.now (epochs_of limits.now history) t (seen arrival.now) }
{
    is_opening(run, limits, t, arrival)
}

fn is_opening(run: &Run<'_>, limits: &Limits, t: u64, arrival: &Arrival<'_>) -> bool
    requires limits { AreInRange limits.now }
    requires small { IsSmallRun run.now }
    requires time { t < 2 ^ 61 }
    ensures { result
        ≡ opens_here limits.now run.now.anchor (kept_packets run.now.kept.items) run.now.last t (seen arrival.now) }
{
    match run.anchor {
        None => true,
        Some(anchor) => {
            arrival.flow != anchor.flow
                && limits.restart_time > 0
                && !is_any_buffered(run.kept.as_slice(), t)
                && run.last + limits.restart_time <= t
        }
    }
}

/// Begins an epoch where an arrival opens one: what was kept before is over.
fn turn(run: &mut Run<'_>, opens: bool) -> Result<(), AllocError>
    requires small { IsSmallRun run.old }
    ensures small { OnOk result (IsSmallRun run.new) }
    ensures turned { OnOk result (IsTurned opens run.old run.new) }
{
    if opens {
        append(&mut run.over, run.ordered.as_slice())?;
        run.kept.clear();
        run.ordered.clear();
        run.anchor = None;
        run.highest = None;
        run.last = run.time;
    }
    Ok(())
}

/// Puts packets behind others.
fn append<'a>(over: &mut Vec<Kept<'a>>, packets: &[Kept<'a>]) -> Result<(), AllocError>
    ensures { OnOk result
        (kept_packets over.new.items ≡ kept_packets over.old.items ++ kept_packets packets.now) }
{
    for packet in packets {
        over.push(*packet)?;
    }
    Ok(())
}

/// An arrival of the current epoch, or the first of it.
fn judge<'a>(run: &mut Run<'a>, limits: &Limits, arrival: &Arrival<'a>) -> Result<(), AllocError>
    requires limits { AreInRange limits.now }
    requires word { arrival.now.word < cycle_of arrival.now.width }
    requires small { IsSmallRun run.old }
    ensures small { OnOk result (IsSmallRun run.new) }
    ensures after { OnOk result (IsBrought limits.now (seen arrival.now) run.old run.new) }
{
    let anchor = first_of(run.anchor, run.time, arrival);
    let clock = clock_of(run);
    let place = place_of(limits, &anchor, &clock, run.highest, arrival);
    let verdict = judge_arrival(
        limits,
        &anchor,
        &clock,
        run.kept.as_slice(),
        run.time,
        arrival,
        &place,
    );
    run.anchor = Some(anchor);
    run.verdicts.push(verdict)?;
    let counts = verdict.counts(arrival.again);
    run.clock = clock_with(limits, &anchor, &clock, run.time, place.timestamp, counts);
    settle(run, verdict, place, arrival.payload)?;
    Ok(())
}

fn first_of(first: Option<Anchor>, time: u64, arrival: &Arrival<'_>) -> Anchor
    requires time { time < 2 ^ 61 }
    requires early { ForSome first (IsEarlyAnchor time) }
    ensures value { result ≡ unwrap_or first (anchor_fixed time (seen arrival.now)) }
    ensures early { IsEarlyAnchor time result }
{
    match first {
        Some(anchor) => anchor,
        None => new_anchor(time, arrival),
    }
}

/// The clock of the current epoch, which may begin now.
fn clock_of(run: &Run<'_>) -> Clock
    requires small { IsSmallRun run.now }
    ensures value { result ≡ clock_now run.now }
    ensures within { IsClockWithin (start_of run.now.anchor run.now.time) (length run.now.kept.items) result }
    ensures few { length run.now.kept.items < 2 ^ 63 }
    ensures base { IsNearBase (start_of run.now.anchor run.now.time) result.base }
{
    clock_in(run.anchor, &run.clock, run.time)
}

/// Keeps a packet where its verdict says so.
fn settle<'a>(
    run: &mut Run<'a>,
    verdict: Verdict,
    place: Position,
    payload: &'a [u8],
) -> Result<(), AllocError>
    requires known { run.old.highest ≡ highest_of (kept_packets run.old.kept.items) }
    ensures same { OnOk result (SameButKept run.old run.new) }
    ensures kept { OnOk result (kept_packets run.new.kept.items
        ≡ kept_with verdict (packet_at place payload.now) (kept_packets run.old.kept.items)) }
    ensures ordered { OnOk result (kept_packets run.new.ordered.items
        ≡ ordered_with verdict (packet_at place payload.now) (kept_packets run.old.ordered.items)) }
    ensures known { OnOk result (run.new.highest ≡ highest_of (kept_packets run.new.kept.items)) }
    ensures last { OnOk result (run.new.last ≡ (if is_kept verdict then run.old.time else run.old.last)) }
{
    if verdict.is_kept() {
        keep(run, place, payload)?;
    }
    Ok(())
}

/// Puts a packet before those that were kept, and at its place among those in order.
fn keep<'a>(run: &mut Run<'a>, place: Position, payload: &'a [u8]) -> Result<(), AllocError>
    ensures { OnOk result (IsKeptAfter (packet_at place payload.now) run.old run.new) }
{
    let packet = Kept { place, payload };
    run.kept.insert(0, packet)?;
    insert_in_order(&mut run.ordered, &packet)?;
    run.highest = Some(highest_after(run.highest, place.number, place.timestamp));
    run.last = run.time;
    Ok(())
}
