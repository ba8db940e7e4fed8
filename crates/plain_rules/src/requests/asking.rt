//! The words by which the rules ask after a list of steps, by a program that keeps every packet and every request.
ghost use Rattle.std.specs.Prelude.{◌≡◌, ◌<◌, ◌≤◌, ◌^◌, [], ◌∷◌, ◌++◌, max, List, map, if◌then◌else◌, IfOk, OnOk, None, option_map};
ghost use Rattle.std.specs.List.{All};
ghost use Rattle.receiver_rules.specs.Bounds.{AreInRange};
ghost use Rattle.receiver_rules.specs.ReceiverSteps.{buffer_event};
ghost use Rattle.receiver_rules.specs.Steps.{Step as BufferRuleStep};
ghost use Rattle.receiver_rules.specs.Epochs.{epochs_of, is_opening};
ghost use Rattle.plain_rules.specs.Receiver.Told.{step_of as buffer_step_of, IsFit as IsFitBuffer};
ghost use Rattle.plain_rules.specs.Receiver.Run.{IsSmallRun, RunShows};
ghost use Rattle.request_rules.specs.Steps.{Step as RuleStep, buffer_history, longest_rtt, receiver_input, effective_time};
ghost use Rattle.request_rules.specs.Requests.{request_at, requests_of, requests_after, asked_words};
ghost use Rattle.plain_rules.specs.Requests.Told.{IsFit, input_of, IsSmallPolicy, step_of, history_of};
ghost use Rattle.plain_rules.specs.Inside.RequestsAsking.{requests_seen, IsSmallMade, AskingShows, IsSmallAsking};

use crate::receiver::{Event, Run, Step as BufferStep, nothing_yet, take};
use crate::requests::asks::ask_at;
use crate::requests::rtt::longest_rtt;
use crate::requests::steps::{Input, Step};
use receiver_rules::{Highest, Limits};
use request_rules::{Asked, Policy};
use std::alloc::{AllocError, Global};

/// The words by which a receiver asks at a tick after a list of steps.
pub fn asked(
    alloc: Global,
    limits: &Limits,
    policy: &Policy,
    steps: &[Step<'_>],
    tick: u64,
) -> Result<Asked, AllocError>
    requires limits { AreInRange limits.now }
    requires policy { IsSmallPolicy policy.now }
    requires steps { All IsFit steps.now }
    requires tick { tick < 2 ^ 61 }
    ensures words { IfOk result (λ words. words ≡ asked_words limits.now policy.now (history_of steps.now)
        (max tick (effective_time (history_of steps.now)))) }
{
    let asking = asking_of(alloc, limits, policy, steps)?;
    let t = tick.max(asking.run.time);
    let request = ask_at(alloc, limits, policy, longest_rtt(steps), t, &asking)?;
    Ok(request.words)
}

/// What is noted of a step: the highest number that was kept before it, and the effective time after it.
#[derive(Clone, Copy)]
pub struct Mark {
    pub highest: Option<u64>,
    pub time: u64,
}

/// A request that was made.
#[derive(Clone, Copy)]
pub struct Made {
    pub number: u64,
    pub time: u64,
}

/// What the program knows after some steps.
#[derive(Drop)]
pub struct Asking<'a> {
    pub run: Run<'a>,
    pub marks: Vec<Mark>,
    pub made: Vec<Made>,
}

fn asking_of<'a>(
    alloc: Global,
    limits: &Limits,
    policy: &Policy,
    steps: &[Step<'a>],
) -> Result<Asking<'a>, AllocError>
    requires limits { AreInRange limits.now }
    requires policy { IsSmallPolicy policy.now }
    requires steps { All IsFit steps.now }
    ensures small { IfOk result IsSmallAsking }
    ensures shows { IfOk result (λ a. AskingShows limits.now policy.now a (history_of steps.now)) }
{
    let mut asking = Asking {
        run: nothing_yet(alloc),
        marks: Vec::new(alloc),
        made: Vec::new(alloc),
    };
    for (place, step) in steps.iter().enumerate() {
        let rtt = longest_rtt(&steps[..place]);
        take_step(alloc, &mut asking, limits, policy, rtt, step)?;
    }
    Ok(asking)
}

/// One more step, where the longest round-trip time is known.
fn take_step<'a>(
    alloc: Global,
    asking: &mut Asking<'a>,
    limits: &Limits,
    policy: &Policy,
    rtt: u64,
    step: &Step<'a>,
) -> Result<(), AllocError>
    requires limits { AreInRange limits.now }
    requires policy { IsSmallPolicy policy.now }
    requires step { IsFit step.now }
    requires small { IsSmallAsking asking.old }
    requires rtt { rtt ≤ 10000000 }
    ensures small { OnOk result (IsSmallAsking asking.new) }
    ensures shows { OnOk result ((history : List RuleStep) → AskingShows limits.now policy.now asking.old history
        → rtt ≡ longest_rtt 16 history
        → AskingShows limits.now policy.now asking.new (step_of step.now ∷ history)) }
{
    let t = step.tick.max(asking.run.time);
    let opens = opens_epoch(&asking.run, limits, t, &step.input);
    let made = made_after(alloc, asking, limits, policy, rtt, t, opens, &step.input)?;
    asking.made = made;
    let mark = Mark {
        highest: highest_before(asking.run.highest, opens),
        time: t,
    };
    asking.marks.insert(0, mark)?;
    take(&mut asking.run, limits, &buffer_step(step))
}

/// Whether what comes with a step opens an epoch.
fn opens_epoch(run: &Run<'_>, limits: &Limits, t: u64, input: &Input<'_>) -> bool
    requires limits { AreInRange limits.now }
    requires small { IsSmallRun run.now }
    requires time { t < 2 ^ 61 }
    ensures { (history : List BufferRuleStep) → RunShows limits.now run.now history
        → result ≡ is_opening limits.now (epochs_of limits.now history) t
        (buffer_event (receiver_input (input_of input.now))) }
{
    match input {
        Input::Media(arrival) => crate::receiver::opens_epoch(run, limits, t, arrival),
        _ => false,
    }
}

/// The highest number that was kept in the epoch before a step: none where it opens one.
fn highest_before(highest: Option<Highest>, opens: bool) -> Option<u64>
    ensures { result ≡ option_map (λ h. h.number) (if opens then None else highest) }
{
    match highest {
        Some(highest) if !opens => Some(highest.number),
        _ => None,
    }
}

/// The epoch's requests after what comes with a step: a tick asks, and a packet that opens an epoch finds none.
fn made_after(
    alloc: Global,
    asking: &Asking<'_>,
    limits: &Limits,
    policy: &Policy,
    rtt: u64,
    t: u64,
    opens: bool,
    input: &Input<'_>,
) -> Result<Vec<Made>, AllocError>
    requires limits { AreInRange limits.now }
    requires policy { IsSmallPolicy policy.now }
    requires small { IsSmallAsking asking.now }
    requires rtt { rtt ≤ 10000000 }
    requires time { t < 2 ^ 61 }
    ensures small { IfOk result (λ made. All IsSmallMade made.items) }
    ensures made { IfOk result (λ made. (history : List RuleStep)
        → AskingShows limits.now policy.now asking.now history → rtt ≡ longest_rtt 16 history
        → opens ≡ is_opening limits.now (epochs_of limits.now (buffer_history history)) t
        (buffer_event (receiver_input (input_of input.now)))
        → requests_seen made.items ≡ requests_after limits.now policy.now history
        (requests_of limits.now policy.now history) t (input_of input.now)) }
{
    match input {
        Input::Tick => {
            let request = ask_at(alloc, limits, policy, rtt, t, asking)?;
            made_with(alloc, request.numbers.as_slice(), t, asking.made.as_slice())
        }
        Input::Media(_) => made_unless(alloc, opens, asking.made.as_slice()),
        _ => Vec::from_slice(alloc, asking.made.as_slice()),
    }
}

/// The requests so far, or none where an epoch opens.
fn made_unless(alloc: Global, opens: bool, made: &[Made]) -> Result<Vec<Made>, AllocError>
    requires small { All IsSmallMade made.now }
    ensures small { IfOk result (λ kept. All IsSmallMade kept.items) }
    ensures made { IfOk result (λ kept. requests_seen kept.items ≡ (if opens then [] else requests_seen made.now)) }
{
    if opens {
        return Ok(Vec::new(alloc));
    }
    Vec::from_slice(alloc, made)
}

/// Requests for some numbers at a time, and then those before.
fn made_with(
    alloc: Global,
    numbers: &[u64],
    t: u64,
    before: &[Made],
) -> Result<Vec<Made>, AllocError>
    requires small { All IsSmallMade before.now }
    requires time { t < 2 ^ 61 }
    ensures small { IfOk result (λ made. All IsSmallMade made.items) }
    ensures made { IfOk result (λ made. requests_seen made.items
        ≡ map (λ x. request_at x t) numbers.now ++ requests_seen before.now) }
{
    let mut made = made_at(alloc, numbers, t)?;
    for request in before {
        made.push(*request)?;
    }
    Ok(made)
}

fn made_at(alloc: Global, numbers: &[u64], t: u64) -> Result<Vec<Made>, AllocError>
    requires time { t < 2 ^ 61 }
    ensures small { IfOk result (λ made. All IsSmallMade made.items) }
    ensures made { IfOk result (λ made. requests_seen made.items ≡ map (λ x. request_at x t) numbers.now) }
{
    let mut made = Vec::new(alloc);
    for number in numbers {
        made.push(Made {
            number: *number,
            time: t,
        })?;
    }
    Ok(made)
}

/// A step as the plain program of the buffer takes it.
fn buffer_step<'a>(step: &Step<'a>) -> BufferStep<'a>
    requires { IsFit step.now }
    ensures value { buffer_step_of result
        ≡ record { tick = step.now.tick; event = buffer_event (receiver_input (input_of step.now.input)) } }
    ensures fits { IsFitBuffer result }
{
    let event = match step.input {
        Input::Media(arrival) => Event::Media(arrival),
        Input::End => Event::End,
        _ => Event::TimeOnly,
    };
    BufferStep {
        tick: step.tick,
        event,
    }
}
