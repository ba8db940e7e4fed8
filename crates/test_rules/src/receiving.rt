//! The worked runs, by the plain programs.
ghost use Rattle.std.specs.Prelude.{◌<◌, ◌≤◌, ◌^◌, IfOk};
ghost use Rattle.std.specs.List.{All};
ghost use Rattle.receiver_rules.specs.Bounds.{AreInRange};
ghost use Rattle.plain_rules.specs.Receiver.Told.{IsFit};

use plain_rules::receiver::{Event, Step, released, verdicts};
use receiver_rules::{Arrival, Limits, Verdict};
use seq_unwrap::Width;
use std::alloc::{AllocError, Global};
use std::process::Abort;

/// A delay of one second, a span of 8, and a restart time in ticks.
fn restarting(restart_time: u64) -> Limits
    requires { restart_time ≤ 180000 }
    ensures { AreInRange result }
{
    Limits {
        playout_delay: 90_000,
        capacity: 8,
        restart_time,
        drift: false,
    }
}

/// A step: a packet of a flow comes at a tick, with its word, its timestamp and its payload; or time passes; or it ends.
#[derive(Clone, Copy)]
enum Told {
    Media(u32, u32, u16, u32, &'static [u8]),
    Passes(u32),
    Ends,
}

/// A packet of the first flow.
fn brings(tick: u32, word: u16, stamp: u32, payload: &'static [u8]) -> Told {
    Told::Media(0x1020_3040, tick, word, stamp, payload)
}

/// A packet of another flow.
fn strange(tick: u32, word: u16, stamp: u32, payload: &'static [u8]) -> Told {
    Told::Media(0x2030_4050, tick, word, stamp, payload)
}

fn media(flow: u32, tick: u64, word: u32, stamp: u32, payload: &'static [u8]) -> Step<'static>
    requires tick { tick < 2 ^ 61 }
    requires word { word < 2 ^ 16 }
    ensures { IsFit result }
{
    let arrival = Arrival {
        flow,
        again: false,
        width: Width::W16,
        word,
        stamp,
        payload,
    };
    Step {
        tick,
        event: Event::Media(arrival),
    }
}

fn step_of(told: Told) -> Step<'static>
    ensures { IsFit result }
{
    match told {
        Told::Media(flow, tick, word, stamp, payload) => {
            media(flow, u64::from(tick), u32::from(word), stamp, payload)
        }
        Told::Passes(tick) => Step {
            tick: u64::from(tick),
            event: Event::TimeOnly,
        },
        Told::Ends => Step {
            tick: 0,
            event: Event::End,
        },
    }
}

fn steps_of(alloc: Global, run: &[Told]) -> Result<Vec<Step<'static>>, AllocError>
    ensures { IfOk result (λ steps. All IsFit steps.items) }
{
    let mut steps = Vec::new(alloc);
    for told in run {
        steps.push(step_of(*told))?;
    }
    Ok(steps)
}

/// Whether the plain programs answer these verdicts under a restart time in ticks, and these payloads, one after another.
fn answers(
    alloc: Global,
    restart_time: u64,
    run: &[Told],
    want: &[Verdict],
    written: &[u8],
) -> Result<bool, AllocError>
    requires { restart_time ≤ 180000 }
{
    let limits = restarting(restart_time);
    let steps = steps_of(alloc, run)?;
    let given = verdicts(alloc, &limits, steps.as_slice())?;
    let payloads = released(alloc, &limits, steps.as_slice())?;
    let mut bytes = Vec::new(alloc);
    for payload in payloads.as_slice() {
        bytes.extend_from_slice(payload)?;
    }
    Ok(given.as_slice() == want && bytes.as_slice() == written)
}

/// They answer so without a restart time.
fn assert_run(rt: &impl Abort, alloc: Global, run: &[Told], want: &[Verdict], written: &[u8]) {
    assert!(rt; matches!(answers(alloc, 0, run, want, written), Ok(true)));
}

const KEPT: Verdict = Verdict::Kept;

#[test]
fn a_copy_at_its_deadline_is_late(rt: HostRuntime) {
    let alloc = rt.alloc();
    let first = brings(0, 10, 0, b"A");
    let third = brings(200, 12, 1800, b"C");
    let in_time = brings(90_899, 11, 900, b"B");
    let late = brings(90_900, 11, 900, b"B");
    let kept = [KEPT, KEPT, KEPT];
    let missed = [KEPT, KEPT, Verdict::Late];
    assert_run(&rt, alloc, &[first, third, in_time], &kept, b"A");
    assert_run(
        &rt,
        alloc,
        &[first, third, in_time, Told::Ends],
        &kept,
        b"ABC",
    );
    assert_run(
        &rt,
        alloc,
        &[first, third, late, Told::Ends],
        &missed,
        b"AC",
    );
    assert_run(&rt, alloc, &[], &[], b"");
}

#[test]
fn a_retransmission_fills_its_gap_once(rt: HostRuntime) {
    let run = [
        brings(0, 10, 0, b"A"),
        brings(5000, 11, 900, b"B"),
        brings(6000, 11, 900, b"B"),
        brings(90_900, 11, 900, b"B"),
        Told::Ends,
    ];
    let want = [KEPT, KEPT, Verdict::Twice, Verdict::Late];
    assert_run(&rt, rt.alloc(), &run, &want, b"AB");
    let flows = [brings(0, 10, 0, b"A"), strange(900, 11, 900, b"B")];
    assert_run(&rt, rt.alloc(), &flows, &[KEPT, Verdict::Stranger], b"");
}

#[test]
fn words_wrap(rt: HostRuntime) {
    let wrapped = [
        brings(0, 65_534, 0, b"1"),
        brings(0, 0, 1800, b"3"),
        brings(0, 1, 2700, b"4"),
        brings(0, 65_535, 900, b"2"),
        Told::Ends,
    ];
    assert_run(
        &rt,
        rt.alloc(),
        &wrapped,
        &[KEPT, KEPT, KEPT, KEPT],
        b"1234",
    );
}

/// The three packets are kept, and by this tick these payloads are played out.
fn assert_by(rt: &impl Abort, alloc: Global, packets: [Told; 3], tick: u32, written: &[u8]) {
    let [first, second, third] = packets;
    let run = [first, second, third, Told::Passes(tick)];
    assert_run(rt, alloc, &run, &[KEPT, KEPT, KEPT], written);
}

#[test]
fn timestamps_wrap(rt: HostRuntime) {
    let packets = [
        brings(0, 10, 4_294_966_396, b"A"),
        brings(0, 11, 0, b"B"),
        brings(0, 12, 900, b"C"),
    ];
    assert_by(&rt, rt.alloc(), packets, 89_999, b"");
    assert_by(&rt, rt.alloc(), packets, 90_899, b"A");
    assert_by(&rt, rt.alloc(), packets, 91_799, b"AB");
    assert_by(&rt, rt.alloc(), packets, 91_800, b"ABC");
}

#[test]
fn lower_numbers_go_first(rt: HostRuntime) {
    let packets = [
        brings(0, 10, 1800, b"C"),
        brings(10, 9, 900, b"B"),
        brings(20, 8, 0, b"A"),
    ];
    assert_by(&rt, rt.alloc(), packets, 88_199, b"");
    assert_by(&rt, rt.alloc(), packets, 88_200, b"A");
    assert_by(&rt, rt.alloc(), packets, 90_000, b"ABC");
}

#[test]
fn the_span_counts_against_what_is_buffered(rt: HostRuntime) {
    let spans = [
        brings(0, 10, 0, b"A"),
        brings(100, 18, 7200, b"C"),
        brings(100, 17, 6300, b"B"),
        brings(90_000, 18, 7200, b"C"),
        Told::Ends,
    ];
    let want = [KEPT, Verdict::Span, KEPT, KEPT];
    assert_run(&rt, rt.alloc(), &spans, &want, b"ABC");
}

#[test]
fn a_number_below_what_was_played_out_is_behind(rt: HostRuntime) {
    let alloc = rt.alloc();
    let (five, six) = (brings(0, 5, 900, b"A"), brings(0, 6, 0, b"B"));
    let four = brings(89_100, 4, 900, b"4");
    let behind = [KEPT, KEPT, Verdict::Behind];
    assert_run(
        &rt,
        alloc,
        &[five, six, Told::Passes(89_099)],
        &[KEPT, KEPT],
        b"",
    );
    assert_run(
        &rt,
        alloc,
        &[five, six, Told::Passes(89_100)],
        &[KEPT, KEPT],
        b"AB",
    );
    assert_run(&rt, alloc, &[five, six, four, Told::Ends], &behind, b"AB");
}

#[test]
fn a_packet_may_lie_twice_the_delay_ahead(rt: HostRuntime) {
    let first = brings(0, 10, 0, b"A");
    let ahead = brings(0, 11, 90_000, b"B");
    let beyond = brings(0, 11, 90_001, b"B");
    assert_run(&rt, rt.alloc(), &[first, ahead], &[KEPT, KEPT], b"");
    assert_run(
        &rt,
        rt.alloc(),
        &[first, beyond],
        &[KEPT, Verdict::Early],
        b"",
    );
}

/// Under a restart time in ticks a packet of another flow comes at a tick: its verdict, and what is written.
fn assert_takes_over(
    rt: &impl Abort,
    restart_time: u64,
    alloc: Global,
    tick: u32,
    verdict: Verdict,
    written: &[u8],
)
    requires { restart_time ≤ 180000 }
{
    let run = [
        brings(0, 10, 0, b"A"),
        strange(tick, 7, 0, b"B"),
        Told::Ends,
    ];
    assert!(rt;
        matches!(
            answers(alloc, restart_time, &run, &[KEPT, verdict], written),
            Ok(true)
        )
    );
}

#[test]
fn another_flow_takes_over_once_nothing_waits_and_the_restart_time_has_passed(rt: HostRuntime) {
    let alloc = rt.alloc();
    assert_takes_over(&rt, 180_000, alloc, 179_999, Verdict::Stranger, b"A");
    assert_takes_over(&rt, 180_000, alloc, 180_000, KEPT, b"AB");
    assert_takes_over(&rt, 45_000, alloc, 45_000, Verdict::Stranger, b"A");
    assert_takes_over(&rt, 45_000, alloc, 90_000, KEPT, b"AB");
    assert_takes_over(&rt, 0, alloc, 900_000, Verdict::Stranger, b"A");
}

/// A delay of one second and a span of 2,048, with compensation of drift or without.
fn drifting(drift: bool) -> Limits
    ensures { AreInRange result }
{
    Limits {
        playout_delay: 90_000,
        capacity: 2048,
        restart_time: 0,
        drift,
    }
}

/// Number 0, with timestamp 0, at tick 50, the numbers from 1 to 1,023 at their timestamps of 90 ticks each, and then
/// number 1,024 at a tick.
fn drifted_run(alloc: Global, last: u64) -> Result<Vec<Step<'static>>, AllocError>
    requires { last < 2 ^ 61 }
    ensures { IfOk result (λ steps. All IsFit steps.items) }
{
    let mut steps = Vec::new(alloc);
    steps.push(media(0x1020_3040, 50, 0, 0, b""))?;
    for k in 1..1024_u32 {
        steps.push(media(0x1020_3040, 90 * u64::from(k), k, 90 * k, b""))?;
    }
    steps.push(media(0x1020_3040, last, 1024, 92_160, b""))?;
    Ok(steps)
}

/// The verdict on the last packet of such a run.
fn last_verdict(alloc: Global, drift: bool, last: u64) -> Result<Option<Verdict>, AllocError>
    requires { last < 2 ^ 61 }
{
    let steps = drifted_run(alloc, last)?;
    let given = verdicts(alloc, &drifting(drift), steps.as_slice())?;
    Ok(given.as_slice().last().copied())
}

fn assert_last(rt: &impl Abort, alloc: Global, drift: bool, last: u32, want: Verdict) {
    let told = last_verdict(alloc, drift, u64::from(last));
    assert!(rt; told.unwrap_or(None) == Some(want));
}

#[test]
fn deadlines_follow_a_clock_that_drifts(rt: HostRuntime) {
    let alloc = rt.alloc();
    assert_last(&rt, alloc, true, 182_200, Verdict::Kept);
    assert_last(&rt, alloc, true, 182_201, Verdict::Late);
    assert_last(&rt, alloc, false, 182_209, Verdict::Kept);
    assert_last(&rt, alloc, false, 182_210, Verdict::Late);
}
