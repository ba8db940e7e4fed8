//! The worked runs on the buffer, and generated ones beside the plain programs of the rules. Each run is made with releases
//! and arrivals apart, and with both as one step.
ghost use Rattle.std.specs.Prelude.{◌≡◌, ◌<◌, ◌≤◌, ◌^◌, [], IfOk, Ok, true};
ghost use Rattle.std.specs.List.{All};
ghost use Rattle.plain_rules.specs.Receiver.Told.{IsFit};
ghost use Rattle.reorder_buffer.specs.StateAfter.{IsStateAfter};

use link_channels::MAX_PAYLOAD;
use outside_io::Store8;
use plain_rules::receiver::{Event, Step, released, verdicts};
use receiver_rules::Limits;
use reorder_buffer::{Arrival, Buffer, Phase, Verdict, WriteFault};
use seq_unwrap::Width;
use std::alloc::{AllocError, Global};
use std::process::Abort;
use std::test::Fail;

/// A delay of one second, and a span of 8.
const DELAY_MS: u64 = 1000;

const SPAN: u64 = 8;

/// What a buffer answered and wrote.
#[derive(Drop)]
struct Played {
    verdicts: Vec<Verdict>,
    sink: Store8,
    failed: bool,
}

/// Makes a step, the release and then its event. It says whether a further step can follow.
fn step_apart(
    buffer: &mut Buffer,
    at: u64,
    step: &Step<'_>,
    played: &mut Played,
) -> Result<bool, Fail>
    requires running { buffer.old.phase ≡ Phase.Open }
    requires clock { buffer.old.time ≤ at }
    requires tick { at < 2 ^ 61 }
    requires step { IsFit step.now }
    ensures goes_on { result ≡ Ok true → (buffer.new.phase ≡ Phase.Open) × (buffer.new.time ≤ at) }
{
    if buffer.release(at, &mut played.sink).is_err() {
        played.failed = buffer.ended();
        return Ok(false);
    }
    match &step.event {
        Event::Media(arrival) => {
            if arrival.payload.len() > MAX_PAYLOAD {
                return Err(Fail::new("too long"));
            }
            played.verdicts.push(buffer.arrive(at, arrival))?;
            Ok(true)
        }
        Event::TimeOnly => Ok(true),
        Event::End => {
            played.failed = buffer.flush(&mut played.sink).is_err() && buffer.ended();
            Ok(false)
        }
    }
}

/// The same, with an arrival and what is due before it as one.
fn step_as_one(
    buffer: &mut Buffer,
    at: u64,
    step: &Step<'_>,
    played: &mut Played,
) -> Result<bool, Fail>
    requires running { buffer.old.phase ≡ Phase.Open }
    requires clock { buffer.old.time ≤ at }
    requires tick { at < 2 ^ 61 }
    requires step { IsFit step.now }
    ensures goes_on { result ≡ Ok true → (buffer.new.phase ≡ Phase.Open) × (buffer.new.time ≤ at) }
{
    let Event::Media(arrival) = &step.event else {
        return step_apart(buffer, at, step, played);
    };
    if arrival.payload.len() > MAX_PAYLOAD {
        return Err(Fail::new("too long"));
    }
    match buffer.receive(at, arrival, &mut played.sink) {
        Ok(verdict) => {
            played.verdicts.push(verdict)?;
            Ok(true)
        }
        Err(WriteFault) => {
            played.failed = buffer.ended();
            Ok(false)
        }
    }
}

/// Plays steps on a new buffer, up to an end or a failed write. Without an end nothing is flushed.
fn play_on(
    alloc: Global,
    buffer: &mut Buffer,
    as_one: bool,
    steps: &[Step<'_>],
    sink: Store8,
) -> Result<Played, Fail>
    requires running { buffer.old.phase ≡ Phase.Open }
    requires state { IsStateAfter buffer.old [] }
    requires steps { All IsFit steps.now }
{
    let mut played = Played {
        verdicts: Vec::new(alloc),
        sink,
        failed: false,
    };
    let mut at = 0;
    for step in steps {
        at = at.max(step.tick);
        let goes_on = if as_one {
            step_as_one(buffer, at, step, &mut played)?
        } else {
            step_apart(buffer, at, step, &mut played)?
        };
        if !goes_on {
            return Ok(played);
        }
    }
    Ok(played)
}

/// The same on a buffer of this restart time in milliseconds, into a sink whose puts of these places fail.
fn play(
    alloc: Global,
    restart_ms: u64,
    as_one: bool,
    steps: &[Step<'_>],
    failing: &[u64],
) -> Result<Played, Fail>
    requires restart { restart_ms ≤ 2000 }
    requires steps { All IsFit steps.now }
{
    let mut buffer = Buffer::with_limits(alloc, SPAN, DELAY_MS, restart_ms, false)?;
    let sink = Store8::with(alloc, 64, failing)?;
    play_on(alloc, &mut buffer, as_one, steps, sink)
}

/// Whether a run gave these verdicts and octets.
fn gave(played: &Played, verdicts: &[Verdict], octets: &[u8]) -> bool {
    played.verdicts.as_slice() == verdicts && played.sink.octets() == octets
}

/// Whether the buffer answers what the plain programs do, either way.
fn agrees(alloc: Global, restart_ms: u64, steps: &[Step<'_>]) -> Result<bool, Fail>
    requires restart { restart_ms ≤ 2000 }
    requires steps { All IsFit steps.now }
{
    let limits = Limits {
        playout_delay: 90 * DELAY_MS,
        capacity: SPAN,
        restart_time: 90 * restart_ms,
        drift: false,
    };
    let apart = play(alloc, restart_ms, false, steps, &[])?;
    let as_one = play(alloc, restart_ms, true, steps, &[])?;
    let want = verdicts(alloc, &limits, steps)?;
    let payloads = released(alloc, &limits, steps)?;
    let mut bytes = Vec::new(alloc);
    for payload in payloads.as_slice() {
        bytes.extend_from_slice(payload)?;
    }
    Ok(gave(&apart, &want, &bytes) && gave(&as_one, &want, &bytes))
}

/// A packet of a flow without retransmissions.
fn media(flow: u32, tick: u32, word: u16, stamp: u32, payload: &[u8]) -> Step<'_>
    ensures { IsFit result }
{
    let arrival = Arrival {
        flow,
        again: false,
        width: Width::W16,
        word: word as u32,
        stamp,
        payload,
    };
    Step {
        tick: tick as u64,
        event: Event::Media(arrival),
    }
}

fn brings(tick: u32, word: u16, stamp: u32, payload: &[u8]) -> Step<'_>
    ensures { IsFit result }
{
    media(0x1020_3040, tick, word, stamp, payload)
}

/// A retransmission of the same flow, without octets.
fn resent(tick: u32, word: u16, stamp: u32) -> Step<'static>
    ensures { IsFit result }
{
    let arrival = Arrival {
        flow: 0x1020_3040,
        again: true,
        width: Width::W16,
        word: word as u32,
        stamp,
        payload: b"",
    };
    Step {
        tick: tick as u64,
        event: Event::Media(arrival),
    }
}

fn ends() -> Step<'static>
    ensures { IsFit result }
{
    Step {
        tick: 0,
        event: Event::End,
    }
}

/// A step as a row has it. A packet's tick, number, timestamp and payload stand in this order.
#[derive(Clone, Copy)]
enum Told {
    Brings(u32, u16, u32, &'static [u8]),
    /// The same of a flow.
    Of(u32, u32, u16, u32, &'static [u8]),
    /// Time passes to a tick.
    Passes(u32),
    Ends,
}

fn step_of(told: &Told) -> Step<'static>
    ensures { IsFit result }
{
    match told {
        Told::Brings(tick, word, stamp, payload) => brings(*tick, *word, *stamp, payload),
        Told::Of(flow, tick, word, stamp, payload) => media(*flow, *tick, *word, *stamp, payload),
        Told::Passes(tick) => Step {
            tick: *tick as u64,
            event: Event::TimeOnly,
        },
        Told::Ends => ends(),
    }
}

fn steps_of(alloc: Global, told: &[Told]) -> Result<Vec<Step<'static>>, AllocError>
    ensures { IfOk result (λ steps. All IsFit steps.items) }
{
    let mut steps = Vec::new(alloc);
    for one in told {
        steps.push(step_of(one))?;
    }
    Ok(steps)
}

/// The buffer gives these verdicts and these payloads one after another, and the plain programs agree.
fn expect_answers(
    rt: &impl Abort,
    alloc: Global,
    restart_ms: u64,
    told: &[Told],
    want: &[Verdict],
    written: &[u8],
) -> Result<(), Fail> {
    let steps = steps_of(alloc, told)?;
    if restart_ms > 2000 {
        return Err(Fail::new("the restart time"));
    }
    let played = play(alloc, restart_ms, false, &steps, &[])?;
    assert!(rt; gave(&played, want, written));
    assert!(rt; agrees(alloc, restart_ms, &steps)?);
    Ok(())
}

/// What is told, the verdicts, and what is written.
type Row = (&'static [Told], &'static [Verdict], &'static [u8]);

fn expect_rows(rt: &impl Abort, alloc: Global, rows: &[Row]) -> Result<(), Fail> {
    for (told, want, written) in rows {
        expect_answers(rt, alloc, 0, told, want, written)?;
    }
    Ok(())
}

const THREE_KEPT: [Verdict; 3] = [Verdict::Kept, Verdict::Kept, Verdict::Kept];

const FIRST: Told = Told::Brings(0, 10, 0, b"A");

const THIRD: Told = Told::Brings(200, 12, 1800, b"C");

const IN_TIME: Told = Told::Brings(90_899, 11, 900, b"B");

const LATE: Told = Told::Brings(90_900, 11, 900, b"B");

static GAPS: [Row; 5] = [
    (&[FIRST, THIRD, IN_TIME], &THREE_KEPT, b"A"),
    (&[FIRST, THIRD, IN_TIME, Told::Ends], &THREE_KEPT, b"ABC"),
    (
        &[FIRST, THIRD, LATE, Told::Ends],
        &[Verdict::Kept, Verdict::Kept, Verdict::Late],
        b"AC",
    ),
    (
        &[
            FIRST,
            Told::Brings(5000, 11, 900, b"B"),
            Told::Brings(6000, 11, 900, b"B"),
            LATE,
            Told::Ends,
        ],
        &[Verdict::Kept, Verdict::Kept, Verdict::Twice, Verdict::Late],
        b"AB",
    ),
    (
        &[FIRST, Told::Of(0x2030_4050, 900, 11, 900, b"B")],
        &[Verdict::Kept, Verdict::Stranger],
        b"",
    ),
];

#[test]
fn a_copy_at_its_deadline_is_late_and_a_gap_is_filled_once(rt: HostRuntime) -> Result<(), Fail> {
    expect_rows(&rt, rt.alloc(), &GAPS)
}

const BEYOND: Told = Told::Brings(100, 18, 7200, b"C");

const WITHIN: Told = Told::Brings(100, 17, 6300, b"B");

const ONCE_ROOM: Told = Told::Brings(90_000, 18, 7200, b"C");

const SPAN_VERDICTS: [Verdict; 4] = [Verdict::Kept, Verdict::Span, Verdict::Kept, Verdict::Kept];

static SPANS: [Row; 3] = [
    (
        &[FIRST, BEYOND, WITHIN, ONCE_ROOM, Told::Ends],
        &SPAN_VERDICTS,
        b"ABC",
    ),
    // 18 stands where a longer 10 stood.
    (
        &[
            Told::Brings(0, 10, 0, b"A to L"),
            BEYOND,
            WITHIN,
            ONCE_ROOM,
            Told::Ends,
        ],
        &SPAN_VERDICTS,
        b"A to LBC",
    ),
    (
        &[
            FIRST,
            Told::Brings(90_000, 32_777, 90_000, b"B"),
            Told::Ends,
        ],
        &[Verdict::Kept, Verdict::Kept],
        b"AB",
    ),
];

#[test]
fn the_span_counts_against_what_is_buffered(rt: HostRuntime) -> Result<(), Fail> {
    expect_rows(&rt, rt.alloc(), &SPANS)
}

/// The packet 3 of flow 7 at timestamp 0.
fn packet(payload: &[u8]) -> Arrival<'_>
    ensures word { result.word ≡ 3 }
    ensures width { result.width ≡ Width.W16 }
    ensures payload { result.payload.now ≡ payload.now }
{
    Arrival {
        flow: 7,
        again: false,
        width: Width::W16,
        word: 3,
        stamp: 0,
        payload,
    }
}

#[test]
fn a_buffer_of_the_widest_limits_keeps_a_packet(rt: HostRuntime) -> Result<(), Fail> {
    let mut widest = Buffer::with_limits(rt.alloc(), 16_384, 30_000, 60_000, true)?;
    let verdict = widest.arrive(0, &packet(b"A"));
    assert!(rt; verdict == Verdict::Kept && widest.held() == 1);
    Ok(())
}

const TEN: Told = Told::Brings(0, 10, 1800, b"C");

const NINE: Told = Told::Brings(10, 9, 900, b"B");

const EIGHT: Told = Told::Brings(20, 8, 0, b"A");

const FIVE: Told = Told::Brings(0, 5, 900, b"A");

const SIX: Told = Told::Brings(0, 6, 0, b"B");

static RISING: [Row; 6] = [
    (&[TEN, NINE, EIGHT, Told::Passes(88_200)], &THREE_KEPT, b"A"),
    (
        &[TEN, NINE, EIGHT, Told::Passes(90_000)],
        &THREE_KEPT,
        b"ABC",
    ),
    (
        &[FIVE, SIX, Told::Passes(89_100)],
        &[Verdict::Kept, Verdict::Kept],
        b"AB",
    ),
    (
        &[FIVE, SIX, Told::Brings(89_100, 4, 900, b"4"), Told::Ends],
        &[Verdict::Kept, Verdict::Kept, Verdict::Behind],
        b"AB",
    ),
    (
        &[FIVE, Told::Brings(0, 6, 90_900, b"B")],
        &[Verdict::Kept, Verdict::Kept],
        b"",
    ),
    (
        &[FIVE, Told::Brings(0, 6, 90_901, b"B")],
        &[Verdict::Kept, Verdict::Early],
        b"",
    ),
];

#[test]
fn numbers_go_out_rising(rt: HostRuntime) -> Result<(), Fail> {
    expect_rows(&rt, rt.alloc(), &RISING)
}

const SECOND: Told = Told::Brings(0, 11, 900, b"B");

/// The second put fails: what was written before it stays, and no verdict comes after it.
fn expect_front(rt: &impl Abort, alloc: Global, as_one: bool, told: &[Told]) -> Result<(), Fail> {
    let steps = steps_of(alloc, told)?;
    let played = play(alloc, 0, as_one, &steps, &[1])?;
    assert!(rt; played.failed);
    assert!(rt; gave(&played, &[Verdict::Kept, Verdict::Kept], b"A"));
    Ok(())
}

#[test]
fn a_failed_write_leaves_a_front_part_and_ends_the_buffer(rt: HostRuntime) -> Result<(), Fail> {
    expect_front(&rt, rt.alloc(), false, &[FIRST, SECOND, Told::Ends])?;
    // The second of two that are due fails in the step of a third.
    let third = Told::Brings(90_900, 12, 1800, b"C");
    expect_front(&rt, rt.alloc(), true, &[FIRST, SECOND, third])
}

fn expect_ended(rt: &impl Abort, buffer: &Buffer, want: bool) {
    assert!(rt; buffer.ended() == want);
}

fn expect_has(rt: &impl Abort, buffer: &Buffer, number: u64, want: bool) {
    assert!(rt; buffer.has(number) == want);
}

fn expect_held(rt: &impl Abort, buffer: &Buffer, want: usize) {
    assert!(rt; buffer.held() == want);
}

fn expect_flow(rt: &impl Abort, buffer: &Buffer, want: Option<u32>) {
    assert!(rt; buffer.flow() == want);
}

fn expect_floor(rt: &impl Abort, buffer: &Buffer, want: Option<u64>) {
    assert!(rt; buffer.floor() == want);
}

fn expect_first(rt: &impl Abort, buffer: &Buffer, want: Option<u64>) {
    assert!(rt; buffer.first() == want);
}

fn expect_high(rt: &impl Abort, buffer: &Buffer, want: Option<u64>) {
    assert!(rt; buffer.high() == want);
}

/// One packet alone was kept since the epoch opened, and waits.
fn expect_alone(rt: &impl Abort, buffer: &Buffer, flow: u32, number: u64) {
    expect_held(rt, buffer, 1);
    expect_flow(rt, buffer, Some(flow));
    expect_floor(rt, buffer, None);
    expect_first(rt, buffer, Some(number));
    expect_high(rt, buffer, Some(number));
}

// The numbers of the words 3, 4 and 60,000 that come first.
const THREE: u64 = 0x100_0000_0003;

const FOUR: u64 = 0x100_0000_0004;

const SIXTY_THOUSAND: u64 = 0x100_0000_EA60;

#[test]
fn an_empty_payload_makes_no_piece(rt: HostRuntime) -> Result<(), Fail> {
    let mut buffer = Buffer::with_limits(rt.alloc(), SPAN, DELAY_MS, 0, false)?;
    expect_flow(&rt, &buffer, None);
    expect_first(&rt, &buffer, None);
    expect_ended(&rt, &buffer, false);
    assert!(rt; buffer.arrive(5, &packet(b"")) == Verdict::Kept);
    expect_alone(&rt, &buffer, 7, THREE);
    expect_has(&rt, &buffer, THREE, true);
    // A sink that fails at once is no fault.
    let mut sink = Store8::with(rt.alloc(), 64, &[0])?;
    assert!(rt; buffer.flush(&mut sink) == Ok(1) && sink.octets().is_empty());
    expect_floor(&rt, &buffer, Some(THREE));
    Ok(())
}

#[test]
fn nothing_waits_after_a_failed_write(rt: HostRuntime) -> Result<(), Fail> {
    let mut buffer = Buffer::with_limits(rt.alloc(), SPAN, DELAY_MS, 0, false)?;
    let first = packet(b"A");
    let second = Arrival {
        word: 4,
        stamp: 900,
        ..first
    };
    assert!(rt; buffer.arrive(5, &first) == Verdict::Kept);
    assert!(rt; buffer.arrive(5, &second) == Verdict::Kept);
    // The first alone is due, and its write fails.
    let mut sink = Store8::with(rt.alloc(), 64, &[0])?;
    assert!(rt; buffer.release(90_005, &mut sink) == Err(WriteFault));
    expect_ended(&rt, &buffer, true);
    expect_held(&rt, &buffer, 0);
    expect_has(&rt, &buffer, FOUR, false);
    assert!(rt; sink.octets().is_empty());
    Ok(())
}

#[test]
fn a_failed_write_has_its_text(rt: HostRuntime) -> Result<(), Fail> {
    let written = format!(in rt.alloc(); "{WriteFault}")?;
    assert!(rt; written.as_str() == "write failed");
    Ok(())
}

const KEPT_AND_REFUSED: [Verdict; 2] = [Verdict::Kept, Verdict::Stranger];

const BOTH_KEPT: [Verdict; 2] = [Verdict::Kept, Verdict::Kept];

/// The restart time, the tick of the other flow's packet, the verdicts, and what is written before the end and with it.
static RESTARTS: [(u64, u32, &[Verdict], &[u8], &[u8]); 5] = [
    (2000, 179_999, &KEPT_AND_REFUSED, b"A", b"A"),
    (2000, 180_000, &BOTH_KEPT, b"A", b"AB"),
    (500, 45_000, &KEPT_AND_REFUSED, b"", b"A"),
    (500, 90_000, &BOTH_KEPT, b"A", b"AB"),
    (0, 900_000, &KEPT_AND_REFUSED, b"A", b"A"),
];

#[test]
fn another_flow_takes_over_once_nothing_waits_and_the_restart_time_has_passed(
    rt: HostRuntime,
) -> Result<(), Fail> {
    for (restart_ms, tick, want, before, written) in &RESTARTS {
        let other = Told::Of(0x2030_4050, *tick, 7, 0, b"B");
        expect_answers(&rt, rt.alloc(), *restart_ms, &[FIRST, other], want, before)?;
        expect_answers(
            &rt,
            rt.alloc(),
            *restart_ms,
            &[FIRST, other, Told::Ends],
            want,
            written,
        )?;
    }
    Ok(())
}

/// What is told, the verdict, and the epoch after it.
static RETURNS: [(Told, Verdict, u64); 5] = [
    (Told::Of(7, 5, 60_000, 900, b"A"), Verdict::Kept, 0),
    (Told::Of(9, 90_004, 3, 900, b"B"), Verdict::Stranger, 0),
    (Told::Of(9, 90_005, 3, 900, b"B"), Verdict::Kept, 1),
    (Told::Of(7, 90_006, 60_000, 900, b"A"), Verdict::Stranger, 1),
    (Told::Of(7, 180_005, 60_000, 900, b"A"), Verdict::Kept, 2),
];

#[test]
fn a_flow_that_was_there_before_opens_an_epoch_again(rt: HostRuntime) -> Result<(), Fail> {
    let mut buffer = Buffer::with_limits(rt.alloc(), SPAN, DELAY_MS, 500, false)?;
    let mut played = Played {
        verdicts: Vec::new(rt.alloc()),
        sink: Store8::with(rt.alloc(), 64, &[])?,
        failed: false,
    };
    let mut at = 0;
    for row in &RETURNS {
        let step = step_of(&row.0);
        at = at.max(step.tick);
        if !step_as_one(&mut buffer, at, &step, &mut played)? {
            return Err(Fail::new("a failed write"));
        }
        assert!(rt; played.verdicts.as_slice().last() == Some(&row.1));
        assert!(rt; buffer.epoch() == row.2);
    }
    expect_alone(&rt, &buffer, 7, SIXTY_THOUSAND);
    assert!(rt; buffer.flush(&mut played.sink) == Ok(1));
    assert!(rt; played.sink.octets() == b"ABA".as_slice());
    Ok(())
}

/// The next of a row of numbers that look random (Numerical Recipes' constants).
fn next(seed: u32) -> u32 {
    seed.wrapping_mul(1_664_525).wrapping_add(1_013_904_223)
}

/// A step that a row of numbers gives: mostly near its time and its number, and sometimes far off. In the middle of a run
/// comes a pause, after which the other flow's packets are the common ones.
fn made(seed: u32, place: u8) -> Step<'static>
    ensures { IsFit result }
{
    let kind = seed >> 29;
    let word = 65_530_u16.wrapping_add(((seed >> 8) % 16) as u16);
    let stamp = (seed >> 8) % 16 * 9000 + (seed >> 24) % 3 * 45_000 * (kind / 6);
    let pause = if place > 5 { 120_000 } else { 0 };
    let tick = place as u32 * 15_000 + (seed >> 12) % 40_000 + pause;
    let common = if place > 5 { 2 } else { 4 };
    let flow = if kind == 1 && place > 0 {
        6 - common
    } else {
        common
    };
    let letter = (seed >> 8) as usize % 16;
    let letters = b"ABCDEFGHIJKLMNOP".as_slice();
    media(flow, tick, word, stamp, &letters[letter..letter + 1])
}

/// Twelve made steps, and an end after them in every other case.
fn made_run(alloc: Global, case: u32) -> Result<Vec<Step<'static>>, AllocError>
    ensures { IfOk result (λ steps. All IsFit steps.items) }
{
    let mut seed = case;
    let mut steps = Vec::new(alloc);
    for place in 0..12_u8 {
        seed = next(seed);
        steps.push(made(seed, place))?;
    }
    if case % 2 == 0 {
        steps.push(ends())?;
    }
    Ok(steps)
}

#[test]
fn generated_runs_agree_with_the_plain_programs(rt: HostRuntime) -> Result<(), Fail> {
    for case in 0..3000_u32 {
        let steps = made_run(rt.alloc(), case)?;
        let restart_ms = if case % 3 == 0 { 0 } else { 500 };
        assert!(rt;
            agrees(rt.alloc(), restart_ms, steps.as_slice())?,
            "case {case}"
        );
    }
    Ok(())
}

/// Number 0, with timestamp 0, at a tick, and each number from 1 up to another so many ticks after its timestamp, of
/// which there are 90 for a number.
fn drifting_run(
    alloc: Global,
    first: u32,
    count: u16,
    lag: u16,
) -> Result<Vec<Step<'static>>, AllocError>
    ensures { IfOk result (λ steps. All IsFit steps.items) }
{
    let mut steps = Vec::new(alloc);
    steps.push(brings(first, 0, 0, b""))?;
    for k in 1..count {
        let stamp = 90 * k as u32;
        steps.push(brings(stamp + lag as u32, k, stamp, b""))?;
    }
    Ok(steps)
}

/// The last packet of a run has this verdict, where there is room for 2,048.
fn expect_last(
    rt: &impl Abort,
    alloc: Global,
    drift: bool,
    steps: &[Step<'_>],
    want: Verdict,
) -> Result<(), Fail>
    requires { All IsFit steps.now }
{
    let mut buffer = Buffer::with_limits(alloc, 2048, DELAY_MS, 0, drift)?;
    let sink = Store8::with(alloc, 64, &[])?;
    let played = play_on(alloc, &mut buffer, false, steps, sink)?;
    assert!(rt; played.verdicts.as_slice().last() == Some(&want));
    Ok(())
}

/// Whether deadlines follow a clock that drifts, the last packet's number and tick, and its verdict. The first packet was
/// 50 ticks slower than all others: after a window the base is 41, and after six it is 0.
static FAST: [(bool, u16, u32, Verdict); 6] = [
    (true, 1024, 182_200, Verdict::Kept),
    (true, 1024, 182_201, Verdict::Late),
    (false, 1024, 182_209, Verdict::Kept),
    (false, 1024, 182_210, Verdict::Late),
    (true, 6144, 642_959, Verdict::Kept),
    (true, 6144, 642_960, Verdict::Late),
];

#[test]
fn deadlines_follow_a_fast_clock(rt: HostRuntime) -> Result<(), Fail> {
    for (drift, number, tick, want) in &FAST {
        let mut steps = drifting_run(rt.alloc(), 50, *number, 0)?;
        steps.push(brings(*tick, *number, 90 * *number as u32, b""))?;
        expect_last(&rt, rt.alloc(), *drift, steps.as_slice(), *want)?;
    }
    Ok(())
}

/// 2,048 ends the second window and is due at 274,230. Then the base is 9, and 2,047 is due at 274,239.
static KEPT: [(u32, Verdict); 2] = [(274_229, Verdict::Kept), (274_230, Verdict::Behind)];

#[test]
fn a_kept_packet_keeps_its_deadline(rt: HostRuntime) -> Result<(), Fail> {
    for (tick, want) in &KEPT {
        let mut steps = drifting_run(rt.alloc(), 0, 2047, 20)?;
        steps.push(brings(184_250, 2048, 184_230, b""))?;
        steps.push(resent(*tick, 2047, 184_230))?;
        expect_last(&rt, rt.alloc(), true, steps.as_slice(), *want)?;
    }
    Ok(())
}
