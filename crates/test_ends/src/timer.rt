//! Worked runs and generated ones on a timer with its buffer. At each tick the words are those of the plain program.
ghost use Rattle.std.specs.Prelude.{◌≡◌, ◌≤◌, ◌<◌, ◌^◌, true, length, IfOk, OnOk};
ghost use Rattle.std.specs.List.{All};
ghost use Rattle.receiver_rules.specs.Bounds.{AreInRange};
ghost use Rattle.reorder_buffer.specs.declared.phase.Phase.TheVariants.{Open};
ghost use Rattle.plain_rules.specs.Requests.Told.{IsFit, IsFitInput, IsSmallPolicy};
ghost use Rattle.nack_timer.specs.State.{IsInRange};

use crate::expecting::expect;
use link_channels::MAX_PAYLOAD;
use nack_timer::{Settings, Timer};
use outside_io::Store8;
use plain_rules::requests::{Input, Step, asked, longest_rtt};
use receiver_rules::{Arrival, Limits, tick_of};
use reorder_buffer::Buffer;
use request_rules::{AskWord, Asked, NackKind, Policy};
use seq_unwrap::Width;
use std::alloc::{AllocError, Global};
use std::test::Fail;

const FLOW: u32 = 0x1020_3040;

const OTHER_FLOW: u32 = 0x2030_4050;

/// When a run asks, in which span and with which delay, and when another flow may take over.
#[derive(Clone, Copy)]
struct Setting {
    span: u64,
    delay_ms: u64,
    restart_ms: u64,
    settings: Settings,
}

/// What comes in a run. Times are in ticks of 1/90,000 s.
#[derive(Clone, Copy)]
enum Row {
    /// A packet at a time with its number: 10 has timestamp 0, and each is 10 ms after the one before it.
    Packet(u64, u32),
    /// A packet of a flow at a time with its number and its timestamp.
    Comes(u32, u64, u32, u32),
    /// On a link, at a time, a sample of the round-trip time in microseconds.
    Sample(u64, u64, u64),
    /// Something else on a link.
    Other(u64, u64),
    /// A tick of the clock on a link.
    Tick(u64, u64),
}

/// A packet of 16 bits on link 0, without a payload.
fn comes(flow: u32, tick: u64, word: u32, stamp: u32) -> Step<'static> {
    let arrival = Arrival {
        flow,
        again: false,
        width: Width::W16,
        word,
        stamp,
        payload: &[],
    };
    Step {
        link: 0,
        tick,
        input: Input::Media(arrival),
    }
}

/// A row as the plain program is told.
fn step_of(row: &Row) -> Step<'static> {
    match *row {
        Row::Packet(tick, n) => comes(FLOW, tick, n, 900_u32.wrapping_mul(n.wrapping_sub(10))),
        Row::Comes(flow, tick, word, stamp) => comes(flow, tick, word, stamp),
        Row::Sample(link, tick, sample) => Step {
            link,
            tick,
            input: Input::Control(Some(sample)),
        },
        Row::Other(link, tick) => Step {
            link,
            tick,
            input: Input::Other,
        },
        Row::Tick(link, tick) => Step {
            link,
            tick,
            input: Input::Tick,
        },
    }
}

/// Whether a step is one that the plain program takes, with a packet of 16 bits if any.
fn is_fit(step: &Step<'_>) -> bool
    ensures { result ≡ true → IsFit step.now }
{
    step.tick < 1 << 61 && is_fit_input(&step.input)
}

fn is_fit_input(input: &Input<'_>) -> bool
    ensures { result ≡ true → IsFitInput input.now }
{
    match input {
        Input::Media(arrival) => match arrival.width {
            Width::W16 => arrival.word < 65_536,
            Width::W32 => false,
        },
        Input::Control(Some(sample)) => *sample <= 10_000_000,
        Input::Control(None) | Input::Other | Input::Tick | Input::End => true,
    }
}

/// The steps of rows that are all fit.
fn fit(alloc: Global, rows: &[Row]) -> Result<Vec<Step<'static>>, Fail>
    ensures { IfOk result (λ fit. All IsFit fit.items) }
{
    let mut fit = Vec::new(alloc);
    for row in rows {
        let step = step_of(row);
        if !is_fit(&step) {
            return Err(Fail::new("a step that is not fit"));
        }
        fit.push(step)?;
    }
    Ok(fit)
}

/// Whether a setting is in its range.
fn is_in_range(setting: &Setting) -> bool
    ensures span { result ≡ true → (1 ≤ setting.now.span) × (setting.now.span ≤ 16384) }
    ensures delay { result ≡ true → (1 ≤ setting.now.delay_ms) × (setting.now.delay_ms ≤ 30000) }
    ensures restart { result ≡ true → setting.now.restart_ms ≤ 60000 }
    ensures settings { result ≡ true → IsInRange setting.now.settings }
{
    let settings = &setting.settings;
    (1 <= setting.span && setting.span <= 16384)
        && (1 <= setting.delay_ms && setting.delay_ms <= 30000)
        && setting.restart_ms <= 60000
        && (settings.reorder <= 1000 && settings.least <= 1000 && settings.tries <= 32)
}

/// What a step brings to the buffer.
fn bring(buffer: &mut Buffer, at: u64, step: &Step<'_>, sink: &mut Store8) -> Result<(), Fail>
    requires step { IsFit step.now }
    requires running { buffer.old.phase ≡ Open }
    requires tick { at < 2 ^ 61 }
    requires clock { buffer.old.time ≤ at }
    ensures time { OnOk result ((buffer.new.time ≡ at) × (buffer.new.phase ≡ Open)) }
    ensures limits { buffer.new.limits ≡ buffer.old.limits }
{
    let is_written = match &step.input {
        Input::Media(arrival) => {
            arrival.payload.len() <= MAX_PAYLOAD && buffer.receive(at, arrival, sink).is_ok()
        }
        _ => buffer.release(at, sink).is_ok(),
    };
    if is_written {
        Ok(())
    } else {
        Err(Fail::new("not written"))
    }
}

/// Tells a timer of a highest number that has risen, or of a new epoch, and gives the number that it knows.
fn tell(timer: &mut Timer, buffer: &Buffer, epoch: u64, known: Option<u64>, at: u64) -> Option<u64>
    requires tick { at < 2 ^ 61 }
    requires known { timer.old.high ≡ known }
    ensures known { timer.new.high ≡ result }
    ensures span { timer.new.span ≡ timer.old.span }
{
    let Some(high) = buffer.high() else {
        return known;
    };
    if buffer.epoch() != epoch {
        timer.renew(at, high);
        return Some(high);
    }
    let has_risen = match known {
        Some(known) => known < high,
        None => true,
    };
    if has_risen {
        timer.raised(at, high);
        Some(high)
    } else {
        known
    }
}

/// The limits of a setting that is in its range.
fn limits_of(setting: &Setting) -> Limits
    requires span { (1 ≤ setting.now.span) × (setting.now.span ≤ 16384) }
    requires delay { (1 ≤ setting.now.delay_ms) × (setting.now.delay_ms ≤ 30000) }
    requires restart { setting.now.restart_ms ≤ 60000 }
    ensures range { AreInRange result }
{
    Limits {
        playout_delay: 90 * setting.delay_ms,
        capacity: setting.span,
        restart_time: 90 * setting.restart_ms,
        drift: false,
    }
}

fn policy_of(settings: &Settings) -> Policy
    requires { IsInRange settings.now }
    ensures small { IsSmallPolicy result }
{
    Policy {
        reorder_tolerance: 90 * settings.reorder,
        retry_interval: 90 * settings.least,
        retry_limit: settings.tries,
        kind: settings.nack,
    }
}

/// A buffer and a timer that know the same highest number, the time to which the buffer has come, and what the plain
/// program is told.
#[derive(Drop)]
struct Run {
    buffer: Buffer,
    timer: Timer,
    known: Option<u64>,
    at: u64,
    limits: Limits,
    policy: Policy,
    ghost running: { buffer.phase ≡ Open },
    ghost time: { (buffer.time ≡ at) × (at < 2 ^ 61) },
    ghost high: { timer.high ≡ known },
    ghost span: { buffer.limits.capacity ≡ timer.span },
    ghost range: { AreInRange limits },
    ghost small: { IsSmallPolicy policy },
}

impl Run {
    fn begin(alloc: Global, setting: &Setting) -> Result<Run, Fail> {
        if !is_in_range(setting) {
            return Err(Fail::new("a setting out of its range"));
        }
        let buffer = Buffer::with_limits(
            alloc,
            setting.span,
            setting.delay_ms,
            setting.restart_ms,
            false,
        )?;
        let timer = Timer::with_span(alloc, setting.span, setting.settings)?;
        Ok(Run {
            buffer,
            timer,
            known: None,
            at: 0,
            limits: limits_of(setting),
            policy: policy_of(&setting.settings),
        })
    }

    /// The run with what a step brings.
    fn brought(self, step: &Step<'_>, sink: &mut Store8) -> Result<Run, Fail>
        requires { IsFit step.now }
    {
        let Run {
            mut buffer,
            mut timer,
            known,
            at,
            limits,
            policy,
        } = self;
        let at = at.max(step.tick);
        let epoch = buffer.epoch();
        bring(&mut buffer, at, step, sink)?;
        let known = tell(&mut timer, &buffer, epoch, known, at);
        Ok(Run {
            buffer,
            timer,
            known,
            at,
            limits,
            policy,
        })
    }

    /// Asks at a tick behind these steps, and compares with the plain program.
    fn ask(&mut self, alloc: Global, before: &[Step<'_>]) -> Result<Asked, Fail>
        requires before { All IsFit before.now }
    {
        if self.buffer.high() != self.known {
            return Err(Fail::new("another highest number"));
        }
        let rtt = tick_of(longest_rtt(before));
        let want = asked(alloc, &self.limits, &self.policy, before, self.at)?;
        let would = self.timer.would(self.at, &self.buffer, rtt);
        let words = self.timer.due(self.at, &self.buffer, rtt);
        if would == want.is_empty() || words.words() != want.words() {
            return Err(Fail::new("other words"));
        }
        Ok(words)
    }

    /// The run behind the step at a place, and where that is a tick its words.
    fn behind(
        self,
        alloc: Global,
        steps: &[Step<'_>],
        place: usize,
        sink: &mut Store8,
        words: &mut Vec<AskWord>,
    ) -> Result<Run, Fail>
        requires fits { All IsFit steps.now }
        requires place { place < length steps.now }
    {
        let step = &steps[place];
        let mut run = self.brought(step, sink)?;
        if matches!(step.input, Input::Tick) {
            let asked = run.ask(alloc, &steps[..place])?;
            *words = Vec::from_slice(alloc, asked.words())?;
        }
        Ok(run)
    }
}

/// Plays rows on a buffer and a timer, and gives the words of the last tick.
fn play(alloc: Global, setting: &Setting, rows: &[Row]) -> Result<Vec<AskWord>, Fail> {
    let steps = fit(alloc, rows)?;
    let mut run = Run::begin(alloc, setting)?;
    let mut sink = Store8::with(alloc, 64, &[])?;
    let mut words = Vec::new(alloc);
    for place in 0..steps.len() {
        run = run.behind(alloc, steps.as_slice(), place, &mut sink, &mut words)?;
    }
    Ok(words)
}

/// A span of 8, a delay of one second, a tolerance of 25 ms and at least 50 ms between two requests, of which there are
/// eight for one packet.
const USUAL: Setting = Setting {
    span: 8,
    delay_ms: 1000,
    restart_ms: 2000,
    settings: Settings {
        reorder: 25,
        least: 50,
        tries: 8,
        nack: NackKind::Range,
    },
};

/// The usual one with so many requests for one packet.
fn with_tries(tries: u64) -> Setting {
    Setting {
        settings: Settings {
            tries,
            ..USUAL.settings
        },
        ..USUAL
    }
}

/// The usual one with a span, and with masks or ranges.
fn with_span(span: u64, nack: NackKind) -> Setting {
    Setting {
        span,
        settings: Settings {
            nack,
            ..USUAL.settings
        },
        ..USUAL
    }
}

/// Where the numbers of the first cycle begin.
const FIRST_CYCLE: u64 = 1 << 40;

/// A word of a request for a number of the first cycle.
fn word(n: u64, second: u16) -> AskWord {
    AskWord {
        first: FIRST_CYCLE.wrapping_add(n),
        second,
    }
}

/// Numbers of the first cycle and the second halves of their words.
type Words = &'static [(u64, u16)];

/// A run asks in the end by these words.
fn expect_asked(
    alloc: Global,
    setting: &Setting,
    rows: &[Row],
    want: &[(u64, u16)],
) -> Result<(), Fail> {
    let mut words = Vec::new(alloc);
    for (n, second) in want {
        words.push(word(*n, *second))?;
    }
    let asked = play(alloc, setting, rows)?;
    expect(asked.as_slice() == words.as_slice(), "other words")
}

fn expect_all(alloc: Global, setting: &Setting, runs: &[(&[Row], Words)]) -> Result<(), Fail> {
    for (rows, want) in runs {
        expect_asked(alloc, setting, rows, want)?;
    }
    Ok(())
}

const TEN: Row = Row::Packet(0, 10);

const FIFTEEN: Row = Row::Packet(100, 15);

const FIRST: Row = Row::Tick(1, 2350);

const SECOND: Row = Row::Tick(1, 6850);

static RANGES: [(&[Row], Words); 4] = [
    (&[TEN, FIFTEEN, Row::Tick(1, 2349)], &[]),
    (&[TEN, FIFTEEN, Row::Tick(1, 2349), FIRST], &[(11, 3)]),
    (&[TEN, FIFTEEN, FIRST, Row::Tick(1, 6849)], &[]),
    (&[TEN, FIFTEEN, FIRST, SECOND], &[(11, 3)]),
];

static MASKS: [(&[Row], Words); 4] = [
    (&[TEN, FIFTEEN, Row::Tick(1, 2349)], &[]),
    (&[TEN, FIFTEEN, Row::Tick(1, 2349), FIRST], &[(11, 7)]),
    (&[TEN, FIFTEEN, FIRST, Row::Tick(1, 6849)], &[]),
    (&[TEN, FIFTEEN, FIRST, SECOND], &[(11, 7)]),
];

#[test]
fn a_gap_is_asked_for_after_the_tolerance_and_again_after_the_interval(
    rt: HostRuntime,
) -> Result<(), Fail> {
    expect_all(rt.alloc(), &USUAL, &RANGES)?;
    expect_all(rt.alloc(), &with_span(8, NackKind::Mask), &MASKS)
}

const THIRD: Row = Row::Tick(1, 80_000);

// Each packet is asked for twice at most.
static TWICE: [(&[Row], Words); 2] = [
    (&[TEN, FIFTEEN, FIRST, SECOND], &[(11, 3)]),
    (&[TEN, FIFTEEN, FIRST, SECOND, THIRD], &[]),
];

// A round-trip time of 100 ms.
const SAMPLE: Row = Row::Sample(15, 0, 100_000);

static WAITING: [(&[Row], Words); 7] = [
    (&[TEN, FIFTEEN, FIRST, SECOND, THIRD], &[(11, 3)]),
    // 13 comes between two asks; a higher gap has a time of its own.
    (
        &[TEN, FIFTEEN, FIRST, Row::Packet(5000, 13), SECOND],
        &[(11, 1), (14, 0)],
    ),
    (
        &[
            TEN,
            FIFTEEN,
            FIRST,
            Row::Packet(3000, 17),
            Row::Tick(1, 5250),
        ],
        &[(16, 0)],
    ),
    (
        &[
            TEN,
            FIFTEEN,
            FIRST,
            Row::Packet(3000, 17),
            Row::Tick(1, 5250),
            SECOND,
        ],
        &[(11, 3)],
    ),
    // The round-trip time holds the second request back.
    (&[SAMPLE, TEN, FIFTEEN, FIRST, Row::Tick(1, 11_349)], &[]),
    (
        &[SAMPLE, TEN, FIFTEEN, FIRST, Row::Tick(1, 11_350)],
        &[(11, 3)],
    ),
    // A tick that was not answered asks for nothing.
    (
        &[TEN, FIFTEEN, Row::Other(1, 2350), Row::Tick(1, 2351)],
        &[(11, 3)],
    ),
];

#[test]
fn what_has_come_or_was_asked_for_waits_or_is_left_out(rt: HostRuntime) -> Result<(), Fail> {
    expect_all(rt.alloc(), &with_tries(2), &TWICE)?;
    expect_all(rt.alloc(), &USUAL, &WAITING)
}

static BETWEEN: [(&[Row], Words); 3] = [
    (
        &[
            Row::Comes(FLOW, 0, 10, 5400),
            Row::Comes(FLOW, 0, 7, 2700),
            Row::Comes(FLOW, 100, 12, 7200),
            FIRST,
        ],
        &[(11, 0)],
    ),
    (
        &[
            TEN,
            Row::Packet(0, 12),
            Row::Packet(0, 14),
            Row::Tick(1, 91_800),
        ],
        &[(13, 0)],
    ),
    (
        &[TEN, Row::Packet(90_000, 30), Row::Tick(1, 92_250)],
        &[(23, 6)],
    ),
];

// A run across 65,536.
static ACROSS: [Row; 3] = [
    Row::Comes(FLOW, 0, 65_530, 0),
    Row::Comes(FLOW, 0, 4, 900),
    Row::Tick(1, 2250),
];

#[test]
fn only_what_lies_between_is_looked_for(rt: HostRuntime) -> Result<(), Fail> {
    expect_all(rt.alloc(), &USUAL, &BETWEEN)?;
    // It stays one word.
    let (range, mask) = (
        with_span(16, NackKind::Range),
        with_span(16, NackKind::Mask),
    );
    expect_asked(rt.alloc(), &range, &ACROSS, &[(65_531, 8)])?;
    expect_asked(rt.alloc(), &mask, &ACROSS, &[(65_531, 255)])
}

// 11 to 14 are asked for, and two seconds after 15 another flow begins with 12.
const BEGINS: Row = Row::Comes(OTHER_FLOW, 180_100, 12, 900);

const GOES_ON: Row = Row::Comes(OTHER_FLOW, 180_200, 15, 3600);

static ANEW: [(&[Row], Words); 3] = [
    (&[TEN, FIFTEEN, FIRST, BEGINS, Row::Tick(1, 190_000)], &[]),
    (
        &[TEN, FIFTEEN, FIRST, BEGINS, GOES_ON, Row::Tick(1, 182_449)],
        &[],
    ),
    (
        &[
            TEN,
            FIFTEEN,
            FIRST,
            BEGINS,
            GOES_ON,
            Row::Tick(1, 182_449),
            Row::Tick(1, 182_450),
        ],
        &[(13, 1)],
    ),
];

#[test]
fn a_new_epoch_asks_for_its_own_numbers(rt: HostRuntime) -> Result<(), Fail> {
    expect_all(rt.alloc(), &with_tries(1), &ANEW)
}

/// A number of every second.
fn second(place: u32) -> Row {
    let n = place.wrapping_mul(2).wrapping_add(10);
    Row::Comes(FLOW, 0, n, place)
}

/// Every second number from 10 on, with 66 gaps between them, and these ticks.
fn every_second(alloc: Global, ticks: &[Row]) -> Result<Vec<Row>, AllocError> {
    let mut rows = Vec::new(alloc);
    for place in 0..67_u32 {
        rows.push(second(place))?;
    }
    rows.extend_from_slice(ticks)?;
    Ok(rows)
}

static TICKS: [Row; 2] = [Row::Tick(1, 2250), Row::Tick(1, 2251)];

/// The words that ask at the first tick, in a span of 256.
fn words_of_one_tick(alloc: Global, nack: NackKind) -> Result<Vec<AskWord>, Fail> {
    let rows = every_second(alloc, &TICKS[..1])?;
    play(alloc, &with_span(256, nack), rows.as_slice())
}

#[test]
fn at_most_64_words_ask_and_the_next_tick_asks_for_the_rest(rt: HostRuntime) -> Result<(), Fail> {
    let alloc = rt.alloc();
    let first = words_of_one_tick(alloc, NackKind::Range)?;
    assert!(rt; first.len() == 64);
    assert!(rt; first.as_slice().last().copied() == Some(word(137, 0)));
    let twice = every_second(alloc, &TICKS)?;
    let range = with_span(256, NackKind::Range);
    expect_asked(alloc, &range, twice.as_slice(), &[(139, 0), (141, 0)])?;
    let masks = words_of_one_tick(alloc, NackKind::Mask)?;
    assert!(rt; masks.len() == 8);
    assert!(rt; masks.as_slice().first().copied() == Some(word(11, 0xaaaa)));
    Ok(())
}

/// The next of a row of numbers that look random (Numerical Recipes' constants).
fn next(seed: u32) -> u32 {
    seed.wrapping_mul(1_664_525).wrapping_add(1_013_904_223)
}

/// A row that a row of numbers gives: packets near their time and out of order, ticks, samples, and others. In the middle
/// comes a pause, after which most packets are another flow's.
fn made(seed: u32, place: u32) -> Row
    requires { place < 2 ^ 10 }
{
    let number = place / 2 + (seed >> 8) % 6;
    let pause = if place > 11 { 20_000 } else { 0 };
    let tick = u64::from(place * 600 + (seed >> 16) % 1500 + pause);
    let is_other = (place > 11) != (seed % 8 == 0);
    let flow = if is_other { OTHER_FLOW } else { FLOW };
    let first = if is_other { 65_520 } else { 65_530 };
    match seed >> 28 {
        0..=8 => Row::Comes(flow, tick, (first + number) % 65_536, 1200 * number),
        9..=13 => Row::Tick(u64::from(seed >> 4) % 3, tick),
        14 => Row::Sample(
            u64::from(seed >> 20) % 3,
            tick,
            u64::from(seed >> 4) % 60_000,
        ),
        _ => Row::Other(0, tick),
    }
}

/// So many made rows, and a tick after them.
fn made_run(alloc: Global, case: u32) -> Result<Vec<Row>, AllocError> {
    let mut seed = case;
    let mut rows = Vec::new(alloc);
    for place in 0..24_u32 {
        seed = next(seed);
        rows.push(made(seed, place))?;
    }
    rows.push(Row::Tick(1, 38_000))?;
    Ok(rows)
}

/// The setting of a case.
fn made_setting(case: u32) -> Setting {
    let nack = if case % 2 == 0 {
        NackKind::Range
    } else {
        NackKind::Mask
    };
    let case = u64::from(case);
    Setting {
        span: 4 + case % 13,
        delay_ms: 100,
        restart_ms: case / 2 % 3 * 100,
        settings: Settings {
            reorder: case % 3 * 10,
            least: 20,
            tries: case % 4,
            nack,
        },
    }
}

/// Whether a made run asks in the end.
fn does_ask(alloc: Global, case: u32) -> Result<bool, Fail> {
    let rows = made_run(alloc, case)?;
    let words = play(alloc, &made_setting(case), rows.as_slice())?;
    Ok(!words.is_empty())
}

#[test]
fn generated_runs_agree_with_the_plain_program(rt: HostRuntime) -> Result<(), Fail> {
    let mut asking: u32 = 0;
    for case in 0..2000_u32 {
        asking = asking.saturating_add(u32::from(does_ask(rt.alloc(), case)?));
    }
    assert!(rt; asking > 500, "{asking} runs ask in the end");
    Ok(())
}
