//! Worked runs on a receiver, its counts, how it stops, and what it sends back.
ghost use Rattle.std.specs.Prelude.{◌≡◌, ◌<◌, true, false, is_some};
ghost use Rattle.seq_unwrap.specs.Nearest.{cycle_of};
ghost use Rattle.rist_wire.specs.Session.{IsSession};
ghost use Rattle.rist_ends.specs.Settings.{IsInRange};
ghost use Rattle.rist_ends.specs.Told.{IsFit, IsFitArrival, IsFitWhat};

use crate::expecting::expect;
use link_channels::{Channel, Profile};
use outside_io::{Store8, Words};
use psk_keys::Phrase;
use psk_seal::{MAX_PAIRS, Sealer};
use receiver_rules::{Arrival, Verdict};
use request_rules::NackKind;
use rist_ends::{Answer, Counts, Outcome, Outs, Receiver, Settings, Told, What};
use rist_wire::{Item, Opener, Session, Tunnel};
use rtcp_compound::Compound;
use seq_unwrap::Width;
use std::alloc::Global;
use std::test::Fail;

const KEPT: Answer = Answer::Verdict(Verdict::Kept);

const LATE: Answer = Answer::Verdict(Verdict::Late);

const TWICE: Answer = Answer::Verdict(Verdict::Twice);

const STRANGER: Answer = Answer::Verdict(Verdict::Stranger);

const BEHIND: Answer = Answer::Verdict(Verdict::Behind);

const NOTHING: Answer = Answer::Nothing;

const STOPPED: Answer = Answer::Stopped;

const FLOW: u32 = 0x1020_3040;

const OTHER_FLOW: u32 = 0x2030_4050;

/// What a receiver is told. A moment is in microseconds.
#[derive(Clone, Copy)]
enum Row {
    /// A packet of the flow: its moment, its number and its octets. Number 10 has timestamp 0, and each is 10 ms after
    /// the one before it.
    Media(u64, u32, &'static [u8]),
    /// The same of the other flow.
    Other(u64, u32, &'static [u8]),
    /// A packet with one octet and a number of 32 bits: its moment, its number and its timestamp.
    Wide(u64, u32, u32),
    /// A packet without octets: its tick of 1/90,000 s, its number, its timestamp and whether it comes again.
    Empty(u64, u32, u32, bool),
    /// A compound with the response `RESPONSE`, on a link.
    Response(u8, u64),
    /// A keepalive on a link.
    Keepalive(u8, u64),
    /// A datagram that is refused, on a link.
    Refused(u8, u64),
    /// A tick of the clock, on a link.
    Tick(u8, u64),
    End,
}

// A report and a response with the stamp 0.
const RESPONSE: [u8; 32] = [
    0x80, 0xC9, 0, 1, 0, 0, 0, 9, 0x83, 0xCC, 0, 5, 0x10, 0x20, 0x30, 0x40, b'R', b'I', b'S', b'T',
    0, 0, 0, 0, 0, 0, 0, 0, 0, 0, 0, 0,
];

/// A packet of 16 bits, 10 ms after the one before it.
fn short(flow: u32, word: u32, payload: &'static [u8]) -> What<'static> {
    What::Media(Arrival {
        flow,
        again: false,
        width: Width::W16,
        word,
        stamp: 900_u32.wrapping_mul(word.wrapping_sub(10)),
        payload,
    })
}

fn wide(word: u32, stamp: u32) -> What<'static> {
    What::Media(Arrival {
        flow: FLOW,
        again: false,
        width: Width::W32,
        word,
        stamp,
        payload: b"A",
    })
}

fn empty(word: u32, stamp: u32, again: bool) -> What<'static> {
    What::Media(Arrival {
        flow: FLOW,
        again,
        width: Width::W16,
        word,
        stamp,
        payload: b"",
    })
}

/// The first microsecond of a tick.
fn moment(tick: u64) -> u64 {
    tick.wrapping_mul(100).div_ceil(9)
}

/// What a row tells, whose compound is this one if it is a response.
fn told<'a>(row: &Row, compound: &'a Compound<'a>) -> Told<'a> {
    let (link, us, what) = match *row {
        Row::Media(us, word, payload) => (0, us, short(FLOW, word, payload)),
        Row::Other(us, word, payload) => (0, us, short(OTHER_FLOW, word, payload)),
        Row::Wide(us, word, stamp) => (0, us, wide(word, stamp)),
        Row::Empty(tick, word, stamp, again) => (0, moment(tick), empty(word, stamp, again)),
        Row::Response(link, us) => (link, us, What::Control(compound)),
        Row::Keepalive(link, us) => (link, us, What::Keepalive),
        Row::Refused(link, us) => (link, us, What::Refused),
        Row::Tick(link, us) => (link, us, What::Tick),
        Row::End => (0, 0, What::End),
    };
    Told { link, us, what }
}

/// Whether a word is one of its width.
fn is_word(word: u32, width: Width) -> bool
    ensures { result ≡ true → word < cycle_of width }
{
    match width {
        Width::W16 => word < 65_536,
        Width::W32 => true,
    }
}

fn is_fit_arrival(arrival: &Arrival<'_>) -> bool
    ensures { result ≡ true → IsFitArrival arrival.now }
{
    is_word(arrival.word, arrival.width) && arrival.payload.len() <= 1500
}

fn is_fit_what(what: &What<'_>) -> bool
    ensures { result ≡ true → IsFitWhat what.now }
{
    match what {
        What::Media(arrival) => is_fit_arrival(arrival),
        What::Control(_) | What::Keepalive | What::Refused | What::Tick | What::End => true,
    }
}

/// Whether what is told is of its form.
fn is_fit(told: &Told<'_>) -> bool
    ensures { result ≡ true → IsFit told.now }
{
    told.link < 16 && is_fit_what(&told.what)
}

/// A session in clear.
fn session(profile: Profile) -> Session
    ensures session { IsSession result }
    ensures clear { is_some result.pass ≡ false }
{
    Session {
        profile,
        port: 1968,
        pass: None,
        bits: 128,
        nulls: false,
        width: Width::W16,
        full: false,
        tunnel: Tunnel::Own,
        echo: false,
    }
}

/// One step on a receiver.
fn step(receiver: &mut Receiver, told: &Told<'_>, sink: &mut Store8) -> Result<Outcome, Fail> {
    if is_fit(told) {
        Ok(receiver.step(told, sink))
    } else {
        Err(Fail::new("a step that is not fit"))
    }
}

/// The same without what is made.
fn answer(
    receiver: &mut Receiver,
    told: &Told<'_>,
    outs: &mut Outs,
    sink: &mut Store8,
) -> Result<Answer, Fail> {
    if is_fit(told) {
        Ok(receiver.step_into(told, outs, sink))
    } else {
        Err(Fail::new("a step that is not fit"))
    }
}

/// What a receiver answers to rows.
fn answers(
    alloc: Global,
    receiver: &mut Receiver,
    rows: &[Row],
    sink: &mut Store8,
) -> Result<Vec<Answer>, Fail> {
    let compound = Compound::read(&RESPONSE).ok().ok_or("a compound")?;
    let mut outs = Outs::none();
    let mut answers = Vec::new(alloc);
    for row in rows {
        let told = told(row, &compound);
        answers.push(answer(receiver, &told, &mut outs, sink)?)?;
    }
    Ok(answers)
}

/// A receiver that sends nothing back, with a delay of one second and a restart time of two.
fn muted(alloc: Global) -> Result<Receiver, Fail> {
    let settings = Settings::muted(1000, 8, 2000, false);
    Ok(Receiver::with(alloc, &settings, &session(Profile::Simple), None)?)
}

/// A receiver with a span of 8 answers so to rows, over a sink whose listed writes fail, and writes these octets. Its
/// counts.
fn expect_over(
    alloc: Global,
    failing: &[u64],
    rows: &[Row],
    want: &[Answer],
    written: &[u8],
) -> Result<Counts, Fail> {
    let mut receiver = muted(alloc)?;
    let mut sink = Store8::with(alloc, 64, failing)?;
    let answers = answers(alloc, &mut receiver, rows, &mut sink)?;
    expect(answers.as_slice() == want, "other answers")?;
    expect(sink.octets() == written, "other octets")?;
    Ok(receiver.counts())
}

/// Rows, what a receiver answers to them, and what it writes.
type Run = (&'static [Row], &'static [Answer], &'static [u8]);

fn expect_all(alloc: Global, runs: &[Run]) -> Result<(), Fail> {
    for (rows, want, written) in runs {
        expect_over(alloc, &[], rows, want, written)?;
    }
    Ok(())
}

const TEN: Row = Row::Media(0, 10, b"A");

// Ticks 5,000, 6,000 and 90,900.
const AGAIN: Row = Row::Media(55_556, 11, b"B");

const ONCE_MORE: Row = Row::Media(66_667, 11, b"B");

const TOO_LATE: Row = Row::Media(1_010_000, 11, b"B");

static RETRANSMITTED: [Run; 3] = [
    (&[TEN, AGAIN, ONCE_MORE], &[KEPT, KEPT, TWICE], b""),
    (
        &[TEN, AGAIN, ONCE_MORE, TOO_LATE],
        &[KEPT, KEPT, TWICE, LATE],
        b"AB",
    ),
    (
        &[TEN, AGAIN, ONCE_MORE, TOO_LATE, Row::End],
        &[KEPT, KEPT, TWICE, LATE, NOTHING],
        b"AB",
    ),
];

#[test]
fn a_lost_packet_is_written_once_from_its_retransmissions(rt: HostRuntime) -> Result<(), Fail> {
    expect_all(rt.alloc(), &RETRANSMITTED)
}

const TWELVE: Row = Row::Media(2_223, 12, b"C");

// Tick 90,899.
const IN_TIME: Row = Row::Media(1_009_989, 11, b"B");

static UP_TO_DEADLINE: [Run; 4] = [
    (&[TEN, TWELVE, IN_TIME], &[KEPT, KEPT, KEPT], b"A"),
    (
        &[TEN, TWELVE, IN_TIME, Row::End],
        &[KEPT, KEPT, KEPT, NOTHING],
        b"ABC",
    ),
    (&[TEN, TWELVE, TOO_LATE], &[KEPT, KEPT, LATE], b"A"),
    (
        &[TEN, TWELVE, TOO_LATE, Row::End],
        &[KEPT, KEPT, LATE, NOTHING],
        b"AC",
    ),
];

#[test]
fn a_retransmission_is_kept_up_to_its_deadline(rt: HostRuntime) -> Result<(), Fail> {
    expect_all(rt.alloc(), &UP_TO_DEADLINE)
}

static COUNTED: [Row; 8] = [
    TEN,
    Row::Other(10, 11, b"B"),
    Row::Refused(3, 20),
    Row::Media(30, 10, b"A"),
    Row::End,
    Row::Media(40, 12, b"C"),
    Row::Refused(3, 50),
    Row::End,
];

#[test]
fn what_came_is_counted_until_the_end(rt: HostRuntime) -> Result<(), Fail> {
    let want = [
        KEPT, STRANGER, NOTHING, TWICE, NOTHING, STOPPED, STOPPED, STOPPED,
    ];
    let counts = expect_over(rt.alloc(), &[], &COUNTED, &want, b"A")?;
    let want = Counts {
        kept: 1,
        stranger: 1,
        exhausted: 0,
        late: 0,
        behind: 0,
        early: 0,
        twice: 1,
        span: 0,
        refused: 1,
    };
    assert!(rt; counts == want);
    Ok(())
}

static FAILING: [Row; 5] = [
    TEN,
    Row::Media(0, 11, b"B"),
    Row::Refused(3, 1_010_000),
    Row::Tick(0, 2_000_000),
    Row::End,
];

#[test]
fn a_failed_write_stops_the_receiver(rt: HostRuntime) -> Result<(), Fail> {
    let want = [KEPT, KEPT, Answer::WriteFault, STOPPED, STOPPED];
    let counts = expect_over(rt.alloc(), &[1], &FAILING, &want, b"A")?;
    // What came before is counted still, and the step that failed is not.
    let before = expect_over(rt.alloc(), &[], &FAILING[..2], &want[..2], b"")?;
    assert!(rt; before.kept == 2 && counts == before);
    Ok(())
}

const ELEVEN: Row = Row::Media(100, 11, b"B");

static DUE: [Run; 4] = [
    // Ticks 89,999 and 90,000.
    (
        &[TEN, ELEVEN, Row::Tick(0, 999_999)],
        &[KEPT, KEPT, NOTHING],
        b"",
    ),
    (
        &[TEN, ELEVEN, Row::Tick(0, 1_000_000)],
        &[KEPT, KEPT, NOTHING],
        b"A",
    ),
    (
        &[TEN, ELEVEN, Row::Refused(3, 1_000_000)],
        &[KEPT, KEPT, NOTHING],
        b"A",
    ),
    // A moment that goes back counts as the one before it.
    (
        &[TEN, Row::Tick(0, 1_010_000), ELEVEN],
        &[KEPT, NOTHING, LATE],
        b"A",
    ),
];

#[test]
fn time_alone_plays_out_what_is_due(rt: HostRuntime) -> Result<(), Fail> {
    expect_all(rt.alloc(), &DUE)
}

static MOVING: [Run; 2] = [
    (
        &[TEN, Row::Keepalive(15, 1_000_000)],
        &[KEPT, NOTHING],
        b"A",
    ),
    (&[TEN, Row::Refused(15, 1_000_000)], &[KEPT, NOTHING], b"A"),
];

#[test]
fn keepalives_and_refusals_move_the_time(rt: HostRuntime) -> Result<(), Fail> {
    expect_all(rt.alloc(), &MOVING)
}

const TOO_EARLY: Row = Row::Other(1_999_999, 17, b"B");

const RESTARTS: Row = Row::Other(2_000_000, 17, b"B");

static RESTARTING: [Run; 4] = [
    (&[TEN, TOO_EARLY], &[KEPT, STRANGER], b"A"),
    (
        &[TEN, TOO_EARLY, Row::End],
        &[KEPT, STRANGER, NOTHING],
        b"A",
    ),
    (&[TEN, RESTARTS], &[KEPT, KEPT], b"A"),
    (&[TEN, RESTARTS, Row::End], &[KEPT, KEPT, NOTHING], b"AB"),
];

#[test]
fn another_flow_takes_over_after_the_restart_time(rt: HostRuntime) -> Result<(), Fail> {
    expect_all(rt.alloc(), &RESTARTING)
}

/// A number so many ticks after its timestamp.
fn lagging(number: u32, lag: u64) -> Row {
    let stamp = number.wrapping_mul(90);
    Row::Empty(u64::from(stamp).wrapping_add(lag), number, stamp, false)
}

/// Number 0, with timestamp 0, at a tick, and each number from 1 up to another so many ticks after its timestamp, of
/// which there are 90 for a number.
fn drifting_run(alloc: Global, first: u64, count: u32, lag: u64) -> Result<Vec<Row>, Fail> {
    let mut rows = Vec::new(alloc);
    rows.push(Row::Empty(first, 0, 0, false))?;
    for number in 1..count {
        rows.push(lagging(number, lag))?;
    }
    Ok(rows)
}

/// A receiver with a span of 2,048, with compensation of drift or without.
fn drifting(alloc: Global, drift: bool) -> Result<Receiver, Fail> {
    let settings = if drift {
        Settings::muted(1000, 2048, 0, true)
    } else {
        Settings::muted(1000, 2048, 0, false)
    };
    Ok(Receiver::with(alloc, &settings, &session(Profile::Simple), None)?)
}

/// What it answers to the last of some rows.
fn last_answer(alloc: Global, drift: bool, rows: &[Row]) -> Result<Option<Answer>, Fail> {
    let mut receiver = drifting(alloc, drift)?;
    let mut sink = Store8::with(alloc, 64, &[])?;
    let answers = answers(alloc, &mut receiver, rows, &mut sink)?;
    Ok(answers.as_slice().last().copied())
}

/// The last of these rows behind such a run, with compensation of drift or without, is answered so.
fn expect_last(
    alloc: Global,
    drift: bool,
    run: (u64, u32, u64),
    behind: &[Row],
    want: Answer,
) -> Result<(), Fail> {
    let (first, count, lag) = run;
    let mut rows = drifting_run(alloc, first, count, lag)?;
    rows.extend_from_slice(behind)?;
    let last = last_answer(alloc, drift, rows.as_slice())?;
    expect(last == Some(want), "another answer")
}

// The first packet was 50 ticks slower than all others: after a window the base is 41.
static DRIFTING: [(bool, u64, Answer); 4] = [
    (true, 182_200, KEPT),
    (true, 182_201, LATE),
    (false, 182_209, KEPT),
    (false, 182_210, LATE),
];

#[test]
fn deadlines_follow_a_clock_that_drifts(rt: HostRuntime) -> Result<(), Fail> {
    for (drift, tick, want) in &DRIFTING {
        let last = Row::Empty(*tick, 1024, 92_160, false);
        expect_last(rt.alloc(), *drift, (50, 1024, 0), &[last], *want)?;
    }
    Ok(())
}

// 2,048 ends the second window and is due at 274,230. Then the base is 9, and 2,047 is due at 274,239.
static KEEPING: [(u64, Answer); 2] = [(274_229, KEPT), (274_230, BEHIND)];

#[test]
fn a_kept_packet_keeps_its_deadline(rt: HostRuntime) -> Result<(), Fail> {
    for (tick, want) in &KEEPING {
        let last = [
            Row::Empty(184_250, 2048, 184_230, false),
            Row::Empty(*tick, 2047, 184_230, true),
        ];
        expect_last(rt.alloc(), true, (0, 2047, 20), &last, *want)?;
    }
    Ok(())
}

/// How a receiver asks.
#[derive(Clone, Copy)]
enum Asking {
    /// By ranges, again after 50 ms.
    Ranges,
    /// By masks, again after 50 ms.
    Masks,
    /// By ranges, again after 5 ms.
    Quick,
}

/// A receiver with SSRC 7, a delay of a second, a span of 8, a tolerance of 25 ms and eight tries.
fn settings(asks: Asking) -> Settings
    ensures range { IsInRange result }
    ensures speaks { result.muted ≡ false }
{
    let (nack, least) = match asks {
        Asking::Ranges => (NackKind::Range, 50),
        Asking::Masks => (NackKind::Mask, 50),
        Asking::Quick => (NackKind::Range, 5),
    };
    Settings {
        delay: 1000,
        span: 8,
        restart: 2000,
        drift: false,
        reorder: 25,
        least,
        tries: 8,
        nack,
        own: 7,
        muted: false,
    }
}

fn speaking(alloc: Global, profile: Profile, asks: Asking) -> Result<Receiver, Fail> {
    Ok(Receiver::with(alloc, &settings(asks), &session(profile), None)?)
}

/// The octets of the two datagrams that a step made, if any.
fn made_in(outcome: &Outcome) -> (&[u8], &[u8]) {
    match outcome {
        Outcome::Made(outs) => match &outs.second {
            Some(second) => (outs.first.octets(), second.octets()),
            None => (outs.first.octets(), &[]),
        },
        _ => (&[], &[]),
    }
}

/// The octets that a step made, one datagram after another.
fn octets_of(alloc: Global, outcome: &Outcome) -> Result<Vec<u8>, Fail> {
    let (first, second) = made_in(outcome);
    let mut octets = Vec::from_slice(alloc, first)?;
    octets.extend_from_slice(second)?;
    Ok(octets)
}

/// The octets that the last of some rows made.
fn made(alloc: Global, receiver: &mut Receiver, rows: &[Row]) -> Result<Vec<u8>, Fail> {
    let compound = Compound::read(&RESPONSE).ok().ok_or("a compound")?;
    let mut sink = Store8::with(alloc, 64, &[])?;
    let mut octets = Vec::new(alloc);
    for row in rows {
        let outcome = step(receiver, &told(row, &compound), &mut sink)?;
        octets = octets_of(alloc, &outcome)?;
    }
    Ok(octets)
}

/// The last of some rows makes these octets, at a receiver in this profile that asks so.
fn expect_made(
    alloc: Global,
    profile: Profile,
    asks: Asking,
    rows: &[Row],
    want: &[u8],
) -> Result<(), Fail> {
    let mut receiver = speaking(alloc, profile, asks)?;
    let octets = made(alloc, &mut receiver, rows)?;
    expect(octets.as_slice() == want, "other octets")
}

// A receiver's report and a source description of SSRC 7.
const OPENING: [u8; 24] = [
    0x80, 0xC9, 0, 1, 0, 0, 0, 7, 0x81, 0xCA, 0, 3, 0, 0, 0, 7, 1, 4, b'r', b'i', b's', b't', 0, 0,
];

static REPORTS: [(&[Row], &[u8]); 4] = [
    // A tick before any media: no round-trip time is asked for.
    (&[Row::Tick(0, 0)], &OPENING),
    // Ticks 8,999 and 9,000.
    (&[Row::Tick(0, 0), Row::Tick(0, 99_999)], b""),
    (&[Row::Tick(0, 0), Row::Tick(0, 100_000)], &OPENING),
    // Another link has reports of its own.
    (&[Row::Tick(0, 0), Row::Tick(1, 0)], &OPENING),
];

#[test]
fn reports_and_keepalives_come_when_they_are_due(rt: HostRuntime) -> Result<(), Fail> {
    for (rows, want) in &REPORTS {
        expect_made(rt.alloc(), Profile::Simple, Asking::Ranges, rows, want)?;
    }
    Ok(())
}

// A report and a keepalive, each in the tunnel.
const BOTH: &[u8] =
    b"\0\0\x88\xB6\x07\xB1\x07\xB1\x80\xC9\0\x01\0\0\0\x07\x81\xCA\0\x03\0\0\0\x07\x01\x04rist\0\0\
    \0\0\x88\xB5\x02\0\0\0\0\x07\0\0";

const REPORT: &[u8] =
    b"\0\0\x88\xB6\x07\xB1\x07\xB1\x80\xC9\0\x01\0\0\0\x07\x81\xCA\0\x03\0\0\0\x07\x01\x04rist\0\0";

const KEEPALIVE: &[u8] = b"\0\0\x88\xB5\x02\0\0\0\0\x07\0\0";

// Ticks 0, 89,999 and 90,000.
static KEEPALIVES: [(&[Row], &[u8]); 3] = [
    (&[Row::Tick(0, 0)], BOTH),
    (&[Row::Tick(0, 0), Row::Tick(0, 999_999)], REPORT),
    (
        &[
            Row::Tick(0, 0),
            Row::Tick(0, 999_999),
            Row::Tick(0, 1_000_000),
        ],
        KEEPALIVE,
    ),
];

#[test]
fn keepalives_come_each_second_in_the_main_profile(rt: HostRuntime) -> Result<(), Fail> {
    for (rows, want) in &KEEPALIVES {
        expect_made(rt.alloc(), Profile::Main, Asking::Ranges, rows, want)?;
    }
    Ok(())
}

/// A request for 11 to 14 of a flow, by a range and by a mask.
const RANGE: &[u8] =
    b"\x80\xC9\x00\x01\x00\x00\x00\x07\x81\xCA\x00\x03\x00\x00\x00\x07\x01\x04rist\x00\x00\x80\xCC\x00\x03\x10\x20\x30\x40RIST\x00\x0B\x00\x03";

const MASK: &[u8] =
    b"\x80\xC9\x00\x01\x00\x00\x00\x07\x81\xCA\x00\x03\x00\x00\x00\x07\x01\x04rist\x00\x00\x81\xCD\x00\x03\x00\x00\x00\x07\x10\x20\x30\x40\x00\x0B\x00\x07";

/// The last of some rows, after 10 at tick 0 and 15 at tick 100, makes these octets.
fn expect_asked(alloc: Global, asks: Asking, rows: &[Row], want: &[u8]) -> Result<(), Fail> {
    let mut all = Vec::new(alloc);
    all.extend_from_slice(&[TEN, Row::Media(1_112, 15, b"F")])?;
    all.extend_from_slice(rows)?;
    expect_made(alloc, Profile::Simple, asks, all.as_slice(), want)
}

// 11 to 14 are missing from tick 100 on. The first tick reports.
const REPORTS_FIRST: Row = Row::Tick(0, 1_112);

// Ticks 2,350 and 6,850.
const FIRST: Row = Row::Tick(0, 26_112);

const SECOND: Row = Row::Tick(0, 76_112);

static ASKED: [(Asking, &[Row], &[u8]); 5] = [
    // Ticks 2,349 and 6,849 are too early.
    (Asking::Ranges, &[REPORTS_FIRST, Row::Tick(0, 26_100)], b""),
    (
        Asking::Ranges,
        &[REPORTS_FIRST, Row::Tick(0, 26_100), FIRST],
        RANGE,
    ),
    (
        Asking::Ranges,
        &[REPORTS_FIRST, FIRST, Row::Tick(0, 76_100)],
        b"",
    ),
    (
        Asking::Ranges,
        &[REPORTS_FIRST, FIRST, Row::Tick(0, 76_100), SECOND],
        RANGE,
    ),
    (Asking::Masks, &[REPORTS_FIRST, FIRST], MASK),
];

#[test]
fn what_is_missing_is_asked_for_and_again(rt: HostRuntime) -> Result<(), Fail> {
    for (asks, rows, want) in &ASKED {
        expect_asked(rt.alloc(), *asks, rows, want)?;
    }
    Ok(())
}

/// After 10 at tick 0 and some rows the figures say that so many numbers were asked for.
fn expect_count(alloc: Global, asks: Asking, rows: &[Row], want: u64) -> Result<(), Fail> {
    let mut receiver = speaking(alloc, Profile::Simple, asks)?;
    let mut all = Vec::new(alloc);
    all.push(TEN)?;
    all.extend_from_slice(rows)?;
    let _ = made(alloc, &mut receiver, all.as_slice())?;
    expect(receiver.figures().asked == want, "another count")
}

const FIFTEEN: Row = Row::Media(1_112, 15, b"F");

const THIRTEEN: Row = Row::Media(1_112, 13, b"D");

const SIXTEEN: Row = Row::Media(1_112, 16, b"G");

static ASKED_COUNTS: [(Asking, &[Row], u64); 5] = [
    (Asking::Ranges, &[SIXTEEN, REPORTS_FIRST], 0),
    // 11 and the four after it.
    (Asking::Ranges, &[SIXTEEN, REPORTS_FIRST, FIRST], 5),
    (Asking::Ranges, &[SIXTEEN, REPORTS_FIRST, FIRST, SECOND], 10),
    // 11, and the first and the third after it: a mask of 101.
    (Asking::Masks, &[FIFTEEN, THIRTEEN, REPORTS_FIRST, FIRST], 3),
    // 11 and 12, and 14, by two words.
    (
        Asking::Ranges,
        &[FIFTEEN, THIRTEEN, REPORTS_FIRST, FIRST],
        3,
    ),
];

#[test]
fn each_number_that_is_asked_for_counts_each_time(rt: HostRuntime) -> Result<(), Fail> {
    for (asks, rows, want) in &ASKED_COUNTS {
        expect_count(rt.alloc(), *asks, rows, *want)?;
    }
    Ok(())
}

// 8,000 and then 16,000 microseconds on link 0 are 9,000, so 810 ticks: 3,159 and 3,160.
static ROUND_TRIPS: [(&[Row], &[u8]); 3] = [
    (
        &[
            REPORTS_FIRST,
            Row::Response(0, 8_000),
            Row::Response(0, 16_000),
            FIRST,
            Row::Tick(0, 35_111),
        ],
        b"",
    ),
    (
        &[
            REPORTS_FIRST,
            Row::Response(0, 8_000),
            Row::Response(0, 16_000),
            FIRST,
            Row::Tick(0, 35_112),
        ],
        RANGE,
    ),
    // 20,000 microseconds on link 1 are longer.
    (
        &[
            REPORTS_FIRST,
            Row::Response(0, 8_000),
            Row::Response(0, 16_000),
            Row::Response(1, 20_000),
            FIRST,
            Row::Tick(0, 35_112),
        ],
        b"",
    ),
];

#[test]
fn the_longest_round_trip_time_of_two_links_counts(rt: HostRuntime) -> Result<(), Fail> {
    for (rows, want) in &ROUND_TRIPS {
        expect_asked(rt.alloc(), Asking::Quick, rows, want)?;
    }
    Ok(())
}

/// A session under a passphrase.
fn secret() -> Session
    ensures session { IsSession result }
    ensures pass { is_some result.pass ≡ true }
{
    Session {
        profile: Profile::Main,
        port: 1968,
        pass: Some(Phrase::of(b"a secret")),
        bits: 128,
        nulls: false,
        width: Width::W16,
        full: false,
        tunnel: Tunnel::Own,
        echo: false,
    }
}

static WORDS: [u32; 16] = [1, 2, 3, 4, 5, 6, 7, 8, 9, 10, 11, 12, 13, 14, 15, 16];

fn sealer(alloc: Global) -> Result<Sealer, Fail> {
    let mut words = Words::with(alloc, &WORDS, &[])?;
    match Sealer::with(&mut words) {
        Ok(sealer) => Ok(sealer),
        Err(_) => Err(Fail::new("no nonces")),
    }
}

fn sealing(alloc: Global) -> Result<Receiver, Fail> {
    let sealer = sealer(alloc)?;
    Ok(Receiver::with(alloc, &settings(Asking::Ranges), &secret(), Some(sealer))?)
}

/// How many packets the compound has that is sealed in a datagram.
fn packet_count(alloc: Global, channel: Channel, sent: &[u8]) -> Result<usize, Fail> {
    let mut block = [0; 2048];
    let into = block.get_mut(..sent.len()).ok_or("a datagram")?;
    into.copy_from_slice(sent);
    let mut opener = Opener::with(alloc, &secret())?;
    match opener.take(channel, into) {
        Ok(Item::Control(compound)) => Ok(compound.packets().count()),
        _ => Err(Fail::new("a compound")),
    }
}

// A report, and a request at one second with a delay that isn't read.
const REQUEST: [u8; 32] = [
    0x80, 0xC9, 0, 1, 0, 0, 0, 9, 0x82, 0xCC, 0, 5, 0x10, 0x20, 0x30, 0x40, b'R', b'I', b'S', b'T',
    0, 0, 0, 0, 0, 0x0F, 0x42, 0x40, 1, 2, 3, 4,
];

/// What a receiver answers to the request.
fn answered(receiver: &mut Receiver, sink: &mut Store8) -> Result<Outs, Fail> {
    let compound = Compound::read(&REQUEST).ok().ok_or("a compound")?;
    match step(receiver, &told(&Row::Response(3, 5), &compound), sink)? {
        Outcome::Made(outs) => Ok(outs),
        _ => Err(Fail::new("an answer")),
    }
}

#[test]
fn a_request_is_answered_on_its_link_under_a_passphrase(rt: HostRuntime) -> Result<(), Fail> {
    let mut receiver = sealing(rt.alloc())?;
    let mut sink = Store8::with(rt.alloc(), 64, &[])?;
    let outs = answered(&mut receiver, &mut sink)?;
    assert!(rt; receiver.left() == Some(MAX_PAIRS - 1));
    let count = packet_count(rt.alloc(), outs.first.channel(), outs.first.octets())?;
    assert!(rt; count == 3);
    Ok(())
}

// 65,535 and 65,537 are missing; then the same numbers around 2^32.
static BOUNDARIES: [(&[Row], &[u8]); 2] = [
    (
        &[
            Row::Wide(0, 65_534, 0),
            Row::Wide(0, 65_536, 900),
            Row::Wide(0, 65_538, 1_800),
            Row::Tick(0, 0),
            Row::Tick(0, 25_000),
        ],
        b"\x80\xC9\0\x01\0\0\0\x07\x81\xCA\0\x03\0\0\0\x07\x01\x04rist\0\0\
        \x81\xCC\0\x03\x10\x20\x30\x40RIST\0\0\0\0\
        \x80\xCC\0\x03\x10\x20\x30\x40RIST\xFF\xFF\0\0\
        \x81\xCC\0\x03\x10\x20\x30\x40RIST\0\x01\0\0\
        \x80\xCC\0\x03\x10\x20\x30\x40RIST\0\x01\0\0",
    ),
    (
        &[
            Row::Wide(0, 0xFFFF_FFFE, 0),
            Row::Wide(0, 0, 900),
            Row::Wide(0, 2, 1_800),
            Row::Tick(0, 0),
            Row::Tick(0, 25_000),
        ],
        b"\x80\xC9\0\x01\0\0\0\x07\x81\xCA\0\x03\0\0\0\x07\x01\x04rist\0\0\
        \x81\xCC\0\x03\x10\x20\x30\x40RIST\xFF\xFF\0\0\
        \x80\xCC\0\x03\x10\x20\x30\x40RIST\xFF\xFF\0\0\
        \x81\xCC\0\x03\x10\x20\x30\x40RIST\0\0\0\0\
        \x80\xCC\0\x03\x10\x20\x30\x40RIST\0\x01\0\0",
    ),
];

#[test]
fn wide_requests_stand_on_both_sides_of_a_boundary(rt: HostRuntime) -> Result<(), Fail> {
    for (rows, want) in &BOUNDARIES {
        expect_made(rt.alloc(), Profile::Simple, Asking::Ranges, rows, want)?;
    }
    Ok(())
}
