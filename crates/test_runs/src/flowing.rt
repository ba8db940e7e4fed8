//! Runs of several flows that come in one tunnel.
ghost use Rattle.std.specs.Prelude.{◌≡◌, None, IfOk, length};
ghost use Rattle.outside_io.specs.Told.{IsEmpty};
ghost use Rattle.outside_net.specs.Scripts.{FitsDatagram};
ghost use Rattle.rist_wire.specs.Among.{ArePorts};
ghost use Rattle.rist_wire.specs.Session.{IsSession};
ghost use Rattle.rist_ends.specs.Settings.{IsInRange};
ghost use Rattle.rist_fan.specs.Fan.{flows_in};
ghost use Rattle.fan_desk.specs.Origin.{AreUntold, IsUntold};

use crate::links::packet;
use desk_run::{Ending, Run, make_in_turns};
use fan_run::{FlowsRun, receive_flows};
use link_channels::{Channel, Profile};
use outside_io::{Sink, Store8};
use outside_net::{Octets, ScriptClock, ScriptLink, ScriptRead};
use rist_desk::ServingLimits;
use rist_ends::{Answer, Counts, Receiver, Settings};
use rist_fan::{Fan, Flow};
use rist_recv::receive_in_turns;
use rist_wire::{Opener, Session, Tunnel};
use seq_unwrap::Width;
use std::alloc::Global;
use std::process::Abort;
use std::sync::Wait;
use std::test::Fail;
use std::thread::Threads;

pub(crate) const LIMITS: ServingLimits = ServingLimits { turns: 64, idle: 0 };

pub(crate) fn two_ports() -> [u16; 2]
    ensures ports { ArePorts result }
{
    [1968, 1970]
}

fn one_port() -> [u16; 1]
    ensures ports { ArePorts result }
{
    [1968]
}

/// The session of a tunnel in clear, at the first port.
pub(crate) fn tunnel() -> Session
    ensures session { IsSession result }
    ensures clear { result.pass ≡ None }
{
    Session {
        profile: Profile::Main,
        port: 1968,
        pass: None,
        bits: 128,
        nulls: false,
        width: Width::W16,
        full: false,
        tunnel: Tunnel::Own,
        echo: false,
    }
}

/// That at the other port.
fn other_tunnel() -> Session
    ensures session { IsSession result }
    ensures clear { result.pass ≡ None }
{
    let mut session = tunnel();
    session.port = 1970;
    session
}

/// A delay of one second, and whether missing packets are asked for, once they were missing for 25 ms.
fn settings(asks: bool) -> Settings
    ensures range { IsInRange result }
{
    let mut settings = Settings::muted(1000, 8, 0, false);
    settings.tries = 8;
    settings.muted = !asks;
    settings
}

const KEEPALIVE: [u8; 12] = [0, 0, 0x88, 0xB5, 2, 0, 0x10, 0x20, 0x30, 0x40, 0, 0];

/// Media of one letter to this port, of which the high octet is 7.
fn media(letter: u8, port: u8) -> [u8; 21] {
    let mut block = [0; 21];
    block[..8].copy_from_slice(&[0, 0, 0x88, 0xB6, 7, port, 7, port]);
    block[8..].copy_from_slice(&packet(letter));
    block
}

/// A report, and an RTT request at one second, to this port, of which the high octet is 7.
fn asking(port: u8) -> [u8; 40] {
    let mut block = [0; 40];
    block[..8].copy_from_slice(&[0, 0, 0x88, 0xB6, 7, port, 7, port]);
    block[8..].copy_from_slice(&[
        0x80, 0xC9, 0, 1, 0, 0, 0, 9, 0x82, 0xCC, 0, 5, 0x10, 0x20, 0x30, 0x40, b'R', b'I', b'S',
        b'T', 0, 0, 0, 0, 0, 0x0F, 0x42, 0x40, 0, 0, 0, 0,
    ]);
    block
}

/// What a letter brings: a capital is media of the flow at 1968, a small letter of that at 1970, and a digit of neither, at
/// 1972; an exclamation mark is an RTT request of the flow at 1968, and a question mark of that at 1970; a dash is a keepalive,
/// and a dot stands for a read to which nothing was there.
fn brought(alloc: Global, letter: u8) -> Result<ScriptRead, Fail>
    ensures fits { IfOk result FitsDatagram }
{
    let octets = match letter {
        b'.' => return Ok(ScriptRead::Quiet),
        b'-' => Octets::of(alloc, &KEEPALIVE)?,
        b'!' => Octets::of(alloc, &asking(0xB1))?,
        b'?' => Octets::of(alloc, &asking(0xB3))?,
        b'0'..=b'9' => Octets::of(alloc, &media(letter, 0xB4))?,
        b'A'..=b'Z' => Octets::of(alloc, &media(letter, 0xB0))?,
        _ => Octets::of(alloc, &media(letter, 0xB2))?,
    };
    Ok(ScriptRead::Datagram(Channel::Tunnel, octets))
}

/// A link that brings these.
pub(crate) fn link(alloc: Global, letters: &[u8]) -> Result<ScriptLink, Fail> {
    let mut reads = Vec::new(alloc);
    for letter in letters {
        reads.push(brought(alloc, *letter)?)?;
    }
    Ok(ScriptLink::with(alloc, reads, true, 64, &[], &[])?)
}

/// Links, and for each a clock and an opener.
#[derive(Drop)]
struct LinkEnds {
    links: Vec<ScriptLink>,
    clocks: Vec<ScriptClock>,
    openers: Vec<Opener>,
}

/// Links that bring these, and clocks of the same moments.
fn ends(alloc: Global, scripts: &[&[u8]], moments: &[u64]) -> Result<LinkEnds, Fail>
    ensures links { IfOk result (λ ends. length ends.links.items ≡ length scripts.now) }
    ensures clocks { IfOk result (λ ends. length ends.clocks.items ≡ length scripts.now) }
    ensures openers { IfOk result (λ ends. length ends.openers.items ≡ length scripts.now) }
{
    let mut links = Vec::new(alloc);
    let mut clocks = Vec::new(alloc);
    let mut openers = Vec::new(alloc);
    for script in scripts {
        links.push(link(alloc, script)?)?;
        clocks.push(ScriptClock::with(alloc, moments)?)?;
        openers.push(Opener::with(alloc, &tunnel())?)?;
    }
    Ok(LinkEnds {
        links,
        clocks,
        openers,
    })
}

/// A flow whose receiver was told nothing, over an empty sink.
fn flow<K: Sink + Drop>(
    alloc: Global,
    session: &Session,
    asks: bool,
    sink: K,
) -> Result<Flow<K>, Fail>
    requires session { IsSession session.now }
    requires clear { session.now.pass ≡ None }
    requires empty { IsEmpty (K.contents sink) }
    ensures untold { IfOk result (λ flow. IsUntold K.contents flow) }
{
    Ok(Flow {
        receiver: Receiver::with(alloc, &settings(asks), session, None)?,
        sink,
    })
}

/// One such flow.
fn one<K: Sink + Drop>(alloc: Global, sink: K) -> Result<Fan<K>, Fail>
    requires empty { IsEmpty (K.contents sink) }
    ensures one { IfOk result (λ fan. length (flows_in fan) ≡ 1) }
    ensures untold { IfOk result (λ fan. AreUntold K.contents (flows_in fan)) }
{
    Ok(Fan::with(flow(alloc, &tunnel(), false, sink)?, Vec::new(alloc)))
}

/// Two such flows.
pub(crate) fn two<K: Sink + Drop>(
    alloc: Global,
    asks: bool,
    sink: K,
    other: K,
) -> Result<Fan<K>, Fail>
    requires empty { IsEmpty (K.contents sink) }
    requires other { IsEmpty (K.contents other) }
    ensures two { IfOk result (λ fan. length (flows_in fan) ≡ 2) }
    ensures untold { IfOk result (λ fan. AreUntold K.contents (flows_in fan)) }
{
    let first = flow(alloc, &tunnel(), asks, sink)?;
    let mut more = Vec::new(alloc);
    more.push(flow(alloc, &other_tunnel(), asks, other)?)?;
    Ok(Fan::with(first, more))
}

/// A run of these flows over links that bring these, and the links as they stand then.
fn run_on<K: Sink + Drop + Send, R: Threads + Wait + Sync>(
    rt: &R,
    alloc: Global,
    fan: Fan<K>,
    ports: Vec<u16>,
    scripts: &[&[u8]],
    moments: &[u64],
) -> Result<(FlowsRun<K>, Vec<ScriptLink>), Fail>
    requires ports { ArePorts ports.items }
    requires places { length ports.items ≡ length (flows_in fan) }
    requires untold { AreUntold K.contents (flows_in fan) }
{
    if scripts.is_empty() || scripts.len() > 16 {
        return Err(Fail::new("not 1 to 16 links"));
    }
    let LinkEnds {
        mut links,
        mut clocks,
        openers,
    } = ends(alloc, scripts, moments)?;
    match receive_flows(
        rt,
        alloc,
        fan,
        ports,
        openers,
        &mut links,
        &mut clocks,
        &LIMITS,
    ) {
        Ok(run) => Ok((run, links)),
        Err(_) => Err(Fail::new("out of memory")),
    }
}

/// A run of two flows, of which the first's listed puts fail.
fn run_two<R: Threads + Wait + Sync>(
    rt: &R,
    alloc: Global,
    asks: bool,
    failing: &[u64],
    scripts: &[&[u8]],
    moments: &[u64],
) -> Result<(FlowsRun<Store8>, Vec<ScriptLink>), Fail> {
    let sink = Store8::with(alloc, 64, failing)?;
    let other = Store8::with(alloc, 64, &[])?;
    let fan = two(alloc, asks, sink, other)?;
    let ports = Vec::from_slice(alloc, &two_ports())?;
    run_on(rt, alloc, fan, ports, scripts, moments)
}

/// What a sink holds, and of the packets how many were kept, came twice, were late, and were refused.
type Place = (&'static [u8], [u64; 4]);

/// Whether the sink and the counts are these.
fn is_at(octets: &[u8], counts: Counts, place: &Place) -> bool {
    let (held, [kept, twice, late, refused]) = *place;
    let due = Counts {
        kept,
        stranger: 0,
        exhausted: 0,
        late,
        behind: 0,
        early: 0,
        twice,
        span: 0,
        refused,
    };
    octets == held && counts == due
}

fn is_left(flow: &Flow<Store8>, place: &Place) -> bool {
    is_at(flow.sink.octets(), flow.receiver.counts(), place)
}

/// What the end came to at each of two places.
fn answers_of(run: &FlowsRun<Store8>) -> Option<(Answer, Answer)> {
    match run.came.as_slice() {
        [first, second] => Some((first.answer, second.answer)),
        _ => None,
    }
}

fn expect_run(
    rt: &impl Abort,
    run: &FlowsRun<Store8>,
    first: &Place,
    second: &Place,
    answers: (Answer, Answer),
) -> Result<(), Fail> {
    let other = run.more.first().ok_or("no second flow")?;
    assert!(rt; is_left(&run.first, first));
    assert!(rt; is_left(other, second));
    assert!(rt; answers_of(run) == Some(answers));
    Ok(())
}

/// What each link brings, the moments of their clocks, and what is left of each place.
type Row = (&'static [&'static [u8]], &'static [u64], Place, Place);

static ROWS: [Row; 7] = [
    // The packets of two flows come mixed, in order and not.
    (
        &[b"AaBbCc"],
        &[0],
        (b"ABC", [3, 0, 0, 3]),
        (b"abc", [3, 0, 0, 3]),
    ),
    (
        &[b"CacAbB"],
        &[0],
        (b"ABC", [3, 0, 0, 3]),
        (b"abc", [3, 0, 0, 3]),
    ),
    // Two links lose a packet each, and some come on both.
    (
        &[b"AaC", b"BabC"],
        &[0],
        (b"ABC", [3, 1, 0, 3]),
        (b"ab", [2, 1, 0, 4]),
    ),
    // A datagram to neither port is refused at both places.
    (
        &[b"Aa1Bb2"],
        &[0],
        (b"AB", [2, 0, 0, 4]),
        (b"ab", [2, 0, 0, 4]),
    ),
    // A keepalive comes at the first place, and is refused at the other.
    (
        &[b"Aa1-Bb-2"],
        &[0],
        (b"AB", [2, 0, 0, 4]),
        (b"ab", [2, 0, 0, 6]),
    ),
    // It moves the time of both: a packet that was due then is late, one that is due later is not.
    (
        &[b"Aa-Bb"],
        &[0, 0, 1_010_000, 0],
        (b"A", [1, 0, 1, 2]),
        (b"a", [1, 0, 1, 3]),
    ),
    (
        &[b"Aa-Cc"],
        &[0, 0, 1_010_000, 0],
        (b"AC", [2, 0, 0, 2]),
        (b"ac", [2, 0, 0, 3]),
    ),
];

#[test]
fn each_flow_has_its_own_output(rt: HostRuntime) -> Result<(), Fail> {
    for (scripts, moments, first, second) in &ROWS {
        let (run, _links) = run_two(&rt, rt.alloc(), false, &[], scripts, moments)?;
        assert!(rt; run.ending == Ending::Done);
        let answers = (Answer::Nothing, Answer::Nothing);
        expect_run(&rt, &run, first, second, answers)?;
    }
    Ok(())
}

/// What is brought, the moments, what the end came to at the first place, and what is left of each place.
static FAILING: [(&[u8], &[u64], Answer, Place, Place); 2] = [
    // All is put out at the end.
    (
        b"AaBbCcDd",
        &[0],
        Answer::WriteFault,
        (b"AB", [4, 0, 0, 4]),
        (b"abcd", [4, 0, 0, 4]),
    ),
    // The third packet is due with the keepalive: no later step is made at the first place.
    (
        b"AaBbCc-Dd",
        &[0, 0, 0, 0, 0, 0, 1_020_000],
        Answer::Stopped,
        (b"AB", [3, 0, 0, 3]),
        (b"abcd", [4, 0, 0, 5]),
    ),
];

#[test]
fn a_third_put_that_fails_ends_its_own_flow_alone(rt: HostRuntime) -> Result<(), Fail> {
    for (script, moments, answer, first, second) in &FAILING {
        let (run, _links) = run_two(&rt, rt.alloc(), false, &[2], &[*script], moments)?;
        assert!(rt; run.ending == Ending::WriteFault);
        expect_run(&rt, &run, first, second, (*answer, Answer::Nothing))?;
    }
    Ok(())
}

/// A run of one flow at its port.
fn run_one<R: Threads + Wait + Sync>(
    rt: &R,
    alloc: Global,
    scripts: &[&[u8]],
    moments: &[u64],
) -> Result<FlowsRun<Store8>, Fail> {
    let fan = one(alloc, Store8::with(alloc, 64, &[])?)?;
    let ports = Vec::from_slice(alloc, &one_port())?;
    let (run, _links) = run_on(rt, alloc, fan, ports, scripts, moments)?;
    Ok(run)
}

/// A run of its receiver by itself.
fn run_alone<R: Threads + Wait + Sync>(
    rt: &R,
    alloc: Global,
    scripts: &[&[u8]],
    moments: &[u64],
) -> Result<Run<Store8>, Fail> {
    if scripts.is_empty() || scripts.len() > 16 {
        return Err(Fail::new("not 1 to 16 links"));
    }
    let LinkEnds {
        mut links,
        mut clocks,
        openers: _,
    } = ends(alloc, scripts, moments)?;
    let made = make_in_turns(alloc, &settings(false), &tunnel(), None, links.len())?;
    let sink = Store8::with(alloc, 64, &[])?;
    match receive_in_turns(rt, alloc, made, &mut links, &mut clocks, sink, &LIMITS) {
        Ok(run) => Ok(run),
        Err(_) => Err(Fail::new("out of memory")),
    }
}

/// What each link brings, the moments of their clocks, and what is left.
static ALONE: [(&[&[u8]], &[u64], Place); 3] = [
    (&[b"CaA1-B"], &[0], (b"ABC", [3, 0, 0, 2])),
    (&[b"AC", b"aBC"], &[0], (b"ABC", [3, 1, 0, 1])),
    (&[b"A-B"], &[0, 1_010_000], (b"A", [1, 0, 1, 0])),
];

#[test]
fn one_flow_is_received_as_by_itself(rt: HostRuntime) -> Result<(), Fail> {
    for (scripts, moments, place) in &ALONE {
        let run = run_one(&rt, rt.alloc(), scripts, moments)?;
        assert!(rt; run.ending == Ending::Done && run.more.is_empty());
        assert!(rt; is_left(&run.first, place));
        let alone = run_alone(&rt, rt.alloc(), scripts, moments)?;
        assert!(rt; alone.ending == Ending::Done);
        assert!(rt; is_at(alone.sink.octets(), alone.counts, place));
    }
    Ok(())
}

/// What the datagrams that go back begin with, in order: of each flow a report to its control port and a keepalive, when
/// the first packet has come, and then the whole of a request for the packet that is missing.
static SENT: [&[u8]; 6] = [
    b"\x00\x00\x88\xb6\x07\xb1\x07\xb1\x80\xc9",
    b"\x00\x00\x88\xb5",
    b"\x00\x00\x88\xb6\x07\xb3\x07\xb3\x80\xc9",
    b"\x00\x00\x88\xb5",
    b"\x00\x00\x88\xb6\x07\xb1\x07\xb1\x80\xc9\x00\x01\x00\x00\x00\x07\
      \x81\xca\x00\x03\x00\x00\x00\x07\x01\x04rist\x00\x00\x80\xcc\x00\x03\x10\x20\x30\x40RIST\x00\x0b\x00\x00",
    b"\x00\x00\x88\xb6\x07\xb3\x07\xb3\x80\xc9\x00\x01\x00\x00\x00\x07\
      \x81\xca\x00\x03\x00\x00\x00\x07\x01\x04rist\x00\x00\x80\xcc\x00\x03\x10\x20\x30\x40RIST\x00\x2b\x00\x00",
];

/// Whether a link took datagrams that begin so, and no more.
fn has_taken(link: &ScriptLink, starts: &[&[u8]]) -> bool {
    let mut place: usize = 0;
    for start in starts {
        match link.taken(place) {
            Some((Channel::Tunnel, octets)) if octets.starts_with(start) => {
                place = place.saturating_add(1);
            }
            _ => return false,
        }
    }
    link.taken(place).is_none()
}

#[test]
fn each_flow_asks_at_its_own_port(rt: HostRuntime) -> Result<(), Fail> {
    let moments = [0, 0, 0, 0, 25_000];
    let (run, links) = run_two(&rt, rt.alloc(), true, &[], &[b"AaCc."], &moments)?;
    let link = links.first().ok_or("no link")?;
    assert!(rt; has_taken(link, &SENT));
    let first: Place = (b"AC", [2, 0, 0, 2]);
    let second: Place = (b"ac", [2, 0, 0, 2]);
    let answers = (Answer::Nothing, Answer::Nothing);
    expect_run(&rt, &run, &first, &second, answers)
}
