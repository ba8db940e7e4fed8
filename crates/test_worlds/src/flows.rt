//! Datagrams of two flows in one tunnel, and what each flow's sink holds of them.
ghost use Rattle.std.specs.Prelude.{◌≡◌, false, is_some, length, IfOk};
ghost use Rattle.rist_wire.specs.Among.{ArePorts};
ghost use Rattle.rist_wire.specs.Session.{IsSession};
ghost use Rattle.rist_fan.specs.Fan.{flows_in};

use link_channels::{Channel, Profile};
use outside_io::Store8;
use rist_ends::{Answer, Receiver, Settings, Told, What, what_of};
use rist_fan::{Came, Fan, Flow};
use rist_wire::{Item, Opener, Session, Tunnel, WireBad};
use seq_unwrap::Width;
use std::alloc::Global;
use std::test::Fail;

pub(crate) fn ports() -> [u16; 2]
    ensures ports { ArePorts result }
{
    [1968, 1970]
}

/// A session in clear.
pub(crate) fn session() -> Session
    ensures session { IsSession result }
    ensures clear { is_some result.pass ≡ false }
{
    Session {
        profile: Profile::Main,
        port: 1968,
        pass: None,
        bits: 128,
        nulls: false,
        width: Width::W16,
        full: false,
        tunnel: Tunnel::Own,
        echo: false,
    }
}

/// What comes at a moment in microseconds.
#[derive(Clone, Copy)]
enum Row {
    Datagram(u64, &'static [u8]),
    Tick(u64),
}

// Media to 1968 and to 1970, each with one octet.
const A: &[u8] =
    b"\x00\x00\x88\xb6\x07\xb0\x07\xb0\x80\x21\x00\x00\x00\x00\x00\x00\x10\x20\x30\x40\x41";

const B: &[u8] =
    b"\x00\x00\x88\xb6\x07\xb2\x07\xb2\x80\x21\x00\x00\x00\x00\x00\x00\x20\x30\x40\x50\x42";

// The next packet of each flow, 10 ms later.
const C: &[u8] =
    b"\x00\x00\x88\xb6\x07\xb0\x07\xb0\x80\x21\x00\x01\x00\x00\x03\x84\x10\x20\x30\x40\x43";

const D: &[u8] =
    b"\x00\x00\x88\xb6\x07\xb2\x07\xb2\x80\x21\x00\x01\x00\x00\x03\x84\x20\x30\x40\x50\x44";

const KEEPALIVE: &[u8] = b"\x00\x00\x88\xb5\x02\x00\x10\x20\x30\x40\x00\x00";

// Media to 1972, which is none of both.
const STRAY: &[u8] =
    b"\x00\x00\x88\xb6\x07\xb4\x07\xb4\x80\x21\x00\x00\x00\x00\x00\x00\x20\x30\x40\x50\x42";

/// A receiver with a delay of one second, over a sink whose listed writes fail.
fn flow(alloc: Global, failing: &[u64]) -> Result<Flow<Store8>, Fail> {
    let settings = Settings::muted(1000, 8, 0, false);
    Ok(Flow {
        receiver: Receiver::with(alloc, &settings, &session(), None)?,
        sink: Store8::with(alloc, 64, failing)?,
    })
}

/// Two flows, of which the first's listed writes fail.
pub(crate) fn fan(alloc: Global, failing: &[u64]) -> Result<Fan<Store8>, Fail>
    ensures two { IfOk result (λ fan. length (flows_in fan) ≡ 2) }
{
    let mut more = Vec::new(alloc);
    more.push(flow(alloc, &[])?)?;
    Ok(Fan::with(flow(alloc, failing)?, more))
}

/// The place of what was found, if anything was.
fn place_of(found: &Result<(u8, Item<'_>), WireBad>) -> Option<u8> {
    match found {
        Ok((place, _)) => Some(*place),
        Err(_) => None,
    }
}

/// Its item, or why there is none.
fn item_of<'a>(found: Result<(u8, Item<'a>), WireBad>) -> Result<Item<'a>, WireBad> {
    match found {
        Ok((_, item)) => Ok(item),
        Err(bad) => Err(bad),
    }
}

/// One datagram, at the place of its port.
fn step_datagram(
    opener: &mut Opener,
    fan: &mut Fan<Store8>,
    came: &mut [Came; 2],
    us: u64,
    octets: &[u8],
)
    requires two { length (flows_in fan.old) ≡ 2 }
    ensures two { length (flows_in fan.new) ≡ 2 }
{
    let mut block = [0; 2048];
    let mut content = [0; 1500];
    if octets.len() > 2048 {
        return;
    }
    block[..octets.len()].copy_from_slice(octets);
    let found = opener.take_any(&ports(), Channel::Tunnel, &mut block[..octets.len()]);
    let place = place_of(&found);
    let item = item_of(found);
    let told = Told {
        link: 0,
        us,
        what: what_of(&item, &mut content),
    };
    fan.step(place, &told, came);
}

fn step(opener: &mut Opener, fan: &mut Fan<Store8>, came: &mut [Came; 2], row: &Row)
    requires two { length (flows_in fan.old) ≡ 2 }
    ensures two { length (flows_in fan.new) ≡ 2 }
{
    match *row {
        Row::Datagram(us, octets) => step_datagram(opener, fan, came, us, octets),
        Row::Tick(us) => {
            let told = Told {
                link: 0,
                us,
                what: What::Tick,
            };
            fan.step(None, &told, came);
        }
    }
}

/// A fan of two that was told these rows, where the first's listed writes fail, and what the last row came to.
fn stepped(alloc: Global, failing: &[u64], rows: &[Row]) -> Result<(Fan<Store8>, [Came; 2]), Fail>
    ensures two { IfOk result (λ r. length (flows_in r.0) ≡ 2) }
{
    let mut opener = Opener::with(alloc, &session())?;
    let mut fan = fan(alloc, failing)?;
    let mut came = [Came::none(), Came::none()];
    for row in rows {
        step(&mut opener, &mut fan, &mut came, row);
    }
    Ok((fan, came))
}

/// What both sinks hold.
pub(crate) type Held = (&'static [u8], &'static [u8]);

pub(crate) fn expect_held(
    first: &Flow<Store8>,
    more: &[Flow<Store8>],
    held: Held,
) -> Result<(), Fail> {
    let second = more.first().ok_or("no second flow")?;
    if first.sink.octets() == held.0 && second.sink.octets() == held.1 {
        Ok(())
    } else {
        Err(Fail::new("other octets"))
    }
}

/// What comes, what both sinks hold then, and what they hold after the end.
type Run = (&'static [Row], Held, Held);

fn expect_run(alloc: Global, failing: &[u64], run: &Run) -> Result<(Answer, Answer), Fail> {
    let (rows, before, after) = *run;
    let (fan, mut came) = stepped(alloc, failing, rows)?;
    let (first, more) = fan.apart();
    expect_held(&first, &more, before)?;
    let (first, more) = Fan::with(first, more).finish(&mut came);
    expect_held(&first, &more, after)?;
    Ok((came[0].answer, came[1].answer))
}

static RUNS: [Run; 6] = [
    (
        &[Row::Datagram(0, A), Row::Datagram(0, B)],
        (b"", b""),
        (b"A", b"B"),
    ),
    (
        &[
            Row::Datagram(0, A),
            Row::Datagram(0, B),
            Row::Datagram(10_000, D),
            Row::Datagram(10_000, C),
        ],
        (b"", b""),
        (b"AC", b"BD"),
    ),
    // A keepalive moves the time of both.
    (
        &[
            Row::Datagram(0, A),
            Row::Datagram(0, B),
            Row::Datagram(1_000_000, KEEPALIVE),
        ],
        (b"A", b"B"),
        (b"A", b"B"),
    ),
    // So does a tick, a datagram of the other flow, and one that is none's.
    (
        &[
            Row::Datagram(0, A),
            Row::Datagram(0, B),
            Row::Tick(1_000_000),
        ],
        (b"A", b"B"),
        (b"A", b"B"),
    ),
    (
        &[Row::Datagram(0, A), Row::Datagram(1_000_000, B)],
        (b"A", b""),
        (b"A", b"B"),
    ),
    (
        &[
            Row::Datagram(0, A),
            Row::Datagram(20, B),
            Row::Datagram(1_000_000, STRAY),
        ],
        (b"A", b""),
        (b"A", b"B"),
    ),
];

#[test]
fn each_flow_goes_to_its_own_sink(rt: HostRuntime) -> Result<(), Fail> {
    for run in &RUNS {
        let answers = expect_run(rt.alloc(), &[], run)?;
        assert!(rt; answers == (Answer::Nothing, Answer::Nothing));
    }
    Ok(())
}

// The first put of the first flow fails.
static FAILING: [(Run, Answer); 2] = [
    (
        (
            &[Row::Datagram(0, A), Row::Datagram(0, B)],
            (b"", b""),
            (b"", b"B"),
        ),
        Answer::WriteFault,
    ),
    // What comes after that goes to the other alone.
    (
        (
            &[
                Row::Datagram(0, A),
                Row::Datagram(0, B),
                Row::Datagram(1_000_000, KEEPALIVE),
                Row::Datagram(1_000_001, C),
                Row::Datagram(1_000_001, D),
            ],
            (b"", b"B"),
            (b"", b"BD"),
        ),
        Answer::Stopped,
    ),
];

#[test]
fn a_failed_write_ends_its_own_flow_alone(rt: HostRuntime) -> Result<(), Fail> {
    for (run, first) in &FAILING {
        let answers = expect_run(rt.alloc(), &[0], run)?;
        assert!(rt; answers == (*first, Answer::Nothing));
    }
    Ok(())
}

#[test]
fn the_first_sink_is_lent(rt: HostRuntime) -> Result<(), Fail> {
    let rows = [Row::Datagram(0, A), Row::Tick(1_000_000)];
    let (mut fan, _) = stepped(rt.alloc(), &[], &rows)?;
    assert!(rt; fan.sink().octets() == b"A".as_slice());
    Ok(())
}
