//! Several flows that come in one tunnel: what each output holds, what came back, and how the run ended.
ghost use Rattle.std.specs.Prelude.{IfOk};
ghost use Rattle.outside_net.specs.Scripts.{FitsDatagram};

use crate::fixtures::words;
use link_channels::Channel;
use outside_host::{CountsText, MemHost, MemParts, Place, Slot};
use outside_io::{Store8, Words};
use outside_net::{Octets, ScriptClock, ScriptLink, ScriptRead};
use rist_top::{Status, run};
use std::alloc::Global;
use std::sync::Wait;
use std::test::Fail;
use std::thread::Threads;

// Datagrams of a tunnel: media to 1968, to 1970, and to 1972, which no output has.
const A: &[u8] =
    b"\x00\x00\x88\xb6\x07\xb0\x07\xb0\x80\x21\x00\x00\x00\x00\x00\x00\x10\x20\x30\x40A";

const B: &[u8] =
    b"\x00\x00\x88\xb6\x07\xb2\x07\xb2\x80\x21\x00\x00\x00\x00\x00\x00\x20\x30\x40\x50B";

const STRAY: &[u8] =
    b"\x00\x00\x88\xb6\x07\xb4\x07\xb4\x80\x21\x00\x00\x00\x00\x00\x00\x20\x30\x40\x50C";

// The first two, enciphered by another implementation (OpenSSL 3.0) under the passphrase `secret` and a key of 128 bits.
const KEYED_A: &[u8] = b"\x30\x00\x88\xb6\x00\x00\x00\x01\x00\x00\x00\x00\
    \x51\x74\xfc\xec\xb4\xdd\xf6\x6f\x0d\x72\xb6\x64\x32\x18\xa1\xba\x0f";

const KEYED_B: &[u8] = b"\x30\x00\x88\xb6\x00\x00\x00\x01\x00\x00\x00\x01\
    \x6c\x84\xd1\x3f\x2e\xdb\xbd\x96\x01\x24\x15\xd0\xd4\x4d\x02\xb0\xfc";

/// A command line, what its links bring, and which puts of the first output and draws of random words fail; its exit status,
/// what each output holds that came back, or nothing of one that didn't; and, where it is told, the text of what the receiver
/// of the last output counted.
#[derive(Clone, Copy)]
struct Row<'a> {
    line: &'a str,
    links: &'a [&'a [&'a [u8]]],
    puts: &'a [u64],
    draws: &'a [u64],
    exit: u8,
    a: Option<&'a [u8]>,
    b: Option<&'a [u8]>,
    counted: Option<&'a str>,
}

/// Both on one link. Each output refuses what is for the other.
const BOTH: Row<'static> = Row {
    line: "rist fan 1968=a,1970=b 127.0.0.1:5000",
    links: &[&[A, B]],
    puts: &[],
    draws: &[],
    exit: 0,
    a: Some(b"A"),
    b: Some(b"B"),
    counted: Some(
        "port 1970, kept 1, late 0, behind 0, early 0, twice 0, span 0, stranger 0, exhausted 0, refused 1",
    ),
};

static ROWS: [Row<'static>; 12] = [
    BOTH,
    // The greatest that options may be.
    Row {
        line: "rist fan 1968=a,1970=b 127.0.0.1:5000 --delay 30000 --span 16384 --restart 60000 --drift",
        ..BOTH
    },
    Row {
        line: "rist fan 1970=a,1968=b 127.0.0.1:5000",
        a: Some(b"B"),
        b: Some(b"A"),
        counted: None,
        ..BOTH
    },
    // What is for neither is refused by both.
    Row {
        links: &[&[B, STRAY, A]],
        counted: Some(
            "port 1970, kept 1, late 0, behind 0, early 0, twice 0, span 0, stranger 0, exhausted 0, refused 2",
        ),
        ..BOTH
    },
    // One on each link, and one on both.
    Row {
        line: "rist fan 1968=a,1970=b 127.0.0.1:5000 127.0.0.1:5001",
        links: &[&[A], &[B]],
        ..BOTH
    },
    Row {
        line: "rist fan 1968=a,1970=b 127.0.0.1:5000 127.0.0.1:5001",
        links: &[&[A, B], &[B]],
        counted: Some(
            "port 1970, kept 1, late 0, behind 0, early 0, twice 1, span 0, stranger 0, exhausted 0, refused 1",
        ),
        ..BOTH
    },
    // One flow alone.
    Row {
        line: "rist fan 1968=a 127.0.0.1:5000",
        b: None,
        counted: Some(
            "port 1968, kept 1, late 0, behind 0, early 0, twice 0, span 0, stranger 0, exhausted 0, refused 1",
        ),
        ..BOTH
    },
    Row {
        line: "rist fan 1968=a,1970=b 127.0.0.1:5000 --pass secret",
        links: &[&[KEYED_B, KEYED_A]],
        ..BOTH
    },
    // The first write to the first output fails.
    Row {
        puts: &[0],
        exit: 5,
        a: Some(b""),
        ..BOTH
    },
    // The first random word for the second output can't be had.
    Row {
        line: "rist fan 1968=a,1970=b 127.0.0.1:5000 --pass secret",
        draws: &[16],
        exit: 11,
        a: Some(b""),
        b: Some(b""),
        counted: None,
        ..BOTH
    },
    // The second output, or the second link, can't be opened.
    Row {
        line: "rist fan 1968=a,1970=c 127.0.0.1:5000",
        exit: 3,
        a: Some(b""),
        b: None,
        counted: None,
        ..BOTH
    },
    Row {
        line: "rist fan 1968=a,1970=b 127.0.0.1:5000 127.0.0.1:5001",
        exit: 3,
        a: Some(b""),
        b: Some(b""),
        counted: None,
        ..BOTH
    },
];

/// A read that gives a datagram of the tunnel, of at most 64 octets.
fn brought(alloc: Global, datagram: &[u8]) -> Result<ScriptRead, Fail>
    ensures fits { IfOk result FitsDatagram }
{
    if datagram.len() > 64 {
        return Err(Fail::new("a long datagram"));
    }
    let octets = Octets::of(alloc, datagram)?;
    Ok(ScriptRead::Datagram(Channel::Tunnel, octets))
}

/// A link that brings these.
fn link(alloc: Global, datagrams: &[&[u8]]) -> Result<ScriptLink, Fail> {
    let mut reads = Vec::new(alloc);
    for datagram in datagrams {
        reads.push(brought(alloc, datagram)?)?;
    }
    Ok(ScriptLink::with(alloc, reads, true, 64, &[], &[])?)
}

/// A host with sinks under `a` and `b`, the links of the row, for each a clock that stands at 0, and a source of random words.
fn host(alloc: Global, row: &Row<'_>) -> Result<MemHost, Fail> {
    let mut sinks = Vec::new(alloc);
    for (name, puts) in [("a", row.puts), ("b", &[])] {
        sinks.push(Slot {
            name: String::from_str(alloc, name)?,
            place: Place::Here(Store8::with(alloc, 64, puts)?),
        })?;
    }
    let mut links = Vec::new(alloc);
    let mut clocks = Vec::new(alloc);
    for datagrams in row.links {
        links.push(Place::Here(link(alloc, datagrams)?))?;
        clocks.push(Place::Here(ScriptClock::with(alloc, &[])?))?;
    }
    let mut entropies = Vec::new(alloc);
    entropies.push(Place::Here(Words::with(alloc, &[9; 32], row.draws)?))?;
    Ok(MemHost::with(
        alloc,
        MemParts {
            sources: Vec::new(alloc),
            sinks,
            entropies,
            links,
            clocks,
            failing: Vec::new(alloc),
        },
    )?)
}

/// Whether the sink of a name came back and holds these octets, or didn't come back.
fn holds(host: &MemHost, name: &str, octets: Option<&[u8]>) -> bool {
    match (host.returned_sink(name), octets) {
        (Some(sink), Some(octets)) => sink.octets() == octets,
        (None, None) => true,
        _ => false,
    }
}

/// Whether the receiver of the last output counted as the row says, if it says so.
fn is_counted_as_told(alloc: Global, host: &MemHost, row: &Row<'_>) -> Result<bool, Fail> {
    match (host.reported(), row.counted) {
        (_, None) => Ok(true),
        (Some(counts), Some(counted)) => {
            let text = format!(in alloc; "{}", CountsText(counts))?;
            Ok(text.as_str() == counted)
        }
        (None, Some(_)) => Ok(false),
    }
}

/// Whether a run is as its row says.
fn is_as_told<R: Threads + Wait + Sync>(
    rt: &R,
    alloc: Global,
    row: &Row<'_>,
) -> Result<bool, Fail> {
    let words = words(alloc, row.line)?;
    let mut host = host(alloc, row)?;
    let status = run(rt, alloc, words.as_slice(), &mut host);
    if status == Status::Memory {
        return Err(Fail::new("out of memory"));
    }
    Ok(
        status.exit_code() == row.exit
            && is_counted_as_told(alloc, &host, row)?
            && holds(&host, "a", row.a)
            && holds(&host, "b", row.b),
    )
}

#[test]
fn each_flow_goes_to_its_own_output(rt: HostRuntime) -> Result<(), Fail> {
    let alloc = rt.alloc();
    for row in &ROWS {
        assert!(rt; is_as_told(&rt, alloc, row)?, "{} {}", row.line, row.exit);
    }
    Ok(())
}
