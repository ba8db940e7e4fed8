//! Captures of two flows in one tunnel, split into two outputs.
use crate::captures::{NAME, joined, words};
use capture_file::CapKind;
use outside_host::{Host, MemHost, MemParts, Place, Slot};
use outside_io::{MemSource, Pieces, Store8};
use rist_top::{Status, plain};
use std::alloc::Global;
use std::test::Fail;

// Records on link 0 at 0: media to 1968 and to 1970, each with one octet.
const A: &[u8] = b"\0\x02\0\x15\0\0\0\0\0\0\0\0\
    \x00\x00\x88\xb6\x07\xb0\x07\xb0\x80\x21\x00\x00\x00\x00\x00\x00\x10\x20\x30\x40A";

const B: &[u8] = b"\0\x02\0\x15\0\0\0\0\0\0\0\0\
    \x00\x00\x88\xb6\x07\xb2\x07\xb2\x80\x21\x00\x00\x00\x00\x00\x00\x20\x30\x40\x50B";

// The same to 1970 with 1968 as the source port; and to 1972, which is none of both.
const B_FROM_A: &[u8] = b"\0\x02\0\x15\0\0\0\0\0\0\0\0\
    \x00\x00\x88\xb6\x07\xb0\x07\xb2\x80\x21\x00\x00\x00\x00\x00\x00\x20\x30\x40\x50B";

const STRAY: &[u8] = b"\0\x02\0\x15\0\0\0\0\0\0\0\0\
    \x00\x00\x88\xb6\x07\xb4\x07\xb4\x80\x21\x00\x00\x00\x00\x00\x00\x20\x30\x40\x50C";

// A keepalive two seconds later.
const KEEPALIVE: &[u8] = b"\0\x02\0\x0C\0\0\0\0\0\x1E\x84\x80\
    \x00\x00\x88\xb5\x02\x00\x10\x20\x30\x40\x00\x00";

// The first two, enciphered by another implementation (OpenSSL 3.0) under the passphrase `secret` and a key of 128 bits.
const KEYED_A: &[u8] = b"\0\x02\0\x1D\0\0\0\0\0\0\0\0\
    \x30\x00\x88\xb6\x00\x00\x00\x01\x00\x00\x00\x00\
    \x51\x74\xfc\xec\xb4\xdd\xf6\x6f\x0d\x72\xb6\x64\x32\x18\xa1\xba\x0f";

const KEYED_B: &[u8] = b"\0\x02\0\x1D\0\0\0\0\0\0\0\0\
    \x30\x00\x88\xb6\x00\x00\x00\x01\x00\x00\x00\x01\
    \x6c\x84\xd1\x3f\x2e\xdb\xbd\x96\x01\x24\x15\xd0\xd4\x4d\x02\xb0\xfc";

/// The header of a little-endian pcap file of raw IP; a record of 49 octets at 0; and from 10.0.0.1 to 10.0.0.2, both ports 6000,
/// the datagrams of the first two records.
const RAW_IP: &[u8] = b"\xD4\xC3\xB2\xA1\x02\0\x04\0\0\0\0\0\0\0\0\0\0\0\x04\0\x65\0\0\0";

const HEAD: &[u8] = b"\0\0\0\0\0\0\0\0\x31\0\0\0\x31\0\0\0";

const PACKET_A: &[u8] =
    b"\x45\x00\x00\x31\x00\x00\x40\x00\x40\x11\x26\xba\x0a\x00\x00\x01\x0a\x00\x00\x02\
    \x17\x70\x17\x70\x00\x1d\x23\x39\
    \x00\x00\x88\xb6\x07\xb0\x07\xb0\x80\x21\x00\x00\x00\x00\x00\x00\x10\x20\x30\x40A";

const PACKET_B: &[u8] =
    b"\x45\x00\x00\x31\x00\x00\x40\x00\x40\x11\x26\xba\x0a\x00\x00\x01\x0a\x00\x00\x02\
    \x17\x70\x17\x70\x00\x1d\x02\x15\
    \x00\x00\x88\xb6\x07\xb2\x07\xb2\x80\x21\x00\x00\x00\x00\x00\x00\x20\x30\x40\x50B";

const LINE: &str = "split - 1968=a,1970=b";

/// The greatest that options may be.
const GREATEST: &str = "split --delay 30000 --span 16384 --restart 60000 --drift - 1968=a,1970=b";

const PCAP: &str = "split --pcap --udp 6000 - 1968=a,1970=b";

const KEYED: &str = "split --pass secret - 1968=a,1970=b";

/// What fails: reads of the source, puts into the first sink and into the second, and the host's own calls.
#[derive(Clone, Copy)]
struct Faults {
    cuts: &'static [usize],
    reads: &'static [u64],
    first: &'static [u64],
    second: &'static [u64],
    calls: &'static [u64],
}

const NONE: Faults = Faults {
    cuts: &[],
    reads: &[],
    first: &[],
    second: &[],
    calls: &[],
};

/// A host with a source under `-`, and sinks under `a` and `b`.
fn host(alloc: Global, octets: &[u8], faults: &Faults) -> Result<MemHost, Fail> {
    let mut sources = Vec::new(alloc);
    sources.push(Slot {
        name: String::from_str(alloc, "-")?,
        place: Place::Here(MemSource::Cut(Pieces::with(alloc, octets, faults.cuts, faults.reads)?)),
    })?;
    let mut sinks = Vec::new(alloc);
    for (name, failing) in [("a", faults.first), ("b", faults.second)] {
        sinks.push(Slot {
            name: String::from_str(alloc, name)?,
            place: Place::Here(Store8::with(alloc, 1 << 16, failing)?),
        })?;
    }
    Ok(MemHost::with(
        alloc,
        MemParts {
            sources,
            sinks,
            entropies: Vec::new(alloc),
            links: Vec::new(alloc),
            clocks: Vec::new(alloc),
            failing: Vec::from_slice(alloc, faults.calls)?,
        },
    )?)
}

/// What a split writes to both outputs, where it ends so; nothing of one that didn't come back.
fn split(
    alloc: Global,
    line: &str,
    parts: &[&[u8]],
    faults: &Faults,
    ending: Status,
) -> Result<(Vec<u8>, Vec<u8>), Fail> {
    let capture = joined(alloc, parts)?;
    let line = words(alloc, line)?;
    let mut host = host(alloc, capture.as_slice(), faults)?;
    let ended = plain(alloc, line.as_slice(), &mut host);
    if ended == Status::Memory {
        return Err(Fail::new("out of memory"));
    }
    if ended != ending {
        return Err(Fail::new("another status"));
    }
    Ok((held(alloc, &host, "a")?, held(alloc, &host, "b")?))
}

/// What the sink of a name holds, where it came back.
fn held(alloc: Global, host: &MemHost, name: &str) -> Result<Vec<u8>, Fail> {
    match host.returned_sink(name) {
        Some(sink) => Ok(Vec::from_slice(alloc, sink.octets())?),
        None => Ok(Vec::new(alloc)),
    }
}

/// Captures, and what each output has of them.
static SPLIT: [(&str, &[&[u8]], &str, &str); 10] = [
    (LINE, &[NAME, A, B], "A", "B"),
    (GREATEST, &[NAME, A, B], "A", "B"),
    (LINE, &[NAME, B, A], "A", "B"),
    (LINE, &[NAME], "", ""),
    (LINE, &[NAME, A, A, STRAY, B, KEEPALIVE], "A", "B"),
    (LINE, &[NAME, A, B_FROM_A], "A", "B"),
    ("split - 1970=a,1968=b", &[NAME, A, B], "B", "A"),
    (KEYED, &[NAME, KEYED_A, KEYED_B], "A", "B"),
    (PCAP, &[RAW_IP, HEAD, PACKET_A, HEAD, PACKET_B], "A", "B"),
    (
        "split --pass other - 1968=a,1970=b",
        &[NAME, KEYED_A, KEYED_B],
        "",
        "",
    ),
];

#[test]
fn each_output_has_what_names_its_port(rt: HostRuntime) -> Result<(), Fail> {
    let alloc = rt.alloc();
    for (line, parts, a, b) in &SPLIT {
        let (first, second) = split(alloc, line, parts, &NONE, Status::Done)?;
        assert!(rt; first.as_slice() == a.as_bytes());
        assert!(rt; second.as_slice() == b.as_bytes());
    }
    Ok(())
}

/// Captures, what fails while they are split, the octets that each output has then, and the exit status.
static FAULTS: [(&[&[u8]], Faults, &str, &str, u8); 8] = [
    // A write to the first output fails at the end, or at a keepalive before it: the second one has its own.
    (
        &[NAME, A, B],
        Faults {
            first: &[0],
            ..NONE
        },
        "",
        "B",
        5,
    ),
    (
        &[NAME, A, B, KEEPALIVE],
        Faults {
            first: &[0],
            ..NONE
        },
        "",
        "B",
        5,
    ),
    (
        &[NAME, A, B],
        Faults {
            second: &[0],
            ..NONE
        },
        "A",
        "",
        5,
    ),
    // A write to the second output fails at a keepalive, while records are left.
    (
        &[NAME, A, B, KEEPALIVE, STRAY],
        Faults {
            second: &[0],
            ..NONE
        },
        "A",
        "",
        5,
    ),
    // A failed write is answered before a file that is cut.
    (
        &[NAME, A, B, KEEPALIVE, b"\0\x02\0"],
        Faults {
            first: &[0],
            ..NONE
        },
        "",
        "B",
        5,
    ),
    // What is cut leaves what came before it, and so does a read that fails.
    (&[NAME, A, B, b"\0\x02\0"], NONE, "A", "B", 7),
    (&[NAME, A, b"\0\x02\0"], NONE, "A", "", 7),
    (
        &[NAME, A, B],
        Faults {
            cuts: &[41],
            reads: &[1],
            ..NONE
        },
        "A",
        "",
        4,
    ),
];

#[test]
fn a_fault_leaves_each_other_output_as_it_is(rt: HostRuntime) -> Result<(), Fail> {
    let alloc = rt.alloc();
    for (parts, faults, a, b, status) in &FAULTS {
        let capture = joined(alloc, parts)?;
        let line = words(alloc, LINE)?;
        let mut host = host(alloc, capture.as_slice(), faults)?;
        let ended = plain(alloc, line.as_slice(), &mut host);
        assert!(rt; ended.exit_code() == *status);
        assert!(rt; held(alloc, &host, "a")?.as_slice() == a.as_bytes());
        assert!(rt; held(alloc, &host, "b")?.as_slice() == b.as_bytes());
    }
    Ok(())
}

#[test]
fn a_truncated_capture_says_where_it_was_cut(rt: HostRuntime) -> Result<(), Fail> {
    let cut = Status::BadCapture(CapKind::Truncated, 74);
    let parts: [&[u8]; 4] = [NAME, A, B, b"\0\x02\0"];
    let (a, b) = split(rt.alloc(), LINE, &parts, &NONE, cut)?;
    assert!(rt; a.as_slice() == b"A".as_slice() && b.as_slice() == b"B".as_slice());
    Ok(())
}

#[test]
fn where_the_second_sink_cannot_be_opened_all_come_back(rt: HostRuntime) -> Result<(), Fail> {
    let alloc = rt.alloc();
    let capture = joined(alloc, &[NAME, A, B])?;
    let line = words(alloc, LINE)?;
    let faults = Faults {
        calls: &[2],
        ..NONE
    };
    let mut host = host(alloc, capture.as_slice(), &faults)?;
    assert!(rt; plain(alloc, line.as_slice(), &mut host) == Status::OpenFault);
    assert!(rt; host.returned_source("-").is_some());
    assert!(rt;
        held(alloc, &host, "a")?.as_slice().is_empty() && host.returned_sink("a").is_some()
    );
    assert!(rt; host.returned_sink("b").is_none() && host.sink("b").is_ok());
    Ok(())
}
