//! The program's commands over a host in memory.
ghost use Rattle.std.specs.Prelude.{◌<◌, ◌^◌, IfOk};
ghost use Rattle.std.specs.List.{All};
ghost use Rattle.receiver_rules.specs.Bounds.{AreInRange};
ghost use Rattle.plain_rules.specs.Receiver.Told.{IsFit};

use capture_file::CapKind;
use outside_host::{Host, MemHost, MemParts, Place, Slot};
use outside_io::{MemSource, Pieces, Store8, Words};
use pcap_file::PcapKind;
use plain_rules::receiver::{Event, Step, released};
use receiver_rules::{Arrival, Limits, tick_of};
use rist_top::{Status, plain};
use seq_unwrap::Width;
use std::alloc::{AllocError, Global};
use std::test::Fail;

pub(crate) const NAME: &[u8] = b"RISTCAP1";

pub(crate) const A: &[u8] = b"\0\0\0\x0D\0\0\0\0\0\0\0\0\x80\x21\0\x0A\0\0\0\0\x10\x20\x30\x40A";

pub(crate) const B: &[u8] =
    b"\0\0\0\x0D\0\0\0\0\0\0\x27\x10\x80\x21\0\x0B\0\0\x03\x84\x10\x20\x30\x40B";

pub(crate) const C: &[u8] =
    b"\0\0\0\x0D\0\0\0\0\0\0\x4E\x20\x80\x21\0\x0C\0\0\x07\x08\x10\x20\x30\x40C";

/// The datagrams of the last two records exchanged, their times kept.
const C_EARLY: &[u8] = b"\0\0\0\x0D\0\0\0\0\0\0\x27\x10\x80\x21\0\x0C\0\0\x07\x08\x10\x20\x30\x40C";

const B_LATE: &[u8] = b"\0\0\0\x0D\0\0\0\0\0\0\x4E\x20\x80\x21\0\x0B\0\0\x03\x84\x10\x20\x30\x40B";

/// What a host has beside its source: where that is cut, random words, the sink's room, and which of the source's reads, the
/// sink's puts, the draws of words and the host's own calls fail.
#[derive(Clone, Copy)]
pub(crate) struct Outside<'a> {
    pub(crate) cuts: &'a [usize],
    pub(crate) reads: &'a [u64],
    pub(crate) puts: &'a [u64],
    pub(crate) room: usize,
    pub(crate) random: &'a [u32],
    pub(crate) draws: &'a [u64],
    pub(crate) calls: &'a [u64],
}

pub(crate) const NOTHING: Outside<'static> = Outside {
    cuts: &[],
    reads: &[],
    puts: &[],
    room: 1 << 16,
    random: &[],
    draws: &[],
    calls: &[],
};

/// A host with a source and a sink under `-`, and both under another name.
fn host(alloc: Global, octets: &[u8], outside: &Outside<'_>) -> Result<MemHost, Fail> {
    let mut sources = Vec::new(alloc);
    let mut sinks = Vec::new(alloc);
    for name in ["-", "other"] {
        let source = Pieces::with(alloc, octets, outside.cuts, outside.reads)?;
        sources.push(Slot {
            name: String::from_str(alloc, name)?,
            place: Place::Here(MemSource::Cut(source)),
        })?;
        sinks.push(Slot {
            name: String::from_str(alloc, name)?,
            place: Place::Here(Store8::with(alloc, outside.room, outside.puts)?),
        })?;
    }
    let mut entropies = Vec::new(alloc);
    entropies.push(Place::Here(Words::with(alloc, outside.random, outside.draws)?))?;
    Ok(MemHost::with(
        alloc,
        MemParts {
            sources,
            sinks,
            entropies,
            links: Vec::new(alloc),
            clocks: Vec::new(alloc),
            failing: Vec::from_slice(alloc, outside.calls)?,
        },
    )?)
}

/// The words between blanks, the program's name before them.
pub(crate) fn words(alloc: Global, line: &str) -> Result<Vec<String>, Fail> {
    let mut words = Vec::new(alloc);
    words.push(String::from_str(alloc, "rist")?)?;
    for word in line.split(' ') {
        words.push(String::from_str(alloc, word)?)?;
    }
    Ok(words)
}

/// The statuses that tables hold.
#[derive(Clone, Copy)]
pub(crate) enum Ending {
    Done,
    Usage,
    OpenFault,
    ReadFault,
    WriteFault,
    BadCapture(CapKind, u64),
    EntropyFault,
    BadPcap(PcapKind, u64),
}

fn status_of(ending: Ending) -> Status {
    match ending {
        Ending::Done => Status::Done,
        Ending::Usage => Status::Usage,
        Ending::OpenFault => Status::OpenFault,
        Ending::ReadFault => Status::ReadFault,
        Ending::WriteFault => Status::WriteFault,
        Ending::BadCapture(kind, at) => Status::BadCapture(kind, at),
        Ending::EntropyFault => Status::EntropyFault,
        Ending::BadPcap(kind, at) => Status::BadPcap(kind, at),
    }
}

/// How a command ends.
fn ended(
    alloc: Global,
    line: &str,
    source: &[u8],
    outside: &Outside<'_>,
) -> Result<(Status, MemHost), Fail> {
    let line = words(alloc, line)?;
    let mut host = host(alloc, source, outside)?;
    let ended = plain(alloc, line.as_slice(), &mut host);
    Ok((ended, host))
}

/// What a command writes, if it ends with this status.
pub(crate) fn written(
    alloc: Global,
    line: &str,
    source: &[u8],
    outside: &Outside<'_>,
    ending: Ending,
) -> Result<Vec<u8>, Fail> {
    let (ended, host) = ended(alloc, line, source, outside)?;
    if ended == Status::Memory {
        return Err(Fail::new("out of memory"));
    }
    if ended != status_of(ending) {
        return Err(Fail::new("another status"));
    }
    match host.returned_sink("-") {
        Some(sink) => Ok(Vec::from_slice(alloc, sink.octets())?),
        None => Err(Fail::new("no sink")),
    }
}

fn append(octets: &mut Vec<u8>, parts: &[&[u8]]) -> Result<(), AllocError> {
    for part in parts {
        octets.extend_from_slice(part)?;
    }
    Ok(())
}

pub(crate) fn joined(alloc: Global, parts: &[&[u8]]) -> Result<Vec<u8>, Fail> {
    let mut octets = Vec::new(alloc);
    append(&mut octets, parts)?;
    Ok(octets)
}

/// Whether a command over a source of these parts has this status and writes these octets.
pub(crate) fn writes(
    alloc: Global,
    line: &str,
    parts: &[&[u8]],
    outside: &Outside<'_>,
    ending: Ending,
    octets: &[u8],
) -> Result<bool, Fail> {
    let source = joined(alloc, parts)?;
    let written = written(alloc, line, source.as_slice(), outside, ending)?;
    Ok(written.as_slice() == octets)
}

/// Lines, the last one at the greatest that options may be, and captures with what is played out of them.
static REPLAYED: [(&str, &[&[u8]], &str); 4] = [
    ("replay - -", &[NAME, A, B, C], "ABC"),
    ("replay - -", &[NAME], ""),
    ("replay - -", &[NAME, A, C_EARLY, B_LATE], "ABC"),
    (
        "replay - - --delay 30000 --span 16384 --restart 60000 --drift",
        &[NAME, A, C_EARLY, B_LATE],
        "ABC",
    ),
];

#[test]
fn a_capture_is_replayed_in_the_order_of_its_numbers(rt: HostRuntime) -> Result<(), Fail> {
    let alloc = rt.alloc();
    for (line, parts, octets) in &REPLAYED {
        let octets = octets.as_bytes();
        assert!(rt; writes(alloc, line, parts, &NOTHING, Ending::Done, octets)?);
    }
    Ok(())
}

/// Captures, what fails while they are replayed, and the status and the octets that are left then.
static FAULTS: [(&[&[u8]], Outside<'static>, Ending, &str); 6] = [
    (
        &[NAME, A, b"\0\0\0"],
        NOTHING,
        Ending::BadCapture(CapKind::Truncated, 33),
        "A",
    ),
    (
        &[b"RISTCAP2", A],
        NOTHING,
        Ending::BadCapture(CapKind::Magic, 0),
        "",
    ),
    (
        &[NAME, A, B, C],
        Outside {
            puts: &[0],
            ..NOTHING
        },
        Ending::WriteFault,
        "",
    ),
    (
        &[NAME, A, B, C],
        Outside {
            puts: &[1],
            ..NOTHING
        },
        Ending::WriteFault,
        "A",
    ),
    (
        &[NAME, A, B, C],
        Outside {
            puts: &[2],
            ..NOTHING
        },
        Ending::WriteFault,
        "AB",
    ),
    // The source gives 33 octets, a whole record, and then fails.
    (
        &[NAME, A, B, C],
        Outside {
            cuts: &[33],
            reads: &[1],
            ..NOTHING
        },
        Ending::ReadFault,
        "A",
    ),
];

#[test]
fn a_fault_is_answered_and_what_was_held_is_written(rt: HostRuntime) -> Result<(), Fail> {
    let alloc = rt.alloc();
    for (parts, outside, ending, octets) in &FAULTS {
        assert!(rt;
            writes(
                alloc,
                "replay - -",
                parts,
                outside,
                *ending,
                octets.as_bytes()
            )?
        );
    }
    Ok(())
}

/// Whether both the source and the sink under this name can be opened.
fn opens(host: &mut MemHost, name: &str) -> bool {
    host.source(name).is_ok() && host.sink(name).is_ok()
}

/// Whether a line over this source has this status, and leaves what is under this name.
fn leaves(
    alloc: Global,
    line: &str,
    source: &[u8],
    ending: Ending,
    name: &str,
) -> Result<bool, Fail> {
    let (ended, mut host) = ended(alloc, line, source, &NOTHING)?;
    Ok(ended == status_of(ending) && opens(&mut host, name))
}

#[test]
fn what_is_no_line_or_not_there_is_refused(rt: HostRuntime) -> Result<(), Fail> {
    for line in [
        "replay",
        "replay - - --port 3",
        "replay - - --span 0",
        "pack -",
        "--help replay",
    ] {
        assert!(rt; leaves(rt.alloc(), line, b"", Ending::Usage, "-")?);
    }
    let (status, _host) = ended(rt.alloc(), "replay file -", b"", &NOTHING)?;
    assert!(rt; status == Status::OpenFault);
    Ok(())
}

#[test]
fn the_version_is_written_as_far_as_a_write_goes(rt: HostRuntime) -> Result<(), Fail> {
    let alloc = rt.alloc();
    let version = b"rist 0.9.0\n";
    assert!(rt; writes(alloc, "--version", &[], &NOTHING, Ending::Done, version)?);
    let outside = Outside {
        puts: &[0],
        ..NOTHING
    };
    assert!(rt; writes(alloc, "--version", &[], &outside, Ending::WriteFault, b"")?);
    Ok(())
}

#[test]
fn a_source_comes_back_where_its_sink_cannot_be_opened(rt: HostRuntime) -> Result<(), Fail> {
    // The second call of the host fails: that for the sink.
    let outside = Outside {
        calls: &[1],
        ..NOTHING
    };
    let (status, host) = ended(rt.alloc(), "replay - -", b"", &outside)?;
    assert!(rt; status == Status::OpenFault);
    assert!(rt; host.returned_source("-").is_some() && host.returned_sink("-").is_none());
    Ok(())
}

/// Lines with their statuses. None of them names `other`.
static NAMING: [(&str, Ending); 7] = [
    ("replay - -", Ending::Done),
    ("show -", Ending::Done),
    ("pack - -", Ending::Done),
    ("report - -", Ending::Done),
    ("report file -", Ending::OpenFault),
    ("replay - file", Ending::OpenFault),
    ("replay file -", Ending::OpenFault),
];

#[test]
fn what_a_line_does_not_name_is_not_opened(rt: HostRuntime) -> Result<(), Fail> {
    let capture = joined(rt.alloc(), &[NAME, A])?;
    for (line, ending) in &NAMING {
        assert!(rt; leaves(rt.alloc(), line, capture.as_slice(), *ending, "other")?);
    }
    Ok(())
}

/// What sources are taken from.
static OCTETS: [u8; 5264] = [0x2F; 5264];

/// What a packing writes of a source, with random words that are all 9.
fn packed(alloc: Global, line: &str, source: &[u8]) -> Result<Vec<u8>, Fail> {
    let outside = Outside {
        random: &[9; 16],
        ..NOTHING
    };
    written(alloc, line, source, &outside, Ending::Done)
}

/// What a line of a command writes of a source.
fn done(alloc: Global, line: &str, source: &[u8]) -> Result<Vec<u8>, Fail> {
    written(alloc, line, source, &NOTHING, Ending::Done)
}

/// Whether what a packing writes is replayed to its source, with the same options of the session.
fn returns(alloc: Global, source: &[u8], pack: &str, replay: &str) -> Result<bool, Fail> {
    let capture = packed(alloc, pack, source)?;
    let octets = done(alloc, replay, capture.as_slice())?;
    Ok(octets.as_slice() == source)
}

/// Lines of packings and of the replays of what they write.
static RETURNS: [(&str, &str); 4] = [
    ("pack - -", "replay - -"),
    ("pack --first 65534 - -", "replay - -"),
    (
        "pack --profile main --wide --first 4294967295 - -",
        "replay --profile main - -",
    ),
    (
        "pack --profile main --pass secret --bits 256 - -",
        "replay --profile main --pass secret --bits 256 - -",
    ),
];

#[test]
fn a_packed_stream_is_replayed_to_itself(rt: HostRuntime) -> Result<(), Fail> {
    let capture = done(rt.alloc(), "pack - -", &OCTETS[..2632])?;
    assert!(rt; capture.len() == 2688);
    for (pack, replay) in &RETURNS {
        assert!(rt; returns(rt.alloc(), &OCTETS, pack, replay)?);
    }
    Ok(())
}

/// A capture of the octet `A` in a full datagram, with these flags, this checksum of IPv4 and this one of UDP.
fn full_capture(
    alloc: Global,
    flags: [u8; 2],
    header_sum: [u8; 2],
    udp_sum: [u8; 2],
) -> Result<Vec<u8>, Fail> {
    joined(
        alloc,
        &[
            NAME,
            b"\0\x02\0\x2D\0\0\0\0\0\0\0\0",
            b"\0\0\x08\0\x45\0\0\x29\0\0",
            flags.as_slice(),
            b"\x40\x11",
            header_sum.as_slice(),
            b"\x0A\0\0\x01\x0A\0\0\x02\x07\xB0\x07\xB0\0\x15",
            udp_sum.as_slice(),
            b"\x80\x21\0\0\0\0\0\0\x10\x20\x30\x40A",
        ],
    )
}

const FULL_A: &str =
    "{\"again\":false,\"at\":0,\"channel\":\"tunnel\",\"flow\":\"10203040\",\"item\":\"media\",\"length\":1,\"link\":0,\"number\":0,\"stamp\":0,\"width\":16}\n";

/// The flags, the checksums of IPv4 and of UDP, and the line of the datagram.
static FULL_ROWS: [([u8; 2], [u8; 2], [u8; 2], &str); 5] = [
    ([0x40, 0], [0x26, 0xC2], [0xDA, 0xDF], FULL_A),
    (
        [0x40, 0],
        [0x26, 0xC3],
        [0xDA, 0xDF],
        "{\"at\":0,\"channel\":\"tunnel\",\"item\":\"refused\",\"link\":0,\"place\":0,\"why\":\"ip header sum\"}\n",
    ),
    ([0x40, 0], [0x26, 0xC2], [0, 0], FULL_A),
    (
        [0x40, 0],
        [0x26, 0xC2],
        [0xDA, 0xDE],
        "{\"at\":0,\"channel\":\"tunnel\",\"item\":\"refused\",\"link\":0,\"place\":0,\"why\":\"udp sum\"}\n",
    ),
    (
        [0x60, 0],
        [0x06, 0xC2],
        [0xDA, 0xDF],
        "{\"at\":0,\"channel\":\"tunnel\",\"item\":\"refused\",\"link\":0,\"place\":0,\"why\":\"ip fragment\"}\n",
    ),
];

/// Whether the capture of such a datagram is shown as this line.
fn is_shown(
    alloc: Global,
    flags: [u8; 2],
    header_sum: [u8; 2],
    udp_sum: [u8; 2],
    line: &str,
) -> Result<bool, Fail> {
    let capture = full_capture(alloc, flags, header_sum, udp_sum)?;
    let octets = done(alloc, "show --profile main -", capture.as_slice())?;
    Ok(octets.as_slice() == line.as_bytes())
}

/// Whether the octet `A` is packed in a full datagram.
fn is_packed_full(alloc: Global) -> Result<bool, Fail> {
    let packed = done(alloc, "pack --profile main --full - -", b"A")?;
    let whole = full_capture(alloc, [0x40, 0], [0x26, 0xC2], [0xDA, 0xDF])?;
    Ok(packed.as_slice() == whole.as_slice())
}

/// Lines of packings in full datagrams and of the replays of what they write.
static FULL_RETURNS: [(&str, &str); 2] = [
    (
        "pack --profile main --full - -",
        "replay --profile main - -",
    ),
    (
        "pack --profile main --full --pass secret - -",
        "replay --profile main --pass secret - -",
    ),
];

#[test]
fn full_datagrams_are_packed_and_shown(rt: HostRuntime) -> Result<(), Fail> {
    assert!(rt; is_packed_full(rt.alloc())?);
    for (flags, header_sum, udp_sum, line) in &FULL_ROWS {
        assert!(rt; is_shown(rt.alloc(), *flags, *header_sum, *udp_sum, line)?);
    }
    Ok(())
}

#[test]
fn full_datagrams_are_packed_and_replayed(rt: HostRuntime) -> Result<(), Fail> {
    for (pack, replay) in &FULL_RETURNS {
        assert!(rt; returns(rt.alloc(), &OCTETS[..1317], pack, replay)?);
    }
    Ok(())
}

const SEALED: &str = "pack --profile main --pass secret - -";

#[test]
fn what_is_enciphered_under_another_passphrase_is_refused(rt: HostRuntime) -> Result<(), Fail> {
    let capture = packed(rt.alloc(), SEALED, &OCTETS[..2632])?;
    let line = "replay --profile main --pass another - -";
    let octets = done(rt.alloc(), line, capture.as_slice())?;
    assert!(rt; octets.is_empty());
    let line = "replay --profile main --pass secret - -";
    let octets = done(rt.alloc(), line, capture.as_slice())?;
    assert!(rt; octets.as_slice() == &OCTETS[..2632]);
    Ok(())
}

/// Whether a datagram begins so at this place: flags, protocol, key and sequence number (RFC 2890, section 2).
fn is_headed(
    alloc: Global,
    capture: &[u8],
    at: usize,
    nonce: u32,
    sequence: u32,
) -> Result<bool, Fail> {
    let header = joined(
        alloc,
        &[
            b"\x30\x00\x88\xB6",
            nonce.to_be_bytes().as_slice(),
            sequence.to_be_bytes().as_slice(),
        ],
    )?;
    let datagram = capture.get(at..).ok_or("a datagram")?;
    Ok(datagram.starts_with(header.as_slice()))
}

/// Whether both datagrams of two pieces go under this nonce, where each random word is this one.
fn goes_under(alloc: Global, word: u32, nonce: u32) -> Result<bool, Fail> {
    let outside = Outside {
        random: &[word; 16],
        ..NOTHING
    };
    let capture = written(alloc, SEALED, &OCTETS[..2632], &outside, Ending::Done)?;
    let octets = capture.as_slice();
    // The name, and two records of a head of 12 octets and a datagram of 1,344.
    Ok(
        octets.len() == 2720
            && is_headed(alloc, octets, 20, nonce, 0)?
            && is_headed(alloc, octets, 1376, nonce, 1)?,
    )
}

#[test]
fn a_packing_goes_under_the_nonce_of_its_first_random_word(rt: HostRuntime) -> Result<(), Fail> {
    // A nonce isn't 0: the word 0 gives the number after it.
    for (word, nonce) in [(0x1020_3040, 0x1020_3040), (0, 1)] {
        assert!(rt; goes_under(rt.alloc(), word, nonce)?);
    }
    Ok(())
}

/// Whether nothing is written where this draw of a word fails.
fn writes_nothing(alloc: Global, draw: u64) -> Result<bool, Fail> {
    let outside = Outside {
        random: &[9; 16],
        draws: &[draw],
        ..NOTHING
    };
    writes(
        alloc,
        SEALED,
        &[b"ABC"],
        &outside,
        Ending::EntropyFault,
        b"",
    )
}

#[test]
fn words_that_fail_write_nothing(rt: HostRuntime) -> Result<(), Fail> {
    for draw in [0, 7, 15] {
        assert!(rt; writes_nothing(rt.alloc(), draw)?);
    }
    Ok(())
}

#[test]
fn a_record_is_shown_as_a_line(rt: HostRuntime) -> Result<(), Fail> {
    let line =
        b"{\"again\":false,\"at\":0,\"channel\":\"media\",\"flow\":\"10203040\",\"item\":\"media\",\"length\":1,\"link\":0,\"number\":10,\"stamp\":0,\"width\":16}\n";
    assert!(rt;
        writes(
            rt.alloc(),
            "show -",
            &[NAME, A],
            &NOTHING,
            Ending::Done,
            line
        )?
    );
    Ok(())
}

/// Lines, one of them at the greatest that options may be, and captures with their statuses and how many packets are kept of
/// them.
static COUNTED: [(&str, &[&[u8]], Ending, &str); 3] = [
    ("count -", &[NAME, A, B, C], Ending::Done, "kept 3\n"),
    (
        "count - --delay 30000 --span 16384 --restart 60000 --drift",
        &[NAME, A, B, C],
        Ending::Done,
        "kept 3\n",
    ),
    (
        "count -",
        &[
            NAME,
            A,
            B,
            b"\0\0\0\x0D\0\0\0\0\0\0\x4E\x20\x80\x21\0\x0C\0\0\x07\x08\x10\x20\x30\x40",
        ],
        Ending::BadCapture(CapKind::Truncated, 58),
        "kept 2\n",
    ),
];

fn counts(
    alloc: Global,
    line: &str,
    parts: &[&[u8]],
    ending: Ending,
    kept: &str,
) -> Result<bool, Fail> {
    let none = b"stranger 0\nexhausted 0\nlate 0\nbehind 0\nearly 0\ntwice 0\nspan 0\nrefused 0\n";
    let text = joined(alloc, &[kept.as_bytes(), none])?;
    writes(alloc, line, parts, &NOTHING, ending, text.as_slice())
}

#[test]
fn a_capture_is_counted_as_far_as_it_goes(rt: HostRuntime) -> Result<(), Fail> {
    for (line, parts, ending, kept) in &COUNTED {
        assert!(rt; counts(rt.alloc(), line, parts, *ending, kept)?);
    }
    Ok(())
}

#[test]
fn each_status_has_its_text(rt: HostRuntime) -> Result<(), Fail> {
    for (status, text) in [
        (Status::Memory, "out of memory"),
        (Status::Usage, "usage"),
        (Status::OpenFault, "cannot open"),
        (Status::ReadFault, "read failed"),
        (Status::WriteFault, "write failed"),
        (
            Status::BadCapture(CapKind::Truncated, 33),
            "bad capture: truncated at 33",
        ),
        (Status::EntropyFault, "no randomness"),
        (Status::TooLong, "input too long"),
        (
            Status::BadPcap(PcapKind::LinkType, 0),
            "bad pcap: link type at 0",
        ),
    ] {
        let written = format!(in rt.alloc(); "{status}")?;
        assert!(rt; written.as_str() == text);
    }
    Ok(())
}

#[test]
fn a_fault_has_its_exit_status(rt: HostRuntime) -> Result<(), Fail> {
    assert!(rt; Status::EntropyFault.exit_code() == 11);
    assert!(rt; Status::BadPcap(PcapKind::Magic, 0).exit_code() == 14);
    Ok(())
}

/// The next of a row of numbers that look random (Numerical Recipes' constants).
fn next(seed: u32) -> u32 {
    seed.wrapping_mul(1_664_525).wrapping_add(1_013_904_223)
}

/// A made media packet: its moment, and the fields of its header.
#[derive(Clone, Copy)]
struct MediaPacket {
    micros: u64,
    ssrc: u32,
    word: u16,
    stamp: u32,
}

/// A media packet of a row of numbers: mostly near its place, sometimes far off, twice, or of another flow. Behind each
/// thousand comes a pause, after which the other flow's packets are the common ones, with numbers of their own.
fn made_packet(seed: u32, place: u32) -> MediaPacket
    requires { place < 2 ^ 16 }
{
    let part = place / 1000;
    let number = 40_000 + place + (seed >> 8) % 8 + part * 30_000;
    let common = 6 + part % 2 * 2;
    let flow = if seed >> 29 == 7 { 14 - common } else { common };
    let pause = u64::from(part) * 2_000_000;
    MediaPacket {
        micros: u64::from(place) * 100_000 + u64::from(seed >> 12) % 250_000 + pause,
        ssrc: flow + (seed >> 28) % 2,
        word: (number % 65_536) as u16,
        stamp: (number % 100_000).wrapping_mul(9000),
    }
}

/// Writes a record of a media packet with one octet of payload.
fn push_record(
    octets: &mut Vec<u8>,
    packet: &MediaPacket,
    payload: &[u8],
) -> Result<(), AllocError> {
    append(
        octets,
        &[
            &[0, 0, 0, 13],
            packet.micros.to_be_bytes().as_slice(),
            &[0x80, 33],
            packet.word.to_be_bytes().as_slice(),
            packet.stamp.to_be_bytes().as_slice(),
            packet.ssrc.to_be_bytes().as_slice(),
            payload,
        ],
    )
}

/// The same packet as a step of the rules.
fn step_of<'a>(packet: &MediaPacket, payload: &'a [u8]) -> Step<'a>
    ensures { IsFit result }
{
    let arrival = Arrival {
        flow: packet.ssrc & !1,
        again: packet.ssrc % 2 == 1,
        width: Width::W16,
        word: u32::from(packet.word) % 65_536,
        stamp: packet.stamp,
        payload,
    };
    Step {
        tick: tick_of(packet.micros),
        event: Event::Media(arrival),
    }
}

/// A delay of one second, and a restart time of half a second.
fn limits() -> Limits
    ensures { AreInRange result }
{
    Limits {
        playout_delay: 90_000,
        capacity: 2048,
        restart_time: 45_000,
        drift: false,
    }
}

fn end() -> Step<'static>
    ensures { IsFit result }
{
    Step {
        tick: 0,
        event: Event::End,
    }
}

/// A capture of many made packets, and the same as steps.
fn made_capture(
    alloc: Global,
    octets: &mut Vec<u8>,
    count: u32,
) -> Result<Vec<Step<'static>>, AllocError>
    requires { count < 2 ^ 16 }
    ensures { IfOk result (λ steps. All IsFit steps.items) }
{
    let letters = b"ABCDEFGHIJKLMNOPQRSTUVWXYZ".as_slice();
    let mut steps = Vec::new(alloc);
    let mut seed = 7;
    for place in 0..count {
        seed = next(seed);
        let packet = made_packet(seed, place);
        let letter = (seed >> 9) as usize % 26;
        let payload = &letters[letter..letter + 1];
        push_record(octets, &packet, payload)?;
        steps.push(step_of(&packet, payload))?;
    }
    steps.push(end())?;
    Ok(steps)
}

/// Whether the made capture is replayed as the plain program says.
fn is_replayed(alloc: Global) -> Result<bool, Fail> {
    let mut octets = joined(alloc, &[NAME])?;
    let steps = made_capture(alloc, &mut octets, 3000)?;
    let payloads = released(alloc, &limits(), steps.as_slice())?;
    let expected = joined(alloc, payloads.as_slice())?;
    let played = done(alloc, "replay --restart 500 - -", octets.as_slice())?;
    let is_some = expected.len() > 1500 && expected.len() < 3000;
    // Without a restart time the first flow alone is played out.
    let first_alone = done(alloc, "replay - -", octets.as_slice())?;
    Ok(is_some && played.as_slice() == expected.as_slice() && first_alone.len() < 1000)
}

#[test]
fn a_made_capture_is_replayed_as_the_plain_program_says(rt: HostRuntime) -> Result<(), Fail> {
    assert!(rt; is_replayed(rt.alloc())?);
    Ok(())
}

/// A capture of number 0 at tick 50, of 1 to 1,023 at their timestamps of 90 ticks each, and of 1,024 at a moment.
fn drifting_capture(alloc: Global, micros: u64) -> Result<Vec<u8>, Fail> {
    let mut octets = joined(alloc, &[NAME])?;
    for word in 0..1025_u16 {
        let micros = match word {
            0 => 556,
            1024 => micros,
            _ => 1000 * u64::from(word),
        };
        let packet = MediaPacket {
            micros,
            ssrc: 6,
            word,
            stamp: 90 * u32::from(word),
        };
        push_record(&mut octets, &packet, b"A")?;
    }
    Ok(octets)
}

/// How many packets of that capture are played out.
fn played_count(alloc: Global, line: &str, micros: u64) -> Result<usize, Fail> {
    let capture = drifting_capture(alloc, micros)?;
    let played = done(alloc, line, capture.as_slice())?;
    Ok(played.len())
}

#[test]
fn deadlines_follow_a_clock_that_drifts(rt: HostRuntime) -> Result<(), Fail> {
    // After a window the base is 41, so that 1,024 is due at tick 182,201; without drift it is due at 182,210.
    for (line, micros, length) in [
        ("replay --drift - -", 2_024_445, 1025),
        ("replay --drift - -", 2_024_456, 1024),
        ("replay - -", 2_024_545, 1025),
        ("replay - -", 2_024_556, 1024),
    ] {
        assert!(rt; played_count(rt.alloc(), line, micros)? == length);
    }
    Ok(())
}
