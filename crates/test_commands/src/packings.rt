//! Worked captures, and each answer that a source in memory can bring.
ghost use Rattle.std.specs.Prelude.{◌≡◌, ◌≤◌, ◌%◌, true, false, is_some};
ghost use Rattle.rist_wire.specs.Session.{IsSession};
ghost use Rattle.rist_pack.specs.Capture.{HasGiven};

use crate::parts::{NAME, NOTHING, Outside, joined, simple_session, sink_of, source_of};
use capture_file::Writer;
use link_channels::Channel;
use outside_io::{Pieces, Store8, Words};
use psk_keys::Phrase;
use psk_seal::Sealer;
use rist_pack::{PackBad, PackSettings, pack};
use rist_wire::{Item, Opener, Profile, Session, Tunnel};
use seq_unwrap::Width;
use std::alloc::Global;
use std::test::Fail;

/// What the program takes where no setting is given.
const DEFAULTS: PackSettings = PackSettings {
    flow: 0x1020_3040,
    first: 0,
    gap: 1000,
};

/// What stands before the payload of a whole piece, and after that of its number: the heads of record and packet.
const HEAD_0: &[u8] =
    b"\x00\x00\x05\x30\x00\x00\x00\x00\x00\x00\x00\x00\x80\x21\x00\x00\x00\x00\x00\x00\x10\x20\x30\x40";

const HEAD_1: &[u8] =
    b"\x00\x00\x05\x30\x00\x00\x00\x00\x00\x00\x03\xE8\x80\x21\x00\x01\x00\x00\x00\x5A\x10\x20\x30\x40";

/// The capture of the octet `A`.
const A: &[u8] =
    b"RISTCAP1\x00\x00\x00\x0D\x00\x00\x00\x00\x00\x00\x00\x00\x80\x21\x00\x00\x00\x00\x00\x00\x10\x20\x30\x40A";

/// What a packing writes, and how it ends.
fn packed_in(
    session: &Session,
    sealer: Option<Sealer>,
    settings: &PackSettings,
    mut source: Pieces,
    sink: Store8,
) -> (Result<(), PackBad>, Store8)
    requires session { IsSession session.now }
    requires paired { is_some sealer ≡ is_some session.now.pass }
    requires given { HasGiven 0 sealer }
    requires flow { settings.now.flow % 2 ≡ 0 }
    requires gap { (1 ≤ settings.now.gap) × (settings.now.gap ≤ 1000000) }
{
    let mut capture = Writer::over(sink);
    let answer = pack(session, sealer, settings, &mut source, &mut capture);
    (answer, capture.back())
}

/// In the Simple Profile, or in the tunnel without null packets and with numbers of so many bits.
#[derive(Clone, Copy)]
enum Way {
    Simple,
    Tunnel(Width),
}

fn session_of(way: Way) -> Session
    ensures session { IsSession result }
    ensures pass { is_some result.pass ≡ false }
{
    match way {
        Way::Simple => simple_session(),
        Way::Tunnel(width) => Session {
            profile: Profile::Main,
            port: 1968,
            pass: None,
            bits: 128,
            nulls: true,
            width,
            full: false,
            tunnel: Tunnel::Own,
            echo: false,
        },
    }
}

/// What is packed: how, from which number, how far apart, and out of what.
#[derive(Clone, Copy)]
struct Packing<'a> {
    way: Way,
    first: u32,
    gap: u64,
    octets: &'a [u8],
    outside: Outside<'a>,
}

/// No octets, in the Simple Profile with the defaults.
const EMPTY: Packing<'static> = Packing {
    way: Way::Simple,
    first: DEFAULTS.first,
    gap: DEFAULTS.gap,
    octets: b"",
    outside: NOTHING,
};

fn packed(alloc: Global, packing: &Packing<'_>) -> Result<(Result<(), PackBad>, Store8), Fail> {
    let settings = PackSettings {
        first: packing.first,
        gap: packing.gap,
        ..DEFAULTS
    };
    if settings.gap == 0 || settings.gap > 1_000_000 {
        return Err(Fail::new("no gap"));
    }
    let source = source_of(alloc, packing.octets, &packing.outside)?;
    let sink = sink_of(alloc, &packing.outside)?;
    Ok(packed_in(&session_of(packing.way), None, &settings, source, sink))
}

/// Whether the packing ends so, and leaves a capture of these parts.
fn leaves(
    alloc: Global,
    packing: &Packing<'_>,
    want: Result<(), PackBad>,
    parts: &[&[u8]],
) -> Result<bool, Fail> {
    let capture = joined(alloc, parts)?;
    let (answer, sink) = packed(alloc, packing)?;
    Ok(answer == want && sink.octets() == capture.as_slice())
}

/// Two whole pieces, and one.
const TWO: &[u8] = &[0x47; 2632];

const PIECE: &[u8] = &[0x47; 1316];

/// Octets, the parts of their capture and its length, and how many puts make it.
static CAPTURES: [(&[u8], &[&[u8]], usize, u64); 3] = [
    (b"", &[NAME], 8, 1),
    (b"A", &[A], 33, 2),
    (TWO, &[NAME, HEAD_0, PIECE, HEAD_1, PIECE], 2688, 3),
];

/// Whether these octets are packed as these parts. Another put than these would fail.
fn is_packed_as(
    alloc: Global,
    octets: &[u8],
    parts: &[&[u8]],
    length: usize,
    puts: u64,
) -> Result<bool, Fail> {
    let packing = Packing {
        octets,
        outside: Outside {
            puts: &[puts],
            ..NOTHING
        },
        ..EMPTY
    };
    let has_length = joined(alloc, parts)?.len() == length;
    Ok(has_length && leaves(alloc, &packing, Ok(()), parts)?)
}

#[test]
fn each_piece_is_a_datagram(rt: HostRuntime) -> Result<(), Fail> {
    // The name is one put, and so is each record: none comes behind them.
    for (octets, parts, length, puts) in &CAPTURES {
        assert!(rt; is_packed_as(rt.alloc(), octets, parts, *length, *puts)?);
    }
    Ok(())
}

/// The capture of two pieces and eight octets that come with these cuts.
fn capture_of(alloc: Global, cuts: &[usize]) -> Result<Vec<u8>, Fail> {
    let packing = Packing {
        octets: &[0x47; 2640],
        outside: Outside { cuts, ..NOTHING },
        ..EMPTY
    };
    let (answer, sink) = packed(alloc, &packing)?;
    if answer != Ok(()) {
        return Err(Fail::new("not packed"));
    }
    Ok(Vec::from_slice(alloc, sink.octets())?)
}

#[test]
fn a_cut_source_is_packed_as_the_whole(rt: HostRuntime) -> Result<(), Fail> {
    let want = capture_of(rt.alloc(), &[])?;
    // The last piece has eight octets.
    assert!(rt; want.len() == 2720);
    for cut in [1, 188, 1315, 1316, 1317, 2631, 2632, 2633] {
        let capture = capture_of(rt.alloc(), &[cut, 700, 2000])?;
        assert!(rt; capture.as_slice() == want.as_slice(), "cut at {cut}");
    }
    Ok(())
}

/// Whether the packing of two pieces ends so where these calls fail, and leaves a capture of these parts.
fn two_leave(
    alloc: Global,
    outside: Outside<'_>,
    bad: PackBad,
    parts: &[&[u8]],
) -> Result<bool, Fail> {
    let packing = Packing {
        octets: TWO,
        outside,
        ..EMPTY
    };
    leaves(alloc, &packing, Err(bad), parts)
}

/// The source's cuts, which of its reads fails, and what is left of the capture.
static FAILED_READS: [(&[usize], u64, &[&[u8]]); 2] = [
    // The first read gives a piece, the second 184 octets, and the third fails.
    (&[1500], 2, &[NAME, HEAD_0, PIECE]),
    (&[], 0, &[NAME]),
];

#[test]
fn a_failed_read_drops_a_part_of_a_piece(rt: HostRuntime) -> Result<(), Fail> {
    for (cuts, read, parts) in &FAILED_READS {
        let outside = Outside {
            cuts,
            reads: &[*read],
            ..NOTHING
        };
        assert!(rt; two_leave(rt.alloc(), outside, PackBad::ReadFault, parts)?);
    }
    Ok(())
}

/// The sink's room, which of its puts fails, and what is left of the capture.
static FAILED_PUTS: [(usize, &[u64], &[&[u8]]); 3] = [
    (4096, &[0], &[]),
    (4096, &[1], &[NAME]),
    (
        20,
        &[],
        &[NAME, b"\x00\x00\x05\x30\x00\x00\x00\x00\x00\x00\x00\x00"],
    ),
];

#[test]
fn a_failed_put_leaves_a_front(rt: HostRuntime) -> Result<(), Fail> {
    for (room, puts, parts) in &FAILED_PUTS {
        // A second read would fail too.
        let outside = Outside {
            room: *room,
            puts,
            reads: &[1],
            ..NOTHING
        };
        assert!(rt; two_leave(rt.alloc(), outside, PackBad::WriteFault, parts)?);
    }
    Ok(())
}

/// Datagrams of 1,316 octets and of one, a second apart.
static LATE: [&[u8]; 6] = [
    NAME,
    b"\x00\x00\x05\x30\x00\x00\x00\x00\x00\x00\x00\x00",
    b"\x80\x21\xFF\xFF\x00\x00\x00\x00\x10\x20\x30\x40",
    PIECE,
    b"\x00\x00\x00\x0D\x00\x00\x00\x00\x00\x0F\x42\x40",
    b"\x80\x21\x00\x00\x00\x01\x5F\x90\x10\x20\x30\x40G",
];

#[test]
fn numbers_wrap_and_timestamps_are_ticks(rt: HostRuntime) -> Result<(), Fail> {
    let packing = Packing {
        first: 65535,
        gap: 1_000_000,
        octets: &TWO[..1317],
        ..EMPTY
    };
    assert!(rt; leaves(rt.alloc(), &packing, Ok(()), &LATE)?);
    Ok(())
}

#[test]
fn each_answer_has_its_text(rt: HostRuntime) -> Result<(), Fail> {
    let alloc = rt.alloc();
    for (bad, want) in [
        (PackBad::ReadFault, "read failed"),
        (PackBad::WriteFault, "write failed"),
        (PackBad::TooLong, "input too long"),
    ] {
        assert!(rt; format!(in alloc; "{bad}")?.as_str() == want);
    }
    Ok(())
}

/// The datagram of the octet `A` in the tunnel.
static TUNNEL_A: [&[u8]; 4] = [
    NAME,
    b"\x00\x02\x00\x15\x00\x00\x00\x00\x00\x00\x00\x00",
    b"\x00\x00\x88\xB6\x07\xB0\x07\xB0",
    b"\x80\x21\x00\x00\x00\x00\x00\x00\x10\x20\x30\x40A",
];

#[test]
fn a_datagram_of_the_tunnel_has_its_headers(rt: HostRuntime) -> Result<(), Fail> {
    let packing = Packing {
        way: Way::Tunnel(Width::W16),
        octets: b"A",
        ..EMPTY
    };
    assert!(rt; leaves(rt.alloc(), &packing, Ok(()), &TUNNEL_A)?);
    Ok(())
}

/// Begins a packet at this place, with this octet of its PID before another of 0xFF.
fn mark(stream: &mut [u8; 1724], at: usize, high: u8) {
    if at < 1721 {
        stream[at] = 0x47;
        stream[at + 1] = high;
        stream[at + 2] = 0xff;
    }
}

/// Seven packets of 188 octets, of which the first, fourth and seventh are null, and two of 204, of which the first is.
fn stream() -> [u8; 1724] {
    let mut stream = [0xab; 1724];
    for at in [188, 376, 752, 940, 1520] {
        mark(&mut stream, at, 0x41);
    }
    for at in [0, 564, 1128, 1316] {
        mark(&mut stream, at, 0x1f);
    }
    stream
}

/// The datagrams of the stream without its null packets.
fn without_nulls(alloc: Global) -> Result<Vec<u8>, Fail> {
    let octets = stream();
    joined(
        alloc,
        &[
            NAME,
            b"\x00\x02\x03\x0C\x00\x00\x00\x00\x00\x00\x00\x00",
            b"\x00\x00\x88\xB6\x07\xB0\x07\xB0",
            b"\x90\x21\xFF\xFF\x00\x00\x00\x00\x10\x20\x30\x40\x52\x49\x00\x01\xF8\x49\xFF\xFF",
            &octets[188..564],
            &octets[752..1128],
            b"\x00\x02\x00\xE8\x00\x00\x00\x00\x00\x00\x03\xE8",
            b"\x00\x00\x88\xB6\x07\xB0\x07\xB0",
            b"\x90\x21\x00\x00\x00\x00\x00\x5A\x10\x20\x30\x40\x52\x49\x00\x01\xD0\xC0\x00\x00",
            &octets[1520..],
        ],
    )
}

#[test]
fn null_packets_are_deleted_and_numbers_are_wide(rt: HostRuntime) -> Result<(), Fail> {
    let capture = without_nulls(rt.alloc())?;
    let packing = Packing {
        way: Way::Tunnel(Width::W32),
        first: u32::MAX,
        octets: &stream(),
        ..EMPTY
    };
    assert!(rt; leaves(rt.alloc(), &packing, Ok(()), &[capture.as_slice()])?);
    Ok(())
}

static WORDS: [u32; 16] = [1, 2, 3, 4, 5, 6, 7, 8, 9, 10, 11, 12, 13, 14, 15, 16];

/// Whether a datagram is taken as this piece under this number.
fn is_piece(opener: &mut Opener, datagram: &[u8], word: u32, piece: &[u8]) -> bool {
    let mut block = [0; 2048];
    if datagram.len() > 2048 {
        return false;
    }
    block[..datagram.len()].copy_from_slice(datagram);
    match opener.take(Channel::Tunnel, &mut block[..datagram.len()]) {
        Ok(Item::Media(media)) => {
            media.flow == DEFAULTS.flow
                && !media.again
                && media.word == word
                && media.is_whole()
                && media.payload() == piece
        }
        _ => false,
    }
}

/// A session with a passphrase and a key of 256 bits or 128.
fn keyed_session(long: bool) -> Session
    ensures session { IsSession result }
    ensures pass { is_some result.pass ≡ true }
{
    Session {
        profile: Profile::Main,
        port: 1968,
        pass: Some(Phrase::of(b"secret")),
        bits: if long { 256 } else { 128 },
        nulls: true,
        width: Width::W16,
        full: false,
        tunnel: Tunnel::Own,
        echo: false,
    }
}

/// The capture of 1,317 octets that are enciphered.
fn sealed(alloc: Global, session: &Session) -> Result<Vec<u8>, Fail>
    requires session { IsSession session.now }
    requires pass { is_some session.now.pass ≡ true }
{
    let Ok(sealer) = Sealer::with(&mut Words::with(alloc, &WORDS, &[])?) else {
        return Err(Fail::new("no nonces"));
    };
    let source = source_of(alloc, &TWO[..1317], &NOTHING)?;
    let sink = sink_of(alloc, &NOTHING)?;
    let (answer, sink) = packed_in(session, Some(sealer), &DEFAULTS, source, sink);
    if answer != Ok(()) {
        return Err(Fail::new("not packed"));
    }
    Ok(Vec::from_slice(alloc, sink.octets())?)
}

/// Whether both datagrams are taken as the two pieces.
fn are_opened(alloc: Global, session: &Session, one: &[u8], two: &[u8]) -> Result<bool, Fail>
    requires session { IsSession session.now }
{
    let mut opener = Opener::with(alloc, session).ok().ok_or("memory")?;
    Ok(is_piece(&mut opener, one, 0, PIECE) && is_piece(&mut opener, two, 1, b"G"))
}

/// Whether the two pieces of 1,317 octets are enciphered with a key of 256 bits or 128, behind these GRE headers, and
/// taken again.
fn is_opened(
    alloc: Global,
    long: bool,
    first_header: &[u8],
    next_header: &[u8],
) -> Result<bool, Fail> {
    let session = keyed_session(long);
    let capture = sealed(alloc, &session)?;
    // The name and a head; a datagram of 1,344 octets; a head; one of 29 octets.
    let one = capture.get(20..1364).ok_or("one")?;
    let two = capture.get(1376..).ok_or("two")?;
    let are_headed = one.starts_with(first_header) && two.starts_with(next_header);
    Ok(are_headed && two.len() == 29 && are_opened(alloc, &session, one, two)?)
}

/// The GRE headers of both datagrams, by the bits of the key.
static HEADERS: [(bool, &[u8], &[u8]); 2] = [
    (
        false,
        b"\x30\x00\x88\xB6\x00\x00\x00\x01\x00\x00\x00\x00",
        b"\x30\x00\x88\xB6\x00\x00\x00\x01\x00\x00\x00\x01",
    ),
    (
        true,
        b"\x30\x40\x88\xB6\x00\x00\x00\x01\x00\x00\x00\x00",
        b"\x30\x40\x88\xB6\x00\x00\x00\x01\x00\x00\x00\x01",
    ),
];

#[test]
fn what_is_enciphered_is_opened_to_its_pieces(rt: HostRuntime) -> Result<(), Fail> {
    for (long, first_header, next_header) in &HEADERS {
        assert!(rt; is_opened(rt.alloc(), *long, first_header, next_header)?);
    }
    Ok(())
}
