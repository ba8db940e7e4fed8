//! The lines of worked datagrams, and each refusal once.
ghost use Rattle.rist_wire.specs.Session.{IsSession};

use crate::parts::{NAME, NOTHING, Outside, joined, repeated, simple_session, sink_of, source_of};
use capture_file::{CapKind, Reader};
use capture_walk::WalkBad;
use outside_io::{Pieces, Store8};
use psk_keys::Phrase;
use rist_show::show;
use rist_wire::{Profile, Session, Tunnel};
use seq_unwrap::Width;
use std::alloc::Global;
use std::test::Fail;

/// The sessions of the datagrams. A keyed one has a passphrase.
#[derive(Clone, Copy)]
enum Kind {
    Simple,
    Main,
    Keyed,
}

fn main_session(pass: Option<Phrase>) -> Session
    ensures session { IsSession result }
{
    Session {
        profile: Profile::Main,
        port: 1968,
        pass,
        bits: 128,
        nulls: false,
        width: Width::W16,
        full: false,
        tunnel: Tunnel::Own,
        echo: false,
    }
}

fn session_of(kind: Kind) -> Session
    ensures session { IsSession result }
{
    match kind {
        Kind::Simple => simple_session(),
        Kind::Main => main_session(None),
        Kind::Keyed => main_session(Some(Phrase::of(b"secret"))),
    }
}

const A: &[u8] =
    b"\x00\x00\x00\x0D\x00\x00\x00\x00\x00\x00\x00\x00\x80\x21\x00\x0A\x00\x00\x00\x00\x10\x20\x30\x40A";

const B: &[u8] =
    b"\x00\x00\x00\x0D\x00\x00\x00\x00\x00\x00\x27\x10\x80\x21\x00\x0B\x00\x00\x03\x84\x10\x20\x30\x40B";

const C: &[u8] =
    b"\x03\x00\x00\x0D\x00\x00\x00\x00\x00\x00\x4E\x20\x80\x21\x00\x0C\x00\x00\x07\x08\x10\x20\x30\x41C";

const LINE_A: &str =
    "{\"again\":false,\"at\":0,\"channel\":\"media\",\"flow\":\"10203040\",\"item\":\"media\",\"length\":1,\"link\":0,\"number\":10,\"stamp\":0,\"width\":16}\n";

const LINE_B: &str =
    "{\"again\":false,\"at\":10000,\"channel\":\"media\",\"flow\":\"10203040\",\"item\":\"media\",\"length\":1,\"link\":0,\"number\":11,\"stamp\":900,\"width\":16}\n";

const LINE_C: &str =
    "{\"again\":true,\"at\":20000,\"channel\":\"media\",\"flow\":\"10203040\",\"item\":\"media\",\"length\":1,\"link\":3,\"number\":12,\"stamp\":1800,\"width\":16}\n";

/// What is written of a capture, and how that ends.
#[tactic(auto, using(capture_walk::proofs::GoingLemmas::new_has_read))]
fn written(
    alloc: Global,
    kind: Kind,
    source: Pieces,
    mut sink: Store8,
) -> (Result<(), WalkBad>, Store8) {
    let mut reader = Reader::over(source);
    let end = show(alloc, &session_of(kind), &mut reader, &mut sink);
    (end, sink)
}

/// Whether the showing of a capture ends so, and leaves this text.
fn leaves(
    alloc: Global,
    kind: Kind,
    octets: &[u8],
    outside: &Outside<'_>,
    want: Result<(), WalkBad>,
    text: &[u8],
) -> Result<bool, Fail> {
    let source = source_of(alloc, octets, outside)?;
    let (end, sink) = written(alloc, kind, source, sink_of(alloc, outside)?);
    Ok(end == want && sink.octets() == text)
}

/// Whether this is the text of a capture of one datagram, on link 0 at time 0.
fn shows(
    alloc: Global,
    kind: Kind,
    channel: u8,
    datagram: &[u8],
    text: &[u8],
) -> Result<bool, Fail> {
    let high = (datagram.len() / 256 % 256) as u8;
    let low = (datagram.len() % 256) as u8;
    let head = [0, channel, high, low, 0, 0, 0, 0, 0, 0, 0, 0];
    let octets = joined(alloc, &[NAME, head.as_slice(), datagram])?;
    leaves(alloc, kind, octets.as_slice(), &NOTHING, Ok(()), text)
}

/// Whether the three records are shown as their lines.
fn shows_all(alloc: Global, outside: &Outside<'_>) -> Result<bool, Fail> {
    let octets = joined(alloc, &[NAME, A, B, C])?;
    let lines = [LINE_A.as_bytes(), LINE_B.as_bytes(), LINE_C.as_bytes()];
    let text = joined(alloc, &lines)?;
    leaves(
        alloc,
        Kind::Simple,
        octets.as_slice(),
        outside,
        Ok(()),
        text.as_slice(),
    )
}

#[test]
fn each_record_is_a_line_however_the_capture_is_cut(rt: HostRuntime) -> Result<(), Fail> {
    for cut in 1..83 {
        let outside = Outside {
            cuts: &[cut],
            ..NOTHING
        };
        assert!(rt; shows_all(rt.alloc(), &outside)?, "cut at {cut}");
    }
    Ok(())
}

#[test]
fn each_line_is_one_put_and_the_end_is_none(rt: HostRuntime) -> Result<(), Fail> {
    // No fourth put is made, which would fail.
    let outside = Outside {
        puts: &[3],
        ..NOTHING
    };
    assert!(rt; shows_all(rt.alloc(), &outside)?);
    Ok(())
}

/// What fails, how the showing of two records and three octets ends then, and how many octets of their lines are left.
static FAULTS: [(Outside<'static>, Result<(), WalkBad>, usize); 4] = [
    (
        NOTHING,
        Err(WalkBad::BadCapture(CapKind::Truncated, 58)),
        260,
    ),
    // The sink has no room for the end of the second line.
    (
        Outside {
            room: 200,
            ..NOTHING
        },
        Err(WalkBad::WriteFault),
        200,
    ),
    // The first write fails.
    (
        Outside {
            puts: &[0],
            ..NOTHING
        },
        Err(WalkBad::WriteFault),
        0,
    ),
    // The second read fails, after the first record.
    (
        Outside {
            cuts: &[33],
            reads: &[1],
            ..NOTHING
        },
        Err(WalkBad::ReadFault),
        127,
    ),
];

fn breaks_off(
    alloc: Global,
    outside: &Outside<'_>,
    want: Result<(), WalkBad>,
    count: usize,
) -> Result<bool, Fail> {
    let octets = joined(alloc, &[NAME, A, B, b"\x00\x00\x00"])?;
    let lines = joined(alloc, &[LINE_A.as_bytes(), LINE_B.as_bytes()])?;
    let text = lines.get(..count).ok_or("count")?;
    leaves(alloc, Kind::Simple, octets.as_slice(), outside, want, text)
}

#[test]
fn a_fault_comes_after_the_lines_before_it(rt: HostRuntime) -> Result<(), Fail> {
    for (outside, want, count) in &FAULTS {
        assert!(rt; breaks_off(rt.alloc(), outside, *want, *count)?);
    }
    Ok(())
}

/// Whether the line of a compound has as many asks as a record of 2,048 octets holds.
fn shows_503_asks(alloc: Global) -> Result<bool, Fail> {
    let lost = repeated(alloc, b"\xFF\xFF\x00\x01", 503)?;
    let datagram = joined(
        alloc,
        &[
            b"\x80\xC9\x00\x01\x00\x00\x00\x07\x81\xCA\x00\x03\x00\x00\x00\x07\x01\x04rist\x00\x00",
            b"\x80\xCC\x01\xF9\x10\x20\x30\x40RIST",
            lost.as_slice(),
        ],
    )?;
    let asks = repeated(alloc, b"[65535,1],", 502)?;
    let line = joined(
        alloc,
        &[
            b"{\"asks\":[",
            asks.as_slice(),
            b"[65535,1]],\"at\":0,\"channel\":\"control\",\"item\":\"control\",\"link\":0,\"packets\":[201,202,204]}\n",
        ],
    )?;
    let is_shown = shows(alloc, Kind::Simple, 1, datagram.as_slice(), line.as_slice())?;
    Ok(datagram.len() == 2048 && is_shown)
}

/// What follows the first octets of a long datagram.
static REST: [u8; 1493] = [0xab; 1493];

/// Whether the line of a datagram without null packets 0, 3 and 6 of seven has their octets too. Numbers have 32 bits.
fn shows_restored_length(alloc: Global) -> Result<bool, Fail> {
    let datagram = joined(
        alloc,
        &[
            b"\x90\x21\x00\x0a\x00\x00\x00\x00\xA0\x2B\x3C\x4D\x52\x49\x00\x01\xF8\x49\x00\x02",
            &REST[..752],
        ],
    )?;
    shows(
        alloc,
        Kind::Simple,
        0,
        datagram.as_slice(),
        b"{\"again\":true,\"at\":0,\"channel\":\"media\",\"flow\":\"a02b3c4c\",\"item\":\"media\",\"length\":1316,\"link\":0,\"number\":131082,\"stamp\":0,\"width\":32}\n",
    )
}

/// A compound that asks for 65,535 and one more, and a keep-alive message, each with its channel and its line.
static ITEMS: [(Kind, u8, &[u8], &str); 2] = [
    (
        Kind::Simple,
        1,
        b"\x80\xC9\x00\x01\x00\x00\x00\x07\x81\xCA\x00\x03\x00\x00\x00\x07\x01\x04rist\x00\x00\x80\xCC\x00\x03\x10\x20\x30\x40RIST\xFF\xFF\x00\x01",
        "{\"asks\":[[65535,1]],\"at\":0,\"channel\":\"control\",\"item\":\"control\",\"link\":0,\"packets\":[201,202,204]}\n",
    ),
    (
        Kind::Main,
        2,
        b"\x00\x00\x88\xb5\x02\x00\x10\x20\x30\x40\x00\x00",
        "{\"at\":0,\"capabilities\":0,\"channel\":\"tunnel\",\"item\":\"keepalive\",\"link\":0,\"mac\":\"020010203040\",\"text\":0}\n",
    ),
];

#[test]
fn an_item_is_told_by_its_fields(rt: HostRuntime) -> Result<(), Fail> {
    for (kind, channel, datagram, line) in &ITEMS {
        assert!(rt; shows(rt.alloc(), *kind, *channel, datagram, line.as_bytes())?);
    }
    assert!(rt; shows_503_asks(rt.alloc())?);
    assert!(rt; shows_restored_length(rt.alloc())?);
    Ok(())
}

/// Whether a datagram is refused for this reason at this place.
fn is_refused(
    alloc: Global,
    kind: Kind,
    channel: u8,
    datagram: &[u8],
    place: usize,
    why: &str,
) -> Result<bool, Fail> {
    let name = match channel {
        0 => "media",
        1 => "control",
        _ => "tunnel",
    };
    let line = format!(in alloc;
        "{{\"at\":0,\"channel\":\"{name}\",\"item\":\"refused\",\"link\":0,\"place\":{place},\"why\":\"{why}\"}}\n"
    )?;
    shows(alloc, kind, channel, datagram, line.as_bytes())
}

/// The first row whose datagram isn't refused for its reason at its place.
fn first_wrong(
    alloc: Global,
    kind: Kind,
    channel: u8,
    rows: &[(&[u8], usize, &'static str)],
) -> Result<Option<&'static str>, Fail> {
    for (datagram, place, why) in rows {
        if !is_refused(alloc, kind, channel, datagram, *place, why)? {
            return Ok(Some(*why));
        }
    }
    Ok(None)
}

/// Datagrams of media, each with the place and the reason of its refusal.
static MEDIA: [(&[u8], usize, &str); 7] = [
    (b"\x80", 0, "rtp short"),
    (
        b"\x40\x21\x00\x0a\x00\x00\x00\x00\x10\x20\x30\x40",
        0,
        "rtp version",
    ),
    (
        b"\x81\x21\x00\x0a\x00\x00\x00\x00\x10\x20\x30\x40",
        0,
        "rtp sources",
    ),
    (
        b"\x90\x21\x00\x0a\x00\x00\x00\x00\x10\x20\x30\x40",
        0,
        "rtp extension",
    ),
    (
        b"\xa0\x21\x00\x0a\x00\x00\x00\x00\x10\x20\x30\x40\x00",
        0,
        "rtp padding",
    ),
    (
        b"\x90\x21\x00\x0a\x00\x00\x00\x00\x10\x20\x30\x40\x52\x49\x00\x01\x80\x00\x00\x00",
        0,
        "extension size",
    ),
    (
        b"\x90\x21\x00\x0a\x00\x00\x00\x00\x10\x20\x30\x40\x52\x49\x00\x01\x88\x00\x00\x00\x00",
        0,
        "nulls shape",
    ),
];

/// Whether a payload of 1,501 octets is refused.
fn is_long_refused(alloc: Global) -> Result<bool, Fail> {
    let head = b"\x80\x21\x00\x0a\x00\x00\x00\x00\x10\x20\x30\x40\x00\x00\x00\x00\x00\x00\x00\x00";
    let long = joined(alloc, &[head, &REST])?;
    is_refused(alloc, Kind::Simple, 0, long.as_slice(), 0, "rtp long")
}

#[test]
fn a_refusal_of_media_has_its_reason(rt: HostRuntime) -> Result<(), Fail> {
    assert!(rt; is_long_refused(rt.alloc())?);
    assert!(rt; first_wrong(rt.alloc(), Kind::Simple, 0, &MEDIA)? == None);
    Ok(())
}

/// The same of control.
static CONTROL: [(&[u8], usize, &str); 8] = [
    (b"", 0, "rtcp short"),
    (b"\x40\xc9\x00\x01\x00\x00\x00\x07", 0, "rtcp version"),
    (b"\x80\xbf\x00\x01\x00\x00\x00\x07", 0, "rtcp kind"),
    (b"\x80\xca\x00\x00", 0, "rtcp first"),
    (b"\x80\xc9\x00\x02\x00\x00\x00\x07", 0, "rtcp length"),
    (
        b"\x80\xc9\x00\x01\x00\x00\x00\x07\x80\xcb\x00\x01",
        8,
        "rtcp length",
    ),
    (
        b"\xa0\xc9\x00\x01\x00\x00\x00\x07\x80\xcb\x00\x00",
        0,
        "rtcp padding",
    ),
    (b"\x81\xc9\x00\x01\x00\x00\x00\x07", 0, "rtcp body"),
];

#[test]
fn a_refusal_of_control_has_its_place_and_reason(rt: HostRuntime) -> Result<(), Fail> {
    assert!(rt; first_wrong(rt.alloc(), Kind::Simple, 1, &CONTROL)? == None);
    Ok(())
}

/// The same of the tunnel.
static TUNNEL: [(&[u8], usize, &str); 11] = [
    (b"\x00\x00", 0, "gre short"),
    (b"\x00\x01\x88\xb6", 0, "gre version"),
    (b"\x80\x00\x88\xb6", 0, "gre checksum"),
    (b"\x40\x00\x88\xb6", 0, "gre reserved"),
    (
        b"\x20\x00\x88\xb6\x00\x00\x00\x00",
        0,
        "gre key without sequence",
    ),
    (b"\x00\x00\x88\xb7", 0, "gre protocol"),
    (
        b"\x30\x00\x88\xb6\x00\x00\x00\x01\x00\x00\x00\x00\x51\x74\xfc\xec",
        0,
        "wire sealed",
    ),
    (b"\x00\x00\x88\xb5\x02\x00\x10", 0, "keepalive short"),
    (b"\x00\x00\x88\xb6\x07\xb0", 0, "wire stub"),
    (b"\x00\x00\x88\xb6\x07\xb0\x07\xb2", 0, "wire port"),
    (
        b"\x00\x00\x88\xb6\x07\xb1\x07\xb1\x80\xc9\x00\x01\x00\x00\x00\x07\x80\xcb\x00\x01",
        8,
        "rtcp length",
    ),
];

/// A datagram that isn't enciphered.
static CLEAR: [(&[u8], usize, &str); 1] = [(
    b"\x00\x00\x88\xb6\x07\xb0\x07\xb0\x80\x21\x00\x00\x00\x00\x00\x00\x10\x20\x30\x40\x41",
    0,
    "wire clear",
)];

/// A datagram of the tunnel where there is none.
static NO_TUNNEL: [(&[u8], usize, &str); 1] = [(b"", 0, "wire channel")];

#[test]
fn a_refusal_of_the_tunnel_has_its_place_and_reason(rt: HostRuntime) -> Result<(), Fail> {
    for (kind, rows) in [
        (Kind::Main, TUNNEL.as_slice()),
        (Kind::Keyed, CLEAR.as_slice()),
        (Kind::Simple, NO_TUNNEL.as_slice()),
    ] {
        assert!(rt; first_wrong(rt.alloc(), kind, 2, rows)? == None);
    }
    Ok(())
}

/// A full datagram of media with each test of IPv4 and UDP failing first.
static FULL: [(&[u8], usize, &str); 10] = [
    (
        b"\x00\x00\x08\x00\x45\x00\x00\x29\x00\x00\x40\x00\x40\x11\x26\xc2\x0a\x00\x00\x01\x0a\x00\x00",
        0,
        "ip short",
    ),
    (
        b"\x00\x00\x08\x00\x65\x00\x00\x29\x00\x00\x40\x00\x40\x11\x06\xc2\x0a\x00\x00\x01\x0a\x00\x00\x02\x07\xb0\x07\xb0\x00\x15\xda\xdf\x80\x21\x00\x00\x00\x00\x00\x00\x10\x20\x30\x40\x41",
        0,
        "ip version",
    ),
    (
        b"\x00\x00\x08\x00\x44\x00\x00\x29\x00\x00\x40\x00\x40\x11\x27\xc2\x0a\x00\x00\x01\x0a\x00\x00\x02\x07\xb0\x07\xb0\x00\x15\xda\xdf\x80\x21\x00\x00\x00\x00\x00\x00\x10\x20\x30\x40\x41",
        0,
        "ip header",
    ),
    (
        b"\x00\x00\x08\x00\x45\x00\x00\x29\x00\x00\x40\x00\x40\x11\x26\xc3\x0a\x00\x00\x01\x0a\x00\x00\x02\x07\xb0\x07\xb0\x00\x15\xda\xdf\x80\x21\x00\x00\x00\x00\x00\x00\x10\x20\x30\x40\x41",
        0,
        "ip header sum",
    ),
    (
        b"\x00\x00\x08\x00\x45\x00\x00\x2a\x00\x00\x40\x00\x40\x11\x26\xc1\x0a\x00\x00\x01\x0a\x00\x00\x02\x07\xb0\x07\xb0\x00\x15\xda\xdf\x80\x21\x00\x00\x00\x00\x00\x00\x10\x20\x30\x40\x41",
        0,
        "ip length",
    ),
    (
        b"\x00\x00\x08\x00\x45\x00\x00\x29\x00\x00\x60\x00\x40\x11\x06\xc2\x0a\x00\x00\x01\x0a\x00\x00\x02\x07\xb0\x07\xb0\x00\x15\xda\xdf\x80\x21\x00\x00\x00\x00\x00\x00\x10\x20\x30\x40\x41",
        0,
        "ip fragment",
    ),
    (
        b"\x00\x00\x08\x00\x45\x00\x00\x29\x00\x00\x40\x00\x40\x06\x26\xcd\x0a\x00\x00\x01\x0a\x00\x00\x02\x07\xb0\x07\xb0\x00\x15\xda\xdf\x80\x21\x00\x00\x00\x00\x00\x00\x10\x20\x30\x40\x41",
        0,
        "ip protocol",
    ),
    (
        b"\x00\x00\x08\x00\x45\x00\x00\x1b\x00\x00\x40\x00\x40\x11\x26\xd0\x0a\x00\x00\x01\x0a\x00\x00\x02\x07\xb0\x07\xb0\x00\x15\xda\xdf\x80\x21\x00\x00\x00\x00\x00\x00\x10\x20\x30\x40\x41",
        0,
        "udp short",
    ),
    (
        b"\x00\x00\x08\x00\x45\x00\x00\x29\x00\x00\x40\x00\x40\x11\x26\xc2\x0a\x00\x00\x01\x0a\x00\x00\x02\x07\xb0\x07\xb0\x00\x16\x00\x00\x80\x21\x00\x00\x00\x00\x00\x00\x10\x20\x30\x40\x41",
        0,
        "udp length",
    ),
    (
        b"\x00\x00\x08\x00\x45\x00\x00\x29\x00\x00\x40\x00\x40\x11\x26\xc2\x0a\x00\x00\x01\x0a\x00\x00\x02\x07\xb0\x07\xb0\x00\x15\xda\xde\x80\x21\x00\x00\x00\x00\x00\x00\x10\x20\x30\x40\x41",
        0,
        "udp sum",
    ),
];

#[test]
fn a_refusal_of_a_full_datagram_has_its_reason(rt: HostRuntime) -> Result<(), Fail> {
    assert!(rt; first_wrong(rt.alloc(), Kind::Main, 2, &FULL)? == None);
    Ok(())
}
