//! Worked captures, in both profiles, and each way to break off.
ghost use Rattle.std.specs.Prelude.{◌≡◌, true, None};
ghost use Rattle.link_channels.specs.declared.profile.Profile.TheVariants.{Main};
ghost use Rattle.rist_wire.specs.Session.{IsSession};
ghost use Rattle.rist_replay.specs.Replay.{AreSettings};

use crate::parts::{NAME, NOTHING, Outside, append, joined, simple_session, sink_of, source_of};
use capture_file::{CapKind, Reader};
use capture_walk::WalkBad;
use link_channels::{Channel, Profile};
use outside_io::{Pieces, Store8};
use rist_ends::Settings;
use rist_replay::{Replayer, replay};
use rist_wire::{Session, Shutter, Tunnel};
use seq_unwrap::Width;
use std::alloc::Global;
use std::test::Fail;
use ts_nulls::{Strip, can_restore};

const A: &[u8] =
    b"\x00\x00\x00\x0D\x00\x00\x00\x00\x00\x00\x00\x00\x80\x21\x00\x0A\x00\x00\x00\x00\x10\x20\x30\x40A";

const B: &[u8] =
    b"\x00\x00\x00\x0D\x00\x00\x00\x00\x00\x00\x27\x10\x80\x21\x00\x0B\x00\x00\x03\x84\x10\x20\x30\x40B";

const C: &[u8] =
    b"\x00\x00\x00\x0D\x00\x00\x00\x00\x00\x00\x4E\x20\x80\x21\x00\x0C\x00\x00\x07\x08\x10\x20\x30\x40C";

/// Number 7 of another flow, two seconds behind the first.
const OTHER: &[u8] =
    b"\x00\x00\x00\x0D\x00\x00\x00\x00\x00\x1E\x84\x80\x80\x21\x00\x07\x00\x00\x00\x00\x20\x30\x40\x50D";

/// The datagrams of `B`, `C` and the other flow at other times.
const C_EARLY: &[u8] =
    b"\x00\x00\x00\x0D\x00\x00\x00\x00\x00\x00\x27\x10\x80\x21\x00\x0C\x00\x00\x07\x08\x10\x20\x30\x40C";

const B_LATE: &[u8] =
    b"\x00\x00\x00\x0D\x00\x00\x00\x00\x00\x00\x4E\x20\x80\x21\x00\x0B\x00\x00\x03\x84\x10\x20\x30\x40B";

const OTHER_EARLY: &[u8] =
    b"\x00\x00\x00\x0D\x00\x00\x00\x00\x00\x00\x4E\x20\x80\x21\x00\x07\x00\x00\x00\x00\x20\x30\x40\x50D";

/// The lowest bit of the SSRC marks a retransmission, here on link 1.
const B_AGAIN: &[u8] =
    b"\x01\x00\x00\x0D\x00\x00\x00\x00\x00\x00\x4E\x20\x80\x21\x00\x0B\x00\x00\x03\x84\x10\x20\x30\x41B";

/// A session in the tunnel that deletes null packets and writes numbers of 32 bits.
fn main_session() -> Session
    ensures session { IsSession result }
    ensures profile { result.profile ≡ Main }
    ensures pass { result.pass ≡ None }
    ensures nulls { result.nulls ≡ true }
{
    Session {
        profile: Profile::Main,
        port: 1968,
        pass: None,
        bits: 128,
        nulls: true,
        width: Width::W32,
        full: false,
        tunnel: Tunnel::Own,
        echo: false,
    }
}

/// What a replay writes, and how it ends.
fn replayed(
    alloc: Global,
    session: &Session,
    settings: &Settings,
    source: Pieces,
    mut sink: Store8,
) -> (Result<(), WalkBad>, Store8)
    requires session { IsSession session.now }
    requires settings { AreSettings settings.now }
{
    let mut reader = Reader::over(source);
    let end = match Replayer::with(alloc, session, settings) {
        Ok(replayer) => replay(replayer, &mut reader, &mut sink),
        Err(_) => Err(WalkBad::Memory),
    };
    (end, sink)
}

/// Whether a replay with a delay of one second, a restart time of half a second and a span of 8 ends so, and leaves
/// these octets in the sink.
fn leaves(
    alloc: Global,
    session: &Session,
    octets: &[u8],
    outside: &Outside<'_>,
    want: Result<(), WalkBad>,
    written: &[u8],
) -> Result<bool, Fail>
    requires { IsSession session.now }
{
    let settings = Settings::muted(1000, 8, 500, false);
    let source = source_of(alloc, octets, outside)?;
    let sink = sink_of(alloc, outside)?;
    let (end, sink) = replayed(alloc, session, &settings, source, sink);
    if end == Err(WalkBad::Memory) {
        return Err(Fail::new("out of memory"));
    }
    Ok(end == want && sink.octets() == written)
}

/// Whether the records are replayed to the end in the Simple Profile, and leave these octets.
fn gives(
    alloc: Global,
    records: &[&[u8]],
    outside: &Outside<'_>,
    written: &[u8],
) -> Result<bool, Fail> {
    let mut octets = joined(alloc, &[NAME])?;
    append(&mut octets, records)?;
    leaves(
        alloc,
        &simple_session(),
        octets.as_slice(),
        outside,
        Ok(()),
        written,
    )
}

/// Records with what is played out of them.
static PLAYED: [(&[&[u8]], &str); 5] = [
    (&[], ""),
    (&[A, B, C], "ABC"),
    (&[A, C_EARLY, B_LATE], "ABC"),
    (&[A, C, B_AGAIN], "ABC"),
    // Another flow's packet, before the first flow's are out and when they are: two seconds behind them.
    (&[A, B, OTHER_EARLY, C, OTHER], "ABCD"),
];

#[test]
fn media_packets_are_played_out_in_order(rt: HostRuntime) -> Result<(), Fail> {
    for (records, written) in &PLAYED {
        assert!(rt; gives(rt.alloc(), records, &NOTHING, written.as_bytes())?);
    }
    Ok(())
}

#[test]
fn a_cut_capture_is_played_out_as_the_whole(rt: HostRuntime) -> Result<(), Fail> {
    for cut in 1..83 {
        let outside = Outside {
            cuts: &[cut],
            ..NOTHING
        };
        assert!(rt;
            gives(rt.alloc(), &[A, B, C], &outside, b"ABC")?,
            "cut at {cut}"
        );
    }
    Ok(())
}

#[test]
fn each_payload_is_one_put_and_the_end_is_none(rt: HostRuntime) -> Result<(), Fail> {
    // The end releases nothing. No fourth put is made, which would fail.
    let outside = Outside {
        puts: &[3],
        ..NOTHING
    };
    assert!(rt; gives(rt.alloc(), &[A, B, C], &outside, b"ABC")?);
    Ok(())
}

/// An empty receiver report, at 10,000 us and at 1,010,000 us, where B is late.
const EARLY: &[u8] =
    b"\x00\x01\x00\x08\x00\x00\x00\x00\x00\x00\x27\x10\x80\xC9\x00\x01\x00\x00\x00\x07";

const LATE: &[u8] =
    b"\x00\x01\x00\x08\x00\x00\x00\x00\x00\x0F\x69\x50\x80\xC9\x00\x01\x00\x00\x00\x07";

/// A datagram of the tunnel, which is no item of this session, and an RTP packet that is cut short.
const TUNNEL: &[u8] = b"\x00\x02\x00\x00\x00\x00\x00\x00\x00\x00\x27\x10";

const SHORT: &[u8] = b"\x00\x00\x00\x01\x00\x00\x00\x00\x00\x0F\x69\x50\x80";

/// Records behind the first one with what is played out of all.
static TIMED: [(&[u8], &str); 4] = [(EARLY, "ABC"), (LATE, "AC"), (TUNNEL, "ABC"), (SHORT, "AC")];

#[test]
fn what_is_no_media_only_moves_the_time(rt: HostRuntime) -> Result<(), Fail> {
    for (record, written) in &TIMED {
        assert!(rt; gives(rt.alloc(), &[A, record, B, C], &NOTHING, written.as_bytes())?);
    }
    Ok(())
}

/// The record of a media datagram of the tunnel.
fn tunnel_record(
    alloc: Global,
    us: u64,
    number: u64,
    stamp: u32,
    strip: Option<Strip>,
    payload: &[u8],
) -> Result<Vec<u8>, Fail> {
    let fits = match &strip {
        Some(strip) => can_restore(strip, payload),
        None => true,
    };
    if payload.len() > 1500 || !fits {
        return Err(Fail::new("no payload"));
    }
    let mut shutter = Shutter::with(&main_session(), None);
    let mut out = [0; 2048];
    let sent = shutter.media(0x1020_3040, false, number, stamp, strip, payload, &mut out);
    match sent {
        Ok((Channel::Tunnel, len)) => record(alloc, us, out.get(..len).ok_or("len")?),
        _ => Err(Fail::new("no datagram of the tunnel")),
    }
}

/// The record of a datagram of the tunnel on link 0.
fn record(alloc: Global, us: u64, datagram: &[u8]) -> Result<Vec<u8>, Fail> {
    let length = (datagram.len() % 65_536) as u16;
    joined(
        alloc,
        &[
            &[0, 2],
            length.to_be_bytes().as_slice(),
            us.to_be_bytes().as_slice(),
            datagram,
        ],
    )
}

/// Packets of a transport stream.
static FIRST: [&[u8]; 2] = [b"\x47\x01\x00\x10", &[0x61; 184]];

static NULL: [&[u8]; 2] = [b"\x47\x1F\xFF\x10", &[0xFF; 184]];

static LAST: [&[u8]; 2] = [b"\x47\x01\x00\x11", &[0x62; 184]];

/// A capture of two media datagrams of the tunnel: number 65,546 with the middle one of three packets deleted, and
/// 65,547.
fn tunnel_capture(alloc: Global) -> Result<Vec<u8>, Fail> {
    let strip = Strip {
        units: 3,
        long: false,
        nulls: 0x20,
    };
    let stripped = joined(alloc, &[FIRST[0], FIRST[1], LAST[0], LAST[1]])?;
    let first = tunnel_record(alloc, 0, 65_546, 0, Some(strip), stripped.as_slice())?;
    let second = tunnel_record(alloc, 10_000, 65_547, 900, None, b"Z")?;
    joined(alloc, &[NAME, first.as_slice(), second.as_slice()])
}

/// Whether a replay of the datagrams of the tunnel leaves these octets.
fn leaves_of_tunnel(alloc: Global, session: &Session, written: &[u8]) -> Result<bool, Fail>
    requires { IsSession session.now }
{
    let octets = tunnel_capture(alloc)?;
    leaves(alloc, session, octets.as_slice(), &NOTHING, Ok(()), written)
}

#[test]
fn null_packets_of_the_tunnel_are_restored(rt: HostRuntime) -> Result<(), Fail> {
    let parts = [FIRST[0], FIRST[1], NULL[0], NULL[1], LAST[0], LAST[1], b"Z"];
    let whole = joined(rt.alloc(), &parts)?;
    assert!(rt; leaves_of_tunnel(rt.alloc(), &main_session(), whole.as_slice())?);
    // In another session these are no items.
    assert!(rt; leaves_of_tunnel(rt.alloc(), &simple_session(), b"")?);
    Ok(())
}

/// What fails, how the replay of two records and the front of a third ends then, and what it leaves.
static FAULTS: [(Outside<'static>, Result<(), WalkBad>, &str); 3] = [
    (
        NOTHING,
        Err(WalkBad::BadCapture(CapKind::Truncated, 58)),
        "AB",
    ),
    // The second read fails, after 33 octets.
    (
        Outside {
            cuts: &[33],
            reads: &[1],
            ..NOTHING
        },
        Err(WalkBad::ReadFault),
        "A",
    ),
    // The second write fails, at the end.
    (
        Outside {
            puts: &[1],
            ..NOTHING
        },
        Err(WalkBad::WriteFault),
        "A",
    ),
];

fn breaks_off(
    alloc: Global,
    outside: &Outside<'_>,
    want: Result<(), WalkBad>,
    written: &[u8],
) -> Result<bool, Fail> {
    let octets = joined(alloc, &[NAME, A, B, &C[..24]])?;
    leaves(
        alloc,
        &simple_session(),
        octets.as_slice(),
        outside,
        want,
        written,
    )
}

#[test]
fn what_breaks_off_is_replayed_so_far(rt: HostRuntime) -> Result<(), Fail> {
    for (outside, want, written) in &FAULTS {
        assert!(rt; breaks_off(rt.alloc(), outside, *want, written.as_bytes())?);
    }
    Ok(())
}

/// Writes the record of a media packet at a moment in microseconds. Its timestamp is 90 ticks for each number.
fn push_packet(
    octets: &mut Vec<u8>,
    us: u64,
    ssrc: u32,
    number: u16,
    payload: &[u8; 1],
) -> Result<(), Fail> {
    append(
        octets,
        &[
            &[0, 0, 0, 13],
            us.to_be_bytes().as_slice(),
            &[0x80, 33],
            number.to_be_bytes().as_slice(),
            (90 * u32::from(number)).to_be_bytes().as_slice(),
            ssrc.to_be_bytes().as_slice(),
            payload,
        ],
    )
}

/// A capture of number 0 at tick 0, 1 to 2,046 and 2,048 each 20 ticks after its timestamp, and then of a retransmission
/// of 2,047 at a moment in microseconds.
fn drifting_capture(alloc: Global, us: u64) -> Result<Vec<u8>, Fail> {
    let mut octets = joined(alloc, &[NAME])?;
    push_packet(&mut octets, 0, 6, 0, b"A")?;
    for number in 1..2047_u16 {
        push_packet(&mut octets, 1000 * u64::from(number) + 223, 6, number, b"A")?;
    }
    push_packet(&mut octets, 2_048_223, 6, 2048, b"C")?;
    push_packet(&mut octets, us, 7, 2047, b"B")?;
    Ok(octets)
}

/// Whether the retransmission is played out before 2,048, with compensation of drift or without.
fn replays_retransmission(alloc: Global, drift: bool, us: u64) -> Result<bool, Fail> {
    let octets = drifting_capture(alloc, us)?;
    let settings = Settings::muted(1000, 2048, 0, drift);
    let source = source_of(alloc, octets.as_slice(), &NOTHING)?;
    let sink = sink_of(alloc, &NOTHING)?;
    let (end, sink) = replayed(alloc, &simple_session(), &settings, source, sink);
    if end != Ok(()) {
        return Err(Fail::new("the end"));
    }
    Ok(sink.octets().ends_with(b"ABC"))
}

#[test]
fn a_retransmission_is_late_by_a_base_that_moved(rt: HostRuntime) -> Result<(), Fail> {
    let alloc = rt.alloc();
    // After two windows of which the second was 20 ticks slower the base is 9, and 2,047 is due at tick 274,239.
    for (drift, us, plays) in [
        (true, 3_047_089, true),
        (true, 3_047_100, false),
        (false, 3_046_989, true),
        (false, 3_047_000, false),
    ] {
        assert!(rt;
            replays_retransmission(alloc, drift, us)? == plays,
            "at {us}"
        );
    }
    Ok(())
}
