use link_channels::{Channel, Profile};
use outside_io::{Bytes, Pieces, Source};
use pcap_file::{PcapBad, PcapKind, PcapReader, datagram_in};
use std::alloc::{AllocError, Global};
use std::process::Abort;
use std::test::Fail;

// A little-endian file of raw IP with one packet: 41 octets from 10.0.0.1 to 10.0.0.2, both ports 1,968.
static WORKED: [u8; 81] = [
    0xd4, 0xc3, 0xb2, 0xa1, 2, 0, 4, 0, 0, 0, 0, 0, 0, 0, 0, 0, 0, 0, 4, 0, 101, 0, 0, 0, 0, 0, 0,
    0, 0, 0, 0, 0, 0x29, 0, 0, 0, 0x29, 0, 0, 0, 0x45, 0, 0, 0x29, 0, 0, 0x40, 0, 0x40, 0x11, 0x26,
    0xc2, 10, 0, 0, 1, 10, 0, 0, 2, 0x07, 0xb0, 0x07, 0xb0, 0, 0x15, 0xda, 0xdf, 0x80, 0x21, 0, 0,
    0, 0, 0, 0, 0x10, 0x20, 0x30, 0x40, 0x41,
];

// Reads two frames at most, and gives the first one's time and length, how many there were, and what came after them.
fn read_all<S: Source + Drop>(
    source: S,
    buf: &mut [u8; 4096],
) -> (u64, usize, u8, Option<PcapBad>) {
    let mut reader = PcapReader::over(source);
    match reader.next(buf) {
        Ok(Some(frame)) => {
            let mut other = [0; 4096];
            match reader.next(&mut other) {
                Ok(Some(_)) => (frame.at_us, frame.length, 2, None),
                Ok(None) => (frame.at_us, frame.length, 1, None),
                Err(bad) => (frame.at_us, frame.length, 1, Some(bad)),
            }
        }
        Ok(None) => (0, 0, 0, None),
        Err(bad) => (0, 0, 0, Some(bad)),
    }
}

/// What is read of the source.
fn assert_frames<S: Source + Drop>(
    rt: &impl Abort,
    source: S,
    want: (u64, usize, u8, Option<PcapBad>),
) {
    let mut buf = [0; 4096];
    assert!(rt; read_all(source, &mut buf) == want);
}

/// The worked packet is the source's one frame.
fn assert_worked<S: Source + Drop>(rt: &impl Abort, source: S) {
    let mut buf = [0; 4096];
    assert!(rt; read_all(source, &mut buf) == (0, 41, 1, None));
    assert!(rt; buf.get(..41) == WORKED.get(40..));
}

#[test]
fn a_file_gives_its_frame_however_it_is_cut(rt: HostRuntime) -> Result<(), Fail> {
    for cut in 1..81 {
        let source = Pieces::with(rt.alloc(), &WORKED, &[cut], &[])?;
        assert_worked(&rt, source);
    }
    // A read fails behind the header.
    let source = Pieces::with(rt.alloc(), &WORKED, &[30], &[1])?;
    assert_frames(&rt, source, (0, 0, 0, Some(PcapBad::ReadFault)));
    Ok(())
}

/// What follows on so many octets of the worked file.
fn after(length: usize) -> Option<PcapBad> {
    match length {
        0..4 => Some(PcapBad::Bad(PcapKind::Magic, 0)),
        4..24 => Some(PcapBad::Bad(PcapKind::Truncated, 0)),
        24 => None,
        _ => Some(PcapBad::Bad(PcapKind::Truncated, 24)),
    }
}

#[test]
fn a_file_that_ends_early_says_where(rt: HostRuntime) -> Result<(), Fail> {
    for length in 0..81 {
        let front = WORKED.get(..length).ok_or("length")?;
        let source = Bytes::with(rt.alloc(), front, &[])?;
        assert_frames(&rt, source, (0, 0, 0, after(length)));
    }
    Ok(())
}

// Files of one empty packet or of none, and what is read of them.
static FILES: [(&[u8], u64, u8, Option<PcapBad>); 10] = [
    (
        b"\xa1\xb2\xc3\xd4\0\x02\0\x04\0\0\0\0\0\0\0\0\0\0\0\0\0\0\0\x01\0\0\0\x01\0\0\0\x02\0\0\0\0\0\0\0\x05",
        1_000_002,
        1,
        None,
    ),
    (
        b"\xd4\xc3\xb2\xa1\x02\0\x04\0\0\0\0\0\0\0\0\0\0\0\0\0\x01\0\0\0\x01\0\0\0\x02\0\0\0\0\0\0\0\0\0\0\0",
        1_000_002,
        1,
        None,
    ),
    (
        b"\xa1\xb2\x3c\x4d\0\x02\0\x04\0\0\0\0\0\0\0\0\0\0\0\0\x50\0\0\x65\0\0\0\x01\0\x98\x6f\x6f\0\0\0\0\0\0\0\0",
        1_009_989,
        1,
        None,
    ),
    (
        b"\x4d\x3c\xb2\xa1\x02\0\x04\0\0\0\0\0\0\0\0\0\0\0\0\0\x65\0\0\0\x01\0\0\0\x6f\x6f\x98\0\0\0\0\0\0\0\0\0",
        1_009_989,
        1,
        None,
    ),
    (
        b"\xa1\xb2\xc3\xd5",
        0,
        0,
        Some(PcapBad::Bad(PcapKind::Magic, 0)),
    ),
    (
        b"\xa1\xb2\xc3\xd4\0\x02\0\x03\0\0\0\0\0\0\0\0\0\0\0\0\0\0\0\x01",
        0,
        0,
        Some(PcapBad::Bad(PcapKind::Version, 0)),
    ),
    (
        b"\xd4\xc3\xb2\xa1\0\x02\0\x04\0\0\0\0\0\0\0\0\0\0\0\0\x01\0\0\0",
        0,
        0,
        Some(PcapBad::Bad(PcapKind::Version, 0)),
    ),
    (
        b"\xa1\xb2\xc3\xd4\0\x02\0\x04\0\0\0\0\0\0\0\0\0\0\0\0\0\0\0\x71",
        0,
        0,
        Some(PcapBad::Bad(PcapKind::LinkType, 0)),
    ),
    (
        b"\xa1\xb2\xc3\xd4\0\x02\0\x04\0\0\0\0\0\0\0\0\0\0\0\0\0\0\0\x01\0\0\0\x01\0\0\0\x02\0\x04\0\x01\0\0\0\0",
        0,
        0,
        Some(PcapBad::Bad(PcapKind::Long, 24)),
    ),
    (
        b"\xa1\xb2\xc3\xd4\0\x02\0\x04\0\0\0\0\0\0\0\0\0\0\0\0\0\0\0\x01\0\0\0\0\0\0\0\0\0\0\0\0\0\0\0\0\0",
        0,
        1,
        Some(PcapBad::Bad(PcapKind::Truncated, 40)),
    ),
];

#[test]
fn both_byte_orders_and_fractions_are_read(rt: HostRuntime) -> Result<(), Fail> {
    for (octets, at_us, count, bad) in &FILES {
        let source = Bytes::with(rt.alloc(), octets, &[])?;
        assert_frames(&rt, source, (*at_us, 0, *count, *bad));
    }
    Ok(())
}

#[test]
fn a_refusal_is_printed_with_its_offset(rt: HostRuntime) -> Result<(), Fail> {
    let shown = format!(in rt.alloc(); "{}", PcapBad::Bad(PcapKind::LinkType, 0))?;
    assert!(rt; shown.as_str() == "link type at 0");
    Ok(())
}

/// A file of one packet of 262,144 octets: 4,096 times the number 1, then 2 and so on.
fn long_file(alloc: Global) -> Result<Vec<u8>, Fail> {
    let mut octets = Vec::from_slice(
        alloc,
        b"\xa1\xb2\xc3\xd4\0\x02\0\x04\0\0\0\0\0\0\0\0\0\0\0\0\0\0\0\x01\0\0\0\0\0\0\0\0\0\x04\0\0\0\x04\0\0",
    )?;
    for part in 1..65 {
        octets.extend_from_slice(&[part; 4096])?;
    }
    Ok(octets)
}

#[test]
fn a_long_packet_gives_its_front(rt: HostRuntime) -> Result<(), Fail> {
    let octets = long_file(rt.alloc())?;
    let mut buf = [0; 4096];
    let source = Bytes::with(rt.alloc(), octets.as_slice(), &[])?;
    assert!(rt; read_all(source, &mut buf) == (0, 4096, 1, None));
    assert!(rt; (buf[0], buf[4095]) == (1, 1));
    Ok(())
}

// What stands before the worked packet, the link type, the profile, the port, and the channel of what is found.
static FRAMES: [(&[u8], u16, Profile, u16, Option<Channel>); 10] = [
    (b"", 101, Profile::Simple, 1968, Some(Channel::Media)),
    (b"", 101, Profile::Simple, 1967, Some(Channel::Control)),
    (b"", 101, Profile::Main, 1968, Some(Channel::Tunnel)),
    (b"", 101, Profile::Main, 1967, None),
    (b"", 101, Profile::Simple, 1969, None),
    (
        b"aaaaaabbbbbb\x08\x00",
        1,
        Profile::Main,
        1968,
        Some(Channel::Tunnel),
    ),
    (
        b"aaaaaabbbbbb\x81\x00\x00\x07\x08\x00",
        1,
        Profile::Main,
        1968,
        Some(Channel::Tunnel),
    ),
    (
        b"aaaaaabbbbbb\x81\x00\x00\x07\x81\x00\x00\x08\x08\x00",
        1,
        Profile::Main,
        1968,
        None,
    ),
    (b"aaaaaabbbbbb\x08\x06", 1, Profile::Main, 1968, None),
    (b"", 1, Profile::Main, 1968, None),
];

/// The frame's datagram to the port, and where there is one, that it is the worked packet's.
fn assert_datagram(
    rt: &impl Abort,
    link_type: u16,
    frame: &[u8],
    profile: Profile,
    port: u16,
    want: Option<Channel>,
) {
    match datagram_in(link_type, frame, profile, port) {
        Some((channel, payload)) => {
            assert!(rt; want == Some(channel));
            assert!(rt; payload == &WORKED[68..]);
        }
        None => assert!(rt; want.is_none()),
    }
}

fn joined(alloc: Global, front: &[u8], rest: &[u8]) -> Result<Vec<u8>, AllocError> {
    let mut octets = Vec::from_slice(alloc, front)?;
    octets.extend_from_slice(rest)?;
    Ok(octets)
}

#[test]
fn a_frame_carries_its_datagram_to_its_port(rt: HostRuntime) -> Result<(), Fail> {
    for (before, link_type, profile, port, channel) in &FRAMES {
        let frame = joined(rt.alloc(), before, &WORKED[40..])?;
        assert_datagram(&rt, *link_type, frame.as_slice(), *profile, *port, *channel);
    }
    Ok(())
}

#[test]
fn a_frame_that_is_cut_or_of_another_protocol_carries_none(rt: HostRuntime) -> Result<(), Fail> {
    // An Ethernet header that is cut, an IPv4 header that is, and a packet that isn't UDP but TCP.
    assert_datagram(&rt, 1, b"aaaaaabbbbbb\x08", Profile::Main, 1968, None);
    assert_datagram(&rt, 101, b"E", Profile::Main, 1968, None);
    let front = b"\x45\0\0\x29\0\0\x40\0\x40\x06";
    let frame = joined(rt.alloc(), front, &WORKED[50..])?;
    assert_datagram(&rt, 101, frame.as_slice(), Profile::Main, 1968, None);
    Ok(())
}
