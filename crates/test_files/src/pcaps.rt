//! Captures of the network through the commands.
use crate::captures::{Ending, NAME, NOTHING, Outside, joined, writes, written};
use pcap_file::PcapKind;
use std::alloc::Global;
use std::test::Fail;

/// The header of a little-endian file of raw IP, times in microseconds.
const RAW_IP: &[u8] = b"\xD4\xC3\xB2\xA1\x02\0\x04\0\0\0\0\0\0\0\0\0\0\0\x04\0\x65\0\0\0";

/// A record of 41 octets at 0.
const HEAD: &[u8] = b"\0\0\0\0\0\0\0\0\x29\0\0\0\x29\0\0\0";

/// From 10.0.0.1 to 10.0.0.2, both ports 1968, and in it an RTP packet with the payload `A`.
const PACKET: &[u8] = b"\x45\0\0\x29\0\0\x40\0\x40\x11\x26\xC2\x0A\0\0\x01\x0A\0\0\x02\
    \x07\xB0\x07\xB0\0\x15\xDA\xDF\x80\x21\0\0\0\0\0\0\x10\x20\x30\x40A";

/// A big-endian file of raw IP, times in nanoseconds, and a record of 41 octets at 1.009,989,999 seconds.
const NANOSECONDS: &[u8] = b"\xA1\xB2\x3C\x4D\0\x02\0\x04\0\0\0\0\0\0\0\0\0\x04\0\0\0\0\0\x65\
    \0\0\0\x01\0\x98\x6F\x6F\0\0\0\x29\0\0\0\x29";

/// The record of the packet's datagram in a capture, at 0 and at 1,009,989.
const RECORD: &[u8] = b"\0\0\0\x0D\0\0\0\0\0\0\0\0\x80\x21\0\0\0\0\0\0\x10\x20\x30\x40A";

const LATER: &[u8] = b"\0\0\0\x0D\0\0\0\0\0\x0F\x69\x45\x80\x21\0\0\0\0\0\0\x10\x20\x30\x40A";

const LINE: &str = "replay --pcap --udp 1968 - -";

/// Lines over pcap files, what fails, and the status and the octets that are left then.
static FILES: [(&str, &[&[u8]], Outside<'static>, Ending, &str); 7] = [
    (LINE, &[RAW_IP, HEAD, PACKET], NOTHING, Ending::Done, "A"),
    (LINE, &[RAW_IP], NOTHING, Ending::Done, ""),
    (LINE, &[NANOSECONDS, PACKET], NOTHING, Ending::Done, "A"),
    (
        "replay --pcap --udp 1966 - -",
        &[RAW_IP, HEAD, PACKET],
        NOTHING,
        Ending::Done,
        "",
    ),
    (
        LINE,
        &[b"\xA1\xB2\xC3\xD5"],
        NOTHING,
        Ending::BadPcap(PcapKind::Magic, 0),
        "",
    ),
    (
        LINE,
        &[RAW_IP, HEAD, PACKET, b"\0"],
        NOTHING,
        Ending::BadPcap(PcapKind::Truncated, 81),
        "A",
    ),
    // The source gives 81 octets, a whole record, and then fails.
    (
        LINE,
        &[RAW_IP, HEAD, PACKET, HEAD, PACKET],
        Outside {
            cuts: &[81],
            reads: &[1],
            ..NOTHING
        },
        Ending::ReadFault,
        "A",
    ),
];

#[test]
fn a_pcap_file_is_replayed(rt: HostRuntime) -> Result<(), Fail> {
    for (line, parts, outside, ending, octets) in &FILES {
        assert!(rt; writes(rt.alloc(), line, parts, outside, *ending, octets.as_bytes())?);
    }
    Ok(())
}

/// Whether a pcap file is shown as the capture of its datagrams is.
fn shows_alike(alloc: Global, packets: &[&[u8]], records: &[&[u8]]) -> Result<bool, Fail> {
    let records = joined(alloc, records)?;
    let shown = written(alloc, "show -", records.as_slice(), &NOTHING, Ending::Done)?;
    let line = "show --pcap --udp 1968 -";
    let is_alike = writes(
        alloc,
        line,
        packets,
        &NOTHING,
        Ending::Done,
        shown.as_slice(),
    )?;
    Ok(is_alike && !shown.is_empty())
}

/// Pcap files and the captures of their datagrams.
static CAPTURES: [(&[&[u8]], &[&[u8]]); 2] = [
    (&[RAW_IP, HEAD, PACKET], &[NAME, RECORD]),
    (&[NANOSECONDS, PACKET], &[NAME, LATER]),
];

#[test]
fn a_pcap_file_is_shown_as_its_capture(rt: HostRuntime) -> Result<(), Fail> {
    for (packets, records) in &CAPTURES {
        assert!(rt; shows_alike(rt.alloc(), packets, records)?);
    }
    Ok(())
}
