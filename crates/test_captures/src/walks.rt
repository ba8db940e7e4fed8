//! Walks with a visitor that copies: whole captures and pcap files, cut ones, and each way to fail.
use capture_file::{CapKind, Head, Reader};
use capture_walk::{PortReader, VisitBad, Visitor, WalkBad, walk};
use link_channels::Profile;
use outside_io::{Bytes, Failed, Pieces, Sink, Source, Store8};
use pcap_file::PcapKind;
use std::alloc::Global;
use std::fmt::Display;
use std::process::Abort;
use std::test::Fail;

/// A capture of the records `A`, `BC` and an empty one, on links 0, 1 and 2.
const WHOLE: &[u8] =
    b"RISTCAP1\0\0\0\x01\0\0\0\0\0\0\0\0A\x01\0\0\x02\0\0\0\0\0\0\0\0BC\x02\0\0\0\0\0\0\0\0\0\0\0";

/// Writes the octets of each record, and a full stop at the end.
#[derive(Drop)]
struct Copier;

impl Visitor for Copier {
    ghost use Rattle.std.specs.Prelude.{◌++◌, ◌∷◌, [], false};
    ghost use Rattle.test_captures.specs.Copied.{copied};

    ghost so_far = { λ _ rs. copied rs };

    ghost whole = { λ _ rs. copied rs ++ 46 ∷ [] };

    ghost has_seen = { λ _ rs. Unit {0} };

    ghost has_ended = { λ _ rs. Unit {0} };

    ghost wants_memory = { false };

    #[tactic(auto, using(crate::proofs::CopyLemmas::writes_more, crate::proofs::CopyLemmas::writes_part))]
    fn record<K: Sink>(
        &mut self,
        _head: &Head,
        octets: &mut [u8],
        sink: &mut K,
    ) -> Result<(), VisitBad> {
        match sink.put(octets) {
            Ok(()) => Ok(()),
            Err(_) => Err(VisitBad::WriteFault),
        }
    }

    #[tactic(auto, using(crate::proofs::CopyLemmas::writes_stop, crate::proofs::CopyLemmas::writes_part_stop))]
    fn finish<K: Sink>(&mut self, sink: &mut K) -> Result<(), Failed> {
        sink.put(b".")
    }
}

/// A walk over the source ends so, and leaves these octets in the sink.
#[tactic(auto, using(capture_walk::proofs::GoingLemmas::new_has_read))]
fn assert_left<S: Source + Drop>(
    rt: &impl Abort,
    source: S,
    mut sink: Store8,
    want: Result<(), WalkBad>,
    written: &[u8],
) {
    let mut reader = Reader::over(source);
    let result = walk(&mut reader, &mut Copier, &mut sink);
    assert!(rt; result == want);
    assert!(rt; sink.octets() == written);
}

/// A pcap file of raw IP packets to the UDP ports 1968, 1969 and 1970, each with one octet of data: `A`, `B` and `C`.
const PACKETS: &[u8] = b"\xA1\xB2\xC3\xD4\0\x02\0\x04\0\0\0\0\0\0\0\0\0\0\0\0\0\0\0\x65\
    \0\0\0\0\0\0\0\x01\0\0\0\x1D\0\0\0\x1D\
    E\0\0\x1D\0\0\0\0\x40\x11\0\0\x0A\0\0\x01\x0A\0\0\x02\x07\xB0\x07\xB0\0\x09\0\0A\
    \0\0\0\0\0\0\0\x02\0\0\0\x1D\0\0\0\x1D\
    E\0\0\x1D\0\0\0\0\x40\x11\0\0\x0A\0\0\x01\x0A\0\0\x02\x07\xB0\x07\xB1\0\x09\0\0B\
    \0\0\0\0\0\0\0\x03\0\0\0\x1D\0\0\0\x1D\
    E\0\0\x1D\0\0\0\0\x40\x11\0\0\x0A\0\0\x01\x0A\0\0\x02\x07\xB0\x07\xB2\0\x09\0\0C";

/// The same of a pcap file's datagrams to a UDP port.
fn assert_left_of_port<S: Source + Drop>(
    rt: &impl Abort,
    source: S,
    profile: Profile,
    port: u16,
    mut sink: Store8,
    want: Result<(), WalkBad>,
    written: &[u8],
) {
    let mut reader = PortReader::over(source, profile, port);
    let result = walk(&mut reader, &mut Copier, &mut sink);
    assert!(rt; result == want);
    assert!(rt; sink.octets() == written);
}

/// However the packets are cut, these octets are left of them.
fn assert_port(
    rt: &impl Abort,
    alloc: Global,
    profile: Profile,
    port: u16,
    written: &[u8],
) -> Result<(), Fail> {
    for cut in 1..PACKETS.len() {
        let source = Pieces::with(alloc, PACKETS, &[cut], &[])?;
        let sink = Store8::with(alloc, 8, &[])?;
        assert_left_of_port(rt, source, profile, port, sink, Ok(()), written);
    }
    Ok(())
}

#[test]
fn the_datagrams_to_a_port_are_a_pcap_files_records(rt: HostRuntime) -> Result<(), Fail> {
    assert_port(&rt, rt.alloc(), Profile::Simple, 1968, b"AB.")?;
    assert_port(&rt, rt.alloc(), Profile::Simple, 1970, b"C.")?;
    assert_port(&rt, rt.alloc(), Profile::Main, 1968, b"A.")?;
    assert_port(&rt, rt.alloc(), Profile::Main, 1969, b"B.")?;
    assert_port(&rt, rt.alloc(), Profile::Main, 1971, b".")?;
    Ok(())
}

/// Of so many octets of the packets, and how the walk over them ends and what it leaves.
static FRONTS: [(usize, usize, Result<(), WalkBad>, &[u8]); 8] = [
    (0, 4, Err(WalkBad::BadPcap(PcapKind::Magic, 0)), b"."),
    (4, 24, Err(WalkBad::BadPcap(PcapKind::Truncated, 0)), b"."),
    (24, 25, Ok(()), b"."),
    (25, 69, Err(WalkBad::BadPcap(PcapKind::Truncated, 24)), b"."),
    (69, 70, Ok(()), b"A."),
    (
        70,
        114,
        Err(WalkBad::BadPcap(PcapKind::Truncated, 69)),
        b"A.",
    ),
    (114, 115, Ok(()), b"AB."),
    (
        115,
        159,
        Err(WalkBad::BadPcap(PcapKind::Truncated, 114)),
        b"AB.",
    ),
];

/// The front of the packets, of so many octets.
fn assert_front(
    rt: &impl Abort,
    alloc: Global,
    length: usize,
    want: Result<(), WalkBad>,
    written: &[u8],
) -> Result<(), Fail> {
    let front = PACKETS.get(..length).ok_or("length")?;
    let source = Bytes::with(alloc, front, &[])?;
    let sink = Store8::with(alloc, 8, &[])?;
    assert_left_of_port(rt, source, Profile::Simple, 1968, sink, want, written);
    Ok(())
}

#[test]
fn a_pcap_file_that_breaks_off_is_ended_after_its_whole_frames(
    rt: HostRuntime,
) -> Result<(), Fail> {
    for (first, end, want, written) in &FRONTS {
        for length in *first..*end {
            assert_front(&rt, rt.alloc(), length, *want, written)?;
        }
    }
    Ok(())
}

#[test]
fn a_failed_read_of_a_pcap_file_is_answered_after_the_end(rt: HostRuntime) -> Result<(), Fail> {
    // It fails behind the first record.
    let source = Pieces::with(rt.alloc(), PACKETS, &[69], &[1])?;
    let sink = Store8::with(rt.alloc(), 8, &[])?;
    let fault = Err(WalkBad::ReadFault);
    assert_left_of_port(&rt, source, Profile::Simple, 1968, sink, fault, b"A.");
    Ok(())
}

#[test]
fn each_record_comes_once_and_then_the_end(rt: HostRuntime) -> Result<(), Fail> {
    let alloc = rt.alloc();
    for cut in 1..WHOLE.len() {
        let source = Pieces::with(alloc, WHOLE, &[cut], &[])?;
        let sink = Store8::with(alloc, 8, &[])?;
        assert_left(&rt, source, sink, Ok(()), b"ABC.");
    }
    Ok(())
}

/// Captures that break off, how the walk over each ends and what it leaves.
static BROKEN_OFF: [(&[u8], Result<(), WalkBad>, &[u8]); 5] = [
    (b"RISTCAP1", Ok(()), b"."),
    (b"", Err(WalkBad::BadCapture(CapKind::Magic, 0)), b"."),
    (
        b"RISTCAP2",
        Err(WalkBad::BadCapture(CapKind::Magic, 0)),
        b".",
    ),
    (
        b"RISTCAP1\0\0\0\x01\0\0\0\0\0\0\0\0A\x10\0\0\0\0\0\0\0\0\0\0\0",
        Err(WalkBad::BadCapture(CapKind::Link, 21)),
        b"A.",
    ),
    (
        b"RISTCAP1\0\0\x08\x01\0\0\0\0\0\0\0\0",
        Err(WalkBad::BadCapture(CapKind::Long, 8)),
        b".",
    ),
];

/// A capture in the sink's way.
fn assert_capture(
    rt: &impl Abort,
    alloc: Global,
    octets: &[u8],
    sink: Store8,
    want: Result<(), WalkBad>,
    written: &[u8],
) -> Result<(), Fail> {
    let source = Bytes::with(alloc, octets, &[])?;
    assert_left(rt, source, sink, want, written);
    Ok(())
}

#[test]
fn a_capture_that_breaks_off_is_ended_after_its_whole_records(rt: HostRuntime) -> Result<(), Fail> {
    for (octets, want, written) in &BROKEN_OFF {
        let sink = Store8::with(rt.alloc(), 8, &[])?;
        assert_capture(&rt, rt.alloc(), octets, sink, *want, written)?;
    }
    let cut = Err(WalkBad::BadCapture(CapKind::Truncated, 21));
    let sink = Store8::with(rt.alloc(), 8, &[])?;
    assert_capture(&rt, rt.alloc(), &WHOLE[..34], sink, cut, b"A.")
}

#[test]
fn a_failed_read_is_answered_after_the_end(rt: HostRuntime) -> Result<(), Fail> {
    let source = Pieces::with(rt.alloc(), WHOLE, &[21], &[1])?;
    let sink = Store8::with(rt.alloc(), 8, &[])?;
    assert_left(&rt, source, sink, Err(WalkBad::ReadFault), b"A.");
    Ok(())
}

/// A sink with so much room whose listed call fails: the walk over the capture ends, and leaves these octets.
fn assert_write_fault(
    rt: &impl Abort,
    alloc: Global,
    octets: &[u8],
    room: usize,
    failing: &[u64],
    written: &[u8],
) -> Result<(), Fail> {
    let sink = Store8::with(alloc, room, failing)?;
    assert_capture(rt, alloc, octets, sink, Err(WalkBad::WriteFault), written)
}

#[test]
fn a_failed_write_ends_a_walk_at_once(rt: HostRuntime) -> Result<(), Fail> {
    // The first record, the second, and the end.
    assert_write_fault(&rt, rt.alloc(), WHOLE, 8, &[0], b"")?;
    assert_write_fault(&rt, rt.alloc(), WHOLE, 8, &[1], b"A")?;
    assert_write_fault(&rt, rt.alloc(), WHOLE, 8, &[3], b"ABC")?;
    // A write that fails at the end is answered before what ended the capture.
    assert_write_fault(&rt, rt.alloc(), &WHOLE[..34], 8, &[1], b"A")?;
    // The second record has room for one of its octets.
    assert_write_fault(&rt, rt.alloc(), WHOLE, 2, &[], b"AB")
}

fn assert_text<T: Display>(
    rt: &impl Abort,
    alloc: Global,
    shown: &T,
    text: &str,
) -> Result<(), Fail> {
    let written = format!(in alloc; "{shown}")?;
    assert!(rt; written.as_str() == text);
    Ok(())
}

#[test]
fn each_end_has_its_text(rt: HostRuntime) -> Result<(), Fail> {
    assert_text(&rt, rt.alloc(), &WalkBad::Memory, "out of memory")?;
    assert_text(&rt, rt.alloc(), &WalkBad::ReadFault, "read failed")?;
    assert_text(&rt, rt.alloc(), &WalkBad::WriteFault, "write failed")?;
    let cut = WalkBad::BadCapture(CapKind::Truncated, 33);
    assert_text(&rt, rt.alloc(), &cut, "bad capture: truncated at 33")?;
    let raw = WalkBad::BadPcap(PcapKind::LinkType, 0);
    assert_text(&rt, rt.alloc(), &raw, "bad pcap: link type at 0")?;
    assert_text(&rt, rt.alloc(), &WalkBad::TooLong, "input too long")?;
    assert_text(&rt, rt.alloc(), &VisitBad::Memory, "out of memory")?;
    assert_text(&rt, rt.alloc(), &VisitBad::WriteFault, "write failed")
}
