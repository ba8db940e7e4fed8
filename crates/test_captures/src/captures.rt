//! Worked captures, whole and cut, and each refusal once.
use crate::asserts::{assert_octets, assert_read};
use capture_file::{CapBad, CapKind, Head, Reader, WriteFault, Writer};
use link_channels::Channel;
use outside_io::{Bytes, Pieces, Source, Store8};
use std::process::Abort;
use std::test::Fail;

// A capture of three records, each of 25 octets behind the name's eight.
const WHOLE: &[u8] = b"RISTCAP1\
    \x00\x00\x00\x0D\x00\x00\x00\x00\x00\x00\x00\x00\x80\x21\x00\x0A\x00\x00\x00\x00\x10\x20\x30\x40A\
    \x00\x00\x00\x0D\x00\x00\x00\x00\x00\x00\x27\x10\x80\x21\x00\x0B\x00\x00\x03\x84\x10\x20\x30\x40B\
    \x00\x00\x00\x0D\x00\x00\x00\x00\x00\x00\x4E\x20\x80\x21\x00\x0C\x00\x00\x07\x08\x10\x20\x30\x40C";

// Reads at most four records, and gives how many came, their last octets, and what came after them.
fn read_all<S: Source + Drop>(source: S) -> (usize, [u8; 4], Option<CapBad>) {
    let mut reader = Reader::over(source);
    let mut buf = [0; 2048];
    let mut letters = [0; 4];
    for count in 0..4 {
        if reader.spent() {
            return (count, letters, None);
        }
        match reader.next(&mut buf) {
            Ok(Some(head)) => {
                letters[count] = buf[(head.length as usize).saturating_sub(1).min(2047)];
            }
            Ok(None) => return (count, letters, None),
            Err(bad) => return (count, letters, Some(bad)),
        }
    }
    (4, letters, None)
}

// The records of the source end with these octets, and then this comes.
fn assert_records<S: Source + Drop>(rt: &impl Abort, source: S, want: &[u8], then: Option<CapBad>) {
    let (count, letters, bad) = read_all(source);
    assert!(rt; letters.get(..count) == Some(want));
    assert!(rt; bad == then);
}

// What is refused of the source.
fn refusal<S: Source + Drop>(source: S) -> Option<CapBad> {
    read_all(source).2
}

#[test]
fn a_capture_gives_its_records_however_it_is_cut(rt: HostRuntime) -> Result<(), Fail> {
    for cut in 1..83 {
        let source = Pieces::with(rt.alloc(), WHOLE, &[cut], &[])?;
        assert_records(&rt, source, b"ABC", None);
    }
    Ok(())
}

fn assert_head(rt: &impl Abort, head: Head, want: Head) {
    assert!(rt; head.link == want.link);
    assert!(rt; head.channel == want.channel);
    assert!(rt; head.length == want.length);
    assert!(rt; head.us == want.us);
}

// The source ends here.
fn assert_end<S: Source>(rt: &impl Abort, reader: &mut Reader<S>, buf: &mut [u8; 2048]) {
    assert!(rt; !reader.spent());
    assert!(rt; reader.next(buf) == Ok(None));
    assert!(rt; reader.spent());
}

#[test]
fn a_head_gives_link_channel_length_and_time(rt: HostRuntime) -> Result<(), Fail> {
    let octets = b"RISTCAP1\x0F\x02\x00\x01\x01\x02\x03\x04\x05\x06\x07\x08Z";
    let mut reader = Reader::over(Bytes::with(rt.alloc(), octets, &[])?);
    let mut buf = [0; 2048];
    let Ok(Some(head)) = reader.next(&mut buf) else {
        return Err(Fail::new("no record"));
    };
    let want = Head {
        link: 15,
        channel: Channel::Tunnel,
        length: 1,
        us: 0x0102_0304_0506_0708,
    };
    assert_head(&rt, head, want);
    assert_octets(&rt, &buf[..1], b"Z");
    assert_end(&rt, &mut reader, &mut buf);
    let mut source = reader.back();
    assert_read(&rt, &mut source, &mut buf, Ok(0));
    Ok(())
}

#[test]
fn a_failed_read_comes_after_the_records_before_it(rt: HostRuntime) -> Result<(), Fail> {
    let source = Pieces::with(rt.alloc(), WHOLE, &[33], &[1])?;
    assert_records(&rt, source, b"A", Some(CapBad::ReadFault));
    Ok(())
}

static REFUSED: [(&[u8], Option<CapBad>); 9] = [
    (b"", Some(CapBad::Bad(CapKind::Magic, 0))),
    (b"RISTCAP2", Some(CapBad::Bad(CapKind::Magic, 0))),
    (b"RISTCAP1", None),
    (b"RISTCAP1\0\0\0", Some(CapBad::Bad(CapKind::Truncated, 8))),
    (
        b"RISTCAP1\x10\0\0\0\0\0\0\0\0\0\0\0",
        Some(CapBad::Bad(CapKind::Link, 8)),
    ),
    (
        b"RISTCAP1\x0F\x03\0\0\0\0\0\0\0\0\0\0",
        Some(CapBad::Bad(CapKind::Channel, 8)),
    ),
    (
        b"RISTCAP1\0\0\x08\x01\0\0\0\0\0\0\0\0",
        Some(CapBad::Bad(CapKind::Long, 8)),
    ),
    (
        b"RISTCAP1\0\0\x08\0\0\0\0\0\0\0\0\0Z",
        Some(CapBad::Bad(CapKind::Truncated, 8)),
    ),
    (
        b"RISTCAP1\0\0\0\x01\0\0\0\0\0\0\0\0Z\0\0\0\x01",
        Some(CapBad::Bad(CapKind::Truncated, 21)),
    ),
];

#[test]
fn each_refusal_has_its_offset(rt: HostRuntime) -> Result<(), Fail> {
    for (octets, want) in &REFUSED {
        let bad = refusal(Bytes::with(rt.alloc(), octets, &[])?);
        assert!(rt; bad == *want);
    }
    Ok(())
}

// A record of 13 octets is written once, and the second time not whole. The sink then holds these.
fn assert_one_record(rt: &impl Abort, sink: Store8, want: &[u8]) {
    let head = Head {
        link: 0,
        channel: Channel::Media,
        length: 13,
        us: 0,
    };
    let octets = b"\x80\x21\x00\x0A\x00\x00\x00\x00\x10\x20\x30\x40A".as_slice();
    let mut writer = Writer::over(sink);
    assert!(rt; writer.begin() == Ok(()));
    assert!(rt; writer.add(&head, octets) == Ok(()));
    assert!(rt; writer.add(&head, octets) == Err(WriteFault));
    assert_octets(rt, writer.back().octets(), want);
}

#[test]
fn what_is_written_is_a_capture(rt: HostRuntime) -> Result<(), Fail> {
    // The second record has room for seven of its octets.
    let sink = Store8::with(rt.alloc(), 40, &[])?;
    let want = b"RISTCAP1\
        \x00\x00\x00\x0D\x00\x00\x00\x00\x00\x00\x00\x00\x80\x21\x00\x0A\x00\x00\x00\x00\x10\x20\x30\x40A\
        \x00\x00\x00\x0D\x00\x00\x00";
    assert_one_record(&rt, sink, want);
    Ok(())
}

#[test]
fn the_name_is_one_call_of_the_sink_and_so_is_a_record(rt: HostRuntime) -> Result<(), Fail> {
    // The third call, which fails, is the second record's.
    let sink = Store8::with(rt.alloc(), 64, &[2])?;
    let want = b"RISTCAP1\
        \x00\x00\x00\x0D\x00\x00\x00\x00\x00\x00\x00\x00\x80\x21\x00\x0A\x00\x00\x00\x00\x10\x20\x30\x40A";
    assert_one_record(&rt, sink, want);
    Ok(())
}
