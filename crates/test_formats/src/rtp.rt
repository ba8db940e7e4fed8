use rtp_packet::{Rtp, RtpBad, RtpHead, write};
use std::process::Abort;
use std::test::Fail;

// Octets that are no packet, and the first test that fails.
static REFUSED: [(&[u8], RtpBad); 13] = [
    (b"", RtpBad::Short),
    (
        b"\x40\x21\x00\x0a\x00\x00\x00\x00\x10\x20\x30",
        RtpBad::Short,
    ),
    (
        b"\x4f\x21\x00\x0a\x00\x00\x00\x00\x10\x20\x30\x40",
        RtpBad::Version,
    ),
    (
        b"\xb1\x21\x00\x0a\x00\x00\x00\x00\x10\x20\x30\x40abc",
        RtpBad::Sources,
    ),
    (
        b"\x8f\x21\x00\x0a\x00\x00\x00\x00\x10\x20\x30\x40abcd",
        RtpBad::Sources,
    ),
    (
        b"\xb0\x21\x00\x0a\x00\x00\x00\x00\x10\x20\x30\x40",
        RtpBad::Extension,
    ),
    (
        b"\x90\x21\x00\x0a\x00\x00\x00\x00\x10\x20\x30\x40RI\x00",
        RtpBad::Extension,
    ),
    (
        b"\xb0\x21\x00\x0a\x00\x00\x00\x00\x10\x20\x30\x40RI\x00\x01abc",
        RtpBad::Extension,
    ),
    (
        b"\xa0\x21\x00\x0a\x00\x00\x00\x00\x10\x20\x30\x40",
        RtpBad::Padding,
    ),
    (
        b"\xa0\x21\x00\x0a\x00\x00\x00\x00\x10\x20\x30\x40\x00",
        RtpBad::Padding,
    ),
    (
        b"\xa0\x21\x00\x0a\x00\x00\x00\x00\x10\x20\x30\x40a\x03",
        RtpBad::Padding,
    ),
    (
        b"\xa1\x21\x00\x0a\x00\x00\x00\x00\x10\x20\x30\x40\x00\x00\x00\x01",
        RtpBad::Padding,
    ),
    (
        b"\xb0\x21\x00\x0a\x00\x00\x00\x00\x10\x20\x30\x40RI\x00\x01abc\x01",
        RtpBad::Padding,
    ),
];

#[test]
fn the_first_test_that_fails_is_named(rt: HostRuntime) {
    for (octets, bad) in &REFUSED {
        assert!(rt; Rtp::read(octets).err() == Some(*bad));
    }
}

#[test]
fn a_payload_ends_at_1500_octets(rt: HostRuntime) {
    let mut octets = [0; 2048];
    octets[0] = 0x80;
    assert!(rt; Rtp::read(&octets[..12 + 1500]).is_ok());
    assert!(rt; Rtp::read(&octets[..12 + 1501]).err() == Some(RtpBad::Long));
}

// A packet's number, timestamp and SSRC, its extension and its payload.
fn assert_packet(
    rt: &impl Abort,
    octets: &[u8],
    words: (u16, u32, u32),
    extension: Option<(u16, &[u8])>,
    payload: &[u8],
) -> Result<(), Fail> {
    let read = Rtp::read(octets).ok().ok_or("a packet")?;
    assert!(rt; (read.number(), read.stamp(), read.ssrc()) == words);
    assert!(rt; read.extension() == extension);
    assert!(rt; read.payload() == payload);
    Ok(())
}

#[test]
fn a_packet_is_read_field_by_field(rt: HostRuntime) -> Result<(), Fail> {
    let plain = b"\x80\x21\x00\x0a\x00\x00\x00\x00\x10\x20\x30\x40A";
    assert_packet(&rt, plain, (10, 0, 0x10203040), None, b"A")?;
    // A source, an extension of one word, three octets of padding, the marker and another payload type.
    let full =
        b"\xb1\xe0\xff\xff\x00\x00\x03\x84\x10\x20\x30\x41abcdRI\x00\x01\xb8\x49\x00\x00BC\x07\x08\x03";
    let words = b"\xb8\x49\x00\x00".as_slice();
    assert_packet(
        &rt,
        full,
        (65535, 900, 0x10203041),
        Some((0x5249, words)),
        b"BC",
    )
}

#[test]
fn a_packet_is_written_octet_by_octet(rt: HostRuntime) -> Result<(), Fail> {
    let head = RtpHead {
        number: 258,
        stamp: 0x01020304,
        ssrc: 0x10203040,
    };
    let mut out = [0xff; 2048];
    let len = write(&head, None, b"A", &mut out);
    assert!(rt;
        out.get(..len).ok_or("len")?
            == b"\x80\x21\x01\x02\x01\x02\x03\x04\x10\x20\x30\x40A".as_slice()
    );
    let len = write(&head, Some((0x5249, b"\xb8\x49\x00\x00")), b"BC", &mut out);
    assert!(rt;
        out.get(..len).ok_or("len")?
            == b"\x90\x21\x01\x02\x01\x02\x03\x04\x10\x20\x30\x40RI\x00\x01\xb8\x49\x00\x00BC".as_slice()
    );
    Ok(())
}

#[test]
fn a_refusal_is_printed_by_its_name(rt: HostRuntime) -> Result<(), Fail> {
    assert!(rt; format!(in rt.alloc(); "{}", RtpBad::Padding)?.as_str() == "rtp padding");
    Ok(())
}
