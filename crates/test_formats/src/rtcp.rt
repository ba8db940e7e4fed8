ghost use Rattle.std.specs.Prelude.{◌<◌};

use rtcp_compound::{Compound, CompoundOut, Full, Packet, RtcpBad, RtcpWhy, is_rist};
use std::process::Abort;
use std::test::Fail;

// A hexadecimal digit in upper case.
fn digit(code: u8) -> u8
    ensures { result < 16 }
{
    match code {
        b'0'..=b'9' => code - b'0',
        b'A'..=b'F' => code - b'A' + 10,
        _ => 0,
    }
}

// The octets that hexadecimal digits stand for, at most 64.
fn octets<'a>(text: &str, block: &'a mut [u8; 64]) -> &'a [u8] {
    let digits = text.as_bytes();
    let count = (digits.len() / 2).min(64);
    for i in 0..count {
        block[i] = 16 * digit(digits[2 * i]) + digit(digits[2 * i + 1]);
    }
    &block[..count]
}

// Datagrams in base 16, and which test each fails at which place.
static REFUSED: [(&str, RtcpWhy, usize); 24] = [
    // the empty datagram, and fewer than four octets left
    ("", RtcpWhy::Short, 0),
    ("80C9000100000007808000", RtcpWhy::Short, 8),
    ("40C9000100000007", RtcpWhy::Version, 0),
    // types 191 and 224
    ("80C900010000000780BF0000", RtcpWhy::Kind, 8),
    ("80C900010000000780E00000", RtcpWhy::Kind, 8),
    ("80CA0000", RtcpWhy::First, 0),
    ("80C9000200000007", RtcpWhy::Length, 0),
    ("80C900010000000780C00001", RtcpWhy::Length, 8),
    // padding in a packet that isn't the last
    (
        "A0C90002000000070000000480C9000100000007",
        RtcpWhy::Padding,
        0,
    ),
    // a count of 0, of 3, of more than the body, and none at all
    ("A0C900020000000700000000", RtcpWhy::Padding, 0),
    ("A0C900020000000700000003", RtcpWhy::Padding, 0),
    ("A0C90002000000070000000C", RtcpWhy::Padding, 0),
    ("80C9000100000007A0D00000", RtcpWhy::Padding, 8),
    // a report without its block
    ("81C9000100000007", RtcpWhy::Body, 0),
    ("80C8000100000007", RtcpWhy::Body, 0),
    // padding isn't the body's
    ("A0C9000100000004", RtcpWhy::Body, 0),
    // no zero octet, an item past the end, no second chunk, no chunk at all
    ("80C900010000000781CA00020000000701026162", RtcpWhy::Body, 8),
    ("80C900010000000781CA00020000000701056100", RtcpWhy::Body, 8),
    ("80C900010000000782CA00020000000700000000", RtcpWhy::Body, 8),
    ("80C900010000000781CA0000", RtcpWhy::Body, 8),
    // a source that isn't there, and a reason past the end
    ("80C900010000000782CB000100000007", RtcpWhy::Body, 8),
    ("80C900010000000781CB00020000000705616263", RtcpWhy::Body, 8),
    ("80C900010000000780CC000100000007", RtcpWhy::Body, 8),
    ("80C900010000000781CD000100000007", RtcpWhy::Body, 8),
];

fn assert_refused(rt: &impl Abort, text: &str, bad: RtcpBad) {
    let mut block = [0; 64];
    let read = Compound::read(octets(text, &mut block)).err();
    assert!(rt; read == Some(bad), "in {text}");
}

#[test]
fn each_refusal_names_its_test_and_its_place(rt: HostRuntime) {
    for (text, why, place) in &REFUSED {
        let bad = RtcpBad {
            why: *why,
            place: *place,
        };
        assert_refused(&rt, text, bad);
    }
}

// Compounds in base 16, how many packets each has, and the type of the last one.
static READ: [(&str, u32, u8); 11] = [
    // a report, a description and an application's packet
    ("80C900010000000781CA0003000000070104726973740000", 2, 202),
    // the least and the greatest type that is stepped over
    ("80C900010000000780C00000", 2, 192),
    ("80C900010000000780DF000100000000", 2, 223),
    // octets after the last block, chunk and reason
    ("80C900020000000701020304", 1, 201),
    ("80C900010000000781CA0003000000070000000001020304", 2, 202),
    ("80C900010000000781CB0003000000070361626301020304", 2, 203),
    // a reason up to the end, and none
    ("80C900010000000781CB00020000000703616263", 2, 203),
    ("80C900010000000781CB000100000007", 2, 203),
    // fill that isn't 0
    ("80C900010000000781CA00030000000701026162000000FF", 2, 202),
    // padding in the last packet, one word and two
    ("A0C900020000000700000004", 1, 201),
    ("80C9000100000007A0C000020000000000000008", 2, 192),
];

// How many packets a compound has, and the type of the last one; none where it is no compound.
fn kinds(text: &str) -> (u32, u8) {
    let mut block = [0; 64];
    let mut count: u32 = 0;
    let mut kind = 0;
    if let Ok(compound) = Compound::read(octets(text, &mut block)) {
        for packet in compound.packets() {
            count = count.saturating_add(1);
            kind = packet.kind();
        }
    }
    (count, kind)
}

#[test]
fn a_compound_is_read_up_to_its_edges(rt: HostRuntime) {
    for (text, count, last) in &READ {
        assert!(rt; kinds(text) == (*count, *last), "in {text}");
    }
}

#[test]
fn a_request_is_read_with_its_fields(rt: HostRuntime) -> Result<(), Fail> {
    let text = "80C900010000000781CA000300000007010472697374000080CC00031020304052495354FFFF0001";
    let mut block = [0; 64];
    let compound = Compound::read(octets(text, &mut block))
        .ok()
        .ok_or("a compound")?;
    let mut packets = compound.packets();
    let Some(Packet::Rr { ssrc, blocks }) = packets.next() else {
        return Err("no report")?;
    };
    assert!(rt; (ssrc, blocks.len()) == (7, 0));
    let Some(Packet::Sdes { count, chunks }) = packets.next() else {
        return Err("no description")?;
    };
    assert!(rt; (count, chunks.len()) == (1, 12));
    let Some(
        Packet::App {
            subtype,
            ssrc,
            name,
            words,
        },
    ) = packets.next()
    else {
        return Err("no request")?;
    };
    assert!(rt; (subtype, ssrc) == (0, 0x1020_3040));
    assert!(rt; name == *b"RIST");
    assert!(rt; is_rist(&name));
    assert!(rt; !is_rist(b"RISU"));
    assert!(rt; words == [255, 255, 0, 1].as_slice());
    assert!(rt; packets.next().is_none());
    Ok(())
}

#[test]
fn packets_are_written_octet_for_octet(rt: HostRuntime) -> Result<(), Fail> {
    let mut out = CompoundOut::new();
    out.put_sr(7, 1, 0x8000_0000, 0x0002_0F58, 3, 4)
        .ok()
        .ok_or("a sender's report")?;
    out.put_sdes(7).ok().ok_or("a description")?;
    out.put_feedback(205, 1, 7, 0x1020_3040, &[0, 100, 128, 1])
        .ok()
        .ok_or("a generic request")?;
    let mut block = [0; 64];
    let mut more = [0; 64];
    let report = octets(
        "80C8000600000007000000018000000000020F580000000300000004",
        &mut block,
    );
    let rest = octets(
        "81CA000300000007010472697374000081CD0003000000071020304000648001",
        &mut more,
    );
    let written = out.octets();
    assert!(rt; written.len() == 60);
    assert!(rt; &written[..28] == report);
    assert!(rt; &written[28..] == rest);
    Ok(())
}

#[test]
fn a_packet_fits_up_to_1400_octets(rt: HostRuntime) -> Result<(), Fail> {
    let words = [0; 1384];
    let mut out = CompoundOut::new();
    assert!(rt; out.put_rr(7).is_ok());
    assert!(rt; out.put_app(0, 1, *b"RIST", &words) == Err(Full));
    assert!(rt; out.octets().len() == 8);
    assert!(rt; out.put_app(0, 1, *b"RIST", &words[..1380]).is_ok());
    assert!(rt; out.octets().len() == 1400);
    assert!(rt; out.put_rr(7) == Err(Full));
    Ok(())
}

// Why a compound is refused, and what is printed of it.
static TEXTS: [(RtcpWhy, &str); 7] = [
    (RtcpWhy::Short, "rtcp short at 8"),
    (RtcpWhy::Version, "rtcp version at 8"),
    (RtcpWhy::Kind, "rtcp kind at 8"),
    (RtcpWhy::First, "rtcp first at 8"),
    (RtcpWhy::Length, "rtcp length at 8"),
    (RtcpWhy::Padding, "rtcp padding at 8"),
    (RtcpWhy::Body, "rtcp body at 8"),
];

#[test]
fn a_refusal_prints_its_test_and_its_place(rt: HostRuntime) -> Result<(), Fail> {
    let alloc = rt.alloc();
    for (why, text) in &TEXTS {
        let bad = RtcpBad {
            why: *why,
            place: 8,
        };
        assert!(rt; format!(in alloc; "{bad}")?.as_str() == *text);
    }
    assert!(rt; format!(in alloc; "{Full}")?.as_str() == "compound full");
    Ok(())
}
