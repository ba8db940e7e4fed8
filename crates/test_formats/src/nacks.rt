use rist_nack::{Ask, asks, put_mask, put_range, put_seqext};
use rtcp_compound::{Compound, CompoundOut, Full};
use seq_unwrap::Width;
use std::process::Abort;
use std::test::Fail;

const FLOW: u32 = 0x1020_3040;

fn ask(width: Width, first: u32, more: u16) -> Ask {
    Ask {
        flow: FLOW,
        width,
        first,
        more,
    }
}

// The compound asks for these of the flow, or of all flows, one after another, and for nothing else.
fn assert_asks(
    rt: &impl Abort,
    octets: &[u8],
    flow: Option<u32>,
    want: &[Ask],
) -> Result<(), Fail> {
    let compound = Compound::read(octets).ok().ok_or("a compound")?;
    let mut found = asks(&compound, flow);
    for ask in want {
        assert!(rt; found.next() == Some(*ask));
    }
    assert!(rt; found.next() == None);
    Ok(())
}

// 65,535 and one more, without an extension and under one.
static PLAIN: [u8; 40] = [
    0x80, 0xC9, 0, 1, 0, 0, 0, 7, 0x81, 0xCA, 0, 3, 0, 0, 0, 7, 1, 4, 0x72, 0x69, 0x73, 0x74, 0, 0,
    0x80, 0xCC, 0, 3, 0x10, 0x20, 0x30, 0x40, 0x52, 0x49, 0x53, 0x54, 0xFF, 0xFF, 0, 1,
];

static WIDE: [u8; 40] = [
    0x80, 0xC9, 0, 1, 0, 0, 0, 7, 0x81, 0xCC, 0, 3, 0x10, 0x20, 0x30, 0x40, 0x52, 0x49, 0x53, 0x54,
    0, 1, 0, 0, 0x80, 0xCC, 0, 3, 0x10, 0x20, 0x30, 0x41, 0x52, 0x49, 0x53, 0x54, 0xFF, 0xFF, 0, 1,
];

#[test]
fn a_range_word_asks_across_the_end_of_the_numbers(rt: HostRuntime) -> Result<(), Fail> {
    assert_asks(&rt, &PLAIN, Some(FLOW), &[ask(Width::W16, 65_535, 1)])?;
    assert_asks(
        &rt,
        &WIDE,
        Some(0x1020_3041),
        &[ask(Width::W32, 131_071, 1)],
    )
}

static MASKED: [u8; 24] = [
    0x80, 0xC9, 0, 1, 0, 0, 0, 7, 0x81, 0xCD, 0, 3, 0, 0, 0, 7, 0x10, 0x20, 0x30, 0x40, 0, 0x64,
    0x80, 0x01,
];

#[test]
fn a_mask_word_asks_for_its_set_bits_from_the_least(rt: HostRuntime) -> Result<(), Fail> {
    let expected = [
        ask(Width::W16, 100, 0),
        ask(Width::W16, 101, 0),
        ask(Width::W16, 116, 0),
    ];
    assert_asks(&rt, &MASKED, None, &expected)
}

#[test]
fn an_extension_holds_for_its_own_flow_until_the_next(rt: HostRuntime) -> Result<(), Fail> {
    let mut out = CompoundOut::new();
    out.put_rr(7).ok().ok_or("a report")?;
    put_seqext(&mut out, FLOW, 2).ok().ok_or("an extension")?;
    put_range(&mut out, 8, &[(5, 0)])
        .ok()
        .ok_or("another flow's request")?;
    put_range(&mut out, FLOW, &[(6, 0), (7, 65_535)])
        .ok()
        .ok_or("a request")?;
    put_mask(&mut out, 7, FLOW, &[(65_535, 1)])
        .ok()
        .ok_or("a request")?;
    put_seqext(&mut out, FLOW, 0).ok().ok_or("an extension")?;
    put_range(&mut out, FLOW, &[(9, 0)])
        .ok()
        .ok_or("a request")?;
    let expected = [
        Ask {
            flow: 8,
            width: Width::W16,
            first: 5,
            more: 0,
        },
        ask(Width::W32, 131_078, 0),
        ask(Width::W32, 131_079, 65_535),
        ask(Width::W32, 196_607, 0),
        ask(Width::W32, 196_608, 0),
        ask(Width::W32, 9, 0),
    ];
    assert_asks(&rt, out.octets(), None, &expected)?;
    assert_asks(&rt, out.octets(), Some(8), &expected[..1])
}

#[test]
fn other_subtypes_names_and_short_bodies_ask_nothing(rt: HostRuntime) -> Result<(), Fail> {
    let mut out = CompoundOut::new();
    out.put_rr(7).ok().ok_or("a report")?;
    // an extension with no word, another subtype, another name, another format and another type
    out.put_app(1, FLOW, *b"RIST", &[]).ok().ok_or("a packet")?;
    out.put_app(4, FLOW, *b"RIST", &[0, 1, 0, 0])
        .ok()
        .ok_or("a packet")?;
    out.put_app(0, FLOW, *b"RISU", &[0, 1, 0, 0])
        .ok()
        .ok_or("a packet")?;
    out.put_feedback(205, 2, 7, FLOW, &[0, 1, 0, 0])
        .ok()
        .ok_or("a packet")?;
    out.put_feedback(206, 1, 7, FLOW, &[0, 1, 0, 0])
        .ok()
        .ok_or("a packet")?;
    put_range(&mut out, FLOW, &[(1, 0)])
        .ok()
        .ok_or("a request")?;
    assert_asks(&rt, out.octets(), None, &[ask(Width::W16, 1, 0)])
}

#[test]
fn requests_are_written_octet_for_octet(rt: HostRuntime) -> Result<(), Fail> {
    let mut out = CompoundOut::new();
    out.put_rr(7).ok().ok_or("a report")?;
    put_seqext(&mut out, FLOW, 1).ok().ok_or("an extension")?;
    put_range(&mut out, FLOW, &[(11, 3)])
        .ok()
        .ok_or("a request")?;
    put_mask(&mut out, 7, FLOW, &[(11, 7)])
        .ok()
        .ok_or("a request")?;
    let written = [
        0x81, 0xCC, 0, 3, 0x10, 0x20, 0x30, 0x40, 0x52, 0x49, 0x53, 0x54, 0, 1, 0, 0, 0x80, 0xCC,
        0, 3, 0x10, 0x20, 0x30, 0x40, 0x52, 0x49, 0x53, 0x54, 0, 11, 0, 3, 0x81, 0xCD, 0, 3, 0, 0,
        0, 7, 0x10, 0x20, 0x30, 0x40, 0, 11, 0, 7,
    ];
    assert!(rt; out.octets().len() == 56);
    assert!(rt; &out.octets()[8..] == written.as_slice());
    assert!(rt; put_range(&mut out, FLOW, &[(0, 0); 334]) == Err(Full));
    assert!(rt; put_mask(&mut out, 7, FLOW, &[(0, 0); 400]) == Err(Full));
    assert!(rt; out.octets().len() == 56);
    assert!(rt; put_range(&mut out, FLOW, &[(0, 0); 333]).is_ok());
    assert!(rt; out.octets().len() == 1400);
    Ok(())
}
