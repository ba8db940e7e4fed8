//! Compounds octet for octet: the report and the request of a known run, requests of wide numbers on both sides of a
//! boundary, and an answer.
ghost use Rattle.std.specs.Prelude.{◌≡◌};

use request_rules::{AskWord, NackKind};
use rist_reporter::{Report, answer_compound, tick_compound};
use rist_rtt::{first_request, first_response};
use rtcp_compound::Compound;
use seq_unwrap::Width;
use std::test::Fail;

// A report of flow 10203040 with SSRC 7.
fn report(is_report: bool, kind: NackKind, width: Width, words: &[AskWord]) -> Report<'_>
    ensures { result.words.now ≡ words.now }
{
    Report {
        own: 7,
        flow: Some(0x1020_3040),
        is_report,
        micros: 1_000_000,
        kind,
        width,
        words,
    }
}

#[test]
fn a_report_asks_for_the_round_trip_time_and_what_is_missing(rt: HostRuntime) {
    // 11 to 14 are missing.
    let words = [AskWord {
        first: (1 << 40) + 11,
        second: 3,
    }];
    let out = tick_compound(&report(true, NackKind::Range, Width::W16, &words));
    let want = [
        0x80, 0xC9, 0, 1, 0, 0, 0, 7, 0x81, 0xCA, 0, 3, 0, 0, 0, 7, 1, 4, b'r', b'i', b's', b't',
        0, 0, 0x82, 0xCC, 0, 5, 0x10, 0x20, 0x30, 0x40, b'R', b'I', b'S', b'T', 0, 0, 0, 0, 0,
        0x0F, 0x42, 0x40, 0, 0, 0, 0, 0x80, 0xCC, 0, 3, 0x10, 0x20, 0x30, 0x40, b'R', b'I', b'S',
        b'T', 0, 11, 0, 3,
    ];
    assert!(rt; out.octets() == want.as_slice());
}

#[test]
fn wide_requests_stand_on_both_sides_of_a_boundary(rt: HostRuntime) {
    // The last number of a cycle of 32 bits, and the third of the next one: masks of SSRC 7.
    let words = [
        AskWord {
            first: (1 << 40) + 0xFFFF_FFFF,
            second: 0,
        },
        AskWord {
            first: (1 << 40) + 0x1_0000_0002,
            second: 5,
        },
    ];
    let out = tick_compound(&report(false, NackKind::Mask, Width::W32, &words));
    let want = [
        0x80, 0xC9, 0, 1, 0, 0, 0, 7, 0x81, 0xCA, 0, 3, 0, 0, 0, 7, 1, 4, b'r', b'i', b's', b't',
        0, 0, 0x81, 0xCC, 0, 3, 0x10, 0x20, 0x30, 0x40, b'R', b'I', b'S', b'T', 0xFF, 0xFF, 0, 0,
        0x81, 0xCD, 0, 3, 0, 0, 0, 7, 0x10, 0x20, 0x30, 0x40, 0xFF, 0xFF, 0, 0, 0x81, 0xCC, 0, 3,
        0x10, 0x20, 0x30, 0x40, b'R', b'I', b'S', b'T', 0, 0, 0, 0, 0x81, 0xCD, 0, 3, 0, 0, 0, 7,
        0x10, 0x20, 0x30, 0x40, 0, 2, 0, 5,
    ];
    assert!(rt; out.octets() == want.as_slice());
}

#[test]
fn the_first_request_is_answered_whatever_its_ssrc(rt: HostRuntime) -> Result<(), Fail> {
    // A report, an answer, a request of SSRC 9 with a delay and two further words, and one more request.
    let octets = [
        0x80, 0xC9, 0, 1, 0, 0, 0, 8, 0x83, 0xCC, 0, 5, 0, 0, 0, 5, b'R', b'I', b'S', b'T', 0, 0,
        0, 0, 0, 0, 0, 4, 0, 0, 0, 3, 0x82, 0xCC, 0, 7, 0, 0, 0, 9, b'R', b'I', b'S', b'T', 1, 2,
        3, 4, 5, 6, 7, 8, 0x82, 0xCC, 0, 5, 0xA, 0xB, 0xC, 0xD, 0xE, 0xF, 0x10, 0x11, 0x82, 0xCC,
        0, 5, 0x10, 0x20, 0x30, 0x40, b'R', b'I', b'S', b'T', 0, 0, 0, 0, 0, 0x0F, 0x42, 0x40, 0,
        0, 0, 0,
    ];
    let compound = Compound::read(&octets).ok().ok_or("a compound")?;
    let response = first_response(&compound).ok_or("a response")?;
    assert!(rt; (response.stamp, response.delay) == (4, 3));
    let request = first_request(&compound).ok_or("a request")?;
    let out = answer_compound(7, &request);
    let want = [
        0x80, 0xC9, 0, 1, 0, 0, 0, 7, 0x81, 0xCA, 0, 3, 0, 0, 0, 7, 1, 4, b'r', b'i', b's', b't',
        0, 0, 0x83, 0xCC, 0, 7, 0, 0, 0, 9, b'R', b'I', b'S', b'T', 1, 2, 3, 4, 5, 6, 7, 8, 0, 0,
        0, 0, 0xA, 0xB, 0xC, 0xD, 0xE, 0xF, 0x10, 0x11,
    ];
    assert!(rt; out.octets() == want.as_slice());
    Ok(())
}
