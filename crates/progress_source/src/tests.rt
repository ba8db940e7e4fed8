//! Worked lines, and when they come.
use crate::{Extent, Lines, Progress};
use live_source::LiveSource;
use outside_io::{Bytes, Source, Store8};
use outside_net::ScriptClock;
use std::process::Abort;
use std::test::Fail;

/// How far a source of some length was read after so many microseconds, and the line that says so.
const LINES: [(u64, Option<u64>, u64, &str); 8] = [
    (0, None, 1_000_000, "rist: 0.0 MB, 0.0 MB/s"),
    (
        1_204_000_000,
        None,
        2_000_000,
        "rist: 1204.0 MB, 602.0 MB/s",
    ),
    (149_999, None, 1_000_000, "rist: 0.1 MB, 0.1 MB/s"),
    // 35 hundredths; the other 65 take 65/35 of 3.5 s.
    (
        350_000_000,
        Some(1_000_000_000),
        3_500_000,
        "rist: 35 % of 1000.0 MB, 100.0 MB/s, 0:06 left",
    ),
    // 1 of 100 in 10 s: the other 99 take 990 s.
    (
        1_000_000,
        Some(100_000_000),
        10_000_000,
        "rist: 1 % of 100.0 MB, 0.1 MB/s, 16:30 left",
    ),
    (
        100_000_000,
        Some(100_000_000),
        1_000_000,
        "rist: 100 % of 100.0 MB, 100.0 MB/s, 0:00 left",
    ),
    // A file that grew while it was read.
    (
        200_000_000,
        Some(100_000_000),
        1_000_000,
        "rist: 100 % of 100.0 MB, 200.0 MB/s, 0:00 left",
    ),
    (
        0,
        Some(1_000_000),
        1_000_000,
        "rist: 0 % of 1.0 MB, 0.0 MB/s, 9999:59 left",
    ),
];

#[test]
fn a_line_says_how_far_it_is(rt: HostRuntime) -> Result<(), Fail> {
    for (octets, total, us, want) in LINES {
        let extent = Extent { octets, total, us };
        let text = format!(in rt.alloc(); "{extent}")?;
        assert!(rt; text.as_str() == want);
    }
    Ok(())
}

/// The moments of nine reads: a line comes at the second, the fifth and the eighth, and goes at the ninth.
const MOMENTS: [u64; 9] = [
    999_999, 1_000_000, 1_050_000, 1_099_999, 1_100_000, 1_000_000, 1_199_999, 1_300_000, 1_300_001,
];

/// What these reads of eight octets put to a terminal: each line begins with a carriage return and ends with ESC [ K.
const SHOWN: &[u8] =
    b"\rrist: 25 % of 0.0 MB, 0.0 MB/s, 0:03 left\x1b[K\rrist: 62 % of 0.0 MB, 0.0 MB/s, 0:00 left\x1b[K\rrist: 100 % of 0.0 MB, 0.0 MB/s, 0:00 left\x1b[K\r\x1b[K";

#[test]
fn a_line_comes_after_a_second_and_then_each_tenth(rt: HostRuntime) -> Result<(), Fail> {
    let alloc = rt.alloc();
    let lines = Lines::over(alloc, Store8::with(alloc, 400, &[])?);
    let clock = ScriptClock::with(alloc, &MOMENTS)?;
    let source = Bytes::with(alloc, b"abcdefgh", &[])?;
    let mut progress = Progress::over(source, Some(8), clock, lines);
    let mut octet = [0];
    for _ in MOMENTS {
        assert!(rt; progress.read(&mut octet).is_ok());
    }
    assert_shown(&rt, &progress, SHOWN);
    Ok(())
}

#[test]
fn a_source_that_is_gathered_shows_nothing(rt: HostRuntime) -> Result<(), Fail> {
    let alloc = rt.alloc();
    let lines = Lines::over(alloc, Store8::with(alloc, 400, &[])?);
    let clock = ScriptClock::with(alloc, &[2_000_000, 4_000_000])?;
    let source = Bytes::with(alloc, b"ab", &[])?;
    let mut progress = Progress::over(source, None, clock, lines);
    let mut octet = [0];
    for _ in 0..2 {
        assert!(rt; progress.gather(1));
        assert!(rt; progress.read(&mut octet) == Ok(1));
    }
    assert_shown(&rt, &progress, b"");
    Ok(())
}

/// These octets were put to the terminal.
fn assert_shown(
    rt: &impl Abort,
    progress: &Progress<Bytes, ScriptClock, Lines<Store8>>,
    want: &[u8],
) {
    let shown = match &progress.showing {
        Some(showing) => showing.outlet.sink.octets(),
        None => b"nothing",
    };
    assert!(rt; shown == want);
}
