//! Captures that are cut, and captures of octets that mean no good.
use crate::pages::{CAPTURE, PAGE, reported};
use capture_file::CapKind;
use capture_walk::WalkBad;
use outside_io::{Pieces, Store8};
use std::alloc::AllocError;
use std::test::Fail;

/// What the page says of the worked capture where its last record is cut: no octets come after 3.2 s, so that the end comes
/// after 1.6 s, and it passes 13 and 14.
const CUT_PAGE: &[u8] = b"<!DOCTYPE html>\n<html lang=en><head><meta charset=utf-8>\
<meta name=viewport content='width=device-width'>\n\
<title>RIST session</title><style>body{font-family:sans-serif;max-width:60em;margin:auto;padding:1em}\n\
th,td{text-align:left;vertical-align:top;padding:.2em .8em .2em 0}th+td{text-align:right}\n\
svg{box-sizing:border-box;width:100%;height:8em;padding:6px;border:1px solid #999;overflow:visible}\n\
table{margin-bottom:1em}path{fill:none;stroke:#000;vector-effect:non-scaling-stroke}\n\
section{break-inside:avoid}</style></head><body><h1>RIST session</h1><table>\n\
<tr><th>Length</th><td>1</td><td>s</td><td>from the first record to the last</td></tr>\n\
<tr><th>Rate</th><td>0</td><td>kbit/s</td><td>octets written, over the length</td></tr>\n\
<tr><th>Written</th><td>7</td><td>octets</td><td>payloads kept, null packets restored</td></tr>\n\
<tr><th>Sent</th><td>6</td><td>packets</td><td>numbers from the lowest kept to the highest, flow by flow</td></tr>\n\
<tr><th>First time</th><td>3</td><td>packets</td><td>kept, and no retransmission</td></tr>\n\
<tr><th>Recovered</th><td>1</td><td>packets</td><td>kept, and a retransmission</td></tr>\n\
<tr><th>Never written</th><td>2</td><td>packets</td><td>numbers passed without a packet</td></tr>\n\
<tr><th>Jitter, least</th><td>0.0</td><td>ms</td><td>time between two first-time packets, against that between their timestamps</td></tr>\n\
<tr><th>Jitter, median</th><td>0.0</td><td>ms</td><td>at most half are greater</td></tr>\n\
<tr><th>Jitter, 99%</th><td>0.0</td><td>ms</td><td>at most one in a hundred is greater</td></tr>\n\
<tr><th>Buffer, most</th><td>1,000</td><td>ms</td><td>how far ahead the packet with the highest number was due</td></tr>\n\
<tr><th>Delay used, most</th><td>1,000</td><td>ms</td><td>of the playout delay: what the buffer lacked of it before a packet that was kept</td></tr>\n\
<tr><th>Late</th><td>1</td><td>packets</td><td>came after their deadline or the playout</td></tr>\n\
<tr><th>Restarts</th><td>0</td><td>restarts</td><td>another flow took the place of the one before</td></tr>\n\
<tr><th>Bucket</th><td>1</td><td>s</td><td>of the charts below: 1 s, doubled until 4,096 are enough</td></tr>\n\
</table>\n\
<table>\n<tr><th>Link</th><th>Octets</th><th>First time</th><th>Recovered</th></tr>\n\
<tr><td>0</td><td>6</td><td>3</td><td>0</td></tr>\n<tr><td>1</td><td>3</td><td>0</td><td>1</td></tr>\n</table>\n\
<p>Each chart runs from 0 s to the end after 1 s, and its lower edge is 0. Its last bucket is cut short by the end.</p>\n\
<section><h2>Written</h2><p>Most octets in 1 s: 4</p>\n<svg role=img aria-label='Most octets in 1 s: 4' preserveAspectRatio=none viewBox='0 0 2 4'>\
<path transform='matrix(1 0 0 -1 0 4)' d='M0 0V4H1V3H2'/></svg></section>\n\
<section><h2>First time</h2><p>Most packets in 1 s: 2</p>\n<svg role=img aria-label='Most packets in 1 s: 2' preserveAspectRatio=none viewBox='0 0 2 2'>\
<path transform='matrix(1 0 0 -1 0 2)' d='M0 0V2H1V1H2'/></svg></section>\n\
<section><h2>Recovered</h2><p>Most packets in 1 s: 1</p>\n<svg role=img aria-label='Most packets in 1 s: 1' preserveAspectRatio=none viewBox='0 0 2 1'>\
<path transform='matrix(1 0 0 -1 0 1)' d='M0 0V1H1V0H2'/></svg></section>\n\
<section><h2>Never written</h2><p>Most packets in 1 s: 2</p>\n<svg role=img aria-label='Most packets in 1 s: 2' preserveAspectRatio=none viewBox='0 0 2 2'>\
<path transform='matrix(1 0 0 -1 0 2)' d='M0 0V0H1V2H2'/></svg></section>\n\
<section><h2>Late</h2><p>Most packets in 1 s: 1</p>\n<svg role=img aria-label='Most packets in 1 s: 1' preserveAspectRatio=none viewBox='0 0 2 1'>\
<path transform='matrix(1 0 0 -1 0 1)' d='M0 0V0H1V1H2'/></svg></section>\n\
<section><h2>Buffer</h2><p>Most ms in 1 s: 1,000</p>\n<svg role=img aria-label='Most ms in 1 s: 1,000' preserveAspectRatio=none viewBox='0 0 2 1000'>\
<path transform='matrix(1 0 0 -1 0 1000)' d='M0 0V1000H1V1000H2'/></svg></section>\n\
<section><h2>Delay used</h2><p>Most ms in 1 s: 1,000</p>\n<svg role=img aria-label='Most ms in 1 s: 1,000' preserveAspectRatio=none viewBox='0 0 2 1000'>\
<path transform='matrix(1 0 0 -1 0 1000)' d='M0 0V300H1V1000H2'/></svg></section>\n\
<section><h2>Link 0</h2><p>Most octets in 1 s: 3</p>\n<svg role=img aria-label='Most octets in 1 s: 3' preserveAspectRatio=none viewBox='0 0 2 3'>\
<path transform='matrix(1 0 0 -1 0 3)' d='M0 0V3H1V3H2'/></svg></section>\n\
<section><h2>Link 1</h2><p>Most octets in 1 s: 2</p>\n<svg role=img aria-label='Most octets in 1 s: 2' preserveAspectRatio=none viewBox='0 0 2 2'>\
<path transform='matrix(1 0 0 -1 0 2)' d='M0 0V1H1V2H2'/></svg></section>\n\
<section><h2>First time, link 0</h2><p>Most packets in 1 s: 2</p>\n<svg role=img aria-label='Most packets in 1 s: 2' preserveAspectRatio=none viewBox='0 0 2 2'>\
<path transform='matrix(1 0 0 -1 0 2)' d='M0 0V2H1V1H2'/></svg></section>\n\
<section><h2>Recovered, link 1</h2><p>Most packets in 1 s: 1</p>\n<svg role=img aria-label='Most packets in 1 s: 1' preserveAspectRatio=none viewBox='0 0 2 1'>\
<path transform='matrix(1 0 0 -1 0 1)' d='M0 0V1H1V0H2'/></svg></section>\n\
</body></html>\n";

/// A packet whose payload is a script.
const SCRIPT: &[u8] = b"RISTCAP1\
    \x00\x00\x00\x25\0\0\0\0\0\0\0\0\x80\x21\x00\x0A\x00\x00\x00\x00\x10\x20\x30\x40<script>alert(1)</script>";

/// Puts 100 records of drawn octets on a channel behind a capture, at the time of the worked one's last record. None is RTP
/// or RTCP: their version isn't 2.
fn push_refused(octets: &mut Vec<u8>, channel: u8) -> Result<(), AllocError> {
    let mut draw = 0x5851_F42D_4C95_7F2D_u64;
    for link in 0..100_u8 {
        draw = draw.wrapping_mul(0x5851_F42D_4C95_7F2D).wrapping_add(1);
        octets.extend_from_slice(&[link % 16, channel, 0, 16, 0, 0, 0, 0, 0, 0x30, 0xD4, 0])?;
        octets.push(link % 64)?;
        octets.extend_from_slice(&draw.to_le_bytes())?;
        octets.extend_from_slice(&[0, 21, 0xFF, 0, 0x10, 0x20, 0x30])?;
    }
    Ok(())
}

/// Puts 200 media packets of the worked flow with drawn numbers, timestamps and times behind a capture.
fn push_drawn(octets: &mut Vec<u8>) -> Result<(), AllocError> {
    let mut draw = 1_u64;
    for link in 0..200_u8 {
        draw = draw.wrapping_mul(0x5851_F42D_4C95_7F2D).wrapping_add(1);
        let [a, b, c, d, e, f, g, h] = draw.to_be_bytes();
        octets.extend_from_slice(&[link % 16, 0, 0, 20, 0, 0, 0, 0, 0, g, h, 0])?;
        octets.extend_from_slice(&[0x80, 0x21, a, b, c, d, e, f, 0x10, 0x20, 0x30, 0x40])?;
        octets.extend_from_slice(&draw.to_le_bytes())?;
    }
    Ok(())
}

#[test]
fn a_capture_that_is_cut_has_a_page_of_what_stands_before(rt: HostRuntime) -> Result<(), Fail> {
    let source = Pieces::with(rt.alloc(), &CAPTURE[..144], &[], &[])?;
    let sink = Store8::with(rt.alloc(), 8192, &[])?;
    let (end, sink) = reported(rt.alloc(), source, sink);
    assert!(rt; end == Err(WalkBad::BadCapture(CapKind::Truncated, 137)));
    assert!(rt; sink.octets() == CUT_PAGE);
    Ok(())
}

#[test]
fn what_is_none_of_the_session_changes_no_figure(rt: HostRuntime) -> Result<(), Fail> {
    let mut octets = Vec::new(rt.alloc());
    octets.extend_from_slice(CAPTURE)?;
    push_refused(&mut octets, 0)?;
    push_refused(&mut octets, 1)?;
    push_refused(&mut octets, 2)?;
    let source = Pieces::with(rt.alloc(), &octets, &[], &[])?;
    let sink = Store8::with(rt.alloc(), 8192, &[])?;
    let (end, sink) = reported(rt.alloc(), source, sink);
    assert!(rt; end == Ok(()));
    assert!(rt; sink.octets() == PAGE);
    Ok(())
}

#[test]
fn drawn_numbers_and_times_make_a_whole_page(rt: HostRuntime) -> Result<(), Fail> {
    let mut octets = Vec::new(rt.alloc());
    octets.extend_from_slice(CAPTURE)?;
    push_drawn(&mut octets)?;
    let source = Pieces::with(rt.alloc(), &octets, &[], &[])?;
    let sink = Store8::with(rt.alloc(), 4_000_000, &[])?;
    let (end, sink) = reported(rt.alloc(), source, sink);
    assert!(rt; end == Ok(()));
    assert!(rt; sink.octets().starts_with(b"<!DOCTYPE html>\n"));
    assert!(rt; sink.octets().ends_with(b"</body></html>\n"));
    Ok(())
}

#[test]
fn no_text_of_a_capture_stands_in_its_page(rt: HostRuntime) -> Result<(), Fail> {
    let source = Pieces::with(rt.alloc(), SCRIPT, &[], &[])?;
    let sink = Store8::with(rt.alloc(), 8192, &[])?;
    let (end, sink) = reported(rt.alloc(), source, sink);
    assert!(rt; end == Ok(()));
    assert!(rt;
        !sink
            .octets()
            .windows(6)
            .any(|six| six == b"script".as_slice())
    );
    assert!(rt; sink.octets().ends_with(b"</body></html>\n"));
    Ok(())
}
