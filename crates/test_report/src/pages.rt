//! A worked capture and its page.
ghost use Rattle.std.specs.Prelude.{◌≡◌, ◌≤◌, None};
ghost use Rattle.receiver_rules.specs.declared.bounds.TheConstants.{MAX_RESTART};
ghost use Rattle.rist_wire.specs.Session.{IsSession};

use capture_file::Reader;
use capture_walk::WalkBad;
use link_channels::Profile;
use outside_io::{Pieces, Store8};
use report_page::{PageWriter, report};
use rist_ends::Settings;
use rist_wire::{Session, Tunnel};
use seq_unwrap::Width;
use std::alloc::{AllocError, Global};
use std::test::Fail;

/// With a delay of a second: number 10 at time 0; 12 after 0.2 s; 11 after 0.5 s, a retransmission on link 1; 15 after 1.5 s,
/// when 10 to 12 are out; 12 once more after 1.6 s on link 1, which is too late; and no octets after 3.2 s, when 15 is out and
/// 13 and 14 were passed.
pub const CAPTURE: &[u8] = b"RISTCAP1\
    \x00\x00\x00\x0D\0\0\0\0\0\0\0\0\x80\x21\x00\x0A\x00\x00\x00\x00\x10\x20\x30\x40A\
    \x00\x00\x00\x0E\0\0\0\0\0\x03\x0D\x40\x80\x21\x00\x0C\x00\x00\x46\x50\x10\x20\x30\x40CC\
    \x01\x00\x00\x0D\0\0\0\0\0\x07\xA1\x20\x80\x21\x00\x0B\x00\x00\x23\x28\x10\x20\x30\x41B\
    \x00\x00\x00\x0F\0\0\0\0\0\x16\xE3\x60\x80\x21\x00\x0F\x00\x02\x0F\x58\x10\x20\x30\x40FFF\
    \x01\x00\x00\x0E\0\0\0\0\0\x18\x6A\x00\x80\x21\x00\x0C\x00\x00\x46\x50\x10\x20\x30\x40CC\
    \x00\x00\x00\x00\0\0\0\0\0\x30\xD4\x00";

/// What the page says of it.
pub const PAGE: &[u8] = b"<!DOCTYPE html>\n<html lang=en><head><meta charset=utf-8>\
<meta name=viewport content='width=device-width'>\n\
<title>RIST session</title><style>body{font-family:sans-serif;max-width:60em;margin:auto;padding:1em}\n\
th,td{text-align:left;vertical-align:top;padding:.2em .8em .2em 0}th+td{text-align:right}\n\
svg{box-sizing:border-box;width:100%;height:8em;padding:6px;border:1px solid #999;overflow:visible}\n\
table{margin-bottom:1em}path{fill:none;stroke:#000;vector-effect:non-scaling-stroke}\n\
section{break-inside:avoid}</style></head><body><h1>RIST session</h1><table>\n\
<tr><th>Length</th><td>3</td><td>s</td><td>from the first record to the last</td></tr>\n\
<tr><th>Rate</th><td>0</td><td>kbit/s</td><td>octets written, over the length</td></tr>\n\
<tr><th>Written</th><td>7</td><td>octets</td><td>payloads kept, null packets restored</td></tr>\n\
<tr><th>Sent</th><td>6</td><td>packets</td><td>numbers from the lowest kept to the highest, flow by flow</td></tr>\n\
<tr><th>First time</th><td>3</td><td>packets</td><td>kept, and no retransmission</td></tr>\n\
<tr><th>Recovered</th><td>1</td><td>packets</td><td>kept, and a retransmission</td></tr>\n\
<tr><th>Never written</th><td>2</td><td>packets</td><td>numbers passed without a packet</td></tr>\n\
<tr><th>Jitter, least</th><td>0.0</td><td>ms</td><td>time between two first-time packets, against that between their timestamps</td></tr>\n\
<tr><th>Jitter, median</th><td>0.0</td><td>ms</td><td>at most half are greater</td></tr>\n\
<tr><th>Jitter, 99%</th><td>0.0</td><td>ms</td><td>at most one in a hundred is greater</td></tr>\n\
<tr><th>Buffer, most</th><td>1,000</td><td>ms</td><td>how far ahead the packet with the highest number was due</td></tr>\n\
<tr><th>Delay used, most</th><td>1,000</td><td>ms</td><td>of the playout delay: what the buffer lacked of it before a packet that was kept</td></tr>\n\
<tr><th>Late</th><td>1</td><td>packets</td><td>came after their deadline or the playout</td></tr>\n\
<tr><th>Restarts</th><td>0</td><td>restarts</td><td>another flow took the place of the one before</td></tr>\n\
<tr><th>Bucket</th><td>1</td><td>s</td><td>of the charts below: 1 s, doubled until 4,096 are enough</td></tr>\n\
</table>\n\
<table>\n<tr><th>Link</th><th>Octets</th><th>First time</th><th>Recovered</th></tr>\n\
<tr><td>0</td><td>6</td><td>3</td><td>0</td></tr>\n<tr><td>1</td><td>3</td><td>0</td><td>1</td></tr>\n</table>\n\
<p>Each chart runs from 0 s to the end after 3 s, and its lower edge is 0. Its last bucket is cut short by the end.</p>\n\
<section><h2>Written</h2><p>Most octets in 1 s: 4</p>\n<svg role=img aria-label='Most octets in 1 s: 4' preserveAspectRatio=none viewBox='0 0 4 4'>\
<path transform='matrix(1 0 0 -1 0 4)' d='M0 0V4H1V3H2V0H3V0H4'/></svg></section>\n\
<section><h2>First time</h2><p>Most packets in 1 s: 2</p>\n<svg role=img aria-label='Most packets in 1 s: 2' preserveAspectRatio=none viewBox='0 0 4 2'>\
<path transform='matrix(1 0 0 -1 0 2)' d='M0 0V2H1V1H2V0H3V0H4'/></svg></section>\n\
<section><h2>Recovered</h2><p>Most packets in 1 s: 1</p>\n<svg role=img aria-label='Most packets in 1 s: 1' preserveAspectRatio=none viewBox='0 0 4 1'>\
<path transform='matrix(1 0 0 -1 0 1)' d='M0 0V1H1V0H2V0H3V0H4'/></svg></section>\n\
<section><h2>Never written</h2><p>Most packets in 1 s: 2</p>\n<svg role=img aria-label='Most packets in 1 s: 2' preserveAspectRatio=none viewBox='0 0 4 2'>\
<path transform='matrix(1 0 0 -1 0 2)' d='M0 0V0H1V0H2V0H3V2H4'/></svg></section>\n\
<section><h2>Late</h2><p>Most packets in 1 s: 1</p>\n<svg role=img aria-label='Most packets in 1 s: 1' preserveAspectRatio=none viewBox='0 0 4 1'>\
<path transform='matrix(1 0 0 -1 0 1)' d='M0 0V0H1V1H2V0H3V0H4'/></svg></section>\n\
<section><h2>Buffer</h2><p>Most ms in 1 s: 1,000</p>\n<svg role=img aria-label='Most ms in 1 s: 1,000' preserveAspectRatio=none viewBox='0 0 4 1000'>\
<path transform='matrix(1 0 0 -1 0 1000)' d='M0 0V1000H1V1000H2V0H3V0H4'/></svg></section>\n\
<section><h2>Delay used</h2><p>Most ms in 1 s: 1,000</p>\n<svg role=img aria-label='Most ms in 1 s: 1,000' preserveAspectRatio=none viewBox='0 0 4 1000'>\
<path transform='matrix(1 0 0 -1 0 1000)' d='M0 0V300H1V1000H2V0H3V0H4'/></svg></section>\n\
<section><h2>Link 0</h2><p>Most octets in 1 s: 3</p>\n<svg role=img aria-label='Most octets in 1 s: 3' preserveAspectRatio=none viewBox='0 0 4 3'>\
<path transform='matrix(1 0 0 -1 0 3)' d='M0 0V3H1V3H2V0H3V0H4'/></svg></section>\n\
<section><h2>Link 1</h2><p>Most octets in 1 s: 2</p>\n<svg role=img aria-label='Most octets in 1 s: 2' preserveAspectRatio=none viewBox='0 0 4 2'>\
<path transform='matrix(1 0 0 -1 0 2)' d='M0 0V1H1V2H2V0H3V0H4'/></svg></section>\n\
<section><h2>First time, link 0</h2><p>Most packets in 1 s: 2</p>\n<svg role=img aria-label='Most packets in 1 s: 2' preserveAspectRatio=none viewBox='0 0 4 2'>\
<path transform='matrix(1 0 0 -1 0 2)' d='M0 0V2H1V1H2V0H3V0H4'/></svg></section>\n\
<section><h2>Recovered, link 1</h2><p>Most packets in 1 s: 1</p>\n<svg role=img aria-label='Most packets in 1 s: 1' preserveAspectRatio=none viewBox='0 0 4 1'>\
<path transform='matrix(1 0 0 -1 0 1)' d='M0 0V1H1V0H2V0H3V0H4'/></svg></section>\n\
</body></html>\n";

/// A flow on two links and, 1.5 s after its last packet, another one. Between the packets of the first lie 10 ms, and between
/// their timestamps 5 and 8.8 ms; between those of the second 10 ms by both. Then a response comes on the first link, 50 ms
/// after the start, to a request of 20 ms, which was answered in 3 ms. The buffer lacks 10 ms of its delay before the second
/// packet, which is due 995 ms after it came, so that it lacks 15 ms before the third; and 10 ms before the last.
const TWO_FLOWS: &[u8] = b"RISTCAP1\
    \x00\x00\x00\x0D\0\0\0\0\0\0\0\0\x80\x21\x00\x00\x00\x00\x00\x00\x10\x20\x30\x40A\
    \x01\x00\x00\x0D\0\0\0\0\0\0\x27\x10\x80\x21\x00\x01\x00\x00\x01\xC2\x10\x20\x30\x40B\
    \x00\x00\x00\x0D\0\0\0\0\0\0\x4E\x20\x80\x21\x00\x02\x00\x00\x04\xDA\x10\x20\x30\x40C\
    \x00\x01\x00\x20\0\0\0\0\0\0\xC3\x50\x80\xC9\x00\x01\x10\x20\x30\x41\
    \x83\xCC\x00\x05\x10\x20\x30\x40RIST\0\0\0\0\0\0\x4E\x20\0\0\x0B\xB8\
    \x00\x00\x00\x0D\0\0\0\0\0\x17\x31\x80\x80\x21\x00\x07\x00\x01\x86\x9F\x50\x60\x70\x80D\
    \x01\x00\x00\x0D\0\0\0\0\0\x17\x58\x90\x80\x21\x00\x08\x00\x01\x8A\x23\x50\x60\x70\x80E";

/// Rows and charts of its page, where another flow may come half a second after the last packet of one.
const TWO_FLOWS_PARTS: [&str; 10] = [
    "<tr><th>Sent</th><td>5</td><td>packets</td>",
    "<tr><th>Jitter, least</th><td>0.0</td><td>ms</td>",
    "<tr><th>Jitter, median</th><td>1.2</td><td>ms</td>",
    "<tr><th>Jitter, 99%</th><td>5.0</td><td>ms</td>",
    "<tr><th>Round trips</th><td>1</td><td>samples</td>",
    "<tr><th>Round trip, most</th><td>27</td><td>ms</td>",
    "<tr><th>Delay used, most</th><td>15</td><td>ms</td>",
    "<tr><th>Restarts</th><td>1</td><td>restarts</td>",
    "<tr><td>0</td><td>3</td><td>3</td><td>0</td></tr>\n<tr><td>1</td><td>2</td><td>2</td><td>0</td></tr>\n</table>",
    "<h2>Restarts</h2><p>Most restarts in 1 s: 1</p>\n<svg role=img aria-label='Most restarts in 1 s: 1' preserveAspectRatio=none viewBox='0 0 2 1'>\
<path transform='matrix(1 0 0 -1 0 1)' d='M0 0V0H1V1H2'/>",
];

fn simple_session() -> Session
    ensures session { IsSession result }
    ensures pass { result.pass ≡ None }
{
    Session {
        profile: Profile::Simple,
        port: 1968,
        pass: None,
        bits: 128,
        nulls: false,
        width: Width::W16,
        full: false,
        tunnel: Tunnel::Own,
        echo: false,
    }
}

/// The page of a capture, with a delay of one second and a span of 2,048.
pub fn reported(alloc: Global, source: Pieces, sink: Store8) -> (Result<(), WalkBad>, Store8) {
    reported_with(alloc, 0, false, source, sink)
}

/// The same, where a flow may restart so many milliseconds after its last packet, and deadlines may follow a drifting
/// clock.
fn reported_with(
    alloc: Global,
    restart: u64,
    drift: bool,
    source: Pieces,
    mut sink: Store8,
) -> (Result<(), WalkBad>, Store8)
    requires restart { restart ≤ MAX_RESTART }
{
    let mut reader = Reader::over(source);
    let settings = Settings::muted(1000, 2048, restart, drift);
    let end = match PageWriter::with(alloc, &simple_session(), &settings) {
        Ok(writer) => report(writer, &mut reader, &mut sink),
        Err(_) => Err(WalkBad::Memory),
    };
    (end, sink)
}

#[test]
fn a_page_says_what_was_counted(rt: HostRuntime) -> Result<(), Fail> {
    let source = Pieces::with(rt.alloc(), CAPTURE, &[], &[])?;
    let sink = Store8::with(rt.alloc(), 8192, &[])?;
    let (end, sink) = reported(rt.alloc(), source, sink);
    assert!(rt; end == Ok(()));
    assert!(rt; sink.octets() == PAGE);
    Ok(())
}

/// Two windows of 1,024 packets, a millisecond each. All but the first of the first window are 5 ticks ahead of their
/// timestamps' clock, and those of the second 20 ticks behind it: so the base moves by 5 ticks to earlier with packet 1,023,
/// and with packet 2,047 to later, by the 9 that it may.
fn drifting(alloc: Global) -> Result<Vec<u8>, AllocError> {
    let mut octets = Vec::with_capacity(alloc, 8 + 2048 * 25)?;
    octets.extend_from_slice(b"RISTCAP1")?;
    for place in 0..2048_u32 {
        let stamp = match place {
            0 => 0,
            1..1024 => 90 * place + 5,
            _ => 90 * place - 20,
        };
        octets.extend_from_slice(&[0, 0, 0, 13])?;
        octets.extend_from_slice(&u64::from(1000 * place).to_be_bytes())?;
        octets.extend_from_slice(&[0x80, 0x21])?;
        octets.extend_from_slice(&(place as u16).to_be_bytes())?;
        octets.extend_from_slice(&stamp.to_be_bytes())?;
        octets.extend_from_slice(b"\x10\x20\x30\x40A")?;
    }
    Ok(octets)
}

/// Rows and charts of its page.
const DRIFTING_PARTS: [&str; 4] = [
    "<tr><th>Drift to later</th><td>9</td><td>ticks</td>",
    "<tr><th>Drift to earlier</th><td>5</td><td>ticks</td>",
    "viewBox='0 0 3 9'><path transform='matrix(1 0 0 -1 0 9)' d='M0 0V0H1V0H2V9H3'/>",
    "viewBox='0 0 3 5'><path transform='matrix(1 0 0 -1 0 5)' d='M0 0V0H1V5H2V0H3'/>",
];

/// Whether a text stands in a page.
fn is_part(page: &[u8], text: &str) -> bool {
    page.windows(text.len().max(1))
        .any(|part| part == text.as_bytes())
}

#[test]
fn a_page_says_what_links_and_flows_did(rt: HostRuntime) -> Result<(), Fail> {
    let source = Pieces::with(rt.alloc(), TWO_FLOWS, &[], &[])?;
    let sink = Store8::with(rt.alloc(), 8192, &[])?;
    let (end, sink) = reported_with(rt.alloc(), 500, false, source, sink);
    assert!(rt; end == Ok(()));
    for part in TWO_FLOWS_PARTS {
        assert!(rt; is_part(sink.octets(), part));
    }
    Ok(())
}

#[test]
fn a_page_says_where_the_base_moved(rt: HostRuntime) -> Result<(), Fail> {
    let octets = drifting(rt.alloc())?;
    for drift in [true, false] {
        let source = Pieces::with(rt.alloc(), &octets, &[], &[])?;
        let sink = Store8::with(rt.alloc(), 16384, &[])?;
        let (end, sink) = reported_with(rt.alloc(), 0, drift, source, sink);
        assert!(rt; end == Ok(()));
        for part in DRIFTING_PARTS {
            assert!(rt; is_part(sink.octets(), part) == drift);
        }
    }
    Ok(())
}

#[test]
fn a_page_that_cannot_be_written_is_a_failed_write(rt: HostRuntime) -> Result<(), Fail> {
    let source = Pieces::with(rt.alloc(), CAPTURE, &[20], &[])?;
    let sink = Store8::with(rt.alloc(), 8192, &[0])?;
    let (end, _sink) = reported(rt.alloc(), source, sink);
    assert!(rt; end == Err(WalkBad::WriteFault));
    Ok(())
}
