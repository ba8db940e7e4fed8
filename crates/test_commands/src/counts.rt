//! A worked capture.
use crate::parts::{NOTHING, simple_session, sink_of, source_of};
use capture_file::Reader;
use capture_walk::WalkBad;
use outside_io::{Pieces, Store8};
use rist_ends::Settings;
use rist_replay::{Replayer, count};
use std::alloc::Global;
use std::test::Fail;

/// At time 0: number 10; 11 with the timestamp 2^31, the tie that goes down; 12 with the greatest that goes up; 32,778;
/// 11 of another flow; 10 again; and no octets.
const CAPTURE: &[u8] = b"RISTCAP1\
    \x00\x00\x00\x0D\0\0\0\0\0\0\0\0\x80\x21\x00\x0A\x00\x00\x00\x00\x10\x20\x30\x40A\
    \x00\x00\x00\x0D\0\0\0\0\0\0\0\0\x80\x21\x00\x0B\x80\x00\x00\x00\x10\x20\x30\x40B\
    \x00\x00\x00\x0D\0\0\0\0\0\0\0\0\x80\x21\x00\x0C\x7F\xFF\xFF\xFF\x10\x20\x30\x40C\
    \x00\x00\x00\x0D\0\0\0\0\0\0\0\0\x80\x21\x80\x0A\x00\x00\x00\x00\x10\x20\x30\x40D\
    \x00\x00\x00\x0D\0\0\0\0\0\0\0\0\x80\x21\x00\x0B\x00\x00\x00\x00\x20\x30\x40\x50E\
    \x00\x00\x00\x0D\0\0\0\0\0\0\0\0\x80\x21\x00\x0A\x00\x00\x00\x00\x10\x20\x30\x40A\
    \x00\x00\x00\x00\0\0\0\0\0\0\0\0";

const TEXT: &[u8] =
    b"kept 1\nstranger 1\nexhausted 0\nlate 1\nbehind 0\nearly 1\ntwice 1\nspan 1\nrefused 1\n";

/// What is counted of the capture, with a delay of one second and a span of 8.
fn counted(alloc: Global, source: Pieces, mut sink: Store8) -> (Result<(), WalkBad>, Store8) {
    let mut reader = Reader::over(source);
    let settings = Settings::muted(1000, 8, 0, false);
    let end = match Replayer::with(alloc, &simple_session(), &settings) {
        Ok(replayer) => count(replayer, &mut reader, &mut sink),
        Err(_) => Err(WalkBad::Memory),
    };
    (end, sink)
}

#[test]
fn each_verdict_has_its_line(rt: HostRuntime) -> Result<(), Fail> {
    let source = source_of(rt.alloc(), CAPTURE, &NOTHING)?;
    let sink = sink_of(rt.alloc(), &NOTHING)?;
    let (end, sink) = counted(rt.alloc(), source, sink);
    assert!(rt; end == Ok(()));
    assert!(rt; sink.octets() == TEXT);
    Ok(())
}
