//! What several tests assert.
use outside_io::{Failed, Sink, Source};
use std::process::Abort;

/// These are the octets that are wanted.
pub fn assert_octets(rt: &impl Abort, octets: &[u8], want: &[u8]) {
    assert!(rt; octets == want);
}

/// The next read answers so.
pub fn assert_read<S: Source>(
    rt: &impl Abort,
    source: &mut S,
    block: &mut [u8],
    want: Result<usize, Failed>,
) {
    assert!(rt; source.read(block) == want);
}

/// The next read gives these octets, at the front of the block.
pub fn assert_given<S: Source>(rt: &impl Abort, source: &mut S, block: &mut [u8], want: &[u8]) {
    assert_read(rt, source, block, Ok(want.len()));
    assert!(rt; block.get(..want.len()) == Some(want));
}

/// The sink answers to these octets so.
pub fn assert_put<K: Sink>(rt: &impl Abort, sink: &mut K, octets: &[u8], want: Result<(), Failed>) {
    assert!(rt; sink.put(octets) == want);
}
