//! What several tests assert.
use link_channels::{Channel, MAX_DATAGRAM};
use outside_io::{Failed, Source};
use outside_net::{Got, Link};
use std::process::Abort;

/// These are the octets that are wanted.
pub fn assert_octets(rt: &impl Abort, octets: &[u8], want: &[u8]) {
    assert!(rt; octets == want);
}

/// The next read answers so.
pub fn assert_read<S: Source>(
    rt: &impl Abort,
    source: &mut S,
    block: &mut [u8],
    want: Result<usize, Failed>,
) {
    assert!(rt; source.read(block) == want);
}

/// The link's next read answers so.
pub fn assert_got<L: Link>(
    rt: &impl Abort,
    link: &mut L,
    block: &mut [u8; MAX_DATAGRAM],
    want: Got,
) {
    assert!(rt; link.read(block) == want);
}

/// The link answers to this datagram so.
pub fn assert_written<L: Link>(
    rt: &impl Abort,
    link: &mut L,
    channel: Channel,
    octets: &[u8],
    want: Result<bool, Failed>,
) {
    assert!(rt; link.write(channel, octets) == want);
}
