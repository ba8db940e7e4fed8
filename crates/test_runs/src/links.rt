//! Links in memory that bring a packet for each letter, and workers.
use crate::desk::simple;
use link_channels::Channel;
use outside_net::{Octets, ScriptClock, ScriptLink, ScriptRead};
use rist_desk::Worker;
use rist_wire::Opener;
use std::alloc::Global;
use std::test::Fail;

/// An RTP packet of one letter: A has number 10, B 11, and so on, 10 ms apart.
pub fn packet(letter: u8) -> [u8; 13] {
    let place = letter.wrapping_sub(b'A');
    let [high, low] = (place as u16).wrapping_mul(900).to_be_bytes();
    [
        0x80,
        0x21,
        0,
        place.wrapping_add(10),
        0,
        0,
        high,
        low,
        0x10,
        0x20,
        0x30,
        0x40,
        letter,
    ]
}

/// A link that brings the packets of these letters, and of which these reads fail.
pub fn link(alloc: Global, letters: &[u8], failing: &[u64]) -> Result<ScriptLink, Fail> {
    let mut reads = Vec::new(alloc);
    for letter in letters {
        let octets = Octets::of(alloc, &packet(*letter))?;
        reads.push(ScriptRead::Datagram(Channel::Media, octets))?;
    }
    Ok(ScriptLink::with(alloc, reads, true, 64, failing, &[])?)
}

/// A worker whose clock stands at 0.
pub fn worker<L: Drop, U: Drop>(
    alloc: Global,
    link: L,
    trace: U,
) -> Result<Worker<L, ScriptClock, U>, Fail> {
    Ok(Worker {
        link,
        clock: ScriptClock::with(alloc, &[0])?,
        opener: Opener::with(alloc, &simple())?,
        trace,
        end: None,
    })
}
