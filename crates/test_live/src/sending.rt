//! What each link was given, and how a sending ended.
use crate::send_rows::{BREAKS, LENGTHS, LISTENING, REFUSALS, Row, SHARES, TUNNELS};
use link_channels::Channel;
use outside_host::{MemHost, MemParts, Place, Slot};
use outside_io::{MemSource, Pieces, Words};
use outside_net::{ScriptClock, ScriptLink};
use rist_top::{Status, plain};
use std::alloc::Global;
use std::test::Fail;

/// A transport stream of so many octets whose first packet is a null packet.
fn stream(alloc: Global, count: usize) -> Result<Vec<u8>, Fail> {
    let mut octets = Vec::with_capacity(alloc, count)?;
    for place in 0..count {
        octets.push(match place {
            1 => 0x1F,
            2 => 0xFF,
            _ => 0x47,
        })?;
    }
    Ok(octets)
}

/// A host with a source of so many octets under `-`, two links, a clock and a source of random words.
fn host(alloc: Global, row: &Row<'_>) -> Result<MemHost, Fail> {
    let octets = stream(alloc, row.octets)?;
    let mut sources = Vec::new(alloc);
    sources.push(Slot {
        name: String::from_str(alloc, "-")?,
        place: Place::Here(MemSource::Cut(Pieces::with(alloc, octets.as_slice(), &[], &[])?)),
    })?;
    let mut links = Vec::new(alloc);
    for _ in 0..2 {
        links.push(Place::Here(ScriptLink::with(
            alloc,
            Vec::new(alloc),
            row.knows,
            16,
            &[],
            row.failing,
        )?))?;
    }
    let mut clocks = Vec::new(alloc);
    clocks.push(Place::Here(ScriptClock::with(alloc, row.moments)?))?;
    let mut entropies = Vec::new(alloc);
    entropies.push(Place::Here(Words::with(alloc, &[9; 16], &[])?))?;
    Ok(MemHost::with(
        alloc,
        MemParts {
            sources,
            sinks: Vec::new(alloc),
            entropies,
            links,
            clocks,
            failing: Vec::new(alloc),
        },
    )?)
}

/// The number, modulo 256, of the packet of a media datagram, and its length. A tunnel's is told by its length alone.
fn told(channel: Channel, octets: &[u8]) -> Option<(u8, usize)> {
    match (channel, octets) {
        (Channel::Control, _) => None,
        (Channel::Tunnel, _) => Some((0, octets.len())),
        (Channel::Media, [_, _, _, number, ..]) => Some((*number, octets.len())),
        (Channel::Media, _) => Some((0, octets.len())),
    }
}

/// Whether a link took just these media datagrams, or in a tunnel these first ones.
fn has_taken(link: &ScriptLink, taken: &[(u8, usize)]) -> bool {
    let mut left = taken;
    for place in 0..16 {
        let Some((channel, octets)) = link.taken(place) else {
            return left.is_empty();
        };
        match (told(channel, octets), left) {
            (None, _) => {}
            (Some(_), []) => return channel == Channel::Tunnel,
            (Some(one), [first, rest @ ..]) => {
                if one != *first {
                    return false;
                }
                left = rest;
            }
        }
    }
    left.is_empty()
}

/// Whether a sending is as its row says.
fn is_as_told(alloc: Global, row: &Row<'_>) -> Result<bool, Fail> {
    let mut words = Vec::new(alloc);
    for word in row.line.split(' ') {
        words.push(String::from_str(alloc, word)?)?;
    }
    let mut host = host(alloc, row)?;
    let status = plain(alloc, words.as_slice(), &mut host);
    if status == Status::Memory {
        return Err(Fail::new("out of memory"));
    }
    match host.returned_link(row.link) {
        Some(link) => Ok(status.exit_code() == row.exit && has_taken(link, row.taken)),
        None => Ok(status.exit_code() == row.exit && row.taken.is_empty()),
    }
}

#[test]
fn sendings_end_and_give_as_told(rt: HostRuntime) -> Result<(), Fail> {
    let alloc = rt.alloc();
    for rows in [LENGTHS, BREAKS, REFUSALS, SHARES, TUNNELS, LISTENING] {
        for row in rows {
            assert!(rt; is_as_told(alloc, row)?, "{}", row.line);
        }
    }
    Ok(())
}
