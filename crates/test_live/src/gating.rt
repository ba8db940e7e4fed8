//! What the links that are sent on took, and how a gateway ended; and receivings whose links wait for one another.
use crate::fixtures::{brought, packet, words};
use crate::gate_rows::{BREAKS, DRAWS, ENDS, RECEIVINGS, REFUSALS, Row};
use crate::waiting::{WaitingHost, meetings, packet_taken};
use link_channels::Channel;
use outside_host::{MemHost, MemParts, Place, Slot};
use outside_io::{Store8, Words};
use outside_net::{Octets, ScriptClock, ScriptLink, ScriptRead};
use rist_top::{Status, run};
use std::alloc::Global;
use std::sync::Wait;
use std::test::Fail;
use std::thread::Threads;

/// A link that brings these packets as media, and then nothing once before its end.
fn input(alloc: Global, letters: &[u8]) -> Result<ScriptLink, Fail> {
    let mut reads = Vec::new(alloc);
    for letter in letters {
        let octets = Octets::of(alloc, &brought(*letter))?;
        reads.push(ScriptRead::Datagram(Channel::Media, octets))?;
    }
    reads.push(ScriptRead::Quiet)?;
    Ok(ScriptLink::with(alloc, reads, true, 64, &[], &[])?)
}

/// A receiver's report and description, and then a generic NACK of number 1 (RFC 4585, section 6.2.1).
const ASKS_FOR_ONE: [u8; 40] = [
    0x80, 0xC9, 0, 1, 0, 0, 0, 7, 0x81, 0xCA, 0, 3, 0, 0, 0, 7, 1, 4, 0x72, 0x69, 0x73, 0x74, 0, 0,
    0x81, 0xCD, 0, 3, 0, 0, 0, 7, 0x10, 0x20, 0x30, 0x40, 0, 1, 0, 0,
];

/// A link that takes packets, and gives that request where it is to ask.
fn output(alloc: Global, failing: &[u64], asks: bool) -> Result<ScriptLink, Fail> {
    let mut reads = Vec::new(alloc);
    if asks {
        reads.push(ScriptRead::Datagram(Channel::Control, Octets::of(alloc, &ASKS_FOR_ONE)?))?;
    }
    Ok(ScriptLink::with(alloc, reads, true, 64, &[], failing)?)
}

/// The links of a row, those that are received on first.
fn links(alloc: Global, row: &Row<'_>) -> Result<Vec<Place<ScriptLink>>, Fail> {
    let mut links = Vec::new(alloc);
    for letters in row.inputs {
        links.push(Place::Here(input(alloc, letters)?))?;
    }
    for failing in row.outputs {
        links.push(Place::Here(output(alloc, failing, row.asks_after > 0)?))?;
    }
    Ok(links)
}

/// A host with a sink under `out`, the links of the row, a clock for each that is received on, clocks that stand at 0 for
/// the others and for the sender, and a source of random words.
fn host(alloc: Global, row: &Row<'_>) -> Result<WaitingHost, Fail> {
    let mut clocks = Vec::new(alloc);
    for _ in row.inputs {
        clocks.push(Place::Here(ScriptClock::with(alloc, row.moments)?))?;
    }
    for _ in 0..3 {
        clocks.push(Place::Here(ScriptClock::with(alloc, &[])?))?;
    }
    let mut entropies = Vec::new(alloc);
    entropies.push(Place::Here(Words::with(alloc, &[9; 32], row.draws)?))?;
    let mut sinks = Vec::new(alloc);
    sinks.push(Slot {
        name: String::from_str(alloc, "out")?,
        place: Place::Here(Store8::with(alloc, 64, &[])?),
    })?;
    let parts = MemParts {
        sources: Vec::new(alloc),
        sinks,
        entropies,
        links: links(alloc, row)?,
        clocks,
        failing: Vec::new(alloc),
    };
    let meetings = if row.meet {
        meetings(alloc)?
    } else {
        Vec::new(alloc)
    };
    Ok(WaitingHost::over(MemHost::with(alloc, parts)?, row.asks_after, meetings))
}

/// Whether a link took just these packets behind that head, numbered from 0, and then number 1 again where that is told.
fn has_taken(link: &ScriptLink, head: &[u8], taken: &[u8], again: Option<u8>) -> bool {
    let mut place: usize = 0;
    let mut number: u8 = 0;
    for letter in taken {
        let wanted = packet(number, 0, 0x40, *letter);
        if packet_taken(link, head, place) != Some(wanted.as_slice()) {
            return false;
        }
        place = place.wrapping_add(1);
        number = number.wrapping_add(1);
    }
    match again {
        Some(letter) => {
            packet_taken(link, head, place) == Some(packet(1, 0, 0x41, letter).as_slice())
        }
        None => packet_taken(link, head, place).is_none(),
    }
}

/// Whether the link of a row took what the row says; one that didn't come back took nothing.
fn stands_as_told(host: &WaitingHost, row: &Row<'_>) -> bool {
    match host.returned_link(row.place) {
        Some(link) => has_taken(link, row.head, row.taken, row.again),
        None => row.taken.is_empty(),
    }
}

/// Whether the sink holds what a receiving's row says.
fn is_written_as_told(host: &WaitingHost, row: &Row<'_>) -> bool {
    match host.returned_sink("out") {
        Some(sink) => sink.octets() == row.taken,
        None => false,
    }
}

/// Whether a receiving is as its row says.
fn is_received_as_told<R: Threads + Wait + Sync>(
    rt: &R,
    alloc: Global,
    row: &Row<'_>,
) -> Result<bool, Fail> {
    let words = words(alloc, row.line)?;
    let mut host = host(alloc, row)?;
    let status = run(rt, alloc, words.as_slice(), &mut host);
    if status == Status::Memory {
        return Err(Fail::new("out of memory"));
    }
    Ok(status.exit_code() == row.exit && is_written_as_told(&host, row) && host.all_met())
}

/// Whether a gateway is as its row says.
fn is_as_told<R: Threads + Wait + Sync>(
    rt: &R,
    alloc: Global,
    row: &Row<'_>,
) -> Result<bool, Fail> {
    let words = words(alloc, row.line)?;
    let mut host = host(alloc, row)?;
    let status = run(rt, alloc, words.as_slice(), &mut host);
    if status == Status::Memory {
        return Err(Fail::new("out of memory"));
    }
    Ok(status.exit_code() == row.exit && stands_as_told(&host, row) && host.all_met())
}

#[test]
fn gateways_send_on_and_end_as_told(rt: HostRuntime) -> Result<(), Fail> {
    let alloc = rt.alloc();
    for rows in [ENDS, BREAKS, DRAWS, REFUSALS] {
        for row in rows {
            assert!(rt; is_as_told(&rt, alloc, row)?, "{}", row.line);
        }
    }
    Ok(())
}

#[test]
fn receivings_read_their_links_side_by_side(rt: HostRuntime) -> Result<(), Fail> {
    let alloc = rt.alloc();
    for row in RECEIVINGS {
        assert!(rt; is_received_as_told(&rt, alloc, row)?, "{}", row.line);
    }
    Ok(())
}
