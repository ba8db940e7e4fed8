//! What the sink holds, what came back, and how a receiving ended.
use crate::fixtures::{brought, words};
use crate::receive_rows::{BREAKS, Brings, DRAWS, ENDS, REFUSALS, Row};
use link_channels::Channel;
use outside_host::{CountsText, Host, MemHost, MemParts, Place, Slot};
use outside_io::{Store8, Words};
use outside_net::{Octets, ScriptClock, ScriptLink, ScriptRead};
use rist_top::{Status, run};
use std::alloc::Global;
use std::sync::Wait;
use std::test::Fail;
use std::thread::Threads;

/// A link that brings these packets as media.
fn link(alloc: Global, brings: &Brings<'_>) -> Result<ScriptLink, Fail> {
    let mut reads = Vec::new(alloc);
    for letter in brings.letters {
        let octets = Octets::of(alloc, &brought(*letter))?;
        reads.push(ScriptRead::Datagram(Channel::Media, octets))?;
    }
    Ok(ScriptLink::with(alloc, reads, true, 64, brings.failing, &[])?)
}

/// A host with a sink under `out`, the links of the row, for each a clock that stands at 0, and a source of random
/// words.
fn host(alloc: Global, row: &Row<'_>) -> Result<MemHost, Fail> {
    let mut sinks = Vec::new(alloc);
    sinks.push(Slot {
        name: String::from_str(alloc, "out")?,
        place: Place::Here(Store8::with(alloc, 64, row.puts)?),
    })?;
    let mut links = Vec::new(alloc);
    let mut clocks = Vec::new(alloc);
    for brings in row.links {
        links.push(Place::Here(link(alloc, brings)?))?;
        clocks.push(Place::Here(ScriptClock::with(alloc, &[])?))?;
    }
    let mut entropies = Vec::new(alloc);
    entropies.push(Place::Here(Words::with(alloc, &[9; 16], row.draws)?))?;
    Ok(MemHost::with(
        alloc,
        MemParts {
            sources: Vec::new(alloc),
            sinks,
            entropies,
            links,
            clocks,
            failing: Vec::new(alloc),
        },
    )?)
}

/// Whether every link of the row came back, or none of them did.
fn have_come_back(host: &MemHost, row: &Row<'_>, back: bool) -> bool {
    let mut place = 0;
    for _ in row.links {
        if host.returned_link(place).is_some() != back {
            return false;
        }
        place = place.wrapping_add(1);
    }
    true
}

/// Whether the host has its sink and its links as the row says.
fn stands_as_told(host: &mut MemHost, row: &Row<'_>) -> bool {
    if !have_come_back(host, row, row.written.is_some()) {
        return false;
    }
    match (host.returned_sink("out"), row.written) {
        (Some(sink), Some(octets)) => sink.octets() == octets,
        (None, None) => host.sink("out").is_ok(),
        _ => false,
    }
}

/// Whether the receiver counted as the row says, if it says so.
fn is_counted_as_told(alloc: Global, host: &MemHost, row: &Row<'_>) -> Result<bool, Fail> {
    match (host.reported(), row.counted) {
        (_, None) => Ok(true),
        (Some(counts), Some(counted)) => {
            let text = format!(in alloc; "{}", CountsText(counts))?;
            Ok(text.as_str() == counted)
        }
        (None, Some(_)) => Ok(false),
    }
}

/// Whether a receiving is as its row says.
fn is_as_told<R: Threads + Wait + Sync>(
    rt: &R,
    alloc: Global,
    row: &Row<'_>,
) -> Result<bool, Fail> {
    let words = words(alloc, row.line)?;
    let mut host = host(alloc, row)?;
    let status = run(rt, alloc, words.as_slice(), &mut host);
    if status == Status::Memory {
        return Err(Fail::new("out of memory"));
    }
    Ok(
        status.exit_code() == row.exit
            && is_counted_as_told(alloc, &host, row)?
            && stands_as_told(&mut host, row),
    )
}

#[test]
fn receivings_end_and_write_as_told(rt: HostRuntime) -> Result<(), Fail> {
    let alloc = rt.alloc();
    for rows in [ENDS, BREAKS, DRAWS, REFUSALS] {
        for row in rows {
            assert!(rt; is_as_told(&rt, alloc, row)?, "{}", row.line);
        }
    }
    Ok(())
}
