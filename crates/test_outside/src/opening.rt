//! Links and clocks of a host in memory.
use link_channels::Profile;
use outside_host::{
    HostBad, MemHost, MemParts, Place, back_clocks, back_links, open_clocks, open_links,
};
use outside_net::{LinkSpec, Role, ScriptClock, ScriptLink};
use std::alloc::Global;
use std::net::{IpAddr, Ipv4Addr};
use std::process::Abort;
use std::test::Fail;

fn links_of(alloc: Global, count: usize) -> Result<Vec<Place<ScriptLink>>, Fail> {
    let mut links = Vec::new(alloc);
    for _ in 0..count {
        links.push(Place::Here(ScriptLink::with(alloc, Vec::new(alloc), true, 1, &[], &[])?))?;
    }
    Ok(links)
}

fn clocks_of(alloc: Global, count: usize) -> Result<Vec<Place<ScriptClock>>, Fail> {
    let mut clocks = Vec::new(alloc);
    for _ in 0..count {
        clocks.push(Place::Here(ScriptClock::with(alloc, &[])?))?;
    }
    Ok(clocks)
}

/// A host with so many links and clocks, of whose calls those of these places fail.
fn host(alloc: Global, count: usize, failing: &[u64]) -> Result<MemHost, Fail> {
    let links = links_of(alloc, count)?;
    let clocks = clocks_of(alloc, count)?;
    let failing = Vec::from_slice(alloc, failing)?;
    let parts = MemParts {
        sources: Vec::new(alloc),
        sinks: Vec::new(alloc),
        entropies: Vec::new(alloc),
        links,
        clocks,
        failing,
    };
    Ok(MemHost::with(alloc, parts)?)
}

/// Whether two links open. They are given back.
fn do_links_open(alloc: Global, host: &mut MemHost) -> Result<bool, Fail> {
    let address = IpAddr::V4(Ipv4Addr::LOCALHOST);
    let specs = [LinkSpec::at(address, 5000), LinkSpec::at(address, 5002)];
    match open_links(alloc, host, specs.as_slice(), Role::Sends, Profile::Simple) {
        Ok(links) => {
            back_links(host, links);
            Ok(true)
        }
        Err(HostBad::Failed) => Ok(false),
        Err(HostBad::NoMemory) => Err(Fail::new("out of memory")),
    }
}

fn assert_returned(rt: &impl Abort, host: &MemHost, place: u8, want: bool) {
    assert!(rt; host.returned_link(place).is_some() == want);
}

/// Of so many links, of whose openings these fail, two open as is told, and the first and the second came back so.
fn assert_links(
    rt: &impl Abort,
    alloc: Global,
    count: usize,
    failing: &[u64],
    told: (bool, bool, bool),
) -> Result<(), Fail> {
    let mut host = host(alloc, count, failing)?;
    let (opened, first, second) = told;
    assert!(rt; do_links_open(alloc, &mut host)? == opened);
    assert_returned(rt, &host, 0, first);
    assert_returned(rt, &host, 1, second);
    Ok(())
}

#[test]
fn links_open_all_or_none(rt: HostRuntime) -> Result<(), Fail> {
    assert_links(&rt, rt.alloc(), 2, &[], (true, true, true))?;
    assert_links(&rt, rt.alloc(), 1, &[], (false, true, false))?;
    assert_links(&rt, rt.alloc(), 2, &[1], (false, true, false))?;
    assert_links(&rt, rt.alloc(), 2, &[0], (false, false, false))
}

/// Whether two clocks come. They are given back.
fn do_clocks_come(alloc: Global, host: &mut MemHost) -> Result<bool, Fail> {
    match open_clocks(alloc, host, 2) {
        Ok(clocks) => {
            back_clocks(host, clocks);
            Ok(true)
        }
        Err(HostBad::Failed) => Ok(false),
        Err(HostBad::NoMemory) => Err(Fail::new("out of memory")),
    }
}

/// Of so many clocks, of whose openings these fail, two come as is told, and none is left to be handed out twice.
fn assert_clocks(
    rt: &impl Abort,
    alloc: Global,
    count: usize,
    failing: &[u64],
    told: bool,
) -> Result<(), Fail> {
    let mut host = host(alloc, count, failing)?;
    assert!(rt; do_clocks_come(alloc, &mut host)? == told);
    assert!(rt; open_clocks(alloc, &mut host, 2).is_err());
    Ok(())
}

#[test]
fn clocks_come_all_or_none(rt: HostRuntime) -> Result<(), Fail> {
    assert_clocks(&rt, rt.alloc(), 2, &[], true)?;
    assert_clocks(&rt, rt.alloc(), 1, &[], false)?;
    assert_clocks(&rt, rt.alloc(), 2, &[1], false)
}
