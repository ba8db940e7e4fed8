//! Sinks of a host in memory, opened under several names.
ghost use Rattle.std.specs.Prelude.{◌≡◌, length, map};
ghost use Rattle.outside_host.specs.Sinks.{AreDifferent};

use crate::asserts::{assert_octets, assert_put};
use outside_host::{Host, HostBad, MemHost, MemParts, Place, Slot, back_sinks, open_sinks};
use outside_io::Store8;
use std::alloc::Global;
use std::process::Abort;
use std::test::Fail;

/// A host with an empty sink under each of these names, of whose calls those of these places fail.
fn host(alloc: Global, names: &[&str], failing: &[u64]) -> Result<MemHost, Fail> {
    let mut sinks = Vec::new(alloc);
    for name in names {
        sinks.push(Slot {
            name: String::from_str(alloc, name)?,
            place: Place::Here(Store8::with(alloc, 4, &[])?),
        })?;
    }
    let parts = MemParts {
        sources: Vec::new(alloc),
        sinks,
        entropies: Vec::new(alloc),
        links: Vec::new(alloc),
        clocks: Vec::new(alloc),
        failing: Vec::from_slice(alloc, failing)?,
    };
    Ok(MemHost::with(alloc, parts)?)
}

/// Each sink takes its place as an octet.
fn put_places(rt: &impl Abort, sinks: &mut [Store8]) {
    let mut place = 0;
    for sink in sinks.iter_mut() {
        assert_put(rt, sink, &[place], Ok(()));
        place = place.wrapping_add(1);
    }
}

/// Opens the sinks of these names, each of which takes its place as an octet, and gives them back.
fn pass(rt: &impl Abort, alloc: Global, host: &mut MemHost, names: &[&str]) -> Result<(), HostBad>
    requires different { AreDifferent (map (λ name. name.now) names.now) }
{
    match open_sinks(alloc, host, names) {
        Ok(mut sinks) => {
            put_places(rt, &mut sinks);
            back_sinks(host, names, sinks);
            Ok(())
        }
        Err(bad) => Err(bad),
    }
}

/// Three names in order.
#[tactic(auto, using(crate::proofs::NameLemmas::names_differ))]
fn pass_three(rt: &impl Abort, alloc: Global, host: &mut MemHost) -> Result<(), HostBad> {
    pass(rt, alloc, host, ["a.ts", "b.ts", "-"].as_slice())
}

/// Eight names in order.
#[tactic(auto, using(crate::proofs::NameLemmas::names_differ))]
fn pass_eight(rt: &impl Abort, alloc: Global, host: &mut MemHost) -> Result<(), HostBad> {
    pass(
        rt,
        alloc,
        host,
        ["a", "b", "c", "d", "e", "f", "g", "h"].as_slice(),
    )
}

/// The sink of this name came back with these octets.
fn assert_back(rt: &impl Abort, host: &MemHost, name: &str, want: &[u8]) -> Result<(), Fail> {
    let sink = host.returned_sink(name).ok_or("no sink came back")?;
    assert_octets(rt, sink.octets(), want);
    Ok(())
}

/// No sink came back under this name.
fn assert_not_back(rt: &impl Abort, host: &MemHost, name: &str) {
    assert!(rt; host.returned_sink(name).is_none());
}

fn assert_handed_out(rt: &impl Abort, host: &mut MemHost, name: &str) {
    assert!(rt; host.sink(name).is_ok(), "{name}");
}

#[test]
fn three_sinks_open_and_come_back_under_their_names(rt: HostRuntime) -> Result<(), Fail> {
    let alloc = rt.alloc();
    let mut host = host(alloc, ["-", "c.ts", "a.ts", "b.ts"].as_slice(), &[])?;
    assert!(rt; pass_three(&rt, alloc, &mut host).is_ok());
    assert_back(&rt, &host, "a.ts", &[0])?;
    assert_back(&rt, &host, "b.ts", &[1])?;
    assert_back(&rt, &host, "-", &[2])?;
    assert_handed_out(&rt, &mut host, "c.ts");
    Ok(())
}

/// Of a host with these sinks, of whose calls those of these places fail, the second of three can't be opened. The
/// first came back as it was, and the third is still there to be handed out.
fn assert_none_open(
    rt: &impl Abort,
    alloc: Global,
    names: &[&str],
    failing: &[u64],
) -> Result<(), Fail> {
    let mut host = host(alloc, names, failing)?;
    assert!(rt; pass_three(rt, alloc, &mut host) == Err(HostBad::Failed));
    assert_back(rt, &host, "a.ts", &[])?;
    assert_not_back(rt, &host, "-");
    assert_handed_out(rt, &mut host, "-");
    Ok(())
}

#[test]
fn where_one_sink_cannot_be_opened_none_is(rt: HostRuntime) -> Result<(), Fail> {
    let alloc = rt.alloc();
    assert_none_open(&rt, alloc, ["a.ts", "-"].as_slice(), &[])?;
    assert_none_open(&rt, alloc, ["a.ts", "b.ts", "-"].as_slice(), &[1])
}

#[test]
fn eight_sinks_open(rt: HostRuntime) -> Result<(), Fail> {
    let alloc = rt.alloc();
    let names = ["h", "g", "f", "e", "d", "c", "b", "a"];
    let mut host = host(alloc, names.as_slice(), &[8])?;
    assert!(rt; pass_eight(&rt, alloc, &mut host).is_ok());
    assert_back(&rt, &host, "a", &[0])?;
    assert_back(&rt, &host, "h", &[7])?;
    assert!(rt; host.sink("i").is_err());
    Ok(())
}
