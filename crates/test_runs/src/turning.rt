//! A run in turns.
ghost use Rattle.std.specs.Prelude.{◌≡◌, IfOk, length};

use crate::desk::simple;
use crate::serving::{GateLink, gate_link};
use desk_run::{Ending, Run, make_in_turns};
use outside_io::Store8;
use outside_net::ScriptClock;
use rist_desk::ServingLimits;
use rist_ends::Settings;
use rist_recv::receive_in_turns;
use std::alloc::Global;
use std::process::Abort;
use std::sync::atomic::AtomicU64;
use std::sync::{Arc, Wait};
use std::test::Fail;
use std::thread::Threads;

/// Two links that share three packets, one of them on both, and of which the second read of each waits for that of the
/// other.
fn two_links(alloc: Global) -> Result<Vec<GateLink>, Fail>
    ensures two { IfOk result (λ links. length links.items ≡ 2) }
{
    let one = Arc::new(alloc, AtomicU64::new(0))?;
    let other = Arc::new(alloc, AtomicU64::new(0))?;
    let mut links = Vec::new(alloc);
    links.push(gate_link(alloc, b"AC", &one, &other)?)?;
    links.push(gate_link(alloc, b"BC", &other, &one)?)?;
    Ok(links)
}

/// Two clocks that stand at 0.
fn two_clocks(alloc: Global) -> Result<Vec<ScriptClock>, Fail>
    ensures two { IfOk result (λ clocks. length clocks.items ≡ 2) }
{
    let mut clocks = Vec::new(alloc);
    clocks.push(ScriptClock::with(alloc, &[0])?)?;
    clocks.push(ScriptClock::with(alloc, &[0])?)?;
    Ok(clocks)
}

/// A run of both links.
fn run<R: Threads + Wait + Sync>(
    rt: &R,
    alloc: Global,
    links: &mut Vec<GateLink>,
) -> Result<Run<Store8>, Fail>
    requires two { length links.old.items ≡ 2 }
{
    let mut clocks = two_clocks(alloc)?;
    let made = make_in_turns(
        alloc,
        &Settings::muted(1000, 8, 0, false),
        &simple(),
        None,
        2,
    )?;
    let sink = Store8::with(alloc, 64, &[])?;
    let limits = ServingLimits { turns: 9, idle: 0 };
    match receive_in_turns(rt, alloc, made, links, &mut clocks, sink, &limits) {
        Ok(run) => Ok(run),
        Err(_) => Err(Fail::new("out of memory")),
    }
}

#[test]
fn links_are_read_side_by_side_in_turns(rt: HostRuntime) -> Result<(), Fail> {
    let mut links = two_links(rt.alloc())?;
    let run = run(&rt, rt.alloc(), &mut links)?;
    assert!(rt; run.ending == Ending::Done);
    assert!(rt; run.sink.octets() == b"ABC".as_slice());
    assert!(rt; (run.counts.kept, run.counts.twice) == (3, 1));
    for link in &links {
        assert!(rt; !link.is_shut);
    }
    Ok(())
}
