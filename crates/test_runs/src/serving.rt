//! Workers in threads of their own.
ghost use Rattle.std.specs.Prelude.{◌<◌, ◌≤◌, length, Some};
ghost use Rattle.rist_desk.specs.Desk.{IsNew, state_of};

use crate::desk::{count_of, simple};
use crate::links::{link, worker};
use link_channels::Channel;
use outside_io::{Failed, Sink, Store8};
use outside_net::{Full, Got, Link, ListTrace, ScriptClock, ScriptLink, Trace};
use receiver_rules::Verdict;
use rist_desk::{Desk, DeskOrigin, Ended, Mark, ServingLimits, Step, Worker, serve};
use rist_ends::{Answer, Outs, Receiver, Settings};
use std::alloc::Global;
use std::marker::Brand;
use std::process::Abort;
use std::sync::atomic::{AtomicU64, Ordering};
use std::sync::{Arc, Mutex, Wait};
use std::test::Fail;
use std::thread::Threads;

/// How often a read looks for the other link's.
const LOOKS: u64 = 1_000_000_000;

/// A link in memory whose second read waits until the other link's second read was entered.
#[derive(Drop)]
pub struct GateLink {
    inner: ScriptLink,
    reads: u64,
    own: Arc<AtomicU64, Global>,
    other: Arc<AtomicU64, Global>,
    /// It waited in vain.
    pub is_shut: bool,
}

/// Whether the other's second read is entered, before the looks are spent.
fn is_entered(other: &AtomicU64) -> bool {
    for _ in 0..LOOKS {
        if other.load(Ordering::SeqCst) != 0 {
            return true;
        }
    }
    false
}

impl Link for GateLink {
    ghost use Rattle.outside_net.specs.Scripts.{answers_of, knows_in};

    ghost reads = { λ link. Some (answers_of link.inner.reads link.inner.script) };

    ghost taken = { λ link. Some link.inner.taken };

    ghost knows = { λ link. knows_in link.inner.known };

    ghost knew = { λ link. knows_in link.inner.before };

    ghost faults = { λ link. link.inner.faults };

    ghost ends = { λ link. link.inner.ends };

    fn read(&mut self, buf: &mut [u8; 2048]) -> Got {
        self.reads = self.reads.saturating_add(1);
        if self.reads == 2 {
            self.own.store(1, Ordering::SeqCst);
            self.is_shut = !is_entered(&self.other);
        }
        self.inner.read(buf)
    }

    fn refuse(&mut self) {
        self.inner.refuse();
    }

    fn write(&mut self, channel: Channel, octets: &[u8]) -> Result<bool, Failed> {
        self.inner.write(channel, octets)
    }
}

/// A worker of a link that brings these letters.
fn plain(
    alloc: Global,
    letters: &[u8],
) -> Result<Worker<ScriptLink, ScriptClock, ListTrace<Step>>, Fail> {
    worker(
        alloc,
        link(alloc, letters, &[])?,
        ListTrace::with(alloc, 8)?,
    )
}

/// A link behind a gate.
pub fn gate_link(
    alloc: Global,
    letters: &[u8],
    own: &Arc<AtomicU64, Global>,
    other: &Arc<AtomicU64, Global>,
) -> Result<GateLink, Fail> {
    Ok(GateLink {
        inner: link(alloc, letters, &[])?,
        reads: 0,
        own: Arc::try_clone(own)?,
        other: Arc::try_clone(other)?,
        is_shut: false,
    })
}

/// A worker behind a gate.
fn gated(
    alloc: Global,
    letters: &[u8],
    own: &Arc<AtomicU64, Global>,
    other: &Arc<AtomicU64, Global>,
) -> Result<Worker<GateLink, ScriptClock, ListTrace<Step>>, Fail> {
    worker(
        alloc,
        gate_link(alloc, letters, own, other)?,
        ListTrace::with(alloc, 8)?,
    )
}

/// What was answered at the end, and what trace and sink hold.
#[derive(Drop)]
struct Run {
    last: Result<Answer, Full>,
    trace: ListTrace<Step>,
    sink: Store8,
}

/// Tells the end.
fn ended<N: DeskOrigin>(desk: Desk<N, ListTrace<Step>, Store8>) -> Run {
    let mut outs = Outs::none();
    let (last, _receiver, trace, sink) = desk.finish(&mut outs);
    Run { last, trace, sink }
}

/// Serves all, and tells the end.
fn served<N: DeskOrigin + Send + Sync, L: Link + Drop + Send, R: Threads + Wait + Sync>(
    rt: &R,
    receiver: Receiver,
    trace: ListTrace<Step>,
    sink: Store8,
    workers: &mut [Worker<L, ScriptClock, ListTrace<Step>>],
) -> Run
    requires fresh { IsNew N.given
        (state_of receiver (Some trace.items) (Some trace.limit) (Some sink.contents) sink.calls.faults) }
    requires some { 0 < length workers.old }
    requires few { length workers.old ≤ 16 }
{
    let desk: Mutex<Desk<N, ListTrace<Step>, Store8>> = Mutex::new(Desk::with(
        receiver, trace, sink,
    ));
    let limits = ServingLimits { turns: 9, idle: 0 };
    serve(rt, workers, &desk, &limits);
    ended(desk.into_inner())
}

/// The same of a new receiver.
fn served_anew<L: Link + Drop + Send, R: Threads + Wait + Sync>(
    rt: &R,
    alloc: Global,
    workers: &mut [Worker<L, ScriptClock, ListTrace<Step>>],
) -> Result<Run, Fail>
    requires some { 0 < length workers.old }
    requires few { length workers.old ≤ 16 }
{
    let receiver = Receiver::with(alloc, &Settings::muted(1000, 8, 0, false), &simple(), None)?;
    let trace: ListTrace<Step> = ListTrace::with(alloc, 64)?;
    let sink = Store8::with(alloc, 64, &[])?;
    Ok(served::<Brand, L, R>(rt, receiver, trace, sink, workers))
}

/// All was written in order, one packet came twice, and every step is kept.
fn expect_merged(rt: &impl Abort, run: &Run) {
    assert!(rt; run.sink.octets() == b"ABC".as_slice());
    assert!(rt; run.last == Ok(Answer::Nothing));
    let steps = run.trace.kept();
    assert!(rt; steps.len() == 7);
    assert!(rt; count_of(steps, Mark::Verdict(Verdict::Twice)) == 1);
}

/// Whether it made both packets' steps and a tick, and came to the end of its link.
fn is_done<L>(worker: &Worker<L, ScriptClock, ListTrace<Step>>) -> bool {
    worker.end == Some(Ended::End) && worker.trace.kept().len() == 3
}

#[test]
fn links_are_read_side_by_side(rt: HostRuntime) -> Result<(), Fail> {
    let alloc = rt.alloc();
    let one = Arc::new(alloc, AtomicU64::new(0))?;
    let other = Arc::new(alloc, AtomicU64::new(0))?;
    let mut workers = Vec::new(alloc);
    workers.push(gated(alloc, b"AC", &one, &other)?)?;
    workers.push(gated(alloc, b"BC", &other, &one)?)?;
    let run = served_anew(&rt, alloc, &mut workers)?;
    expect_merged(&rt, &run);
    for worker in &workers {
        assert!(rt; !worker.link.is_shut && is_done(worker));
    }
    Ok(())
}

#[test]
fn links_in_memory_are_served(rt: HostRuntime) -> Result<(), Fail> {
    let alloc = rt.alloc();
    let mut workers = Vec::new(alloc);
    workers.push(plain(alloc, b"AC")?)?;
    workers.push(plain(alloc, b"BC")?)?;
    let run = served_anew(&rt, alloc, &mut workers)?;
    expect_merged(&rt, &run);
    for worker in &workers {
        assert!(rt; worker.link.is_unwritten() && is_done(worker));
    }
    Ok(())
}
