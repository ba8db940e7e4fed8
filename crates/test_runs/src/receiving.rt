//! Runs of two links in memory.
ghost use Rattle.std.specs.Prelude.{◌≡◌, vec_len, List, [], Some, IfOk};
ghost use Rattle.rist_desk.specs.declared.step.Step.{Step};

use crate::desk::{count_of, simple};
use crate::links::{link, worker};
use desk_run::{Ending, Received};
use outside_io::Store8;
use outside_net::{ListTrace, ScriptClock, ScriptLink, Trace};
use receiver_rules::Verdict;
use rist_desk::{Event, Mark, ServingLimits, Step, StepTrace, Worker};
use rist_ends::{Receiver, Settings};
use rist_recv::receive;
use std::alloc::Global;
use std::process::Abort;
use std::sync::Wait;
use std::test::Fail;
use std::thread::Threads;

/// What a link brings, and the reads of it that fail.
type Brings = (&'static [u8], &'static [u64]);

const BOTH: (Brings, Brings) = ((b"AC", &[]), (b"BC", &[]));

/// The workers of two links.
fn two<U: Drop>(
    alloc: Global,
    links: (Brings, Brings),
    traces: (U, U),
) -> Result<Vec<Worker<ScriptLink, ScriptClock, U>>, Fail>
    ensures two { IfOk result (λ workers. vec_len workers ≡ 2) }
{
    let (first, second) = traces;
    let mut workers = Vec::new(alloc);
    workers.push(worker(alloc, link(alloc, links.0.0, links.0.1)?, first)?)?;
    workers.push(worker(alloc, link(alloc, links.1.0, links.1.1)?, second)?)?;
    Ok(workers)
}

/// A run of two links into a sink of which these puts fail.
fn run<U: StepTrace + Drop + Send, R: Threads + Wait + Sync>(
    rt: &R,
    alloc: Global,
    links: (Brings, Brings),
    traces: (U, U),
    trace: U,
    failing: &[u64],
) -> Result<Received<U, Store8>, Fail>
    requires empty { (steps : List Step) → U.list trace ≡ Some steps → steps ≡ [] }
{
    let receiver = Receiver::with(alloc, &Settings::muted(1000, 8, 0, false), &simple(), None)?;
    let sink = Store8::with(alloc, 64, failing)?;
    let mut workers = two(alloc, links, traces)?;
    let limits = ServingLimits { turns: 9, idle: 0 };
    Ok(receive(rt, receiver, trace, &mut workers, sink, &limits))
}

/// The same, with traces of so many steps.
fn run_kept<R: Threads + Wait + Sync>(
    rt: &R,
    alloc: Global,
    links: (Brings, Brings),
    keep: usize,
    failing: &[u64],
) -> Result<Received<ListTrace<Step>, Store8>, Fail> {
    let traces = (ListTrace::with(alloc, keep)?, ListTrace::with(alloc, keep)?);
    run(
        rt,
        alloc,
        links,
        traces,
        ListTrace::with(alloc, keep)?,
        failing,
    )
}

/// A run ended so, and wrote these octets.
fn expect_end(rt: &impl Abort, ending: &Ending, sink: &Store8, end: End, octets: &[u8]) {
    assert!(rt; *ending == ending_of(end));
    assert!(rt; sink.octets() == octets);
}

/// The endings that rows name.
#[derive(Clone, Copy)]
enum End {
    Done,
    LinksDown,
    TraceFull,
    WriteFault,
}

fn ending_of(end: End) -> Ending {
    match end {
        End::Done => Ending::Done,
        End::LinksDown => Ending::LinksDown,
        End::TraceFull => Ending::TraceFull,
        End::WriteFault => Ending::WriteFault,
    }
}

/// What the links bring, the traces' limit, the puts that fail, and then the ending and what the sink holds.
static ENDINGS: [((Brings, Brings), usize, &[u64], End, &[u8]); 6] = [
    (BOTH, 64, &[], End::Done, b"ABC"),
    (((b"", &[0]), (b"ABC", &[])), 64, &[], End::Done, b"ABC"),
    (((b"A", &[0]), (b"B", &[0])), 64, &[], End::LinksDown, b""),
    (((b"A", &[0]), (b"B", &[1])), 64, &[], End::LinksDown, b"B"),
    (BOTH, 1, &[], End::TraceFull, b""),
    (BOTH, 64, &[1], End::WriteFault, b"A"),
];

#[test]
fn the_first_ending_that_fits_is_answered(rt: HostRuntime) -> Result<(), Fail> {
    for (links, keep, failing, end, octets) in &ENDINGS {
        let received = run_kept(&rt, rt.alloc(), *links, *keep, failing)?;
        expect_end(&rt, &received.ending, &received.sink, *end, octets);
    }
    Ok(())
}

/// Four packets, of which one came twice, each link's first tick, and the end.
fn expect_one_list(rt: &impl Abort, steps: &[Step]) -> Result<(), Fail> {
    assert!(rt; steps.len() == 7);
    assert!(rt; count_of(steps, Mark::Verdict(Verdict::Twice)) == 1);
    let last = steps.last().ok_or("no step")?;
    assert!(rt; last.what == Event::End);
    Ok(())
}

#[test]
fn two_links_make_one_list(rt: HostRuntime) -> Result<(), Fail> {
    let received = run_kept(&rt, rt.alloc(), BOTH, 64, &[])?;
    expect_one_list(&rt, received.trace.kept())
}
