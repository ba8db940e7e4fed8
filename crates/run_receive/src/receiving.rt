//! A receiving, from its objects to its status.
ghost use Rattle.std.specs.Prelude.{◌≡◌, ◌≢◌, ◌<◌, IsTrue, IfOk, OnErr, length, is_some};
ghost use Rattle.outside_io.specs.Causes.{HasOpenCause};
ghost use Rattle.outside_io.specs.Told.{IsEmpty};
ghost use Rattle.outside_host.specs.Shelf.{ChangesReport};
ghost use Rattle.outside_host.specs.Links.{AreAsTheyWere, AreFirstOf};
ghost use Rattle.rist_words.specs.Shown.{shown_recv};
ghost use Rattle.rist_words.specs.Ranges.{IsInRecv};
ghost use Rattle.run_parts.specs.Causes.{CanRefuse, fault_of};
ghost use Rattle.run_parts.specs.Sealing.{FailedAt, IsFreshFor};
ghost use Rattle.run_parts.specs.Hosts.{IsUnused};
ghost use Rattle.run_parts.specs.Objects.{live_of};
ghost use Rattle.run_receive.specs.Received.{Received, Unreceived, receive_status};
ghost use Rattle.run_receive.specs.DoesReceive.{DoesReceive};
ghost use Rattle.run_receive.specs.Ends.{IsReceiveEnd};
ghost use Rattle.run_receive.specs.Frame.{KeepsAroundSink, OpensLinksAfterSink, links_received};
ghost use Rattle.run_parts.specs.Frame.{KeepsLinksBut, KeepsButTiming, KeepsFiles};
ghost use Rattle.run_links.specs.Frame.{KeepsWords};
ghost use Rattle.run_receive.specs.Inside.Receiving.{Hears, HearsByClocks, HearsOnLinks, ReceivesAs};

use desk_run::{Ending, Run, make, make_in_turns};
use outside_host::{Host, back_clocks, back_links, open_clocks, open_links};
use outside_io::{NoMemory, Sink};
use outside_net::{Clock, Link, ListTrace, TellingLink};
use psk_seal::Sealer;
use rist_desk::{ServingLimits, Step};
use rist_ends::Counts;
use rist_recv::{receive_in_turns, receive_on};
use rist_words::RecvLine;
use rist_words::links::receiving_role;
use run_links::{report, settings_of};
use run_parts::{Status, Telling, sealer_for, session_of, watch};
use std::alloc::Global;
use std::sync::Wait;
use std::thread::Threads;

/// A run that ended, or that could not begin for want of memory, and its sink.
struct Heard<K> {
    sink: K,
    end: Result<(Status, Counts), NoMemory>,
}

// How a receiving ended.
fn receive_status(ending: Ending) -> Status
    ensures value { result ≡ receive_status ending }
{
    match ending {
        Ending::Done => Status::Done,
        Ending::WriteFault => Status::WriteFault,
        Ending::Spent => Status::Spent,
        Ending::TraceFull => Status::TraceFull,
        Ending::Torn(tear) => Status::Torn(tear),
        Ending::LinksDown => Status::LinksDown,
    }
}

// Receives on links, with steps that are kept.
fn receive_kept<
    K: Sink + Drop + Send,
    L: Link + Drop + Send,
    C: Clock + Drop + Send,
    R: Threads + Wait + Sync,
>(
    rt: &R,
    alloc: Global,
    line: &RecvLine<'_>,
    sealer: Option<Sealer>,
    links: &mut Vec<L>,
    clocks: &mut Vec<C>,
    sink: K,
) -> Heard<K>
    requires range { IsInRecv (shown_recv line.now) }
    requires kept { 0 < (shown_recv line.now).serving.keep }
    requires fresh { IsFreshFor (shown_recv line.now).session sealer }
    requires count { length links.old.items ≡ length line.now.links.items }
    requires clocks { length clocks.old.items ≡ length line.now.links.items }
    requires empty { IsEmpty (K.contents sink) }
    ensures work { IfOk result.end (λ ended. ReceivesAs
        (live_of ⟦<L as TellingLink>⟧.tells C.moments)
        (shown_recv line.now) sealer links.old.items links.new.items clocks.old.items clocks.new.items
        (K.contents sink) (K.contents result.sink) (K.faults sink) (K.faults result.sink) ended.1 ended.0) }
    ensures memory { OnErr result.end
        ((links.new ≡ links.old) × (clocks.new ≡ clocks.old) × (result.sink ≡ sink)) }
    ensures line { IfOk result.end (λ ended. ended.0 ≢ Status.Usage) }
    ensures ends { IfOk result.end (λ ended. IsReceiveEnd (shown_recv line.now) ended.0) }
    ensures ran { IfOk result.end (λ ended. CanRefuse ended.0 → ⊥) }
    ensures links { length links.new.items ≡ length links.old.items }
    ensures clocks { length clocks.new.items ≡ length clocks.old.items }
{
    let session = session_of(&line.session, false, false);
    let made = match make::<ListTrace<Step>, L, C>(
        alloc,
        &settings_of(&line.receiver),
        &session,
        sealer,
        links.len(),
        line.serving.keep as usize,
    ) {
        Ok(made) => made,
        Err(refused) => {
            return Heard {
                sink,
                end: Err(refused),
            };
        }
    };
    let limits = ServingLimits {
        turns: line.serving.turns,
        idle: 1000 * line.serving.idle,
    };
    let Run {
        ending,
        counts,
        sink,
    } = receive_on(rt, made, links, clocks, sink, &limits);
    Heard {
        sink,
        end: Ok((receive_status(ending), counts)),
    }
}

// Receives on links in turns: no steps are kept.
fn receive_turning<
    K: Sink + Drop + Send,
    L: Link + Drop + Send,
    C: Clock + Drop + Send,
    R: Threads + Wait + Sync,
>(
    rt: &R,
    alloc: Global,
    line: &RecvLine<'_>,
    sealer: Option<Sealer>,
    links: &mut Vec<L>,
    clocks: &mut Vec<C>,
    sink: K,
) -> Heard<K>
    requires range { IsInRecv (shown_recv line.now) }
    requires none { (shown_recv line.now).serving.keep ≡ 0 }
    requires fresh { IsFreshFor (shown_recv line.now).session sealer }
    requires count { length links.old.items ≡ length line.now.links.items }
    requires clocks { length clocks.old.items ≡ length line.now.links.items }
    requires empty { IsEmpty (K.contents sink) }
    ensures work { IfOk result.end (λ ended. ReceivesAs
        (live_of ⟦<L as TellingLink>⟧.tells C.moments)
        (shown_recv line.now) sealer links.old.items links.new.items clocks.old.items clocks.new.items
        (K.contents sink) (K.contents result.sink) (K.faults sink) (K.faults result.sink) ended.1 ended.0) }
    ensures memory { OnErr result.end
        ((links.new ≡ links.old) × (clocks.new ≡ clocks.old) × (result.sink ≡ sink)) }
    ensures line { IfOk result.end (λ ended. ended.0 ≢ Status.Usage) }
    ensures ends { IfOk result.end (λ ended. IsReceiveEnd (shown_recv line.now) ended.0) }
    ensures ran { IfOk result.end (λ ended. CanRefuse ended.0 → ⊥) }
    ensures links { length links.new.items ≡ length links.old.items }
    ensures clocks { length clocks.new.items ≡ length clocks.old.items }
{
    let session = session_of(&line.session, false, false);
    let settings = settings_of(&line.receiver);
    let made = match make_in_turns(alloc, &settings, &session, sealer, links.len()) {
        Ok(made) => made,
        Err(refused) => {
            return Heard {
                sink,
                end: Err(refused),
            };
        }
    };
    let limits = ServingLimits {
        turns: line.serving.turns,
        idle: 1000 * line.serving.idle,
    };
    match receive_in_turns(rt, alloc, made, links, clocks, sink, &limits) {
        Ok(
            Run {
                ending,
                counts,
                sink,
            },
        ) => Heard {
            sink,
            end: Ok((receive_status(ending), counts)),
        },
        Err(sink) => Heard {
            sink,
            end: Err(NoMemory),
        },
    }
}

// Receives on links: in turns, or with steps that are kept where the line says so.
fn receive_any<
    K: Sink + Drop + Send,
    L: Link + Drop + Send,
    C: Clock + Drop + Send,
    R: Threads + Wait + Sync,
>(
    rt: &R,
    alloc: Global,
    line: &RecvLine<'_>,
    sealer: Option<Sealer>,
    links: &mut Vec<L>,
    clocks: &mut Vec<C>,
    sink: K,
) -> Heard<K>
    requires range { IsInRecv (shown_recv line.now) }
    requires fresh { IsFreshFor (shown_recv line.now).session sealer }
    requires count { length links.old.items ≡ length line.now.links.items }
    requires clocks { length clocks.old.items ≡ length line.now.links.items }
    requires empty { IsEmpty (K.contents sink) }
    ensures work { IfOk result.end (λ ended. ReceivesAs
        (live_of ⟦<L as TellingLink>⟧.tells C.moments)
        (shown_recv line.now) sealer links.old.items links.new.items clocks.old.items clocks.new.items
        (K.contents sink) (K.contents result.sink) (K.faults sink) (K.faults result.sink) ended.1 ended.0) }
    ensures memory { OnErr result.end
        ((links.new ≡ links.old) × (clocks.new ≡ clocks.old) × (result.sink ≡ sink)) }
    ensures line { IfOk result.end (λ ended. ended.0 ≢ Status.Usage) }
    ensures ends { IfOk result.end (λ ended. IsReceiveEnd (shown_recv line.now) ended.0) }
    ensures ran { IfOk result.end (λ ended. CanRefuse ended.0 → ⊥) }
    ensures links { length links.new.items ≡ length links.old.items }
    ensures clocks { length clocks.new.items ≡ length clocks.old.items }
{
    if line.serving.keep == 0 {
        receive_turning(rt, alloc, line, sealer, links, clocks, sink)
    } else {
        receive_kept(rt, alloc, line, sealer, links, clocks, sink)
    }
}

// Receives on links and tells the host what the receiver counted.
fn receive_sealed<R: Threads + Wait + Sync, H: Host>(
    rt: &R,
    alloc: Global,
    host: &mut H,
    line: &RecvLine<'_>,
    sealer: Option<Sealer>,
    links: &mut Vec<H::Wire>,
    clocks: &mut Vec<H::Time>,
    sink: H::Output,
) -> (H::Output, Status)
    requires range { IsInRecv (shown_recv line.now) }
    requires fresh { IsFreshFor (shown_recv line.now).session sealer }
    requires count { length links.old.items ≡ length line.now.links.items }
    requires clocks { length clocks.old.items ≡ length line.now.links.items }
    requires empty { IsEmpty (H.Output.contents sink) }
    ensures work { (CanRefuse result.1 → ⊥) → Hears ⟦<H as Telling>⟧.objects ⟦<H as Telling>⟧.live H.tells
        (H.shelf host.new) (shown_recv line.now) sealer links.old.items links.new.items clocks.old.items clocks.new.items
        sink result.0 result.1 }
    ensures refused { CanRefuse result.1 → (result.1 ≡ Status.Memory) × (links.new ≡ links.old)
        × (clocks.new ≡ clocks.old) × (result.0 ≡ sink) × (host.new ≡ host.old) }
    ensures line { result.1 ≢ Status.Usage }
    ensures ends { IsReceiveEnd (shown_recv line.now) result.1 }
    ensures same { IsTrue H.tells → ChangesReport (H.shelf host.old) (H.shelf host.new) }
    ensures opened { H.faults host.new ≡ H.faults host.old }
    ensures links { length links.new.items ≡ length links.old.items }
    ensures clocks { length clocks.new.items ≡ length clocks.old.items }
{
    let Heard { sink, end } = receive_any(rt, alloc, line, sealer, links, clocks, sink);
    match end {
        Ok((status, counts)) => {
            report(host, &counts);
            (sink, status)
        }
        Err(_) => (sink, Status::Memory),
    }
}

// Receives on links by the host's next clocks, under a sealer where the line has a passphrase.
fn receive_by_clocks<R: Threads + Wait + Sync, H: Host>(
    rt: &R,
    alloc: Global,
    host: &mut H,
    line: &RecvLine<'_>,
    links: &mut Vec<H::Wire>,
    sink: H::Output,
) -> (H::Output, Status)
    requires range { IsInRecv (shown_recv line.now) }
    requires count { length links.old.items ≡ length line.now.links.items }
    requires empty { IsEmpty (H.Output.contents sink) }
    ensures received { IsTrue H.tells → (H.shelf host.old).next_clock ≡ 0 → (H.shelf host.old).next_entropy ≡ 0
        → (CanRefuse result.1 → ⊥) → HearsByClocks ⟦<H as Telling>⟧.objects ⟦<H as Telling>⟧.live
        (H.shelf host.old) (H.shelf host.new) (shown_recv line.now) sink result.0 result.1
        links.old.items links.new.items }
    ensures unreceived { CanRefuse result.1 → (links.new ≡ links.old) × (result.0 ≡ sink) }
    ensures clocks { IsTrue H.tells → (H.shelf host.old).next_clock ≡ 0 → CanRefuse result.1
        → AreAsTheyWere (H.shelf host.old).clocks (H.shelf host.new).clocks }
    ensures unreported { IsTrue H.tells → CanRefuse result.1 → (H.shelf host.new).report ≡ (H.shelf host.old).report }
    ensures random { IsTrue H.tells → (H.shelf host.old).next_entropy ≡ 0 → result.1 ≡ Status.EntropyFault
        → FailedAt ⟦<H as Telling>⟧.objects (H.shelf host.old) (H.shelf host.new) }
    ensures others { IsTrue H.tells → KeepsButTiming (H.shelf host.old) (H.shelf host.new) }
    ensures times { IsTrue H.tells → (H.shelf host.old).next_clock ≡ 0
        → KeepsLinksBut (length line.now.links.items) (H.shelf host.old).clocks (H.shelf host.new).clocks }
    ensures words { IsTrue H.tells → (H.shelf host.old).next_entropy ≡ 0
        → KeepsWords (H.shelf host.old) (H.shelf host.new) (is_some (shown_recv line.now).session.pass) }
    ensures line { result.1 ≢ Status.Usage }
    ensures ends { IsReceiveEnd (shown_recv line.now) result.1 }
    ensures opened { HasOpenCause (fault_of result.1) (H.faults host.old) (H.faults host.new) }
    ensures links { length links.new.items ≡ length links.old.items }
{
    let mut clocks = match open_clocks(alloc, host, links.len()) {
        Ok(clocks) => clocks,
        Err(bad) => return (sink, Status::from(bad)),
    };
    let (sink, status) = match sealer_for(host, &line.session) {
        Ok(sealer) => { receive_sealed(rt, alloc, host, line, sealer, links, &mut clocks, sink) }
        Err(status) => (sink, status),
    };
    back_clocks(host, clocks);
    (sink, status)
}

// Receives on the links of a line.
fn receive_on_links<R: Threads + Wait + Sync, H: Host>(
    rt: &R,
    alloc: Global,
    host: &mut H,
    line: &RecvLine<'_>,
    sink: H::Output,
) -> (H::Output, Status)
    requires range { IsInRecv (shown_recv line.now) }
    requires empty { IsEmpty (H.Output.contents sink) }
    ensures received { IsUnused H.tells (H.shelf host.old) → (CanRefuse result.1 → ⊥)
        → HearsOnLinks ⟦<H as Telling>⟧.objects ⟦<H as Telling>⟧.live
        (H.shelf host.old) (H.shelf host.new) (shown_recv line.now) sink result.0 result.1 }
    ensures unreceived { CanRefuse result.1 → result.0 ≡ sink }
    ensures others { IsTrue H.tells → KeepsFiles (H.shelf host.old) (H.shelf host.new) }
    ensures kept { IsUnused H.tells (H.shelf host.old) → KeepsLinksBut (length (shown_recv line.now).links)
        (H.shelf host.old).links (H.shelf host.new).links }
    ensures times { IsUnused H.tells (H.shelf host.old) → KeepsLinksBut (length (shown_recv line.now).links)
        (H.shelf host.old).clocks (H.shelf host.new).clocks }
    ensures words { IsUnused H.tells (H.shelf host.old)
        → KeepsWords (H.shelf host.old) (H.shelf host.new) (is_some (shown_recv line.now).session.pass) }
    ensures links_opened { IsUnused H.tells (H.shelf host.old) → (CanRefuse result.1 → ⊥)
        → (H.shelf host.new).opened_links ≡ links_received (shown_recv line.now) }
    ensures links_tried { IsUnused H.tells (H.shelf host.old)
        → AreFirstOf (H.shelf host.new).opened_links (links_received (shown_recv line.now)) }
    ensures links { IsUnused H.tells (H.shelf host.old) → CanRefuse result.1
        → AreAsTheyWere (H.shelf host.old).links (H.shelf host.new).links }
    ensures clocks { IsUnused H.tells (H.shelf host.old) → CanRefuse result.1
        → AreAsTheyWere (H.shelf host.old).clocks (H.shelf host.new).clocks }
    ensures unreported { IsTrue H.tells → CanRefuse result.1 → (H.shelf host.new).report ≡ (H.shelf host.old).report }
    ensures random { IsUnused H.tells (H.shelf host.old) → result.1 ≡ Status.EntropyFault
        → FailedAt ⟦<H as Telling>⟧.objects (H.shelf host.old) (H.shelf host.new) }
    ensures line { result.1 ≢ Status.Usage }
    ensures ends { IsReceiveEnd (shown_recv line.now) result.1 }
    ensures opened { HasOpenCause (fault_of result.1) (H.faults host.old) (H.faults host.new) }
{
    let mut links = match open_links(
        alloc,
        host,
        line.links.as_slice(),
        receiving_role(line.calls),
        line.session.profile,
    ) {
        Ok(links) => links,
        Err(bad) => return (sink, Status::from(bad)),
    };
    let (sink, status) = receive_by_clocks(rt, alloc, host, line, &mut links, sink);
    back_links(host, links);
    (sink, status)
}

// Receives on the links of a line into its sink. Each clause says a part of what that leaves.
fn receive_into_sink<R: Threads + Wait + Sync, H: Host>(
    rt: &R,
    alloc: Global,
    host: &mut H,
    line: &RecvLine<'_>,
) -> Status
    requires range { IsInRecv (shown_recv line.now) }
    ensures received { IsUnused H.tells (H.shelf host.old) → (CanRefuse result → ⊥)
        → Received ⟦<H as Telling>⟧.objects ⟦<H as Telling>⟧.live
        (H.shelf host.old) (H.shelf host.new) (shown_recv line.now) result }
    ensures unreceived { IsUnused H.tells (H.shelf host.old) → CanRefuse result
        → Unreceived (H.shelf host.old) (H.shelf host.new) (shown_recv line.now) }
    ensures around { IsUnused H.tells (H.shelf host.old)
        → KeepsAroundSink (H.shelf host.old) (H.shelf host.new) (shown_recv line.now) }
    ensures links_opened { IsUnused H.tells (H.shelf host.old) → (CanRefuse result → ⊥)
        → (H.shelf host.new).opened_links ≡ links_received (shown_recv line.now) }
    ensures links_tried { IsUnused H.tells (H.shelf host.old)
        → AreFirstOf (H.shelf host.new).opened_links (links_received (shown_recv line.now)) }
    ensures order { IsTrue H.tells
        → OpensLinksAfterSink (H.shelf host.old) (H.shelf host.new) (shown_recv line.now) }
    ensures random { IsUnused H.tells (H.shelf host.old) → result ≡ Status.EntropyFault
        → FailedAt ⟦<H as Telling>⟧.objects (H.shelf host.old) (H.shelf host.new) }
    ensures line { result ≢ Status.Usage }
    ensures ends { IsReceiveEnd (shown_recv line.now) result }
    ensures opened { HasOpenCause (fault_of result) (H.faults host.old) (H.faults host.new) }
{
    let sink = match host.sink(line.out) {
        Ok(sink) => sink,
        Err(bad) => return Status::from(bad),
    };
    let (sink, status) = receive_on_links(rt, alloc, host, line, sink);
    host.back_sink(line.out, sink);
    status
}

/// Does the line of a receiving, once the host knows what is kept of the run.
fn receive_unwatched<R: Threads + Wait + Sync, H: Host>(
    rt: &R,
    alloc: Global,
    host: &mut H,
    line: &RecvLine<'_>,
) -> Status
    requires range { IsInRecv (shown_recv line.now) }
    ensures does { DoesReceive H.tells ⟦<H as Telling>⟧.objects ⟦<H as Telling>⟧.live (shown_recv line.now)
        (H.faults host.old) (H.faults host.new) (H.shelf host.old) (H.shelf host.new) result }
    ensures line { result ≢ Status.Usage }
    ensures opened { HasOpenCause (fault_of result) (H.faults host.old) (H.faults host.new) }
{
    receive_into_sink(rt, alloc, host, line)
}

/// Does the line of a receiving.
pub fn receive_line<R: Threads + Wait + Sync, H: Host>(
    rt: &R,
    alloc: Global,
    host: &mut H,
    line: &RecvLine<'_>,
) -> Status
    requires range { IsInRecv (shown_recv line.now) }
    ensures does { DoesReceive H.tells ⟦<H as Telling>⟧.objects ⟦<H as Telling>⟧.live (shown_recv line.now)
        (H.faults host.old) (H.faults host.new) (H.shelf host.old) (H.shelf host.new) result }
    ensures line { result ≢ Status.Usage }
    ensures opened { HasOpenCause (fault_of result) (H.faults host.old) (H.faults host.new) }
{
    match watch(host, &line.watching) {
        Ok(()) => receive_unwatched(rt, alloc, host, line),
        Err(bad) => Status::from(bad),
    }
}
