//! A receiving of several flows, from its objects to its status.
ghost use Rattle.std.specs.Prelude.{◌≡◌, ◌≢◌, ◌≤◌, [], length, IsTrue, IfOk, OnErr, is_some, vec_capacity};
ghost use Rattle.std.specs.List.{All};
ghost use Rattle.outside_io.specs.Causes.{HasOpenCause};
ghost use Rattle.outside_io.specs.Told.{IsEmpty};
ghost use Rattle.outside_host.specs.Shelf.{ChangesReport};
ghost use Rattle.outside_host.specs.Links.{AreAsTheyWere, AreFirstOf};
ghost use Rattle.rist_words.specs.Shown.{shown_fan};
ghost use Rattle.rist_words.specs.Ranges.{IsInFan};
ghost use Rattle.run_parts.specs.Causes.{CanRefuse, fault_of};
ghost use Rattle.run_parts.specs.Frame.{KeepsLinksBut, KeepsButTiming, KeepsFiles};
ghost use Rattle.run_parts.specs.Hosts.{IsUnused};
ghost use Rattle.run_parts.specs.Sealing.{FailedAt, IsFreshFor};
ghost use Rattle.run_links.specs.Frame.{KeepsWords};
ghost use Rattle.run_fan.specs.DoesFan.{DoesFan};
ghost use Rattle.run_fan.specs.Ends.{IsFanEnd};
ghost use Rattle.run_fan.specs.Fanned.{Fanned, Unfanned};
ghost use Rattle.run_fan.specs.Frame.{KeepsAroundSinks, OpensSinksFirst, links_fanned};
ghost use Rattle.run_fan.specs.Inside.Fanning.{Fans, FansByClocks, FansOnLinks};

use crate::receiving::receive_into;
use crate::reporting::report_all;
use crate::sealing::sealers_for;
use outside_host::{
    Host, back_clocks, back_links, back_sinks, open_clocks, open_links, open_sinks,
};
use outside_io::Sink;
use outside_net::{Clock, Link};
use psk_seal::Sealer;
use rist_words::FanLine;
use rist_words::links::receiving_role;
use run_parts::{Status, Telling, watch};
use std::alloc::Global;
use std::sync::Wait;
use std::thread::Threads;

// Receives on links into sinks, and tells the host what the receivers counted, place by place.
fn fan_sealed<R: Threads + Wait + Sync, H: Host>(
    rt: &R,
    alloc: Global,
    host: &mut H,
    line: &FanLine<'_>,
    sealers: Vec<Option<Sealer>>,
    links: &mut Vec<H::Wire>,
    clocks: &mut Vec<H::Time>,
    sinks: &mut Vec<H::Output>,
) -> Status
    requires range { IsInFan (shown_fan line.now) }
    requires sealers { length sealers.items ≡ length line.now.ports.items }
    requires fresh { All (IsFreshFor (shown_fan line.now).session) sealers.items }
    requires count { length links.old.items ≡ length line.now.links.items }
    requires clocks { length clocks.old.items ≡ length line.now.links.items }
    requires places { length sinks.old.items ≡ length line.now.ports.items }
    requires empty { All (λ sink. IsEmpty (H.Output.contents sink)) sinks.old.items }
    ensures work { (CanRefuse result → ⊥) → Fans ⟦<H as Telling>⟧.objects ⟦<H as Telling>⟧.live H.tells
        (H.shelf host.new) (shown_fan line.now) sealers.items links.old.items links.new.items
        clocks.old.items clocks.new.items sinks.old.items sinks.new.items result }
    ensures refused { CanRefuse result → (result ≡ Status.Memory) × (links.new ≡ links.old)
        × (clocks.new ≡ clocks.old) × (sinks.new.items ≡ sinks.old.items) × (host.new ≡ host.old) }
    ensures line { result ≢ Status.Usage }
    ensures ends { IsFanEnd (shown_fan line.now) result }
    ensures same { IsTrue H.tells → ChangesReport (H.shelf host.old) (H.shelf host.new) }
    ensures opened { H.faults host.new ≡ H.faults host.old }
    ensures links { length links.new.items ≡ length links.old.items }
    ensures clocks { length clocks.new.items ≡ length clocks.old.items }
    ensures places { length sinks.new.items ≡ length sinks.old.items }
{
    match receive_into(rt, alloc, line, sealers, links, clocks, sinks) {
        Ok((status, counts)) => {
            report_all(host, &line.ports, &counts);
            status
        }
        Err(_) => Status::Memory,
    }
}

// Receives by the host's next clocks, under a sealer for each output where the line has a passphrase.
fn fan_by_clocks<R: Threads + Wait + Sync, H: Host>(
    rt: &R,
    alloc: Global,
    host: &mut H,
    line: &FanLine<'_>,
    room: Vec<Option<Sealer>>,
    links: &mut Vec<H::Wire>,
    sinks: &mut Vec<H::Output>,
) -> Status
    requires range { IsInFan (shown_fan line.now) }
    requires room { (room.items ≡ []) × (length line.now.ports.items ≤ vec_capacity room) }
    requires count { length links.old.items ≡ length line.now.links.items }
    requires places { length sinks.old.items ≡ length line.now.ports.items }
    requires empty { All (λ sink. IsEmpty (H.Output.contents sink)) sinks.old.items }
    ensures fanned { IsTrue H.tells → (H.shelf host.old).next_clock ≡ 0 → (H.shelf host.old).next_entropy ≡ 0
        → (CanRefuse result → ⊥) → FansByClocks ⟦<H as Telling>⟧.objects ⟦<H as Telling>⟧.live
        (H.shelf host.old) (H.shelf host.new) (shown_fan line.now) sinks.old.items sinks.new.items result
        links.old.items links.new.items }
    ensures unfanned { CanRefuse result → (links.new ≡ links.old) × (sinks.new.items ≡ sinks.old.items) }
    ensures clocks { IsTrue H.tells → (H.shelf host.old).next_clock ≡ 0 → CanRefuse result
        → AreAsTheyWere (H.shelf host.old).clocks (H.shelf host.new).clocks }
    ensures unreported { IsTrue H.tells → CanRefuse result → (H.shelf host.new).report ≡ (H.shelf host.old).report }
    ensures random { IsTrue H.tells → (H.shelf host.old).next_entropy ≡ 0 → result ≡ Status.EntropyFault
        → FailedAt ⟦<H as Telling>⟧.objects (H.shelf host.old) (H.shelf host.new) }
    ensures others { IsTrue H.tells → KeepsButTiming (H.shelf host.old) (H.shelf host.new) }
    ensures times { IsTrue H.tells → (H.shelf host.old).next_clock ≡ 0
        → KeepsLinksBut (length line.now.links.items) (H.shelf host.old).clocks (H.shelf host.new).clocks }
    ensures words { IsTrue H.tells → (H.shelf host.old).next_entropy ≡ 0
        → KeepsWords (H.shelf host.old) (H.shelf host.new) (is_some (shown_fan line.now).session.pass) }
    ensures line { result ≢ Status.Usage }
    ensures ends { IsFanEnd (shown_fan line.now) result }
    ensures opened { HasOpenCause (fault_of result) (H.faults host.old) (H.faults host.new) }
    ensures links { length links.new.items ≡ length links.old.items }
    ensures places { length sinks.new.items ≡ length sinks.old.items }
{
    let mut clocks = match open_clocks(alloc, host, links.len()) {
        Ok(clocks) => clocks,
        Err(bad) => return Status::from(bad),
    };
    let status = match sealers_for(host, &line.session, line.ports.len(), room) {
        Ok(sealers) => fan_sealed(rt, alloc, host, line, sealers, links, &mut clocks, sinks),
        Err(status) => status,
    };
    back_clocks(host, clocks);
    status
}

// Receives on the links of a line.
fn fan_on_links<R: Threads + Wait + Sync, H: Host>(
    rt: &R,
    alloc: Global,
    host: &mut H,
    line: &FanLine<'_>,
    sinks: &mut Vec<H::Output>,
) -> Status
    requires range { IsInFan (shown_fan line.now) }
    requires places { length sinks.old.items ≡ length line.now.ports.items }
    requires empty { All (λ sink. IsEmpty (H.Output.contents sink)) sinks.old.items }
    ensures fanned { IsUnused H.tells (H.shelf host.old) → (CanRefuse result → ⊥)
        → FansOnLinks ⟦<H as Telling>⟧.objects ⟦<H as Telling>⟧.live
        (H.shelf host.old) (H.shelf host.new) (shown_fan line.now) sinks.old.items sinks.new.items result }
    ensures unfanned { CanRefuse result → sinks.new.items ≡ sinks.old.items }
    ensures others { IsTrue H.tells → KeepsFiles (H.shelf host.old) (H.shelf host.new) }
    ensures kept { IsUnused H.tells (H.shelf host.old) → KeepsLinksBut (length (shown_fan line.now).links)
        (H.shelf host.old).links (H.shelf host.new).links }
    ensures times { IsUnused H.tells (H.shelf host.old) → KeepsLinksBut (length (shown_fan line.now).links)
        (H.shelf host.old).clocks (H.shelf host.new).clocks }
    ensures words { IsUnused H.tells (H.shelf host.old)
        → KeepsWords (H.shelf host.old) (H.shelf host.new) (is_some (shown_fan line.now).session.pass) }
    ensures links_opened { IsUnused H.tells (H.shelf host.old) → (CanRefuse result → ⊥)
        → (H.shelf host.new).opened_links ≡ links_fanned (shown_fan line.now) }
    ensures links_tried { IsUnused H.tells (H.shelf host.old)
        → AreFirstOf (H.shelf host.new).opened_links (links_fanned (shown_fan line.now)) }
    ensures links { IsUnused H.tells (H.shelf host.old) → CanRefuse result
        → AreAsTheyWere (H.shelf host.old).links (H.shelf host.new).links }
    ensures clocks { IsUnused H.tells (H.shelf host.old) → CanRefuse result
        → AreAsTheyWere (H.shelf host.old).clocks (H.shelf host.new).clocks }
    ensures unreported { IsTrue H.tells → CanRefuse result → (H.shelf host.new).report ≡ (H.shelf host.old).report }
    ensures random { IsUnused H.tells (H.shelf host.old) → result ≡ Status.EntropyFault
        → FailedAt ⟦<H as Telling>⟧.objects (H.shelf host.old) (H.shelf host.new) }
    ensures line { result ≢ Status.Usage }
    ensures ends { IsFanEnd (shown_fan line.now) result }
    ensures opened { HasOpenCause (fault_of result) (H.faults host.old) (H.faults host.new) }
    ensures places { length sinks.new.items ≡ length sinks.old.items }
{
    let Ok(room) = Vec::with_capacity(alloc, line.ports.len()) else {
        return Status::Memory;
    };
    let mut links = match open_links(
        alloc,
        host,
        line.links.as_slice(),
        receiving_role(line.calls),
        line.session.profile,
    ) {
        Ok(links) => links,
        Err(bad) => return Status::from(bad),
    };
    let status = fan_by_clocks(rt, alloc, host, line, room, &mut links, sinks);
    back_links(host, links);
    status
}

// Receives on the links of a line into its sinks. Each clause says a part of what that leaves.
fn fan_into_sinks<R: Threads + Wait + Sync, H: Host>(
    rt: &R,
    alloc: Global,
    host: &mut H,
    line: &FanLine<'_>,
) -> Status
    requires range { IsInFan (shown_fan line.now) }
    ensures fanned { IsUnused H.tells (H.shelf host.old) → (CanRefuse result → ⊥)
        → Fanned ⟦<H as Telling>⟧.objects ⟦<H as Telling>⟧.live
        (H.shelf host.old) (H.shelf host.new) (shown_fan line.now) result }
    ensures unfanned { IsUnused H.tells (H.shelf host.old) → CanRefuse result
        → Unfanned (H.shelf host.old) (H.shelf host.new) (shown_fan line.now) }
    ensures around { IsUnused H.tells (H.shelf host.old)
        → KeepsAroundSinks (H.shelf host.old) (H.shelf host.new) (shown_fan line.now) }
    ensures links_opened { IsUnused H.tells (H.shelf host.old) → (CanRefuse result → ⊥)
        → (H.shelf host.new).opened_links ≡ links_fanned (shown_fan line.now) }
    ensures links_tried { IsUnused H.tells (H.shelf host.old)
        → AreFirstOf (H.shelf host.new).opened_links (links_fanned (shown_fan line.now)) }
    ensures order { IsTrue H.tells
        → OpensSinksFirst (H.shelf host.old) (H.shelf host.new) (shown_fan line.now) }
    ensures random { IsUnused H.tells (H.shelf host.old) → result ≡ Status.EntropyFault
        → FailedAt ⟦<H as Telling>⟧.objects (H.shelf host.old) (H.shelf host.new) }
    ensures line { result ≢ Status.Usage }
    ensures ends { IsFanEnd (shown_fan line.now) result }
    ensures opened { HasOpenCause (fault_of result) (H.faults host.old) (H.faults host.new) }
{
    let mut sinks = match open_sinks(alloc, host, &line.names) {
        Ok(sinks) => sinks,
        Err(bad) => return Status::from(bad),
    };
    let status = fan_on_links(rt, alloc, host, line, &mut sinks);
    back_sinks(host, &line.names, sinks);
    status
}

/// Does the line, once the host knows what is kept of the run.
fn fan_unwatched<R: Threads + Wait + Sync, H: Host>(
    rt: &R,
    alloc: Global,
    host: &mut H,
    line: &FanLine<'_>,
) -> Status
    requires range { IsInFan (shown_fan line.now) }
    ensures does { DoesFan H.tells ⟦<H as Telling>⟧.objects ⟦<H as Telling>⟧.live (shown_fan line.now)
        (H.faults host.old) (H.faults host.new) (H.shelf host.old) (H.shelf host.new) result }
    ensures line { result ≢ Status.Usage }
    ensures opened { HasOpenCause (fault_of result) (H.faults host.old) (H.faults host.new) }
{
    fan_into_sinks(rt, alloc, host, line)
}

/// Does the line of a receiving of several flows that come in one tunnel, each into an output of its own.
pub fn fan_line<R: Threads + Wait + Sync, H: Host>(
    rt: &R,
    alloc: Global,
    host: &mut H,
    line: &FanLine<'_>,
) -> Status
    requires range { IsInFan (shown_fan line.now) }
    ensures does { DoesFan H.tells ⟦<H as Telling>⟧.objects ⟦<H as Telling>⟧.live (shown_fan line.now)
        (H.faults host.old) (H.faults host.new) (H.shelf host.old) (H.shelf host.new) result }
    ensures line { result ≢ Status.Usage }
    ensures opened { HasOpenCause (fault_of result) (H.faults host.old) (H.faults host.new) }
{
    match watch(host, &line.watching) {
        Ok(()) => fan_unwatched(rt, alloc, host, line),
        Err(bad) => Status::from(bad),
    }
}
