//! A gateway, from its objects to its status.
ghost use Rattle.std.specs.Prelude.{◌≡◌, ◌≢◌, ◌<◌, ◌+◌, IsTrue, IfOk, OnErr, length};
ghost use Rattle.outside_io.specs.Causes.{HasOpenCause};
ghost use Rattle.outside_host.specs.Shelf.{ChangesReport};
ghost use Rattle.outside_host.specs.Links.{AreAsTheyWere, AreFirstOf};
ghost use Rattle.rist_gateway.specs.Setup.{IsGateMade, gate_setup_of};
ghost use Rattle.rist_words.specs.Shown.{shown_gate};
ghost use Rattle.rist_words.specs.Ranges.{IsInGate};
ghost use Rattle.run_parts.specs.Causes.{CanRefuse, fault_of};
ghost use Rattle.run_parts.specs.Sealing.{FailedAt, IsFreshFor};
ghost use Rattle.run_parts.specs.Sessions.{bonding_with};
ghost use Rattle.run_gate.specs.Sessions.{sender_gated, setup_gated};
ghost use Rattle.run_parts.specs.Hosts.{IsUnused};
ghost use Rattle.run_parts.specs.Objects.{live_of};
ghost use Rattle.run_gate.specs.Gated.{Gated, Ungated, gate_status};
ghost use Rattle.run_gate.specs.DoesGate.{DoesGate};
ghost use Rattle.run_gate.specs.Ends.{IsGateEnd};
ghost use Rattle.run_gate.specs.Frame.{KeepsAroundGate, links_gated};
ghost use Rattle.run_parts.specs.Frame.{KeepsLinksBut, gate_draws, KeepsButTiming};
ghost use Rattle.run_links.specs.Frame.{KeepsWords};
ghost use Rattle.run_gate.specs.Inside.Gating.{GatesAs, Passes, PassesByClocks};

use crate::sealing::{Sealers, sealers_for};
use bond_links::Bond;
use outside_host::{Host, back_clocks, back_links, open_both, open_clocks};
use outside_io::NoMemory;
use outside_net::{Clock, Link, ListTrace, TellingLink, Trace};
use rist_desk::{ServingLimits, Step};
use rist_ends::Counts;
use rist_gateway::{GateEnding, GateMemory, gate_on};
use rist_sender::Settings;
use rist_words::GateLine;
use run_links::{report, settings_of};
use run_parts::{Status, Telling, session_of, watch};
use std::alloc::Global;
use std::sync::Wait;
use std::thread::Threads;

// How the links that a line sends on have its packets.
fn bond_of(line: &GateLine<'_>) -> Bond
    requires range { IsInGate (shown_gate line.now) }
    ensures value { result ≡ bonding_with (length line.now.outputs.items) (shown_gate line.now).share }
{
    match &line.share {
        None => Bond::duplicate(line.outputs.len() as u8),
        Some(weights) => Bond::share(weights.as_slice()),
    }
}

// What the sender of a line is set to.
fn sender_settings(line: &GateLine<'_>) -> Settings
    requires range { IsInGate (shown_gate line.now) }
    ensures value { result ≡ sender_gated (shown_gate line.now) }
{
    Settings {
        flow: line.stream.flow,
        first: line.stream.first,
        store: line.store as usize,
        hold: line.hold as u16,
        bond: bond_of(line),
    }
}

// Takes the memory for the run of a line whose steps are kept.
fn made_kept<L: Drop, C: Drop>(
    alloc: Global,
    line: &GateLine<'_>,
    sealers: Sealers,
) -> Result<GateMemory<ListTrace<Step>, L, C>, NoMemory>
    requires range { IsInGate (shown_gate line.now) }
    requires kept { 0 < (shown_gate line.now).serving.keep }
    requires receiving { IsFreshFor (shown_gate line.now).incoming sealers.receiving }
    requires sending { IsFreshFor (shown_gate line.now).session sealers.sending }
    ensures setup { IfOk result (λ made. gate_setup_of ⟦<ListTrace<Step> as Trace<Step>>⟧.limit made
        ≡ setup_gated (shown_gate line.now) sealers.receiving sealers.sending) }
    ensures made { IfOk result (λ made. IsGateMade ⟦<ListTrace<Step> as Trace<Step>>⟧.list
        ⟦<ListTrace<Step> as Trace<Step>>⟧.limit
        (length line.now.inputs.items) (length line.now.outputs.items) made) }
{
    let session = session_of(&line.incoming, false, false);
    let receiving = match desk_run::make::<ListTrace<Step>, L, C>(
        alloc,
        &settings_of(&line.receiver),
        &session,
        sealers.receiving,
        line.inputs.len(),
        line.serving.keep as usize,
    ) {
        Ok(receiving) => receiving,
        Err(refused) => return Err(refused),
    };
    let onward = session_of(&line.session, line.stream.nulls, line.stream.wide);
    rist_gateway::make(
        alloc,
        receiving,
        line.inputs.len(),
        sender_settings(line),
        &onward,
        sealers.sending,
        line.outputs.len(),
    )
}

// Takes the memory for the run of a line in turns.
fn made_in_turns<L: Drop, C: Drop>(
    alloc: Global,
    line: &GateLine<'_>,
    sealers: Sealers,
) -> Result<GateMemory<ListTrace<Step>, L, C>, NoMemory>
    requires range { IsInGate (shown_gate line.now) }
    requires none { (shown_gate line.now).serving.keep ≡ 0 }
    requires receiving { IsFreshFor (shown_gate line.now).incoming sealers.receiving }
    requires sending { IsFreshFor (shown_gate line.now).session sealers.sending }
    ensures setup { IfOk result (λ made. gate_setup_of ⟦<ListTrace<Step> as Trace<Step>>⟧.limit made
        ≡ setup_gated (shown_gate line.now) sealers.receiving sealers.sending) }
    ensures made { IfOk result (λ made. IsGateMade ⟦<ListTrace<Step> as Trace<Step>>⟧.list
        ⟦<ListTrace<Step> as Trace<Step>>⟧.limit
        (length line.now.inputs.items) (length line.now.outputs.items) made) }
{
    let session = session_of(&line.incoming, false, false);
    let receiving = match desk_run::make_in_turns(
        alloc,
        &settings_of(&line.receiver),
        &session,
        sealers.receiving,
        line.inputs.len(),
    ) {
        Ok(receiving) => receiving,
        Err(refused) => return Err(refused),
    };
    let onward = session_of(&line.session, line.stream.nulls, line.stream.wide);
    rist_gateway::make_in_turns(
        alloc,
        receiving,
        line.inputs.len(),
        sender_settings(line),
        &onward,
        sealers.sending,
        line.outputs.len(),
    )
}

// Takes the memory for the run of a line: in turns, or with steps that are kept where the line says so.
fn made_for<L: Drop, C: Drop>(
    alloc: Global,
    line: &GateLine<'_>,
    sealers: Sealers,
) -> Result<GateMemory<ListTrace<Step>, L, C>, NoMemory>
    requires range { IsInGate (shown_gate line.now) }
    requires receiving { IsFreshFor (shown_gate line.now).incoming sealers.receiving }
    requires sending { IsFreshFor (shown_gate line.now).session sealers.sending }
    ensures setup { IfOk result (λ made. gate_setup_of ⟦<ListTrace<Step> as Trace<Step>>⟧.limit made
        ≡ setup_gated (shown_gate line.now) sealers.receiving sealers.sending) }
    ensures made { IfOk result (λ made. IsGateMade ⟦<ListTrace<Step> as Trace<Step>>⟧.list
        ⟦<ListTrace<Step> as Trace<Step>>⟧.limit
        (length line.now.inputs.items) (length line.now.outputs.items) made) }
{
    if line.serving.keep == 0 {
        made_in_turns(alloc, line, sealers)
    } else {
        made_kept(alloc, line, sealers)
    }
}

// How a gateway ended.
fn gate_status(ending: GateEnding) -> Status
    ensures value { result ≡ gate_status ending }
{
    match ending {
        GateEnding::Spent => Status::Spent,
        GateEnding::TraceFull => Status::TraceFull,
        GateEnding::Torn(tear) => Status::Torn(tear),
        GateEnding::LinksDown => Status::LinksDown,
        GateEnding::Done => Status::Done,
    }
}

// Receives on the first links and sends on over the others, in turns or with steps that are kept, as the line says.
fn gate_with<L: Link + Drop + Send, C: Clock + Drop + Send, R: Threads + Wait + Sync>(
    rt: &R,
    alloc: Global,
    line: &GateLine<'_>,
    sealers: Sealers,
    links: &mut Vec<L>,
    clocks: &mut Vec<C>,
) -> Result<(Status, Counts), NoMemory>
    requires range { IsInGate (shown_gate line.now) }
    requires receiving { IsFreshFor (shown_gate line.now).incoming sealers.receiving }
    requires sending { IsFreshFor (shown_gate line.now).session sealers.sending }
    requires count { length links.old.items ≡ length line.now.inputs.items + length line.now.outputs.items }
    requires clocks { length clocks.old.items ≡ length line.now.inputs.items + length line.now.outputs.items + 1 }
    ensures work { IfOk result (λ ended. GatesAs
        (live_of ⟦<L as TellingLink>⟧.tells
        C.moments)
        (shown_gate line.now) sealers.receiving sealers.sending links.old.items links.new.items
        clocks.old.items clocks.new.items ended.1 ended.0) }
    ensures memory { OnErr result ((links.new.items ≡ links.old.items) × (clocks.new.items ≡ clocks.old.items)) }
    ensures line { IfOk result (λ ended. ended.0 ≢ Status.Usage) }
    ensures ends { IfOk result (λ ended. IsGateEnd (shown_gate line.now) ended.0) }
    ensures ran { IfOk result (λ ended. CanRefuse ended.0 → ⊥) }
    ensures links { length links.new.items ≡ length links.old.items }
    ensures clocks { length clocks.new.items ≡ length clocks.old.items }
{
    let made = match made_for(alloc, line, sealers) {
        Ok(made) => made,
        Err(refused) => return Err(refused),
    };
    let limits = ServingLimits {
        turns: line.serving.turns,
        idle: 1000 * line.serving.idle,
    };
    match gate_on(
        rt,
        alloc,
        made,
        links,
        clocks,
        line.inputs.len(),
        line.outputs.len(),
        &limits,
    ) {
        Ok(gated) => Ok((gate_status(gated.ending), gated.counts)),
        Err(refused) => Err(refused),
    }
}

// Runs on links and clocks, and tells the host what the receiver counted.
fn gate_sealed<R: Threads + Wait + Sync, H: Host>(
    rt: &R,
    alloc: Global,
    host: &mut H,
    line: &GateLine<'_>,
    sealers: Sealers,
    links: &mut Vec<H::Wire>,
    clocks: &mut Vec<H::Time>,
) -> Status
    requires range { IsInGate (shown_gate line.now) }
    requires receiving { IsFreshFor (shown_gate line.now).incoming sealers.receiving }
    requires sending { IsFreshFor (shown_gate line.now).session sealers.sending }
    requires count { length links.old.items ≡ length line.now.inputs.items + length line.now.outputs.items }
    requires clocks { length clocks.old.items ≡ length line.now.inputs.items + length line.now.outputs.items + 1 }
    ensures work { (CanRefuse result → ⊥) → Passes ⟦<H as Telling>⟧.live H.tells (H.shelf host.new)
        (shown_gate line.now) sealers.receiving sealers.sending links.old.items links.new.items
        clocks.old.items clocks.new.items result }
    ensures refused { CanRefuse result → (result ≡ Status.Memory) × (links.new.items ≡ links.old.items)
        × (clocks.new.items ≡ clocks.old.items) × (host.new ≡ host.old) }
    ensures line { result ≢ Status.Usage }
    ensures ends { IsGateEnd (shown_gate line.now) result }
    ensures same { IsTrue H.tells → ChangesReport (H.shelf host.old) (H.shelf host.new) }
    ensures opened { H.faults host.new ≡ H.faults host.old }
    ensures links { length links.new.items ≡ length links.old.items }
    ensures clocks { length clocks.new.items ≡ length clocks.old.items }
{
    match gate_with(rt, alloc, line, sealers, links, clocks) {
        Ok((status, counts)) => {
            report(host, &counts);
            status
        }
        Err(_) => Status::Memory,
    }
}

// Runs on links by the host's next clocks, under a sealer for each end that has a passphrase.
fn gate_by_clocks<R: Threads + Wait + Sync, H: Host>(
    rt: &R,
    alloc: Global,
    host: &mut H,
    line: &GateLine<'_>,
    links: &mut Vec<H::Wire>,
) -> Status
    requires range { IsInGate (shown_gate line.now) }
    requires count { length links.old.items ≡ length line.now.inputs.items + length line.now.outputs.items }
    ensures gated { IsTrue H.tells → (H.shelf host.old).next_clock ≡ 0 → (H.shelf host.old).next_entropy ≡ 0
        → (CanRefuse result → ⊥) → PassesByClocks ⟦<H as Telling>⟧.objects ⟦<H as Telling>⟧.live
        (H.shelf host.old) (H.shelf host.new) (shown_gate line.now) result links.old.items links.new.items }
    ensures ungated { CanRefuse result → links.new.items ≡ links.old.items }
    ensures clocks { IsTrue H.tells → (H.shelf host.old).next_clock ≡ 0 → CanRefuse result
        → AreAsTheyWere (H.shelf host.old).clocks (H.shelf host.new).clocks }
    ensures unreported { IsTrue H.tells → CanRefuse result → (H.shelf host.new).report ≡ (H.shelf host.old).report }
    ensures random { IsTrue H.tells → (H.shelf host.old).next_entropy ≡ 0 → result ≡ Status.EntropyFault
        → FailedAt ⟦<H as Telling>⟧.objects (H.shelf host.old) (H.shelf host.new) }
    ensures others { IsTrue H.tells → KeepsButTiming (H.shelf host.old) (H.shelf host.new) }
    ensures times { IsTrue H.tells → (H.shelf host.old).next_clock ≡ 0
        → KeepsLinksBut (length line.now.inputs.items + length line.now.outputs.items + 1)
        (H.shelf host.old).clocks (H.shelf host.new).clocks }
    ensures words { IsTrue H.tells → (H.shelf host.old).next_entropy ≡ 0
        → KeepsWords (H.shelf host.old) (H.shelf host.new) (gate_draws (shown_gate line.now)) }
    ensures line { result ≢ Status.Usage }
    ensures ends { IsGateEnd (shown_gate line.now) result }
    ensures opened { HasOpenCause (fault_of result) (H.faults host.old) (H.faults host.new) }
    ensures links { length links.new.items ≡ length links.old.items }
{
    let mut clocks = match open_clocks(alloc, host, links.len() + 1) {
        Ok(clocks) => clocks,
        Err(bad) => return Status::from(bad),
    };
    let status = match sealers_for(host, &line.incoming, &line.session) {
        Ok(sealers) => gate_sealed(rt, alloc, host, line, sealers, links, &mut clocks),
        Err(status) => status,
    };
    back_clocks(host, clocks);
    status
}

// Runs on the links of a line. Each clause says a part of what that leaves.
fn gate_on_links<R: Threads + Wait + Sync, H: Host>(
    rt: &R,
    alloc: Global,
    host: &mut H,
    line: &GateLine<'_>,
) -> Status
    requires range { IsInGate (shown_gate line.now) }
    ensures gated { IsUnused H.tells (H.shelf host.old) → (CanRefuse result → ⊥)
        → Gated ⟦<H as Telling>⟧.objects ⟦<H as Telling>⟧.live
        (H.shelf host.old) (H.shelf host.new) (shown_gate line.now) result }
    ensures ungated { IsUnused H.tells (H.shelf host.old) → CanRefuse result
        → Ungated (H.shelf host.old) (H.shelf host.new) }
    ensures around { IsUnused H.tells (H.shelf host.old)
        → KeepsAroundGate (H.shelf host.old) (H.shelf host.new) (shown_gate line.now) }
    ensures links_opened { IsUnused H.tells (H.shelf host.old) → (CanRefuse result → ⊥)
        → (H.shelf host.new).opened_links ≡ links_gated (shown_gate line.now) }
    ensures links_tried { IsUnused H.tells (H.shelf host.old)
        → AreFirstOf (H.shelf host.new).opened_links (links_gated (shown_gate line.now)) }
    ensures random { IsUnused H.tells (H.shelf host.old) → result ≡ Status.EntropyFault
        → FailedAt ⟦<H as Telling>⟧.objects (H.shelf host.old) (H.shelf host.new) }
    ensures line { result ≢ Status.Usage }
    ensures ends { IsGateEnd (shown_gate line.now) result }
    ensures opened { HasOpenCause (fault_of result) (H.faults host.old) (H.faults host.new) }
{
    let mut links = match open_both(
        alloc,
        host,
        line.inputs.as_slice(),
        line.incoming.profile,
        line.outputs.as_slice(),
        line.session.profile,
    ) {
        Ok(links) => links,
        Err(bad) => return Status::from(bad),
    };
    let status = gate_by_clocks(rt, alloc, host, line, &mut links);
    back_links(host, links);
    status
}

/// Does the line of a gateway, once the host knows what is kept of the run.
fn gate_unwatched<R: Threads + Wait + Sync, H: Host>(
    rt: &R,
    alloc: Global,
    host: &mut H,
    line: &GateLine<'_>,
) -> Status
    requires range { IsInGate (shown_gate line.now) }
    ensures does { DoesGate H.tells ⟦<H as Telling>⟧.objects ⟦<H as Telling>⟧.live (shown_gate line.now)
        (H.faults host.old) (H.faults host.new) (H.shelf host.old) (H.shelf host.new) result }
    ensures line { result ≢ Status.Usage }
    ensures opened { HasOpenCause (fault_of result) (H.faults host.old) (H.faults host.new) }
{
    gate_on_links(rt, alloc, host, line)
}

/// Does the line of a gateway.
pub fn gate_line<R: Threads + Wait + Sync, H: Host>(
    rt: &R,
    alloc: Global,
    host: &mut H,
    line: &GateLine<'_>,
) -> Status
    requires range { IsInGate (shown_gate line.now) }
    ensures does { DoesGate H.tells ⟦<H as Telling>⟧.objects ⟦<H as Telling>⟧.live (shown_gate line.now)
        (H.faults host.old) (H.faults host.new) (H.shelf host.old) (H.shelf host.new) result }
    ensures line { result ≢ Status.Usage }
    ensures opened { HasOpenCause (fault_of result) (H.faults host.old) (H.faults host.new) }
{
    match watch(host, &line.watching) {
        Ok(()) => gate_unwatched(rt, alloc, host, line),
        Err(bad) => Status::from(bad),
    }
}
