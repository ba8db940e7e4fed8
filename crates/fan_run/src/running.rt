//! A run over links, clocks, and the receivers of several flows with their sinks.
ghost use Rattle.std.specs.Prelude.{◌≡◌, ◌<◌, ◌≤◌, ◌∷◌, ◌^◌, IfOk, IfErr, length};
ghost use Rattle.std.specs.List.{All};
ghost use Rattle.link_channels.specs.declared.bounds.TheConstants.{MAX_LINKS};
ghost use Rattle.rist_wire.specs.declared.session.Session.{Session};
ghost use Rattle.rist_wire.specs.Among.{ArePorts};
ghost use Rattle.rist_desk.specs.Desk.{is_cut_off};
ghost use Rattle.rist_fan.specs.Fan.{AreNew, flows_in};
ghost use Rattle.fan_desk.specs.Origin.{AreUntold};
ghost use Rattle.fan_desk.specs.Own.{AreFreshFor, passes_in};
ghost use Rattle.desk_run.specs.Run.{timed_links};
ghost use Rattle.fan_run.specs.Run.{ReceivesFlows, flows_of, is_any_cut};
ghost use Rattle.fan_run.specs.Inside.Memory.{HasMemory};

use crate::closing::conclude_flows;
use crate::passes::{passes_of, row_passes};
use crate::run::FlowsRun;
use desk_run::{ending_after, ending_by, seated_with, unseated_with};
use fan_desk::{FanDesk, FanOrigin, FanStep, RowPass, SharedFan, TunnelDesk};
use outside_io::{NoMemory, Sink};
use outside_net::{Clock, Link, TellingLink};
use rist_desk::{ServingLimits, Worker, serve_flows};
use rist_ends::Answer;
use rist_fan::{Came, Fan};
use rist_wire::Opener;
use std::alloc::Global;
use std::marker::Brand;
use std::sync::Wait;
use std::thread::Threads;
use turn_lock::Pass;

fn is_cut_off(answer: Answer) -> bool
    ensures value { result ≡ is_cut_off answer }
{
    matches!(answer, Answer::Stopped | Answer::WriteFault)
}

fn is_any_cut(came: &[Came]) -> bool
    ensures value { result ≡ is_any_cut came.now }
{
    came.iter().any(|one| is_cut_off(one.answer))
}

/// What a run takes memory for before it begins.
#[derive(Drop)]
struct Memory<N: FanOrigin, K, L, C> {
    /// A worker for each link.
    workers: Vec<Worker<L, C, RowPass<N, K>>>,
    /// What is each worker's own.
    own: Vec<RowPass<N, K>>,
    /// For each link, room for what a step comes to at each place.
    rooms: Vec<Vec<Came>>,
    /// Room for what the end comes to at each place.
    came: Vec<Came>,
}

/// Room for what a step comes to at each of so many places.
fn room(alloc: Global, places: usize) -> Result<Vec<Came>, NoMemory>
    ensures room { IfOk result (λ came. length came.items ≡ places) }
{
    let mut came = Vec::new(alloc);
    while came.len() < places {
        if came.push(Came::none()).is_err() {
            return Err(NoMemory);
        }
    }
    Ok(came)
}

/// Such room for each of so many links.
fn rooms(alloc: Global, count: usize, places: usize) -> Result<Vec<Vec<Came>>, NoMemory>
    ensures each { IfOk result (λ rooms. All (λ came. length came.items ≡ places) rooms.items) }
    ensures count { IfOk result (λ rooms. length rooms.items ≡ count) }
{
    let mut rooms = Vec::new(alloc);
    while rooms.len() < count {
        let came = room(alloc, places)?;
        if rooms.push(came).is_err() {
            return Err(NoMemory);
        }
    }
    Ok(rooms)
}

/// The memory of a run on so many links and places.
fn take_memory<N: FanOrigin, K: Drop, L: Drop, C: Drop>(
    alloc: Global,
    count: usize,
    places: usize,
) -> Result<Memory<N, K, L, C>, NoMemory>
    ensures memory { IfOk result (λ memory. HasMemory count places memory) }
{
    Ok(Memory {
        workers: Vec::with_capacity(alloc, count)?,
        own: Vec::with_capacity(alloc, count)?,
        rooms: rooms(alloc, count, places)?,
        came: room(alloc, places)?,
    })
}

/// The run of a desk with its passes, one for each link.
fn served_flows<
    N: FanOrigin + Send + Sync,
    K: Sink + Drop + Send,
    L: Link + Drop + Send,
    C: Clock + Drop + Send,
    R: Threads + Wait + Sync,
>(
    rt: &R,
    tunnel: TunnelDesk<N, K>,
    mut passes: Vec<Pass<FanStep, SharedFan<N, K>>>,
    memory: Memory<N, K, L, C>,
    openers: Vec<Opener>,
    links: &mut Vec<L>,
    clocks: &mut Vec<C>,
    limits: &ServingLimits,
) -> FlowsRun<K>
    requires some { 0 < length links.old.items }
    requires few { length links.old.items ≤ MAX_LINKS }
    requires clocks { length clocks.old.items ≡ length links.old.items }
    requires turns { (0 < limits.now.turns) × (limits.now.turns ≤ 2 ^ 40) }
    requires openers { length openers.items ≡ length links.old.items }
    requires passes { AreFreshFor tunnel passes.items }
    requires count { passes_in tunnel ≡ length links.old.items }
    requires memory { HasMemory (length links.old.items) N.places memory }
    ensures work { (session : Session) → All (λ opener. opener ≡ session) openers.items
        → ReceivesFlows C.moments
        ⟦<L as TellingLink>⟧.tells
        K.contents K.faults (record { given = N.given; places = N.places; ports = N.ports }) session limits.now
        (timed_links links.old.items clocks.old.items) (timed_links links.new.items clocks.new.items)
        (result.first ∷ result.more.items) result.came.items result.ending }
    ensures links { length links.new.items ≡ length links.old.items }
    ensures clocks { length clocks.new.items ≡ length clocks.old.items }
{
    let Memory {
        workers,
        own,
        rooms,
        mut came,
    } = memory;
    let mut own = row_passes(&mut passes, rooms, own);
    let mut workers = seated_with(links, clocks, openers, &mut own, workers);
    serve_flows::<TunnelDesk<N, K>, RowPass<N, K>, (), L, C, R>(rt, &mut workers, &tunnel, limits);
    let after = ending_after(workers.as_slice());
    unseated_with(workers, links, clocks, &mut own);
    passes_of(own, &mut passes);
    let (desk, _) = tunnel.apart();
    let (first, more) = conclude_flows(desk, passes, &mut came);
    FlowsRun {
        ending: ending_by(is_any_cut(&came), after),
        first,
        more,
        came,
    }
}

/// The run of flows under a name.
fn named_flows<
    N: FanOrigin + Send + Sync,
    K: Sink + Drop + Send,
    L: Link + Drop + Send,
    C: Clock + Drop + Send,
    R: Threads + Wait + Sync,
>(
    rt: &R,
    alloc: Global,
    fan: Fan<K>,
    ports: Vec<u16>,
    openers: Vec<Opener>,
    links: &mut Vec<L>,
    clocks: &mut Vec<C>,
    limits: &ServingLimits,
) -> Result<FlowsRun<K>, Fan<K>>
    requires some { 0 < length links.old.items }
    requires few { length links.old.items ≤ MAX_LINKS }
    requires clocks { length clocks.old.items ≡ length links.old.items }
    requires turns { (0 < limits.now.turns) × (limits.now.turns ≤ 2 ^ 40) }
    requires openers { length openers.items ≡ length links.old.items }
    requires ports { (N.ports ≡ ports.items) × ArePorts ports.items }
    requires places { (N.places ≡ length (flows_in fan)) × (length ports.items ≡ N.places) }
    requires new { AreNew N.given K.contents K.faults (flows_in fan) }
    ensures work { IfOk result (λ run. (session : Session) → All (λ opener. opener ≡ session) openers.items
        → ReceivesFlows C.moments
        ⟦<L as TellingLink>⟧.tells
        K.contents K.faults (record { given = N.given; places = N.places; ports = N.ports }) session limits.now
        (timed_links links.old.items clocks.old.items) (timed_links links.new.items clocks.new.items)
        (run.first ∷ run.more.items) run.came.items run.ending) }
    ensures memory { IfErr result (λ left. (left ≡ fan) × (links.new ≡ links.old) × (clocks.new ≡ clocks.old)) }
    ensures links { length links.new.items ≡ length links.old.items }
    ensures clocks { length clocks.new.items ≡ length clocks.old.items }
{
    let count = links.len();
    let Ok(memory) = take_memory::<N, K, L, C>(alloc, count, ports.len()) else {
        return Err(fan);
    };
    match FanDesk::<N, K>::open(alloc, fan, count as u64) {
        Ok((desk, passes)) => {
            let tunnel = TunnelDesk::with(desk, ports);
            Ok(served_flows(rt, tunnel, passes, memory, openers, links, clocks, limits))
        }
        Err(fan) => Err(fan),
    }
}

/// Receives several flows on these links, each by its own clock, into empty sinks: `ports` has the port of each place, and
/// each link has an opener of one session of the tunnel. Links and clocks stand in their lists again when it ends. Where
/// memory is wanting nothing is read or written, and the receivers and the sinks come back.
pub fn receive_flows<
    K: Sink + Drop + Send,
    L: Link + Drop + Send,
    C: Clock + Drop + Send,
    R: Threads + Wait + Sync,
>(
    rt: &R,
    alloc: Global,
    fan: Fan<K>,
    ports: Vec<u16>,
    openers: Vec<Opener>,
    links: &mut Vec<L>,
    clocks: &mut Vec<C>,
    limits: &ServingLimits,
) -> Result<FlowsRun<K>, Fan<K>>
    requires some { 0 < length links.old.items }
    requires few { length links.old.items ≤ MAX_LINKS }
    requires clocks { length clocks.old.items ≡ length links.old.items }
    requires turns { (0 < limits.now.turns) × (limits.now.turns ≤ 2 ^ 40) }
    requires openers { length openers.items ≡ length links.old.items }
    requires ports { ArePorts ports.items }
    requires places { length ports.items ≡ length (flows_in fan) }
    requires untold { AreUntold K.contents (flows_in fan) }
    ensures work { IfOk result (λ run. (session : Session) → All (λ opener. opener ≡ session) openers.items
        → ReceivesFlows C.moments
        ⟦<L as TellingLink>⟧.tells
        K.contents K.faults (flows_of K.contents K.faults (flows_in fan) ports.items) session limits.now
        (timed_links links.old.items clocks.old.items) (timed_links links.new.items clocks.new.items)
        (run.first ∷ run.more.items) run.came.items run.ending) }
    ensures memory { IfErr result (λ left. (left ≡ fan) × (links.new ≡ links.old) × (clocks.new ≡ clocks.old)) }
    ensures links { length links.new.items ≡ length links.old.items }
    ensures clocks { length clocks.new.items ≡ length clocks.old.items }
{
    named_flows::<Brand, K, L, C, R>(rt, alloc, fan, ports, openers, links, clocks, limits)
}
