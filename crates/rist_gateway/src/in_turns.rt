//! A run of a receiver in turns whose sink sends on.
ghost use Rattle.std.specs.Prelude.{◌≡◌, ◌<◌, ◌≤◌, ◌+◌, ◌^◌, [], ℕ, List, Option, IfOk, IfErr, Some, None, length, true, vec_capacity};
ghost use Rattle.link_channels.specs.declared.bounds.TheConstants.{MAX_LINKS};
ghost use Rattle.std.specs.List.{All};
ghost use Rattle.outside_io.specs.Told.{IsEmpty};
ghost use Rattle.rist_desk.specs.Desk.{IsNew, state_of};
ghost use Rattle.turn_desk.specs.Own.{AreFreshFor, passes_in};
ghost use Rattle.desk_run.specs.Run.{Receives, outside};
ghost use Rattle.desk_run.specs.Setup.{Setup, IsMadeInTurns, given_to, setup_in_turns};
ghost use Rattle.turn_desk.specs.Asides.{LooksAt};
ghost use Rattle.rist_gateway.specs.Run.{AreLookedAt};

use crate::either_worker::EitherWorker;
use crate::sides::{seat_sides, serve_both, unseat_sides};
use desk_run::{
    Closed, MadeInTurns, Run, conclude_turns, ending_after, ending_by, seated_with, unseated_with,
};
use outside_net::{Clock, Link, TellingLink};
use rist_desk::{Beside, DeskOrigin, ServingLimits, Step, Worker};
use rist_wire::Opener;
use std::alloc::Global;
use std::marker::Brand;
use std::sync::Wait;
use std::thread::Threads;
use turn_desk::{Parts, Shared, TurnDesk};
use turn_lock::Pass;

/// The run of a desk with its passes: one for each link that is received on, and then one for each that is sent on.
fn served_in_turns<
    N: DeskOrigin + Send + Sync,
    K: Beside + Drop + Send,
    L: Link + Drop + Send,
    C: Clock + Drop + Send,
    R: Threads + Wait + Sync,
>(
    rt: &R,
    desk: TurnDesk<N, K>,
    mut passes: Vec<Pass<Step, Shared<N, K>>>,
    openers: Vec<Opener>,
    workers: Vec<Worker<L, C, Pass<Step, Shared<N, K>>>>,
    mut parts: Vec<EitherWorker<L, C, Pass<Step, Shared<N, K>>, C, Pass<Step, Shared<N, K>>>>,
    links: &mut Vec<L>,
    clocks: &mut Vec<C>,
    beside: &mut Vec<C>,
    limits: &ServingLimits,
) -> Run<K>
    requires some { 0 < length links.old.items }
    requires few { length links.old.items + length beside.old.items ≤ MAX_LINKS }
    requires clocks { length clocks.old.items ≡ length links.old.items }
    requires turns { (0 < limits.now.turns) × (limits.now.turns ≤ 2 ^ 40) }
    requires openers { length openers.items ≡ length links.old.items }
    requires passes { AreFreshFor desk passes.items }
    requires count { passes_in desk ≡ length links.old.items + length beside.old.items }
    requires room { length links.old.items ≤ vec_capacity workers }
    requires none { workers.items ≡ [] }
    requires part_room { length links.old.items + length beside.old.items ≤ vec_capacity parts }
    requires no_parts { parts.items ≡ [] }
    // Of each setup that the desk was given: its steps are told without a limit, and the openers are of its session.
    ensures work { (s : Setup) (contents : Option (List ℕ)) (faults : ℕ)
        → N.given ≡ given_to s contents faults → s.limit ≡ None → s.tells ≡ true
        → 1 ≤ s.settings.limits.playout_delay → All (λ session. session ≡ s.session) openers.items
        → Receives C.moments
        ⟦<L as TellingLink>⟧.tells
        s limits.now
        (outside links.old.items clocks.old.items contents faults)
        (outside links.new.items clocks.new.items (K.contents result.sink) (K.faults result.sink))
        result.counts result.ending }
    ensures looked { AreLookedAt (LooksAt K.contents K.faults K.looks) C.moments limits.now
        beside.old.items beside.new.items }
    ensures links { length links.new.items ≡ length links.old.items }
    ensures clocks { length clocks.new.items ≡ length clocks.old.items }
    ensures beside { length beside.new.items ≡ length beside.old.items }
    ensures link_room { vec_capacity links.old ≤ vec_capacity links.new }
    ensures clock_room { vec_capacity clocks.old ≤ vec_capacity clocks.new }
{
    seat_sides(beside, &mut passes, &mut parts);
    let mut workers = seated_with(links, clocks, openers, &mut passes, workers);
    serve_both(rt, &mut workers, &mut parts, &desk, limits);
    let after = ending_after(workers.as_slice());
    unseated_with(workers, links, clocks, &mut passes);
    unseat_sides(parts, beside, &mut passes);
    let Closed {
        cut,
        receiver,
        sink,
    } = conclude_turns(desk, passes);
    Run {
        ending: ending_by(cut, after),
        counts: receiver.counts(),
        sink,
    }
}

/// The run of a desk under a name.
fn named_in_turns<
    N: DeskOrigin + Send + Sync,
    K: Beside + Drop + Send,
    L: Link + Drop + Send,
    C: Clock + Drop + Send,
    R: Threads + Wait + Sync,
>(
    rt: &R,
    alloc: Global,
    made: MadeInTurns,
    links: &mut Vec<L>,
    clocks: &mut Vec<C>,
    sink: K,
    beside: &mut Vec<C>,
    limits: &ServingLimits,
) -> Result<Run<K>, K>
    requires some { 0 < length links.old.items }
    requires few { length links.old.items + length beside.old.items ≤ MAX_LINKS }
    requires clocks { length clocks.old.items ≡ length links.old.items }
    requires turns { (0 < limits.now.turns) × (limits.now.turns ≤ 2 ^ 40) }
    requires made { IsMadeInTurns (length links.old.items) made }
    requires given { N.given ≡ given_to (setup_in_turns made) (K.contents sink) (K.faults sink) }
    requires fresh { IsNew N.given (state_of made.receiver (Some []) None (K.contents sink) (K.faults sink)) }
    ensures work { IfOk result (λ run. Receives C.moments
        ⟦<L as TellingLink>⟧.tells
        (setup_in_turns made) limits.now
        (outside links.old.items clocks.old.items (K.contents sink) (K.faults sink))
        (outside links.new.items clocks.new.items (K.contents run.sink) (K.faults run.sink))
        run.counts run.ending) }
    ensures looked { IfOk result (λ run. AreLookedAt (LooksAt K.contents K.faults K.looks) C.moments limits.now
        beside.old.items beside.new.items) }
    ensures memory { IfErr result (λ left. (left ≡ sink) × (links.new.items ≡ links.old.items)
        × (clocks.new.items ≡ clocks.old.items) × (beside.new.items ≡ beside.old.items)) }
    ensures links { length links.new.items ≡ length links.old.items }
    ensures clocks { length clocks.new.items ≡ length clocks.old.items }
    ensures beside { length beside.new.items ≡ length beside.old.items }
    ensures link_room { vec_capacity links.old ≤ vec_capacity links.new }
    ensures clock_room { vec_capacity clocks.old ≤ vec_capacity clocks.new }
{
    let MadeInTurns { receiver, openers } = made;
    let count = links.len();
    let all = count + beside.len();
    let (Ok(workers), Ok(parts)) = (
        Vec::with_capacity(alloc, count),
        Vec::with_capacity(alloc, all),
    ) else {
        return Err(sink);
    };
    match TurnDesk::<N, K>::open(alloc, receiver, sink, all as u64) {
        Ok((desk, passes)) => Ok(served_in_turns(
            rt, desk, passes, openers, workers, parts, links, clocks, beside, limits,
        )),
        Err(Parts { receiver: _, sink }) => Err(sink),
    }
}

/// Receives in turns on these links, each by its own clock, into an empty sink, with what was made for so many links, and
/// looks at the links that the sink sends on. Links and clocks stand in their lists again when it ends. Where memory is
/// wanting nothing is read or written, and the sink comes back.
pub(crate) fn receive_in_turns<
    K: Beside + Drop + Send,
    L: Link + Drop + Send,
    C: Clock + Drop + Send,
    R: Threads + Wait + Sync,
>(
    rt: &R,
    alloc: Global,
    made: MadeInTurns,
    links: &mut Vec<L>,
    clocks: &mut Vec<C>,
    sink: K,
    beside: &mut Vec<C>,
    limits: &ServingLimits,
) -> Result<Run<K>, K>
    requires some { 0 < length links.old.items }
    requires few { length links.old.items + length beside.old.items ≤ MAX_LINKS }
    requires clocks { length clocks.old.items ≡ length links.old.items }
    requires turns { (0 < limits.now.turns) × (limits.now.turns ≤ 2 ^ 40) }
    requires made { IsMadeInTurns (length links.old.items) made }
    requires empty { IsEmpty (K.contents sink) }
    ensures work { IfOk result (λ run. Receives C.moments
        ⟦<L as TellingLink>⟧.tells
        (setup_in_turns made) limits.now
        (outside links.old.items clocks.old.items (K.contents sink) (K.faults sink))
        (outside links.new.items clocks.new.items (K.contents run.sink) (K.faults run.sink))
        run.counts run.ending) }
    ensures looked { IfOk result (λ run. AreLookedAt (LooksAt K.contents K.faults K.looks) C.moments limits.now
        beside.old.items beside.new.items) }
    ensures memory { IfErr result (λ left. (left ≡ sink) × (links.new.items ≡ links.old.items)
        × (clocks.new.items ≡ clocks.old.items) × (beside.new.items ≡ beside.old.items)) }
    ensures links { length links.new.items ≡ length links.old.items }
    ensures clocks { length clocks.new.items ≡ length clocks.old.items }
    ensures beside { length beside.new.items ≡ length beside.old.items }
    ensures link_room { vec_capacity links.old ≤ vec_capacity links.new }
    ensures clock_room { vec_capacity clocks.old ≤ vec_capacity clocks.new }
{
    named_in_turns::<Brand, K, L, C, R>(rt, alloc, made, links, clocks, sink, beside, limits)
}
