//! A run of a receiver whose sink sends on.
ghost use Rattle.std.specs.Prelude.{◌≡◌, ◌<◌, ◌≤◌, ◌+◌, ◌^◌, [], IfOk, IfErr, length, vec_capacity};
ghost use Rattle.link_channels.specs.declared.bounds.TheConstants.{MAX_LINKS};
ghost use Rattle.outside_io.specs.Told.{IsEmpty};
ghost use Rattle.rist_desk.specs.Desk.{IsNew, state_of};
ghost use Rattle.desk_run.specs.Run.{Receives, outside};
ghost use Rattle.desk_run.specs.Setup.{given_to, setup_of};
ghost use Rattle.turn_desk.specs.Asides.{LooksAt};
ghost use Rattle.rist_gateway.specs.Run.{AreLookedAt};
ghost use Rattle.rist_gateway.specs.Setup.{IsKeptEnd, IsReceivingEnd, received_setup_of};

use crate::in_turns::receive_in_turns;
use crate::receiving_end::{KeptEnd, ReceivingEnd};
use crate::sides::{seat_sides, serve_both, unseat_sides};
use desk_run::{MadeTrace, Received, Run, conclude, seated, unseated};
use outside_net::{Clock, Link, TellingLink};
use rist_desk::{Beside, Desk, DeskOrigin, ServingLimits};
use std::alloc::Global;
use std::marker::Brand;
use std::sync::{Mutex, Wait};
use std::thread::Threads;

/// The run of a desk under a name.
fn named_run<
    N: DeskOrigin + Send + Sync,
    T: MadeTrace + Drop + Send,
    K: Beside + Drop + Send,
    L: Link + Drop + Send,
    C: Clock + Drop + Send,
    R: Threads + Wait + Sync,
>(
    rt: &R,
    end: KeptEnd<T, L, C>,
    links: &mut Vec<L>,
    clocks: &mut Vec<C>,
    sink: K,
    beside: &mut Vec<C>,
    limits: &ServingLimits,
) -> Run<K>
    requires some { 0 < length links.old.items }
    requires few { length links.old.items + length beside.old.items ≤ MAX_LINKS }
    requires clocks { length clocks.old.items ≡ length links.old.items }
    requires turns { (0 < limits.now.turns) × (limits.now.turns ≤ 2 ^ 40) }
    requires made { IsKeptEnd T.list T.limit (length links.old.items) (length beside.old.items) end }
    requires given { N.given ≡ given_to (setup_of T.limit end.made) (K.contents sink) (K.faults sink) }
    requires fresh { IsNew N.given (state_of end.made.receiver
        (T.list end.made.trace) (T.limit end.made.trace) (K.contents sink) (K.faults sink)) }
    ensures work { Receives C.moments
        ⟦<L as TellingLink>⟧.tells
        (setup_of T.limit end.made) limits.now
        (outside links.old.items clocks.old.items (K.contents sink) (K.faults sink))
        (outside links.new.items clocks.new.items (K.contents result.sink) (K.faults result.sink))
        result.counts result.ending }
    ensures looked { AreLookedAt (LooksAt K.contents K.faults K.looks) C.moments limits.now
        beside.old.items beside.new.items }
    ensures links { length links.new.items ≡ length links.old.items }
    ensures clocks { length clocks.new.items ≡ length clocks.old.items }
    ensures beside { length beside.new.items ≡ length beside.old.items }
    ensures link_room { vec_capacity links.old ≤ vec_capacity links.new }
    ensures clock_room { vec_capacity clocks.old ≤ vec_capacity clocks.new }
{
    let KeptEnd {
        made,
        mut parts,
        mut passes,
    } = end;
    let desk_run::Memory {
        receiver,
        trace,
        seats,
        workers,
    } = made;
    seat_sides(beside, &mut passes, &mut parts);
    let mut workers = seated(links, clocks, seats, workers);
    let desk: Mutex<Desk<N, T, K>> = Mutex::new(Desk::with(receiver, trace, sink));
    serve_both(rt, &mut workers, &mut parts, &desk, limits);
    let Received {
        ending,
        receiver,
        trace: _,
        sink,
    } = conclude(desk.into_inner(), workers.as_slice());
    unseated(workers, links, clocks);
    unseat_sides(parts, beside, &mut passes);
    Run {
        ending,
        counts: receiver.counts(),
        sink,
    }
}

/// Receives with a desk behind a lock, whose steps are kept.
fn receive_kept<
    T: MadeTrace + Drop + Send,
    K: Beside + Drop + Send,
    L: Link + Drop + Send,
    C: Clock + Drop + Send,
    R: Threads + Wait + Sync,
>(
    rt: &R,
    end: KeptEnd<T, L, C>,
    links: &mut Vec<L>,
    clocks: &mut Vec<C>,
    sink: K,
    beside: &mut Vec<C>,
    limits: &ServingLimits,
) -> Run<K>
    requires some { 0 < length links.old.items }
    requires few { length links.old.items + length beside.old.items ≤ MAX_LINKS }
    requires clocks { length clocks.old.items ≡ length links.old.items }
    requires turns { (0 < limits.now.turns) × (limits.now.turns ≤ 2 ^ 40) }
    requires made { IsKeptEnd T.list T.limit (length links.old.items) (length beside.old.items) end }
    requires empty { IsEmpty (K.contents sink) }
    ensures work { Receives C.moments
        ⟦<L as TellingLink>⟧.tells
        (setup_of T.limit end.made) limits.now
        (outside links.old.items clocks.old.items (K.contents sink) (K.faults sink))
        (outside links.new.items clocks.new.items (K.contents result.sink) (K.faults result.sink))
        result.counts result.ending }
    ensures looked { AreLookedAt (LooksAt K.contents K.faults K.looks) C.moments limits.now
        beside.old.items beside.new.items }
    ensures links { length links.new.items ≡ length links.old.items }
    ensures clocks { length clocks.new.items ≡ length clocks.old.items }
    ensures beside { length beside.new.items ≡ length beside.old.items }
    ensures link_room { vec_capacity links.old ≤ vec_capacity links.new }
    ensures clock_room { vec_capacity clocks.old ≤ vec_capacity clocks.new }
{
    named_run::<Brand, T, K, L, C, R>(rt, end, links, clocks, sink, beside, limits)
}

/// Receives on these links, each by its own clock, into an empty sink, with what was made for so many links, and looks
/// at the links that the sink sends on, each by a clock of its own. Links and clocks stand in their lists again when it
/// ends. Where memory is wanting, nothing was done, and the sink comes back.
pub(crate) fn receive_beside<
    T: MadeTrace + Drop + Send,
    K: Beside + Drop + Send,
    L: Link + Drop + Send,
    C: Clock + Drop + Send,
    R: Threads + Wait + Sync,
>(
    rt: &R,
    alloc: Global,
    end: ReceivingEnd<T, L, C>,
    links: &mut Vec<L>,
    clocks: &mut Vec<C>,
    sink: K,
    beside: &mut Vec<C>,
    limits: &ServingLimits,
) -> Result<Run<K>, K>
    requires some { 0 < length links.old.items }
    requires few { length links.old.items + length beside.old.items ≤ MAX_LINKS }
    requires clocks { length clocks.old.items ≡ length links.old.items }
    requires turns { (0 < limits.now.turns) × (limits.now.turns ≤ 2 ^ 40) }
    requires made { IsReceivingEnd T.list T.limit (length links.old.items) (length beside.old.items) end }
    requires empty { IsEmpty (K.contents sink) }
    ensures work { IfOk result (λ run. Receives C.moments
        ⟦<L as TellingLink>⟧.tells
        (received_setup_of T.limit end) limits.now
        (outside links.old.items clocks.old.items (K.contents sink) (K.faults sink))
        (outside links.new.items clocks.new.items (K.contents run.sink) (K.faults run.sink))
        run.counts run.ending) }
    ensures looked { IfOk result (λ run. AreLookedAt (LooksAt K.contents K.faults K.looks) C.moments limits.now
        beside.old.items beside.new.items) }
    ensures memory { IfErr result (λ left. (left ≡ sink) × (links.new.items ≡ links.old.items)
        × (clocks.new.items ≡ clocks.old.items) × (beside.new.items ≡ beside.old.items)) }
    ensures links { length links.new.items ≡ length links.old.items }
    ensures clocks { length clocks.new.items ≡ length clocks.old.items }
    ensures beside { length beside.new.items ≡ length beside.old.items }
    ensures link_room { vec_capacity links.old ≤ vec_capacity links.new }
    ensures clock_room { vec_capacity clocks.old ≤ vec_capacity clocks.new }
{
    match end {
        ReceivingEnd::Kept(end) => {
            Ok(receive_kept(rt, end, links, clocks, sink, beside, limits))
        }
        ReceivingEnd::InTurns(made) => {
            receive_in_turns(rt, alloc, made, links, clocks, sink, beside, limits)
        }
    }
}
