//! A run over links and clocks.
ghost use Rattle.std.specs.Prelude.{◌≡◌, ◌<◌, ◌≤◌, ◌^◌, ◌+◌, [], None, Some, IfOk, OnErr, length, vec_capacity};
ghost use Rattle.link_channels.specs.declared.bounds.TheConstants.{MAX_LINKS};
ghost use Rattle.desk_run.specs.Run.{timed_links};
ghost use Rattle.rist_gateway.specs.Onward.{IsUncalled, onward_of, passed_of};
ghost use Rattle.rist_gateway.specs.Inside.Played.{PlaysOn};
ghost use Rattle.rist_gateway.specs.Run.{AreLookedAt, Forwards, LooksOn};
ghost use Rattle.rist_gateway.specs.Setup.{IsGateMade, IsReceivingEnd, gate_setup_of, received_setup_of};

use crate::ending::{GateEnding, ending_of};
use crate::lending::{give_back, hand_on};
use crate::memory::GateMemory;
use crate::onward::Onward;
use crate::origin::OnwardOrigin;
use crate::receiving::receive_beside;
use crate::receiving_end::ReceivingEnd;
use desk_run::{MadeTrace, Run};
use outside_io::NoMemory;
use outside_net::{Clock, Link, TellingLink};
use rist_desk::ServingLimits;
use rist_ends::Counts;
use rist_sender::Sender;
use rist_wire::Opener;
use std::alloc::Global;
use std::marker::Brand;
use std::sync::Wait;
use std::thread::Threads;

/// What a run leaves.
#[derive(Drop)]
pub struct Gated {
    pub ending: GateEnding,
    /// What became of the datagrams that were received.
    pub counts: Counts,
}

/// What the sending end is made of.
#[derive(Drop)]
struct SendingEnd<L, C> {
    sender: Sender,
    opener: Opener,
    links: Vec<L>,
    clock: C,
}

/// What is left of the sending end, beside how the run ended; it did not begin where memory was wanting.
#[derive(Drop)]
struct Forwarded<L, C> {
    ended: Result<Gated, NoMemory>,
    links: Vec<L>,
    clock: C,
}

/// A run whose sending end has a name.
fn forward<
    G: OnwardOrigin + Drop + Send,
    T: MadeTrace + Drop + Send,
    L: Link + Drop + Send,
    C: Clock + Drop + Send,
    R: Threads + Wait + Sync,
>(
    rt: &R,
    alloc: Global,
    receiving: ReceivingEnd<T, L, C>,
    end: SendingEnd<L, C>,
    links: &mut Vec<L>,
    clocks: &mut Vec<C>,
    beside: &mut Vec<C>,
    limits: &ServingLimits,
) -> Forwarded<L, C>
    requires some { 0 < length links.old.items }
    requires few { length links.old.items + length beside.old.items ≤ MAX_LINKS }
    requires clocks { length clocks.old.items ≡ length links.old.items }
    requires turns { (0 < limits.now.turns) × (limits.now.turns ≤ 2 ^ 40) }
    requires made { IsReceivingEnd T.list T.limit (length links.old.items) (length beside.old.items) receiving }
    requires first { G.first ≡ onward_of ⟦<L as TellingLink>⟧.tells
        end.sender end.opener end.links.items (passed_of (C.moments end.clock) []) 0 0 None None }
    requires uncalled { IsUncalled (onward_of ⟦<L as TellingLink>⟧.tells
        end.sender end.opener end.links.items (passed_of (C.moments end.clock) []) 0 0 None None) }
    ensures work { IfOk result.ended (λ gated. PlaysOn C.moments ⟦<L as TellingLink>⟧.tells
        (received_setup_of T.limit receiving) limits.now
        (timed_links links.old.items clocks.old.items) (timed_links links.new.items clocks.new.items)
        G.first result.links.items result.clock gated.counts gated.ending) }
    ensures looked { IfOk result.ended (λ gated. AreLookedAt (LooksOn G.first) C.moments limits.now
        beside.old.items beside.new.items) }
    ensures refused { OnErr result.ended ((links.new.items ≡ links.old.items) × (clocks.new.items ≡ clocks.old.items)
        × (beside.new.items ≡ beside.old.items) × (result.links.items ≡ end.links.items) × (result.clock ≡ end.clock)) }
    ensures onward { length result.links.items ≡ length end.links.items }
    ensures links { length links.new.items ≡ length links.old.items }
    ensures clocks { length clocks.new.items ≡ length clocks.old.items }
    ensures beside { length beside.new.items ≡ length beside.old.items }
    ensures link_room { vec_capacity links.old ≤ vec_capacity links.new }
    ensures clock_room { vec_capacity clocks.old ≤ vec_capacity clocks.new }
{
    let onward: Onward<G, L, C> = Onward::with(end.sender, end.opener, end.links, end.clock);
    match receive_beside(rt, alloc, receiving, links, clocks, onward, beside, limits) {
        Ok(run) => {
            let Run {
                ending,
                counts,
                sink: onward,
            } = run;
            let (put, looked) = onward.refusals();
            let (links, clock) = onward.apart();
            Forwarded {
                ended: Ok(Gated {
                    ending: ending_of(ending, put, looked),
                    counts,
                }),
                links,
                clock,
            }
        }
        Err(onward) => {
            let (links, clock) = onward.apart();
            Forwarded {
                ended: Err(NoMemory),
                links,
                clock,
            }
        }
    }
}

/// Receives on the first links, so many, and sends on over the others, with what was made for so many links of each
/// end. The clocks are those of the links, and last that of the sender. Links and clocks stand in their lists again
/// when it ends. Where memory is wanting, nothing was done.
pub fn gate_on<
    T: MadeTrace + Drop + Send,
    L: Link + Drop + Send,
    C: Clock + Drop + Send,
    R: Threads + Wait + Sync,
>(
    rt: &R,
    alloc: Global,
    made: GateMemory<T, L, C>,
    links: &mut Vec<L>,
    clocks: &mut Vec<C>,
    inputs: usize,
    outputs: usize,
    limits: &ServingLimits,
) -> Result<Gated, NoMemory>
    requires some { (0 < inputs) × (0 < outputs) }
    requires few { inputs + outputs ≤ MAX_LINKS }
    requires links { length links.old.items ≡ inputs + outputs }
    requires clocks { length clocks.old.items ≡ inputs + outputs + 1 }
    requires turns { (0 < limits.now.turns) × (limits.now.turns ≤ 2 ^ 40) }
    requires made { IsGateMade T.list T.limit inputs outputs made }
    ensures work { IfOk result (λ gated. Forwards C.moments ⟦<L as TellingLink>⟧.tells
        (gate_setup_of T.limit made) limits.now inputs
        (timed_links links.old.items clocks.old.items) (timed_links links.new.items clocks.new.items)
        gated.counts gated.ending) }
    ensures memory { OnErr result ((links.new.items ≡ links.old.items) × (clocks.new.items ≡ clocks.old.items)) }
    ensures links { length links.new.items ≡ length links.old.items }
    ensures clocks { length clocks.new.items ≡ length clocks.old.items }
{
    let GateMemory {
        receiving,
        sender,
        opener,
        links: mut onward,
        clocks: mut beside,
    } = made;
    let Some(clock) = clocks.pop() else {
        unreachable!()
    };
    hand_on(links, outputs, &mut onward);
    hand_on(clocks, outputs, &mut beside);
    let end = SendingEnd {
        sender,
        opener,
        links: onward,
        clock,
    };
    let Forwarded {
        ended,
        links: onward,
        clock,
    } = forward::<Brand, T, L, C, R>(
        rt,
        alloc,
        receiving,
        end,
        links,
        clocks,
        &mut beside,
        limits,
    );
    give_back(onward, links);
    give_back(beside, clocks);
    let _ = clocks.push(clock);
    ended
}
