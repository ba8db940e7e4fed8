//! A run over links, clocks and a sink.
ghost use Rattle.std.specs.Prelude.{◌≡◌, ◌<◌, ◌≤◌, ◌^◌, length};
ghost use Rattle.link_channels.specs.declared.bounds.TheConstants.{MAX_LINKS};
ghost use Rattle.outside_io.specs.Told.{IsEmpty};
ghost use Rattle.desk_run.specs.Run.{Receives, outside};
ghost use Rattle.desk_run.specs.Setup.{IsMade, setup_of};

use crate::receiving::receive;
use desk_run::{MadeTrace, Memory, Run, seated, unseated};
use outside_io::Sink;
use outside_net::{Clock, Link, TellingLink};
use rist_desk::ServingLimits;
use std::sync::Wait;
use std::thread::Threads;

/// Receives on these links, each by its own clock, into an empty sink, with what was made for so many links. Links and
/// clocks stand in their lists again when it ends.
pub fn receive_on<
    T: MadeTrace + Drop + Send,
    K: Sink + Drop + Send,
    L: Link + Drop + Send,
    C: Clock + Drop + Send,
    R: Threads + Wait + Sync,
>(
    rt: &R,
    made: Memory<T, L, C>,
    links: &mut Vec<L>,
    clocks: &mut Vec<C>,
    sink: K,
    limits: &ServingLimits,
) -> Run<K>
    requires some { 0 < length links.old.items }
    requires few { length links.old.items ≤ MAX_LINKS }
    requires clocks { length clocks.old.items ≡ length links.old.items }
    requires turns { (0 < limits.now.turns) × (limits.now.turns ≤ 2 ^ 40) }
    requires made { IsMade T.list T.limit (length links.old.items) made }
    requires empty { IsEmpty (K.contents sink) }
    ensures work { Receives C.moments
        ⟦<L as TellingLink>⟧.tells
        (setup_of T.limit made) limits.now
        (outside links.old.items clocks.old.items (K.contents sink) (K.faults sink))
        (outside links.new.items clocks.new.items (K.contents result.sink) (K.faults result.sink))
        result.counts result.ending }
    ensures links { length links.new.items ≡ length links.old.items }
    ensures clocks { length clocks.new.items ≡ length clocks.old.items }
{
    let Memory {
        receiver,
        trace,
        seats,
        workers,
    } = made;
    let mut workers = seated(links, clocks, seats, workers);
    let received = receive(rt, receiver, trace, &mut workers, sink, limits);
    unseated(workers, links, clocks);
    Run {
        ending: received.ending,
        counts: received.receiver.counts(),
        sink: received.sink,
    }
}
