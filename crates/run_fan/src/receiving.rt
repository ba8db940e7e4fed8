//! The run of a line over links, clocks and sinks.
ghost use Rattle.std.specs.Prelude.{◌≡◌, ◌≢◌, IfOk, OnErr, length};
ghost use Rattle.std.specs.List.{All};
ghost use Rattle.outside_io.specs.Told.{IsEmpty};
ghost use Rattle.rist_words.specs.Shown.{shown_fan};
ghost use Rattle.rist_words.specs.Ranges.{IsInFan};
ghost use Rattle.run_parts.specs.Causes.{CanRefuse};
ghost use Rattle.run_parts.specs.Objects.{live_of};
ghost use Rattle.run_parts.specs.Sealing.{IsFreshFor};
ghost use Rattle.run_fan.specs.Ends.{IsFanEnd, fan_status};
ghost use Rattle.run_fan.specs.Inside.Making.{IsMade, sealers_in};
ghost use Rattle.run_fan.specs.Inside.Fanning.{FansAs, FansWith, tells_sinks};

use crate::making::{FanMemory, make};
use crate::seating::{seated, unseated};
use desk_run::Ending;
use fan_run::{FlowsRun, receive_flows};
use outside_io::{NoMemory, Sink};
use outside_net::{Clock, Link, TellingLink};
use psk_seal::Sealer;
use rist_desk::ServingLimits;
use rist_ends::Counts;
use rist_fan::Fan;
use rist_words::FanLine;
use run_parts::Status;
use std::alloc::Global;
use std::sync::Wait;
use std::thread::Threads;

// How a run ended.
fn fan_status(ending: Ending) -> Status
    ensures value { result ≡ fan_status ending }
{
    match ending {
        Ending::Done => Status::Done,
        Ending::WriteFault => Status::WriteFault,
        Ending::Spent => Status::Spent,
        Ending::TraceFull => Status::TraceFull,
        Ending::Torn(tear) => Status::Torn(tear),
        Ending::LinksDown => Status::LinksDown,
    }
}

// Receives over the memory that was taken. Where memory is wanting for the workers, the sinks stand in their list as they
// were.
fn receive_made<
    K: Sink + Drop + Send,
    L: Link + Drop + Send,
    C: Clock + Drop + Send,
    R: Threads + Wait + Sync,
>(
    rt: &R,
    alloc: Global,
    line: &FanLine<'_>,
    made: FanMemory<K>,
    links: &mut Vec<L>,
    clocks: &mut Vec<C>,
    sinks: &mut Vec<K>,
) -> Result<(Ending, Vec<Counts>), NoMemory>
    requires range { IsInFan (shown_fan line.now) }
    requires count { length links.old.items ≡ length line.now.links.items }
    requires clocks { length clocks.old.items ≡ length line.now.links.items }
    requires places { length sinks.old.items ≡ length line.now.ports.items }
    requires receivers { length made.receivers.items ≡ length line.now.ports.items }
    requires made { IsMade (shown_fan line.now) (length links.old.items) made }
    requires empty { All (λ sink. IsEmpty (K.contents sink)) sinks.old.items }
    ensures work { IfOk result (λ ended. FansAs (live_of ⟦<L as TellingLink>⟧.tells C.moments)
        (tells_sinks K.contents K.faults) (shown_fan line.now) (sealers_in made)
        links.old.items links.new.items clocks.old.items clocks.new.items sinks.old.items sinks.new.items
        ended.1.items ended.0) }
    ensures memory { OnErr result
        ((links.new ≡ links.old) × (clocks.new ≡ clocks.old) × (sinks.new.items ≡ sinks.old.items)) }
    ensures links { length links.new.items ≡ length links.old.items }
    ensures clocks { length clocks.new.items ≡ length clocks.old.items }
    ensures places { length sinks.new.items ≡ length sinks.old.items }
{
    let FanMemory {
        receivers,
        flows,
        ports,
        openers,
        counts,
    } = made;
    let mut more = seated(sinks, receivers, flows);
    let first = more.remove(0);
    let limits = ServingLimits {
        turns: line.serving.turns,
        idle: 1000 * line.serving.idle,
    };
    let fan = Fan::with(first, more);
    match receive_flows(rt, alloc, fan, ports, openers, links, clocks, &limits) {
        Ok(
            FlowsRun {
                ending,
                first,
                more,
                came: _,
            },
        ) => Ok((ending, unseated(first, more, sinks, counts))),
        Err(fan) => {
            let (first, more) = fan.apart();
            unseated(first, more, sinks, counts);
            Err(NoMemory)
        }
    }
}

/// Receives on links, each flow into its own sink, under these sealers. Where memory is wanting nothing is read or
/// written.
pub(crate) fn receive_into<
    K: Sink + Drop + Send,
    L: Link + Drop + Send,
    C: Clock + Drop + Send,
    R: Threads + Wait + Sync,
>(
    rt: &R,
    alloc: Global,
    line: &FanLine<'_>,
    sealers: Vec<Option<Sealer>>,
    links: &mut Vec<L>,
    clocks: &mut Vec<C>,
    sinks: &mut Vec<K>,
) -> Result<(Status, Vec<Counts>), NoMemory>
    requires range { IsInFan (shown_fan line.now) }
    requires sealers { length sealers.items ≡ length line.now.ports.items }
    requires fresh { All (IsFreshFor (shown_fan line.now).session) sealers.items }
    requires count { length links.old.items ≡ length line.now.links.items }
    requires clocks { length clocks.old.items ≡ length line.now.links.items }
    requires places { length sinks.old.items ≡ length line.now.ports.items }
    requires empty { All (λ sink. IsEmpty (K.contents sink)) sinks.old.items }
    ensures work { IfOk result (λ ended. FansWith (live_of ⟦<L as TellingLink>⟧.tells C.moments)
        (tells_sinks K.contents K.faults) (shown_fan line.now) sealers.items
        links.old.items links.new.items clocks.old.items clocks.new.items sinks.old.items sinks.new.items
        ended.1.items ended.0) }
    ensures memory { OnErr result
        ((links.new ≡ links.old) × (clocks.new ≡ clocks.old) × (sinks.new.items ≡ sinks.old.items)) }
    ensures ends { IfOk result (λ ended. IsFanEnd (shown_fan line.now) ended.0) }
    ensures ran { IfOk result (λ ended. CanRefuse ended.0 → ⊥) }
    ensures counts { IfOk result (λ ended. length ended.1.items ≡ length line.now.ports.items) }
    ensures links { length links.new.items ≡ length links.old.items }
    ensures clocks { length clocks.new.items ≡ length clocks.old.items }
    ensures places { length sinks.new.items ≡ length sinks.old.items }
{
    let made = make(alloc, line, sealers, links.len())?;
    let (ending, counts) = receive_made(rt, alloc, line, made, links, clocks, sinks)?;
    Ok((fan_status(ending), counts))
}
