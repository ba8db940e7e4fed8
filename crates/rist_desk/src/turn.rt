//! One turn of a worker.
ghost use Rattle.std.specs.Prelude.{◌≡◌, ◌<◌, ◌≤◌, ◌+◌, ℕ, Bool, nat_le, false, OnOk, IfErr, Some, Err};
ghost use Rattle.link_channels.specs.declared.bounds.TheConstants.{MAX_LINKS};
ghost use Rattle.outside_io.specs.Causes.{RoseWhere};
ghost use Rattle.outside_net.specs.Links.{Gave, Quiet};
ghost use Rattle.rist_desk.specs.Turns.{Feed, is_tick_due, tick_steps, turn_steps, ticked_after, end_by, IsServed};
ghost use Rattle.rist_desk.specs.Work.{Holds, holds, Goes, TurnEnds};
ghost use Rattle.rist_desk.specs.Links.{IsKept, IsKeptBy, has_link_failed, peers_by};
ghost use Rattle.rist_desk.specs.Inside.Going.{IsTask, IsGoing, KeepsRest, has_link_ended};

use crate::access::Access;
use crate::ended::Ended;
use crate::flows::Flows;
use crate::pace::{Pace, Turn, is_idle, rest_after, since_then};
use crate::stepping::{step_datagram, step_tick};
use crate::worker::{ServingLimits, Worker};
use link_channels::{Channel, MAX_DATAGRAM};
use outside_net::{Clock, Got, Link};
use std::sync::Wait;

/// What follows a read that brought a datagram.
fn datagram_turn<S: Flows<U, M>, U, M, L: Link, C, R: Wait>(
    access: &mut Access<'_, R, S, M>,
    worker: &mut Worker<L, C, U>,
    turn: Turn,
    ticked: &mut Option<u64>,
    channel: Channel,
    octets: &mut [u8],
) -> Result<(), Ended>
    requires place { turn.place < MAX_LINKS }
    requires own { S.owns access.old.desk.now turn.place worker.old.trace }
    requires left { 2 ≤ S.good_for worker.old.trace }
    ensures desk { access.new.desk ≡ access.old.desk }
    ensures own { S.owns access.old.desk.now turn.place worker.new.trace }
    ensures left { S.good_for worker.old.trace ≤ S.good_for worker.new.trace + 2 }
    ensures gains { OnOk result (Goes S.work (holds (S.tells.told worker.old.trace) (L.taken worker.old.link))
        (holds (S.tells.told worker.new.trace) (L.taken worker.new.link))
        (turn_steps S.work.reading (peers_by (S.work.reading.takes worker.old.opener channel octets.old).1
        (L.knew worker.old.link) (L.knows worker.old.link)) worker.old.opener turn.place ticked.old turn.us
        (Gave (record { channel = channel; octets = octets.old })))) }
    ensures going { OnOk result (turn.last ≡ false) }
    ensures ticked { OnOk result (ticked.new ≡ ticked_after ticked.old turn.us) }
    ensures ended { (idle : Bool) → IfErr result (λ end. TurnEnds S.work end
        (end_by (Gave (record { channel = channel; octets = octets.old })) turn.last idle)
        (holds (S.tells.told worker.old.trace) (L.taken worker.old.link))
        (holds (S.tells.told worker.new.trace) (L.taken worker.new.link))
        (turn_steps S.work.reading (peers_by (S.work.reading.takes worker.old.opener channel octets.old).1
        (L.knew worker.old.link) (L.knows worker.old.link)) worker.old.opener turn.place ticked.old turn.us
        (Gave (record { channel = channel; octets = octets.old })))) }
    ensures same { IsKeptBy L.reads L.ends L.knew L.knows (S.work.reading.takes worker.old.opener channel octets.old).1
        worker.old.link worker.new.link }
    ensures rest { KeepsRest worker.old worker.new }
    ensures inside { has_link_ended result ≡ false }
    ensures full { result ≡ Err Ended.TraceFull
        → S.tells.Lacks worker.new.trace }
    ensures spent { result ≡ Err Ended.Spent → S.tells.Keyed }
    ensures stopped { result ≡ Err Ended.Stopped → S.over worker.new.trace }
    ensures fault { result ≡ Err Ended.WriteFault → S.over worker.new.trace }
    ensures cause { RoseWhere (has_link_failed result) (L.faults worker.old.link) (L.faults worker.new.link) }
{
    step_datagram(access, worker, turn, channel, octets)?;
    step_tick(access, &mut worker.link, &mut worker.trace, turn, ticked)?;
    if turn.last { Err(Ended::Turns) } else { Ok(()) }
}

/// What follows a read to which nothing was there.
fn quiet_turn<S: Flows<U, M>, U, M, L: Link, C, R: Wait>(
    access: &mut Access<'_, R, S, M>,
    worker: &mut Worker<L, C, U>,
    turn: Turn,
    ticked: &mut Option<u64>,
    idle: bool,
) -> Result<(), Ended>
    requires place { turn.place < MAX_LINKS }
    requires own { S.owns access.old.desk.now turn.place worker.old.trace }
    requires left { 2 ≤ S.good_for worker.old.trace }
    ensures desk { access.new.desk ≡ access.old.desk }
    ensures own { S.owns access.old.desk.now turn.place worker.new.trace }
    ensures left { S.good_for worker.old.trace ≤ S.good_for worker.new.trace + 2 }
    ensures gains { OnOk result (Goes S.work (holds (S.tells.told worker.old.trace) (L.taken worker.old.link))
        (holds (S.tells.told worker.new.trace) (L.taken worker.new.link))
        (tick_steps S.work.reading (L.knows worker.old.link) turn.place turn.us (is_tick_due ticked.old turn.us))) }
    ensures going { OnOk result ((turn.last ≡ false) × (idle ≡ false)) }
    ensures ticked { OnOk result (ticked.new ≡ ticked_after ticked.old turn.us) }
    ensures ended { IfErr result (λ end. TurnEnds S.work end (end_by Quiet turn.last idle)
        (holds (S.tells.told worker.old.trace) (L.taken worker.old.link))
        (holds (S.tells.told worker.new.trace) (L.taken worker.new.link))
        (tick_steps S.work.reading (L.knows worker.old.link) turn.place turn.us (is_tick_due ticked.old turn.us))) }
    ensures same { IsKept L.reads L.ends L.knows worker.old.link worker.new.link }
    ensures rest { KeepsRest worker.old worker.new }
    ensures inside { has_link_ended result ≡ false }
    ensures full { result ≡ Err Ended.TraceFull
        → S.tells.Lacks worker.new.trace }
    ensures spent { result ≡ Err Ended.Spent → S.tells.Keyed }
    ensures stopped { result ≡ Err Ended.Stopped → S.over worker.new.trace }
    ensures fault { result ≡ Err Ended.WriteFault → S.over worker.new.trace }
    ensures cause { RoseWhere (has_link_failed result) (L.faults worker.old.link) (L.faults worker.new.link) }
{
    step_tick(access, &mut worker.link, &mut worker.trace, turn, ticked)?;
    if turn.last {
        return Err(Ended::Turns);
    }
    if idle { Err(Ended::Idle) } else { Ok(()) }
}

/// Makes one turn: one moment, one read into the block, the step of the datagram and a tick. Where it is the last, its error
/// says why.
pub fn make_turn<S: Flows<U, M>, U, M, L: Link, C: Clock, R: Wait>(
    access: &mut Access<'_, R, S, M>,
    worker: &mut Worker<L, C, U>,
    place: u8,
    limits: &ServingLimits,
    last: bool,
    pace: &mut Pace,
    block: &mut [u8; MAX_DATAGRAM],
) -> Result<(), Ended>
    requires place { place < MAX_LINKS }
    requires own { S.owns access.old.desk.now place worker.old.trace }
    requires left { 2 ≤ S.good_for worker.old.trace }
    ensures desk { access.new.desk ≡ access.old.desk }
    ensures own { S.owns access.old.desk.now place worker.new.trace }
    ensures left { S.good_for worker.old.trace ≤ S.good_for worker.new.trace + 2 }
    ensures going { OnOk result ((f : Feed) (n : ℕ) (first : Holds S.Kept)
        → IsTask f worker.old.opener place limits.now → last ≡ nat_le f.turns (n + 1)
        → IsGoing S.work f n (L.knows worker.old.link) (C.moments worker.old.clock)
        (L.reads worker.old.link)
        first (holds (S.tells.told worker.old.trace) (L.taken worker.old.link)) pace.old.ticked pace.old.since
        → IsGoing S.work f (n + 1) (L.knows worker.new.link) (C.moments worker.new.clock)
        (L.reads worker.new.link)
        first (holds (S.tells.told worker.new.trace) (L.taken worker.new.link)) pace.new.ticked pace.new.since) }
    ensures ended { IfErr result (λ end. (f : Feed) (n : ℕ) (first : Holds S.Kept)
        → IsTask f worker.old.opener place limits.now → last ≡ nat_le f.turns (n + 1)
        → IsGoing S.work f n (L.knows worker.old.link) (C.moments worker.old.clock)
        (L.reads worker.old.link)
        first (holds (S.tells.told worker.old.trace) (L.taken worker.old.link)) pace.old.ticked pace.old.since
        → IsServed S.work f (L.knows worker.new.link) end (C.moments worker.new.clock)
        (L.reads worker.new.link)
        first (holds (S.tells.told worker.new.trace) (L.taken worker.new.link))) }
    ensures more { OnOk result (last ≡ false) }
    ensures full { result ≡ Err Ended.TraceFull
        → S.tells.Lacks worker.new.trace }
    ensures spent { result ≡ Err Ended.Spent → S.tells.Keyed }
    ensures stopped { result ≡ Err Ended.Stopped → S.over worker.new.trace }
    ensures fault { result ≡ Err Ended.WriteFault → S.over worker.new.trace }
    ensures session { worker.new.opener ≡ worker.old.opener }
    ensures same { worker.new.end ≡ worker.old.end }
    ensures ends { RoseWhere (has_link_ended result) (L.ends worker.old.link) (L.ends worker.new.link) }
    ensures faults { RoseWhere (has_link_failed result) (L.faults worker.old.link) (L.faults worker.new.link) }
{
    let us = worker.clock.now();
    let got = worker.link.read(block);
    let from = since_then(pace.since, us, &got);
    pace.since = Some(from);
    pace.rest = rest_after(pace.ticked, from, us, &got);
    let turn = Turn { place, us, last };
    match got {
        Got::End => Err(Ended::End),
        Got::Failed => Err(Ended::Failed),
        Got::Quiet => {
            let idle = is_idle(limits.idle, from, us);
            quiet_turn(access, worker, turn, &mut pace.ticked, idle)
        }
        Got::Datagram(channel, count) => {
            let octets = &mut block[..count];
            datagram_turn(access, worker, turn, &mut pace.ticked, channel, octets)
        }
    }
}
