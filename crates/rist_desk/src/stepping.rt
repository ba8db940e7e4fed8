//! A worker's steps, and what they make on its link.
ghost use Rattle.std.specs.Prelude.{◌≡◌, ◌<◌, ◌≤◌, ◌+◌, [], ◌∷◌, Err, IfErr, OnOk};
ghost use Rattle.link_channels.specs.declared.bounds.TheConstants.{MAX_LINKS};
ghost use Rattle.link_channels.specs.declared.channel.Channel.{Channel as ChannelValue};
ghost use Rattle.outside_io.specs.Causes.{RoseWhere};
ghost use Rattle.rist_desk.specs.Turns.{datagram_step, item_step, is_tick_due, tick_steps, ticked_after};
ghost use Rattle.rist_desk.specs.Work.{CutShort, Goes, holds};
ghost use Rattle.rist_desk.specs.Links.{IsKept, IsKeptBy, IsInside, has_link_failed, peers_by};
ghost use Rattle.rist_desk.specs.Inside.Going.{KeepsRest};

use crate::access::Access;
use crate::ended::Ended;
use crate::flows::Flows;
use crate::items::what_of;
use crate::pace::{Turn, is_due};
use crate::worker::Worker;
use link_channels::Channel;
use outside_net::Link;
use rist_ends::{Told, What};
use rist_wire::{Item, WireBad};
use std::sync::Wait;

/// Makes the step of an item, or of a datagram that was refused.
fn step_item<S: Flows<U, M>, U, M, L: Link, R: Wait>(
    access: &mut Access<'_, R, S, M>,
    link: &mut L,
    own: &mut U,
    turn: Turn,
    for_place: Option<u8>,
    item: &Result<Item<'_>, WireBad>,
) -> Result<(), Ended>
    requires place { turn.place < MAX_LINKS }
    requires own { S.owns access.old.desk.now turn.place own.old }
    requires left { 1 ≤ S.good_for own.old }
    ensures desk { access.new.desk ≡ access.old.desk }
    ensures own { S.owns access.old.desk.now turn.place own.new }
    ensures left { S.good_for own.old ≤ S.good_for own.new + 1 }
    ensures ok { OnOk result (Goes S.work (holds (S.tells.told own.old) (L.taken link.old))
        (holds (S.tells.told own.new) (L.taken link.new))
        (item_step S.work.reading (L.knows link.old) turn.place turn.us (for_place, item.now) ∷ [])) }
    ensures err { IfErr result (λ end. CutShort S.work end (holds (S.tells.told own.old) (L.taken link.old))
        (holds (S.tells.told own.new) (L.taken link.new))
        (item_step S.work.reading (L.knows link.old) turn.place turn.us (for_place, item.now) ∷ [])) }
    ensures inside { IfErr result IsInside }
    ensures full { result ≡ Err Ended.TraceFull → S.tells.Lacks own.new }
    ensures spent { result ≡ Err Ended.Spent → S.tells.Keyed }
    ensures stopped { result ≡ Err Ended.Stopped → S.over own.new }
    ensures fault { result ≡ Err Ended.WriteFault → S.over own.new }
    ensures same { IsKept L.reads L.ends L.knows link.old link.new }
    ensures cause { RoseWhere (has_link_failed result) (L.faults link.old) (L.faults link.new) }
{
    let told = Told {
        link: turn.place,
        us: turn.us,
        what: what_of(item, &mut access.payload),
    };
    access
        .desk
        .make_step(access.rt, own, link, &mut access.room, for_place, &told)
}

/// Leaves whoever sent a datagram as its channel's peer, unless it was refused.
fn settle<L: Link>(link: &mut L, item: &Result<Item<'_>, WireBad>)
    ensures peers { (c : ChannelValue) → L.knows link.new c ≡ peers_by item.now (L.knew link.old) (L.knows link.old) c }
    ensures reads { L.reads link.new ≡ L.reads link.old }
    ensures taken { L.taken link.new ≡ L.taken link.old }
    ensures ends { L.ends link.new ≡ L.ends link.old }
    ensures faults { L.faults link.new ≡ L.faults link.old }
{
    match item {
        Ok(_) => {}
        Err(_) => link.refuse(),
    }
}

/// Makes the step of the datagram that the link's last read gave: of its item, or as one that was refused. Whoever sent
/// one that was refused gets none of what is made.
pub fn step_datagram<S: Flows<U, M>, U, M, L: Link, C, R: Wait>(
    access: &mut Access<'_, R, S, M>,
    worker: &mut Worker<L, C, U>,
    turn: Turn,
    channel: Channel,
    octets: &mut [u8],
) -> Result<(), Ended>
    requires place { turn.place < MAX_LINKS }
    requires own { S.owns access.old.desk.now turn.place worker.old.trace }
    requires left { 1 ≤ S.good_for worker.old.trace }
    ensures desk { access.new.desk ≡ access.old.desk }
    ensures own { S.owns access.old.desk.now turn.place worker.new.trace }
    ensures left { S.good_for worker.old.trace ≤ S.good_for worker.new.trace + 1 }
    ensures ok { OnOk result (Goes S.work (holds (S.tells.told worker.old.trace) (L.taken worker.old.link))
        (holds (S.tells.told worker.new.trace) (L.taken worker.new.link))
        (datagram_step S.work.reading (peers_by (S.work.reading.takes worker.old.opener channel octets.old).1
        (L.knew worker.old.link) (L.knows worker.old.link)) worker.old.opener turn.place turn.us channel octets.old
        ∷ [])) }
    ensures err { IfErr result (λ end. CutShort S.work end
        (holds (S.tells.told worker.old.trace) (L.taken worker.old.link))
        (holds (S.tells.told worker.new.trace) (L.taken worker.new.link))
        (datagram_step S.work.reading (peers_by (S.work.reading.takes worker.old.opener channel octets.old).1
        (L.knew worker.old.link) (L.knows worker.old.link)) worker.old.opener turn.place turn.us channel octets.old
        ∷ [])) }
    ensures inside { IfErr result IsInside }
    ensures full { result ≡ Err Ended.TraceFull
        → S.tells.Lacks worker.new.trace }
    ensures spent { result ≡ Err Ended.Spent → S.tells.Keyed }
    ensures stopped { result ≡ Err Ended.Stopped → S.over worker.new.trace }
    ensures fault { result ≡ Err Ended.WriteFault → S.over worker.new.trace }
    ensures same { IsKeptBy L.reads L.ends L.knew L.knows (S.work.reading.takes worker.old.opener channel octets.old).1
        worker.old.link worker.new.link }
    ensures cause { RoseWhere (has_link_failed result) (L.faults worker.old.link) (L.faults worker.new.link) }
    ensures rest { KeepsRest worker.old worker.new }
{
    let (for_place, item) = access.desk.take(&mut worker.opener, channel, octets);
    settle(&mut worker.link, &item);
    step_item(
        access,
        &mut worker.link,
        &mut worker.trace,
        turn,
        for_place,
        &item,
    )
}

/// Makes a tick where one is due.
pub fn step_tick<S: Flows<U, M>, U, M, L: Link, R: Wait>(
    access: &mut Access<'_, R, S, M>,
    link: &mut L,
    own: &mut U,
    turn: Turn,
    ticked: &mut Option<u64>,
) -> Result<(), Ended>
    requires place { turn.place < MAX_LINKS }
    requires own { S.owns access.old.desk.now turn.place own.old }
    requires left { 1 ≤ S.good_for own.old }
    ensures desk { access.new.desk ≡ access.old.desk }
    ensures own { S.owns access.old.desk.now turn.place own.new }
    ensures left { S.good_for own.old ≤ S.good_for own.new + 1 }
    ensures ok { OnOk result (Goes S.work (holds (S.tells.told own.old) (L.taken link.old))
        (holds (S.tells.told own.new) (L.taken link.new))
        (tick_steps S.work.reading (L.knows link.old) turn.place turn.us (is_tick_due ticked.old turn.us))) }
    ensures err { IfErr result (λ end. CutShort S.work end (holds (S.tells.told own.old) (L.taken link.old))
        (holds (S.tells.told own.new) (L.taken link.new))
        (tick_steps S.work.reading (L.knows link.old) turn.place turn.us (is_tick_due ticked.old turn.us))) }
    ensures inside { IfErr result IsInside }
    ensures full { result ≡ Err Ended.TraceFull → S.tells.Lacks own.new }
    ensures spent { result ≡ Err Ended.Spent → S.tells.Keyed }
    ensures stopped { result ≡ Err Ended.Stopped → S.over own.new }
    ensures fault { result ≡ Err Ended.WriteFault → S.over own.new }
    ensures same { IsKept L.reads L.ends L.knows link.old link.new }
    ensures cause { RoseWhere (has_link_failed result) (L.faults link.old) (L.faults link.new) }
    ensures ticked { ticked.new ≡ ticked_after ticked.old turn.us }
{
    if is_due(*ticked, turn.us) {
        *ticked = Some(turn.us);
        let told = Told {
            link: turn.place,
            us: turn.us,
            what: What::Tick,
        };
        return access
            .desk
            .make_step(access.rt, own, link, &mut access.room, None, &told);
    }
    Ok(())
}
