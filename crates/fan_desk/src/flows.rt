//! What the workers of a tunnel's links make their steps on.
ghost use Rattle.std.specs.Prelude.{◌≡◌, ◌<◌, ◌≤◌, ◌+◌, ◌∷◌, [], ℕ, Err, OnOk, IfErr, length};
ghost use Rattle.outside_io.specs.Causes.{RoseWhere};
ghost use Rattle.rist_ends.specs.Told.{IsFit, IsNoEnd};
ghost use Rattle.rist_desk.specs.Items.{told_plan};
ghost use Rattle.rist_desk.specs.Work.{CutShort, Goes, holds};
ghost use Rattle.rist_desk.specs.Links.{IsInside, IsKept, has_link_failed};
ghost use Rattle.turn_lock.specs.Passes.{turns_left};
ghost use Rattle.fan_desk.specs.Own.{HasSeenFault, IsOf, KnowsEnds, rows_told};
ghost use Rattle.fan_desk.specs.Made.{IsSomeKeyed, several};

use crate::fan_step::FanStep;
use crate::figures::tell_where_wanted;
use crate::origin::FanOrigin;
use crate::row_end::row_end;
use crate::sending::{flow_of, send_row};
use crate::tunnel_desk::{RowPass, TunnelDesk};
use link_channels::Channel;
use outside_io::Sink;
use outside_net::Link;
use rist_desk::{Ended, Flows};
use rist_ends::{Told, What};
use rist_wire::{Item, Opener, WireBad};
use std::sync::Wait;

/// Makes a step of what is told for the receiver at a place, or for none, and writes the datagrams that it made to the link.
fn step_and_send<N: FanOrigin, K: Sink + Drop, L: Link, R: Wait>(
    tunnel: &TunnelDesk<N, K>,
    rt: &R,
    own: &mut RowPass<N, K>,
    link: &mut L,
    place: Option<u8>,
    told: &Told<'_>,
) -> Result<(), Ended>
    requires fits { IsFit told.now }
    requires going { IsNoEnd told.now.what }
    requires own { IsOf tunnel.now told.now.link own.old.pass × (length own.old.came.items ≡ N.places)
        × KnowsEnds N.places own.old.pass }
    requires left { 1 ≤ turns_left own.old.pass }
    ensures own { IsOf tunnel.now told.now.link own.new.pass × (length own.new.came.items ≡ N.places)
        × KnowsEnds N.places own.new.pass }
    ensures left { turns_left own.old.pass ≤ turns_left own.new.pass + 1 }
    ensures ok { OnOk result (Goes (several N.ports N.given N.places)
        (holds (rows_told own.old.pass) (L.taken link.old))
        (holds (rows_told own.new.pass) (L.taken link.new))
        (record { place = place; planned = told_plan (L.knows link.old) told.now } ∷ [])) }
    ensures err { IfErr result (λ end. CutShort (several N.ports N.given N.places) end
        (holds (rows_told own.old.pass) (L.taken link.old)) (holds (rows_told own.new.pass) (L.taken link.new))
        (record { place = place; planned = told_plan (L.knows link.old) told.now } ∷ [])) }
    ensures inside { IfErr result IsInside }
    ensures full { result ≡ Err Ended.TraceFull → ⊥ }
    ensures spent { result ≡ Err Ended.Spent → IsSomeKeyed N.given }
    ensures stopped { result ≡ Err Ended.Stopped → (v : ℕ) → v < N.places
        → HasSeenFault v own.new.pass }
    ensures fault { result ≡ Err Ended.WriteFault → (v : ℕ) → v < N.places
        → HasSeenFault v own.new.pass }
    ensures same { IsKept L.reads L.ends L.knows link.old link.new }
    ensures cause { RoseWhere (has_link_failed result) (L.faults link.old) (L.faults link.new) }
{
    let desk = &tunnel.desk;
    desk.step_in_turn(rt, &mut own.pass, place, told, &mut own.came);
    let end = row_end(&own.came);
    match send_row(link, flow_of(place, &told.what), &own.came) {
        Ok(()) => match end {
            Some(end) => Err(end),
            None => Ok(()),
        },
        Err(_) => Err(Ended::Failed),
    }
}

impl<N: FanOrigin, K: Sink + Drop> Flows<RowPass<N, K>, ()> for TunnelDesk<N, K> {
    ghost use Rattle.std.specs.Prelude.{◌≡◌, ◌<◌, ℕ, length};
    ghost use Rattle.turn_lock.specs.Passes.{turns_left};
    ghost use Rattle.rist_fan.specs.Seen.{FanStep};
    ghost use Rattle.fan_desk.specs.Own.{HasSeenFault, IsOf, KnowsEnds, rows_told};
    ghost use Rattle.fan_desk.specs.Made.{IsSomeKeyed, MadeRow, RowPlan, several};

    ghost Kept = { FanStep };

    ghost Plan = { RowPlan };

    ghost Made = { MadeRow };

    ghost work = { several N.ports N.given N.places };

    ghost tells = { record { told = λ own. rows_told own.pass; Lacks = λ own. ⊥; Keyed = IsSomeKeyed N.given } };

    ghost owns = { λ tunnel link own. IsOf tunnel link own.pass × (length own.came.items ≡ N.places)
        × KnowsEnds N.places own.pass };

    ghost good_for = { λ own. turns_left own.pass };

    ghost over = { λ own. (v : ℕ) → v < N.places → HasSeenFault v own.pass };

    fn room() {}

    fn take<'a>(
        &self,
        opener: &mut Opener,
        channel: Channel,
        octets: &'a mut [u8],
    ) -> (Option<u8>, Result<Item<'a>, WireBad>) {
        match opener.take_any(&self.ports, channel, octets) {
            Ok((place, item)) => (Some(place), Ok(item)),
            Err(bad) => (None, Err(bad)),
        }
    }

    fn make_step<L: Link, R: Wait>(
        &self,
        rt: &R,
        own: &mut RowPass<N, K>,
        link: &mut L,
        room: &mut (),
        place: Option<u8>,
        told: &Told<'_>,
    ) -> Result<(), Ended> {
        let done = step_and_send(self, rt, own, link, place, told);
        let ticks = matches!(told.what, What::Tick);
        tell_where_wanted(link, told.us, ticks, &own.came);
        done
    }
}
