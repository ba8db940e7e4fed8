//! What the workers of links make their steps on.
ghost use Rattle.std.specs.Prelude.{◌≡◌, ◌≤◌, ◌+◌, ◌∷◌, [], ℕ, Some, None, Err, IfOk, OnOk, OnErr, IfErr, true};
ghost use Rattle.std.specs.Option.{ForSome, option_map};
ghost use Rattle.outside_io.specs.Causes.{RoseWhere};
ghost use Rattle.rist_ends.specs.Told.{IsFit, IsNoEnd};
ghost use Rattle.rist_ends.specs.Outcome.{outcome_with};
ghost use Rattle.rist_desk.specs.Made.{step_after, steps_with};
ghost use Rattle.rist_desk.specs.Desk.{AreFiguresFor, AreFiguresThere, is_cut_off};
ghost use Rattle.rist_desk.specs.Sending.{IsDueThere, LacksRoom, one};
ghost use Rattle.rist_desk.specs.Serving.{IsKeyed};
ghost use Rattle.rist_desk.specs.Items.{told_plan};
ghost use Rattle.rist_desk.specs.Work.{CutShort, Goes, holds, own_told};
ghost use Rattle.rist_desk.specs.Links.{IsInside, IsKept, has_link_failed};

use crate::ended::Ended;
use crate::sending::send;
use crate::shares::Shares;
use link_channels::Channel;
use outside_net::{Full, Link, ReceiverFigures};
use rist_ends::{Answer, Outs, Told, What};
use rist_wire::{Item, Opener, WireBad};
use std::sync::Wait;

/// The receiver of one flow, or those of several, that the workers of links share. Each thread has something of its own
/// (`U`) that keeps what it made, or stands for it, and memory (`M`) for the datagrams that a step makes.
pub trait Flows<U, M> {
    ghost use Rattle.rist_desk.specs.Work.{Work};
    ghost use Rattle.rist_desk.specs.Serving.{OwnTells};

    /// What a list keeps of what was made.
    ghost Kept: { Type 0 };

    /// How it was planned.
    ghost Plan: { Type 0 };

    /// What was made.
    ghost Made: { Type 0 };

    /// The kind of work.
    ghost work: { Work Kept Plan Made };

    /// What is told of what is a thread's own.
    ghost tells: { OwnTells Kept U };

    /// What is a thread's own is of this, for the steps of a link.
    ghost owns: { Self → ℕ → U → Type 0 };

    /// How many steps may still be made with it.
    ghost good_for: { U → ℕ };

    /// By what it has seen, no receiver goes on: a write of each one's sink failed before.
    ghost over: { U → Type 0 };

    /// Such memory, before there was a step.
    fn room() -> M;

    /// What a datagram brings in the opener's session, and the place of the flow that it is for, where there are several.
    fn take<'a>(
        &self,
        opener: &mut Opener,
        channel: Channel,
        octets: &'a mut [u8],
    ) -> (Option<u8>, Result<Item<'a>, WireBad>)
        ensures value { result ≡ work.reading.takes opener.old channel octets.entry.now }
        ensures same { opener.new ≡ opener.old };

    /// Makes a step of what is told for the receiver at a place, or for none, and writes the datagrams that it made to the
    /// link. Its error says why the worker ends: nothing is written but what was made.
    fn make_step<L: Link, R: Wait>(
        &self,
        rt: &R,
        own: &mut U,
        link: &mut L,
        room: &mut M,
        place: Option<u8>,
        told: &Told<'_>,
    ) -> Result<(), Ended>
        requires fits { IsFit told.now }
        requires going { IsNoEnd told.now.what }
        requires own { owns self.now told.now.link own.old }
        requires left { 1 ≤ good_for own.old }
        ensures own { owns self.now told.now.link own.new }
        ensures left { good_for own.old ≤ good_for own.new + 1 }
        ensures ok { OnOk result (Goes work (holds (tells.told own.old) (L.taken link.old))
            (holds (tells.told own.new) (L.taken link.new))
            (work.reading.plan place (told_plan (L.knows link.old) told.now) ∷ [])) }
        ensures err { IfErr result (λ end. CutShort work end (holds (tells.told own.old) (L.taken link.old))
            (holds (tells.told own.new) (L.taken link.new))
            (work.reading.plan place (told_plan (L.knows link.old) told.now) ∷ [])) }
        ensures inside { IfErr result IsInside }
        ensures full { result ≡ Err Ended.TraceFull → tells.Lacks own.new }
        ensures spent { result ≡ Err Ended.Spent → tells.Keyed }
        ensures stopped { result ≡ Err Ended.Stopped → over own.new }
        ensures fault { result ≡ Err Ended.WriteFault → over own.new }
        ensures same { IsKept L.reads L.ends L.knows link.old link.new }
        ensures cause { RoseWhere (has_link_failed result) (L.faults link.old) (L.faults link.new) };
}

/// Makes a step, and puts the figures after it into `figures` where they are wanted.
#[tactic(auto, using(crate::proofs::FigureLemmas::figures_for))]
fn step_seen<S: Shares<U>, U, R: Wait>(
    shares: &S,
    rt: &R,
    own: &mut U,
    told: &Told<'_>,
    outs: &mut Outs,
    wants: bool,
    figures: &mut Option<ReceiverFigures>,
) -> Result<Answer, Full>
    requires fits { IsFit told.now }
    requires going { IsNoEnd told.now.what }
    requires own { S.is_of shares.now told.now.link own.old }
    requires left { 1 ≤ S.left own.old }
    requires none { figures.old ≡ None }
    ensures own { S.is_of shares.now told.now.link own.new }
    ensures left { S.left own.old ≤ S.left own.new + 1 }
    ensures list { IfOk result (λ answer. S.list own.new
        ≡ option_map (steps_with (step_after told.now (outcome_with answer outs.new))) (S.list own.old)) }
    ensures same { OnErr result (S.list own.new ≡ S.list own.old) }
    ensures unseen { OnErr result (S.seen own.new ≡ S.seen own.old) }
    ensures due { IfOk result (λ answer. IsDueThere S.given (S.seen own.old) (S.seen own.new) told.now
        (outcome_with answer outs.new)) }
    ensures full { OnErr result (LacksRoom S.given (S.limit own.new) (S.list own.new)) }
    ensures broken { IfOk result (λ answer. is_cut_off answer ≡ true → S.broken own.new) }
    // They are those after this very step.
    ensures figures { IfOk result (λ answer. ForSome figures.new
        (AreFiguresThere S.given told.now (outcome_with answer outs.new))) }
    ensures seen { ForSome figures.new (AreFiguresFor S.given) }
{
    if !wants {
        return shares.step(rt, own, told, outs);
    }
    let figured = shares.step_figured(rt, own, told, outs)?;
    *figures = Some(figured.figures);
    Ok(figured.answer)
}

/// Makes a step, and writes the datagrams that it made to the link. With a tick come the figures after it, where the link
/// wants them.
fn step_and_send<S: Shares<U>, U, L: Link, R: Wait>(
    shares: &S,
    rt: &R,
    own: &mut U,
    link: &mut L,
    room: &mut Outs,
    told: &Told<'_>,
    figures: &mut Option<ReceiverFigures>,
) -> Result<(), Ended>
    requires fits { IsFit told.now }
    requires going { IsNoEnd told.now.what }
    requires own { S.is_of shares.now told.now.link own.old }
    requires left { 1 ≤ S.left own.old }
    requires none { figures.old ≡ None }
    ensures own { S.is_of shares.now told.now.link own.new }
    ensures left { S.left own.old ≤ S.left own.new + 1 }
    ensures ok { OnOk result (Goes (one (Some S.given))
        (holds (own_told (S.list own.old) (S.seen own.old)) (L.taken link.old))
        (holds (own_told (S.list own.new) (S.seen own.new)) (L.taken link.new)) (told_plan (L.knows link.old) told.now ∷ [])) }
    ensures err { IfErr result (λ end. CutShort (one (Some S.given)) end
        (holds (own_told (S.list own.old) (S.seen own.old)) (L.taken link.old))
        (holds (own_told (S.list own.new) (S.seen own.new)) (L.taken link.new)) (told_plan (L.knows link.old) told.now ∷ [])) }
    ensures inside { IfErr result IsInside }
    ensures full { result ≡ Err Ended.TraceFull → LacksRoom S.given (S.limit own.new) (S.list own.new) }
    ensures spent { result ≡ Err Ended.Spent → IsKeyed S.given }
    ensures stopped { result ≡ Err Ended.Stopped → S.broken own.new }
    ensures fault { result ≡ Err Ended.WriteFault → S.broken own.new }
    ensures same { IsKept L.reads L.ends L.knows link.old link.new }
    ensures cause { RoseWhere (has_link_failed result) (L.faults link.old) (L.faults link.new) }
    ensures figures { ForSome figures.new (AreFiguresFor S.given) }
{
    let wants = matches!(told.what, What::Tick) && link.wants(told.us);
    let stepped = step_seen(shares, rt, own, told, room, wants, figures);
    let answer = match stepped {
        Ok(answer) => answer,
        Err(_) => return Err(Ended::TraceFull),
    };
    match answer {
        Answer::Stopped => Err(Ended::Stopped),
        Answer::WriteFault => Err(Ended::WriteFault),
        Answer::Spent => Err(Ended::Spent),
        Answer::Verdict(_) => Ok(()),
        Answer::Nothing => Ok(()),
        Answer::Made => match send(link, room) {
            Ok(()) => Ok(()),
            Err(_) => Err(Ended::Failed),
        },
    }
}

/// Tells a link figures, where there are some: it is as it was.
fn tell_figures<L: Link>(link: &mut L, us: u64, figures: &Option<ReceiverFigures>)
    ensures taken { L.taken link.new ≡ L.taken link.old }
    ensures same { IsKept L.reads L.ends L.knows link.old link.new }
    ensures faults { L.faults link.new ≡ L.faults link.old }
{
    if let Some(figures) = figures {
        link.tell(us, 0, figures);
    }
}

impl<S: Shares<U>, U> Flows<U, Outs> for S {
    ghost use Rattle.rist_desk.specs.declared.step.Step.{Step};
    ghost use Rattle.rist_desk.specs.Items.{Planned};
    ghost use Rattle.rist_desk.specs.Sending.{Made, one};
    ghost use Rattle.rist_desk.specs.Serving.{own_on};

    ghost Kept = { Step };

    ghost Plan = { Planned };

    ghost Made = { Made };

    ghost work = { one (Some S.given) };

    ghost tells = { own_on S.given (record { list = S.list; seen = S.seen; limit = S.limit }) };

    ghost owns = { S.is_of };

    ghost good_for = { S.left };

    ghost over = { S.broken };

    fn room() -> Outs {
        Outs::none()
    }

    fn take<'a>(
        &self,
        opener: &mut Opener,
        channel: Channel,
        octets: &'a mut [u8],
    ) -> (Option<u8>, Result<Item<'a>, WireBad>) {
        (None, opener.take(channel, octets))
    }

    fn make_step<L: Link, R: Wait>(
        &self,
        rt: &R,
        own: &mut U,
        link: &mut L,
        room: &mut Outs,
        place: Option<u8>,
        told: &Told<'_>,
    ) -> Result<(), Ended> {
        let mut figures = None;
        let done = step_and_send(self, rt, own, link, room, told, &mut figures);
        tell_figures(link, told.us, &figures);
        done
    }
}
