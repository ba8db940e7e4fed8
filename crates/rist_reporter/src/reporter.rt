ghost use Rattle.std.specs.Prelude.{◌≡◌, if◌then◌else◌};
ghost use Rattle.link_channels.specs.declared.bounds.TheConstants.{MAX_LINKS};

use crate::asking::number_count;
use crate::links::Links;
use crate::out::Outs;
use crate::ticking::{Due, how_many, is_short, make_answer, make_tick};
use link_channels::Profile;
use nack_timer::{Settings as TimerSettings, Timer};
use outside_io::NoMemory;
use psk_seal::{Sealer, Spent};
use receiver_rules::tick_of;
use reorder_buffer::Buffer;
use request_rules::NackKind;
use rist_rtt::{first_request, first_response};
use rist_wire::{Session, Shutter};
use rtcp_compound::Compound;
use seq_unwrap::Width;
use std::alloc::Global;
use std::marker::Model;

/// How many bits the numbers of the last kept packet had, after one more packet.
fn width_after(is_kept: bool, width: Width, before: Width) -> Width
    ensures value { result ≡ (if is_kept then width else before) }
{
    if is_kept { width } else { before }
}

/// What a receiver sends back. `tick` and `answer` make the datagrams of a tick of its clock and of a compound that
/// came, and `received` tells it of each media packet. Only `with` takes memory.
#[derive(Drop)]
pub struct Reporter {
    own: u32,
    kind: NackKind,
    is_muted: bool,
    has_keepalives: bool,
    timer: Timer,
    links: Links,
    width: Width,
    shutter: Shutter,
}

impl Model for Reporter {
    ghost use Rattle.rist_reporter.specs.Reporter.{ReporterState};
    ghost use Rattle.rist_reporter.specs.Inside.Sound.{IsSoundReporter};

    ghost Value = { ReporterState };

    ghost view = { λ r. record {
      own = r.own;
      is_muted = r.is_muted;
      timer = r.timer;
      links = r.links;
      width = r.width;
      shutter = r.shutter;
    } };

    ghost invariant = { λ r. IsSoundReporter r.kind r.is_muted r.has_keepalives r.timer r.shutter };
}

impl Reporter {
    ghost use Rattle.std.specs.Prelude.{◌≡◌, ◌≤◌, ◌<◌, ◌^◌, [], ℕ, None, true, false, IsSome, length, is_err, IfOk, OnOk, option_map};
    ghost use Rattle.std.specs.Option.{ForSome};
    ghost use Rattle.rist_rtt.specs.Echo.{echoes_in};
    ghost use Rattle.rist_rtt.specs.Echo.{first_response};
    ghost use Rattle.rist_wire.specs.Session.{IsSession};
    ghost use Rattle.rist_wire.specs.Writing.{pairs_left};
    ghost use Rattle.receiver_rules.specs.declared.limits.Limits.{Limits};
    ghost use Rattle.reorder_buffer.specs.declared.phase.Phase.TheVariants.{Open};
    ghost use Rattle.nack_timer.specs.State.{policy_of, IsInRange};
    ghost use Rattle.rist_reporter.specs.Control.{answer_datagrams};
    ghost use Rattle.rist_reporter.specs.Reporter.{IsReporterAfter, IsPaired};
    ghost use Rattle.rist_reporter.specs.OneMore.{AnswersTick, StandsAfterTick, AnswersControl, StandsAfterControl};
    ghost use Rattle.rist_reporter.specs.OneMore.{StandsAfterMedia, IsMade, TakesPairs, answer_count, made_count};
    ghost use Rattle.rist_reporter.specs.OneMore.{is_short};
    ghost use Rattle.rist_reporter.specs.Asking.{number_count};
    ghost use Rattle.rist_reporter.specs.Inside.Due.{IsNoLowerNumber, LacksAt, HasCompoundAt, due_of};
    ghost use Rattle.rist_reporter.specs.Inside.Changes.{IsSetAs, links_sampled};
    ghost use Rattle.receiver_rules.specs.declared.bounds.TheConstants.{MAX_SPAN};

    /// A reporter for a buffer with this span, 1 to 16,384, to which nothing was told yet. It is silent where it is
    /// muted, and needs no sealer then.
    pub fn with(
        alloc: Global,
        span: u64,
        settings: TimerSettings,
        own: u32,
        is_muted: bool,
        session: &Session,
        sealer: Option<Sealer>,
    ) -> Result<Reporter, NoMemory>
        requires some { 1 ≤ span }
        requires few { span ≤ MAX_SPAN }
        requires settings { IsInRange settings }
        requires session { IsSession session.now }
        requires paired { IsPaired is_muted (record { session = session.now; sealer = sealer }) }
        ensures shutter { IfOk result (λ r. r.shutter ≡ record { session = session.now; sealer = sealer }) }
        ensures settings { IfOk result (λ r. (r.own ≡ own) × (r.is_muted ≡ is_muted)) }
        ensures timer { IfOk result (λ r. r.timer
            ≡ record { policy = policy_of settings; span = span; high = None; missing = [] }) }
        ensures state { IfOk result (λ r. (limits : Limits) → limits.capacity ≡ span → IsReporterAfter r limits []) }
    {
        let timer = Timer::with_span(alloc, span, settings)?;
        Ok(Reporter {
            own,
            kind: settings.nack,
            is_muted,
            has_keepalives: session.profile == Profile::Main,
            timer,
            links: Links::new(),
            width: Width::W16,
            shutter: Shutter::with(session, sealer),
        })
    }

    /// How many datagrams the sealer still allows, where there is one.
    pub fn left(&self) -> Option<u64>
        ensures value { result ≡ pairs_left self.now.shutter.sealer }
    {
        self.shutter.left()
    }

    /// A media packet came at a time, and was kept or not. It opened the next epoch or not; before it and after it
    /// these are the highest numbers that were kept in the current one.
    pub fn received(
        &mut self,
        at: u64,
        width: Width,
        is_kept: bool,
        opened: bool,
        before: Option<u64>,
        after: Option<u64>,
    )
        requires time { at < 2 ^ 61 }
        requires small { ForSome after (λ n. n < 2 ^ 62) }
        requires told { before ≡ self.old.timer.high }
        requires rises { opened ≡ false → IsNoLowerNumber before after }
        requires opens { opened ≡ true → IsSome after }
        ensures state { StandsAfterMedia self.old self.new at width is_kept opened after }
        ensures told { self.new.timer.high ≡ after }
        ensures same { IsSetAs self.old self.new }
        ensures shutter { self.new.shutter ≡ self.old.shutter }
    {
        self.width = width_after(is_kept, width, self.width);
        let Some(high) = after else {
            return;
        };
        if opened {
            self.timer.renew(at, high);
            return;
        }
        if before != after {
            self.timer.raised(at, high);
        }
    }

    /// A tick of a link's clock at a time, to which the buffer has come, and at a moment in microseconds: what is due
    /// then is made. `Spent` exactly where fewer pairs are left than that takes; then nothing is made, and nothing has
    /// changed.
    pub fn tick(
        &mut self,
        at: u64,
        link: u8,
        micros: u64,
        buffer: &Buffer,
    ) -> Result<Option<Outs>, Spent>
        requires link { link < MAX_LINKS }
        requires time { at < 2 ^ 61 }
        requires clock { buffer.now.time ≡ at }
        requires running { buffer.now.phase ≡ Open }
        requires told { option_map (λ h. h.number) buffer.now.highest ≡ self.old.timer.high }
        requires span { buffer.now.limits.capacity ≡ self.old.timer.span }
        ensures answer { AnswersTick self.old buffer.now link micros result }
        ensures state { StandsAfterTick self.old self.new buffer.now link micros result }
        ensures pairs { TakesPairs (answer_count result) self.old.shutter self.new.shutter }
        ensures told { self.new.timer.high ≡ self.old.timer.high }
        ensures same { IsSetAs self.old self.new }
    {
        let due = self.due_at(at, link, micros, buffer.flow());
        let rtt = tick_of(self.links.longest());
        if self.is_short_at(at, buffer, rtt, &due) {
            return Err(Spent);
        }
        let asked = self.timer.due(at, buffer, rtt);
        self.links.tick(link, at);
        if self.is_muted {
            return Ok(None);
        }
        make_tick(&mut self.shutter, &due, asked)
    }

    /// A compound came on a link at a moment in microseconds. The first response that it has gives a sample of the
    /// round-trip time, and its first RTT request is answered. `Spent` as at a tick.
    pub fn answer(
        &mut self,
        link: u8,
        us: u64,
        compound: &Compound<'_>,
    ) -> Result<Option<Outs>, Spent>
        requires link { link < MAX_LINKS }
        ensures answer { AnswersControl self.old link us compound.now result }
        ensures state { StandsAfterControl self.old self.new link us compound.now result }
        ensures pairs { TakesPairs (answer_count result) self.old.shutter self.new.shutter }
        ensures told { self.new.timer.high ≡ self.old.timer.high }
        ensures same { IsSetAs self.old self.new }
    {
        if self.is_muted {
            self.take_sample(link, us, compound);
            return Ok(None);
        }
        let request = first_request(compound);
        if request.is_some() && is_short(&self.shutter, 1) {
            return Err(Spent);
        }
        self.take_sample(link, us, compound);
        Ok(make_answer(&mut self.shutter, self.own, request))
    }

    /// How many numbers the requests in what it made ask for.
    pub fn asked_in(&self, outs: &Outs) -> u64
        ensures value { result ≡ number_count self.now.timer.policy.kind outs.now.asked }
    {
        number_count(self.kind, outs.asked.words())
    }

    /// What is due at a tick of a link, beside the words by which it asks.
    fn due_at(&self, at: u64, link: u8, micros: u64, flow: Option<u32>) -> Due
        requires link { link < MAX_LINKS }
        requires time { at < 2 ^ 61 }
        ensures value { result ≡ due_of self.now at link micros flow }
    {
        Due {
            own: self.own,
            kind: self.kind,
            flow,
            width: self.width,
            micros,
            is_report: self.links.is_report_due(link, at),
            is_keepalive: self.has_keepalives && self.links.is_keepalive_due(link, at),
        }
    }

    /// Whether pairs are wanting for what a tick makes.
    fn is_short_at(&self, at: u64, buffer: &Buffer, rtt: u64, due: &Due) -> bool
        requires time { at < 2 ^ 61 }
        requires clock { buffer.now.time ≡ at }
        requires running { buffer.now.phase ≡ Open }
        requires told { option_map (λ h. h.number) buffer.now.highest ≡ self.now.timer.high }
        requires span { buffer.now.limits.capacity ≡ self.now.timer.span }
        ensures value { LacksAt self.now buffer.now at rtt due.now result }
    {
        // A tick makes two datagrams at most.
        if self.is_muted || !is_short(&self.shutter, 2) {
            return false;
        }
        let has_compound = self.has_compound_at(at, buffer, rtt, due.is_report);
        is_short(&self.shutter, how_many(has_compound, due.is_keepalive))
    }

    /// Whether a tick makes a compound: where a report is due or something is asked for.
    fn has_compound_at(&self, at: u64, buffer: &Buffer, rtt: u64, is_report: bool) -> bool
        requires time { at < 2 ^ 61 }
        requires clock { buffer.now.time ≡ at }
        requires running { buffer.now.phase ≡ Open }
        requires told { option_map (λ h. h.number) buffer.now.highest ≡ self.now.timer.high }
        requires span { buffer.now.limits.capacity ≡ self.now.timer.span }
        ensures value { HasCompoundAt self.now buffer.now at rtt is_report result }
    {
        if is_report {
            return true;
        }
        self.timer.would(at, buffer, rtt)
    }

    /// Takes the sample of a compound's first response, if it has one.
    fn take_sample(&mut self, link: u8, us: u64, compound: &Compound<'_>)
        requires link { link < MAX_LINKS }
        ensures value { self.new ≡ record self.old {
          links = links_sampled link us (first_response (echoes_in compound.now)) self.old.links;
        } }
    {
        if let Some(response) = first_response(compound) {
            self.links.sample(link, us, &response);
        }
    }
}
