use crate::counts::{Counts, recovered_with};
use crate::fill::fill_now;
use crate::numbers::{Numbers, missing_now};
use crate::outcome::{Answer, Outcome, outcome_with};
use crate::reporting::{asked_with, report};
use crate::settings::Settings;
use crate::stepping::step_buffer;
use crate::told::Told;
use outside_io::{NoMemory, Sink};
use outside_net::ReceiverFigures;
use psk_seal::Sealer;
use reorder_buffer::Buffer;
use rist_reporter::{Outs, Reporter};
use rist_wire::Session;
use std::alloc::Global;
use std::marker::Model;

/// The receiving end. `step` brings input, and its outcome is the answer; what is played out goes to the sink.
/// `step_into` does the same where the caller has memory for the datagrams that are made. `counts` tells what came so
/// far, and `figures` also what waits, what was asked for and what was lost. Each step's moment counts as at least that of
/// the steps before it.
#[derive(Drop)]
pub struct Receiver {
    buffer: Buffer,
    time: u64,
    counts: Counts,
    recovered: u64,
    asked: u64,
    numbers: Numbers,
    reporter: Reporter,
}

impl Model for Receiver {
    ghost use Rattle.rist_ends.specs.Receiver.{ReceiverState, IsInStep};

    ghost Value = { ReceiverState };

    ghost view = { λ r. record {
      buffer = r.buffer;
      counts = r.counts;
      recovered = r.recovered;
      asked = r.asked;
      numbers = r.numbers;
      reporter = r.reporter;
    } };

    ghost invariant = { λ r. IsInStep (record {
      buffer = r.buffer;
      counts = r.counts;
      recovered = r.recovered;
      asked = r.asked;
      numbers = r.numbers;
      reporter = r.reporter;
    }) r.time };
}

impl Receiver {
    ghost use Rattle.std.specs.Prelude.{◌≡◌, ◌≢◌, [], IfOk, List};
    ghost use Rattle.outside_io.specs.Causes.{RoseWhere};
    ghost use Rattle.reorder_buffer.specs.declared.phase.Phase.TheVariants.{Open, Failed};
    ghost use Rattle.request_rules.specs.Steps.{Step};
    ghost use Rattle.rist_wire.specs.Session.{IsSession};
    ghost use Rattle.rist_wire.specs.Writing.{pairs_left};
    ghost use Rattle.rist_reporter.specs.Reporter.{IsPaired};
    ghost use Rattle.rist_ends.specs.Settings.{IsInRange, control_settings};
    ghost use Rattle.rist_ends.specs.Receiver.{IsReceiverAfter, Steps, settings_of};
    ghost use Rattle.rist_ends.specs.Figures.{AreFiguresOf, figures_of};
    ghost use Rattle.rist_ends.specs.Told.{IsFit};
    ghost use Rattle.rist_ends.specs.Outcome.{outcome_with, is_write_fault};
    ghost use Rattle.rist_ends.specs.declared.outcome.Outcome.TheVariants as outcomes;
    ghost use Rattle.rist_ends.specs.declared.outcome.Answer.TheVariants.{Stopped, Made};

    /// A receiver that was told nothing yet. It answers in this session; a muted one sends nothing back, and needs no
    /// sealer.
    pub fn with(
        alloc: Global,
        settings: &Settings,
        session: &Session,
        sealer: Option<Sealer>,
    ) -> Result<Receiver, NoMemory>
        requires settings { IsInRange settings.now }
        requires session { IsSession session.now }
        requires paired { IsPaired settings.now.muted (record { session = session.now; sealer = sealer }) }
        ensures settings { IfOk result (λ r. settings_of r ≡ control_settings settings.now session.now) }
        ensures shutter { IfOk result (λ r. r.reporter.shutter ≡ record { session = session.now; sealer = sealer }) }
        ensures running { IfOk result (λ r. r.buffer.phase ≡ Open) }
        ensures state { IfOk result (λ r. IsReceiverAfter r []) }
    {
        let buffer = Buffer::with_limits(
            alloc,
            settings.span,
            settings.delay,
            settings.restart,
            settings.drift,
        )?;
        let reporter = Reporter::with(
            alloc,
            settings.span,
            settings.timer(),
            settings.own,
            settings.muted,
            session,
            sealer,
        )?;
        Ok(Receiver {
            buffer,
            time: 0,
            counts: Counts::none(),
            recovered: 0,
            asked: 0,
            numbers: Numbers::none(),
            reporter,
        })
    }

    /// Makes one step. First what is due at its moment is written; then comes the event itself.
    pub fn step<K: Sink>(&mut self, told: &Told<'_>, sink: &mut K) -> Outcome
        requires fits { IsFit told.now }
        ensures work { Steps self.old self.new told.now result (K.contents sink.old) (K.contents sink.new) }
        ensures cause { RoseWhere (is_write_fault result) (K.faults sink.old) (K.faults sink.new) }
        ensures same { result ≡ outcomes.Stopped → (self.new ≡ self.old) × (sink.new ≡ sink.old) }
    {
        let mut outs = Outs::none();
        let answer = self.step_into(told, &mut outs, sink);
        outcome_with(answer, outs)
    }

    /// Makes one step, and puts the datagrams that it makes into `outs`, which else stays as it was. A step without
    /// datagrams has no room for them, so it costs less than one by `step`.
    #[tactic(auto, using(crate::proofs::StepLemmas::moved_held))]
    pub fn step_into<K: Sink>(&mut self, told: &Told<'_>, outs: &mut Outs, sink: &mut K) -> Answer
        requires fits { IsFit told.now }
        ensures work { Steps self.old self.new told.now (outcome_with result outs.new)
            (K.contents sink.old) (K.contents sink.new) }
        ensures cause { RoseWhere (is_write_fault (outcome_with result outs.new))
            (K.faults sink.old) (K.faults sink.new) }
        ensures same { result ≡ Stopped → (self.new ≡ self.old) × (sink.new ≡ sink.old) }
        ensures outs { result ≢ Made → outs.new ≡ outs.old }
    {
        if self.buffer.ended() {
            return Answer::Stopped;
        }
        let before = self.buffer.high();
        let epoch = self.buffer.epoch();
        match step_buffer(&mut self.buffer, self.time, told, sink) {
            Ok(stepped) => {
                self.time = stepped.at;
                self.counts.count(&told.what, stepped.verdict);
                self.recovered = recovered_with(stepped.verdict, &told.what, self.recovered);
                let opened = self.buffer.epoch() != epoch;
                self.numbers
                    .take_step(&told.what, stepped.verdict, opened, before);
                let answer = report(
                    &mut self.reporter,
                    &self.buffer,
                    told,
                    &stepped,
                    before,
                    epoch,
                    outs,
                );
                self.asked = asked_with(answer, outs, &self.reporter, self.asked);
                answer
            }
            Err(_) => Answer::WriteFault,
        }
    }

    /// What came so far.
    pub fn counts(&self) -> Counts
        ensures value { result ≡ self.now.counts }
    {
        self.counts
    }

    /// Its figures up to its last step.
    #[tactic(auto, using(crate::proofs::FigureLemmas::figures_are))]
    pub fn figures(&self) -> ReceiverFigures
        ensures value { result ≡ figures_of self.now }
        // After a failed write nothing is said of them.
        ensures history { (history : List Step) → IsReceiverAfter self.now history → self.now.buffer.phase ≢ Failed
            → AreFiguresOf result (settings_of self.now) history }
    {
        let counts = &self.counts;
        ReceiverFigures {
            kept: counts.kept,
            recovered: self.recovered,
            late: counts.late,
            behind: counts.behind,
            early: counts.early,
            twice: counts.twice,
            span: counts.span,
            stranger: counts.stranger,
            exhausted: counts.exhausted,
            refused: counts.refused,
            held: self.buffer.held() as u64,
            asked: self.asked,
            lost: missing_now(&self.buffer, &self.numbers),
            fill: fill_now(&self.buffer),
        }
    }

    /// How many datagrams its sealer still allows, where there is one.
    pub fn left(&self) -> Option<u64>
        ensures value { result ≡ pairs_left self.now.reporter.shutter.sealer }
    {
        self.reporter.left()
    }
}
