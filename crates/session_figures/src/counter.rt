//! Steps that are counted.
ghost use Rattle.std.specs.Prelude.{◌≡◌, ◌≢◌, ◌-◌, ◌/◌, List, ◌∷◌, Some, IfOk};
ghost use Rattle.std.specs.Option.{unwrap_or};

use crate::amounts::{Amounts, Passed};
use crate::figures::Figures;
use crate::jitter::Jitter;
use crate::playout::{Playout, Standing};
use crate::stepping::{flush, stamp_of, step_buffer};
use crate::table::Table;
use crate::trips::take_trip;
use outside_io::NoMemory;
use receiver_rules::tick_of;
use reorder_buffer::Buffer;
use rist_ends::{Numbers, Settings, Told, missing_now, sent_now};
use std::alloc::Global;
use std::marker::Model;
use value_histogram::Histogram;

/// A playout buffer whose payloads nobody wants, and the figures of the steps that it was told.
#[derive(Drop)]
pub struct Counter {
    buffer: Buffer,
    /// The playout delay, in ticks.
    delay: u64,
    /// The effective time of the last step.
    time: u64,
    /// The tick of the first step.
    start: Option<u64>,
    numbers: Numbers,
    /// How many numbers the playout has passed without a packet.
    missing: u64,
    table: Table,
    jitter: Jitter,
    /// How often each round-trip time came, in milliseconds.
    trips: Histogram,
}

impl Model for Counter {
    ghost use Rattle.session_figures.specs.Counting.{CounterState, IsInTime};

    ghost Value = { CounterState };

    ghost view = { λ c. record {
      buffer = c.buffer;
      delay = c.delay;
      time = c.time;
      start = c.start;
      numbers = c.numbers;
      missing = c.missing;
      table = c.table;
      jitter = c.jitter;
      trips = c.trips;
    } };

    ghost invariant = { λ c. IsInTime c.buffer c.time };
}

impl Counter {
    ghost use Rattle.std.specs.Prelude.{[]};
    ghost use Rattle.receiver_rules.specs.Steps.{Step as BufferStep};
    ghost use Rattle.receiver_rules.specs.Epochs.{epochs_of};
    ghost use Rattle.reorder_buffer.specs.StateAfter.{IsStateAfter};
    ghost use Rattle.reorder_buffer.specs.declared.phase.Phase.TheVariants.{Open, Ended, Failed};
    ghost use Rattle.request_rules.specs.Steps.{Step};
    ghost use Rattle.rist_ends.specs.Settings.{IsInRange, limits_of};
    ghost use Rattle.rist_ends.specs.Told.{IsFit, IsNoEnd, step_of};
    ghost use Rattle.time_series.specs.Points.{capped};
    ghost use Rattle.rist_ends.specs.Numbers.{AreNumbersOf, missing_count};
    ghost use Rattle.session_figures.specs.Figures.{Entry, figures_of};
    ghost use Rattle.session_figures.specs.Counting.{AreSeriesOf, IsCountedAfter, end_told, figures_seen};
    ghost use Rattle.session_figures.specs.Inside.Taking.{with_passed};

    /// One that was told nothing, with the limits of these settings. All memory of a counting is taken here.
    pub fn with(alloc: Global, settings: &Settings) -> Result<Counter, NoMemory>
        requires settings { IsInRange settings.now }
        ensures limits { IfOk result (λ c. c.buffer.limits ≡ limits_of settings.now) }
        ensures running { IfOk result (λ c. c.buffer.phase ≡ Open) }
        ensures state { IfOk result (λ c. IsCountedAfter c []) }
    {
        let buffer = Buffer::with_limits(
            alloc,
            settings.span,
            settings.delay,
            settings.restart,
            settings.drift,
        )?;
        Ok(Counter {
            buffer,
            delay: 90 * settings.delay,
            time: 0,
            start: None,
            numbers: Numbers::none(),
            missing: 0,
            table: Table::new(alloc)?,
            jitter: Jitter::new(alloc)?,
            trips: Histogram::new(alloc)?,
        })
    }

    /// Makes a step of what is told, which isn't the end. After the end none is made.
    pub fn step(&mut self, told: &Told<'_>)
        requires fits { IsFit told.now }
        requires going { IsNoEnd told.now.what }
        ensures state { self.old.buffer.phase ≡ Open → (history : List Step) → IsCountedAfter self.old history
            → IsCountedAfter self.new (step_of told.now ∷ history) }
        ensures phase { self.new.buffer.phase ≡ self.old.buffer.phase }
        ensures limits { self.new.buffer.limits ≡ self.old.buffer.limits }
    {
        if self.buffer.ended() {
            return;
        }
        let before = Standing::of(&self.buffer);
        let epoch = self.buffer.epoch();
        let amounts = step_buffer(&mut self.buffer, &mut self.numbers, self.time, told);
        let restarts = self.buffer.epoch().saturating_sub(epoch);
        let tick = tick_of(told.us);
        self.jitter
            .take(restarts, amounts.first, tick, stamp_of(&told.what));
        take_trip(&mut self.trips, told);
        let at = self.time.max(tick);
        let after = Standing::of(&self.buffer);
        let playout = before.to(&after, self.delay, at.saturating_sub(self.time), restarts);
        self.time = at;
        self.count(tick, amounts, 1, restarts, playout);
    }

    /// Makes the step of the end, which moves no time. All that waits is let out.
    pub fn finish(&mut self)
        ensures state { self.old.buffer.phase ≡ Open → (history : List Step) → IsCountedAfter self.old history
            → IsCountedAfter self.new (end_told ∷ history) }
        ensures limits { self.new.buffer.limits ≡ self.old.buffer.limits }
        ensures ended { self.old.buffer.phase ≡ Open → self.new.buffer.phase ≡ Ended }
    {
        if self.buffer.ended() {
            return;
        }
        let before = Standing::of(&self.buffer);
        flush(&mut self.buffer);
        let after = Standing::of(&self.buffer);
        let playout = before.to(&after, self.delay, 0, 0);
        self.count(0, Amounts::silent(0), 0, 0, playout);
    }

    /// The figures of the steps so far.
    pub fn figures(&self) -> Figures<'_>
        ensures value { self.now.buffer.phase ≢ Failed → (history : List Step) → IsCountedAfter self.now history
            → figures_seen result ≡ figures_of self.now.buffer.limits history }
    {
        Figures {
            ticks: self.time.saturating_sub(self.start.unwrap_or(0)),
            sent: sent_now(&self.buffer, &self.numbers),
            jitter: self.jitter.values.spread(),
            trips: self.trips.spread(),
            table: &self.table,
        }
    }

    // Counts what a step added, which the buffer has made, and what the playout passed in it: whether it is a record,
    // how often the flow restarted, and what it tells of the playout.
    fn count(&mut self, tick: u64, amounts: Amounts, records: u64, restarts: u64, playout: Playout)
        ensures same { (self.new.buffer ≡ self.old.buffer) × (self.new.numbers ≡ self.old.numbers)
            × (((self.new.time ≡ self.old.time) × (self.new.delay ≡ self.old.delay))
            × ((self.new.jitter ≡ self.old.jitter) × (self.new.trips ≡ self.old.trips))) }
        ensures start { self.new.start ≡ Some (unwrap_or self.old.start tick) }
        ensures missing { (history : List BufferStep) → IsStateAfter self.old.buffer history
            → self.old.buffer.phase ≢ Failed
            → AreNumbersOf self.old.numbers (epochs_of self.old.buffer.limits history)
            → self.new.missing ≡ capped (missing_count self.old.buffer.limits history) }
        ensures series { (entries : List Entry) → AreSeriesOf self.old.table entries
            → AreSeriesOf self.new.table (record {
              second = (self.old.time - unwrap_or self.old.start tick) / 90000;
              amounts = with_passed amounts (record {
                records = records;
                missing = self.new.missing - self.old.missing;
                restarts = restarts;
                playout = playout;
              });
            } ∷ entries) }
    {
        let start = self.start.unwrap_or(tick);
        let missing = missing_now(&self.buffer, &self.numbers);
        let mut added = amounts;
        added.passed = Passed {
            records,
            missing: missing.saturating_sub(self.missing),
            restarts,
            playout,
        };
        self.table
            .add(self.time.saturating_sub(start) / 90_000, &added);
        self.start = Some(start);
        self.missing = missing;
    }
}
