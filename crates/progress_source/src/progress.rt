//! A source that shows how far it was read.
ghost use Rattle.std.specs.Prelude.{◌≡◌, ◌<◌, true, Some, None, IfOk, IsSome, OnErr, [], length, take};
ghost use Rattle.std.specs.Option.{option_map};
ghost use Rattle.std.specs.Io.{ReadsAtMost};
ghost use Rattle.outside_io.specs.Causes.{HasCause};
ghost use Rattle.outside_io.specs.Told.{Takes, IsEmpty, IsPrefix};
ghost use Rattle.outside_net.specs.Streams.{later, IsFirst};
ghost use Rattle.progress_source.specs.Meters.{new_meter};
ghost use Rattle.progress_source.specs.Showings.{Asks, Ends, EndsIn, Shows, ShowsIn};

use crate::{Change, Meter, Outlet};
use link_channels::MAX_PAYLOAD;
use live_source::LiveSource;
use outside_io::{Failed, Source};
use outside_net::Clock;

/// What was read of a source, by a clock of its own, and what shows it.
#[derive(Drop)]
pub struct Showing<C, O> {
    /// The clock of the reads, from 0 on when the source was opened.
    pub clock: C,
    /// What shows a line.
    pub outlet: O,
    /// What was counted, and the line that stands.
    pub meter: Meter,
}

/// Asks for what changes, if anything does.
fn ask<O: Outlet>(outlet: &mut O, change: Option<Change>)
    ensures asked { Asks (O.asked outlet.old) (O.asked outlet.new) change }
{
    if let Some(change) = change {
        outlet.show(change);
    }
}

impl<C: Clock, O: Outlet> Showing<C, O> {
    /// Counts the answer to a read into so many places, and shows what is due.
    fn count(&mut self, room: usize, answer: &Result<usize, Failed>)
        ensures shows { Shows C.moments O.asked room answer.now self.old self.new }
    {
        let us = self.clock.now();
        let change = match answer {
            Ok(0) if room > 0 => self.meter.end(),
            Ok(count) => self.meter.count(us, *count as u64),
            Err(_) => self.meter.end(),
        };
        ask(&mut self.outlet, change);
    }
}

impl<C, O: Outlet> Showing<C, O> {
    /// Shows nothing more.
    fn end(&mut self)
        ensures ends { Ends O.asked self.old self.new }
    {
        let change = self.meter.end();
        ask(&mut self.outlet, change);
    }
}

/// A source, and what shows how far it was read, if anything does. To whoever reads it, it is the source behind.
#[derive(Drop)]
pub struct Progress<S, C, O> {
    /// The source behind.
    pub source: S,
    /// What shows how far it was read, where something does.
    pub showing: Option<Showing<C, O>>,
}

impl<S, C, O> Progress<S, C, O> {
    /// A source that shows nothing.
    pub fn silent(source: S) -> Progress<S, C, O>
        ensures source { result.source ≡ source }
        ensures silent { result.showing ≡ None }
    {
        Progress {
            source,
            showing: None,
        }
    }

    /// A source of so many octets, where that is known, by a clock that begins at 0 with it.
    pub fn over(source: S, total: Option<u64>, clock: C, outlet: O) -> Progress<S, C, O>
        ensures source { result.source ≡ source }
        ensures showing { result.showing
            ≡ Some (record { clock = clock; outlet = outlet; meter = new_meter total }) }
    {
        Progress {
            source,
            showing: Some(Showing {
                clock,
                outlet,
                meter: Meter::new(total),
            }),
        }
    }
}

impl<S, C, O: Outlet> Progress<S, C, O> {
    /// Shows nothing more, and takes away the line that stands.
    pub fn end(&mut self)
        ensures source { self.new.source ≡ self.old.source }
        ensures ends { EndsIn O.asked self.old.showing self.new.showing }
    {
        if let Some(showing) = &mut self.showing {
            showing.end();
        }
    }
}

impl<S: Source, C: Clock, O: Outlet> Source for Progress<S, C, O> {
    ghost remaining = { λ progress. S.remaining progress.source };

    ghost ahead = { λ progress. S.ahead progress.source };

    ghost faults = { λ progress. S.faults progress.source };

    /// Reads the source behind, and shows what is due.
    fn read(&mut self, buf: &mut [u8]) -> Result<usize, Failed>
        ensures within { ReadsAtMost result buf.new }
        ensures ok { IfOk result (λ count. Takes (S.remaining self.old.source) (S.remaining self.new.source)
            (take count buf.new)) }
        ensures end { IfOk result (λ count. count ≡ 0 → 0 < length buf.new
            → IsEmpty (S.remaining self.new.source)) }
        ensures err { OnErr result (S.remaining self.new.source ≡ S.remaining self.old.source) }
        ensures ahead { OnErr result (S.ahead self.new.source ≡ []) }
        ensures cause { HasCause (S.faults self.old.source) (S.faults self.new.source) result }
        ensures shows { ShowsIn C.moments O.asked (length buf.old) result self.old.showing self.new.showing }
    {
        let answer = self.source.read(buf);
        if let Some(showing) = &mut self.showing {
            showing.count(buf.len(), &answer);
        }
        answer
    }
}

impl<S: LiveSource, C: Clock, O: Outlet> LiveSource for Progress<S, C, O> {
    ghost ready = { λ progress. S.ready progress.source };

    ghost payloads = { λ progress. S.payloads progress.source };

    ghost stands = { λ progress count. S.stands progress.source count };

    fn is_in_datagrams(&self) -> bool {
        self.source.is_in_datagrams()
    }

    /// Gathers octets of the source behind, and shows nothing from then on: a source whose octets are gathered before they are read
    /// comes as time goes on.
    fn gather(&mut self, count: usize) -> bool
        ensures value { IsFirst (S.ready self.old.source) result }
        ensures ready { S.ready self.new.source ≡ option_map later (S.ready self.old.source) }
        ensures told { IsSome (S.remaining self.old.source) → result ≡ true }
        ensures stands { result ≡ true → S.stands self.new.source count }
        ensures same { S.remaining self.new.source ≡ S.remaining self.old.source }
        ensures payloads { S.payloads self.new.source ≡ S.payloads self.old.source }
        ensures ahead { IsPrefix (S.ahead self.old.source) (S.ahead self.new.source) }
        ensures faults { S.faults self.new.source ≡ S.faults self.old.source }
        ensures ends { EndsIn O.asked self.old.showing self.new.showing }
    {
        self.end();
        self.source.gather(count)
    }

    /// Nothing is shown of a payload, nor counted.
    fn read_payload(&mut self, block: &mut [u8; MAX_PAYLOAD]) -> Result<usize, Failed> {
        self.source.read_payload(block)
    }
}
