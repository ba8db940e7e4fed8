//! A link that tells how it does.
ghost use Rattle.std.specs.Prelude.{◌≡◌, IfOk, None, Some};
ghost use Rattle.std.specs.Option.{option_map};
ghost use Rattle.link_channels.specs.declared.channel.Channel.{Channel};
ghost use Rattle.outside_io.specs.Causes.{HasCause, RoseWhere};
ghost use Rattle.outside_net.specs.Links.{IsWithin, IsOver, KnowsAfter, IsBefore, answer_of, has_come_to_end, has_read_failed};
ghost use Rattle.outside_net.specs.Links.{taken_with};
ghost use Rattle.outside_net.specs.Streams.{IsFirst, later};
ghost use Rattle.metered_link.specs.Meters.{new_meter, refused, wants_figures, written};
ghost use Rattle.metered_link.specs.Meterings.{Counts, CountsIn, TellsFigures, TellsFiguresIn, metering_with, wants_in};

use crate::{Meter, Teller};
use link_channels::{Channel, MAX_DATAGRAM};
use outside_io::Failed;
use outside_net::{Clock, Got, Link, ReceiverFigures};

/// What is counted of a link, by a clock of its own, and what it is told to.
#[derive(Drop)]
struct Metering<C, T> {
    clock: C,
    teller: T,
    place: u8,
    meter: Meter,
    /// The moment of the receiver's last figures, in microseconds.
    figured: u64,
}

impl<C: Clock, T: Teller> Metering<C, T> {
    /// Counts the answer to a read, and tells what is to be told. A line that couldn't be told is counted.
    fn count(&mut self, got: &Got)
        ensures counts { Counts C.moments T.asked got.now self.old self.new }
    {
        let us = self.clock.now();
        if let Some(telling) = self.meter.count(us, got) {
            if !self.teller.tell(self.place, &telling) {
                self.meter.drop_line();
            }
        }
    }

    /// Whether the receiver's figures are due at a moment: they are the first link's to tell, once in an interval.
    fn wants(&self, us: u64) -> bool
        ensures value { result ≡ wants_figures self.now.place self.now.meter.every self.now.figured us }
    {
        self.place == 0 && us.saturating_sub(self.figured) >= self.meter.every
    }

    /// Tells the receiver's figures. A line that couldn't be told is counted.
    fn tell(&mut self, us: u64, flow: u8, figures: &ReceiverFigures)
        ensures tells { TellsFigures T.asked us flow figures.now self.old self.new }
    {
        self.figured = us;
        if !self.teller.tell_receiver(us, flow, figures) {
            self.meter.drop_line();
        }
    }
}

/// A link, and where it tells what it counts. To whoever reads and writes it, it is the link behind.
#[derive(Drop)]
pub struct Metered<L, C, T> {
    pub link: L,
    metering: Option<Metering<C, T>>,
}

impl<L, C, T> Metered<L, C, T> {
    /// A link that tells nothing.
    pub fn silent(link: L) -> Metered<L, C, T>
        ensures link { result.link ≡ link }
        ensures silent { result.metering ≡ None }
    {
        Metered {
            link,
            metering: None,
        }
    }

    /// The link at a place, which tells each `every` microseconds, and where it comes up or goes down. The one at place 0 tells
    /// the receiver's figures too.
    pub fn over(link: L, clock: C, teller: T, place: u8, every: u64) -> Metered<L, C, T>
        ensures link { result.link ≡ link }
        ensures metering { result.metering ≡ Some (record {
          clock = clock;
          teller = teller;
          place = place;
          meter = new_meter every;
          figured = 0;
        }) }
    {
        Metered {
            link,
            metering: Some(Metering {
                clock,
                teller,
                place,
                meter: Meter::new(every),
                figured: 0,
            }),
        }
    }
}

impl<L: Link, C: Clock, T: Teller> Link for Metered<L, C, T> {
    ghost reads = { λ metered. L.reads metered.link };

    ghost taken = { λ metered. L.taken metered.link };

    ghost knows = { λ metered. L.knows metered.link };

    ghost knew = { λ metered. L.knew metered.link };

    ghost faults = { λ metered. L.faults metered.link };

    ghost ends = { λ metered. L.ends metered.link };

    fn read(&mut self, buf: &mut [u8; MAX_DATAGRAM]) -> Got
        ensures within { IsWithin result }
        ensures value { IsFirst (L.reads self.old.link) (answer_of result buf.new) }
        ensures reads { L.reads self.new.link ≡ option_map later (L.reads self.old.link) }
        ensures over { IsOver (answer_of result buf.new) (L.reads self.new.link) }
        ensures peer { KnowsAfter (L.knows self.old.link) (L.knows self.new.link) result }
        ensures before { IsBefore (L.knows self.old.link) (L.knew self.new.link) result }
        ensures same { L.taken self.new.link ≡ L.taken self.old.link }
        ensures cause { RoseWhere (has_read_failed result) (L.faults self.old.link) (L.faults self.new.link) }
        ensures end { RoseWhere (has_come_to_end result) (L.ends self.old.link) (L.ends self.new.link) }
        ensures counts { CountsIn C.moments T.asked result self.old.metering self.new.metering }
    {
        let got = self.link.read(buf);
        if let Some(metering) = &mut self.metering {
            metering.count(&got);
        }
        got
    }

    fn refuse(&mut self)
        ensures peers { (c : Channel) → L.knows self.new.link c ≡ L.knew self.old.link c }
        ensures before { (c : Channel) → L.knew self.new.link c ≡ L.knew self.old.link c }
        ensures reads { L.reads self.new.link ≡ L.reads self.old.link }
        ensures taken { L.taken self.new.link ≡ L.taken self.old.link }
        ensures ends { L.ends self.new.link ≡ L.ends self.old.link }
        ensures faults { L.faults self.new.link ≡ L.faults self.old.link }
        ensures counts { self.new.metering ≡ option_map (metering_with refused) self.old.metering }
    {
        if let Some(metering) = &mut self.metering {
            metering.meter.refuse();
        }
        self.link.refuse();
    }

    fn write(&mut self, channel: Channel, octets: &[u8]) -> Result<bool, Failed>
        ensures taken { L.taken self.new.link
            ≡ option_map (taken_with channel octets.now result) (L.taken self.old.link) }
        ensures peer { IfOk result (λ went. went ≡ L.knows self.old.link channel) }
        ensures same { L.reads self.new.link ≡ L.reads self.old.link }
        ensures peers { (c : Channel) → L.knows self.new.link c ≡ L.knows self.old.link c }
        ensures before { (c : Channel) → L.knew self.new.link c ≡ L.knew self.old.link c }
        ensures ends { L.ends self.new.link ≡ L.ends self.old.link }
        ensures cause { HasCause (L.faults self.old.link) (L.faults self.new.link) result }
        ensures counts { self.new.metering ≡ option_map (metering_with (written result)) self.old.metering }
    {
        let answer = self.link.write(channel, octets);
        if let Some(metering) = &mut self.metering {
            metering.meter.write(answer);
        }
        answer
    }

    fn assign(&mut self, flow: u8) {
        self.link.assign(flow);
    }

    fn address(&mut self, flow: u8) {
        self.link.address(flow);
    }

    fn wants(&self, us: u64) -> bool
        ensures value { result ≡ wants_in self.now.metering us }
    {
        match &self.metering {
            Some(metering) => metering.wants(us),
            None => false,
        }
    }

    fn tell(&mut self, us: u64, flow: u8, figures: &ReceiverFigures)
        ensures peers { (c : Channel) → L.knows self.new.link c ≡ L.knows self.old.link c }
        ensures before { (c : Channel) → L.knew self.new.link c ≡ L.knew self.old.link c }
        ensures reads { L.reads self.new.link ≡ L.reads self.old.link }
        ensures taken { L.taken self.new.link ≡ L.taken self.old.link }
        ensures ends { L.ends self.new.link ≡ L.ends self.old.link }
        ensures faults { L.faults self.new.link ≡ L.faults self.old.link }
        ensures tells { TellsFiguresIn T.asked us flow figures.now self.old.metering self.new.metering }
    {
        if let Some(metering) = &mut self.metering {
            metering.tell(us, flow, figures);
        }
    }

    fn rest(&self, limit: u8) {
        self.link.rest(limit);
    }
}
