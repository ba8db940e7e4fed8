//! What is counted of a link, and when it is told.
ghost use Rattle.std.specs.Prelude.{◌≡◌};
ghost use Rattle.metered_link.specs.Meters.{dropped, event_at, meter_after, new_meter, refused, telling_at, with_totals, written};

use outside_io::Failed;
use outside_net::Got;

/// After so many microseconds without a datagram a link is down.
pub const SILENCE: u64 = 2_000_000;

/// What came on a link and what went, up to a moment. No count passes 2^64 - 1.
#[derive(Clone, Copy, Debug, Default, PartialEq, Eq)]
pub struct LinkTotals {
    /// The moment of the last read, in microseconds.
    pub us: u64,
    /// Datagrams that came.
    pub datagrams: u64,
    /// Their octets.
    pub octets: u64,
    /// Those of them that were none of the session.
    pub refused: u64,
    /// Datagrams that were written.
    pub written: u64,
    /// Calls that failed.
    pub failed: u64,
    /// Lines that couldn't be told.
    pub dropped: u64,
}

/// Why a link tells.
#[derive(Clone, Copy, Debug, PartialEq, Eq)]
pub enum Event {
    /// The interval has passed.
    Interval,
    /// A datagram came, the first or the first after a silence.
    Up,
    /// Nothing came for two seconds.
    Down,
}

/// What a link tells: why, and its totals at the time before and now.
#[derive(Clone, Copy, Debug, PartialEq, Eq)]
pub struct Telling {
    pub event: Event,
    pub since: LinkTotals,
    pub totals: LinkTotals,
}

/// The totals of a link, those that were told last, and the moment of its last datagram while it is up.
#[derive(Clone, Copy, Drop)]
pub struct Meter {
    /// From one line to the next, in microseconds.
    pub every: u64,
    pub totals: LinkTotals,
    pub told: LinkTotals,
    pub heard: Option<u64>,
}

impl Meter {
    /// A meter that has counted nothing.
    pub fn new(every: u64) -> Meter
        ensures value { result ≡ new_meter every }
    {
        Meter {
            every,
            totals: LinkTotals::default(),
            told: LinkTotals::default(),
            heard: None,
        }
    }

    /// Why something is told at a moment, if it is: a link came up, or went down, or the interval passed.
    fn event(&self, us: u64, got: &Got) -> Option<Event>
        ensures value { result ≡ event_at self.now us got.now }
    {
        match (got, self.heard) {
            (Got::Datagram(_, _), None) => Some(Event::Up),
            (Got::Quiet | Got::End | Got::Failed, Some(heard))
                if us.saturating_sub(heard) >= SILENCE => { Some(Event::Down) }
            _ if us.saturating_sub(self.told.us) >= self.every => Some(Event::Interval),
            _ => None,
        }
    }

    /// Counts the answer to a read at a moment in microseconds, and says what is to be told of it, if anything.
    pub fn count(&mut self, us: u64, got: &Got) -> Option<Telling>
        ensures telling { result ≡ telling_at us got.now self.old }
        ensures state { self.new ≡ meter_after us got.now self.old }
    {
        let event = self.event(us, got);
        self.totals.us = us;
        match got {
            Got::Datagram(_, octets) => {
                self.totals.datagrams = self.totals.datagrams.saturating_add(1);
                self.totals.octets = self.totals.octets.saturating_add(*octets as u64);
                self.heard = Some(us);
            }
            Got::Failed => self.totals.failed = self.totals.failed.saturating_add(1),
            Got::Quiet | Got::End => {}
        }
        let event = event?;
        if event == Event::Down {
            self.heard = None;
        }
        let since = self.told;
        self.told = self.totals;
        Some(Telling {
            event,
            since,
            totals: self.totals,
        })
    }

    /// The last datagram was none of the session.
    pub fn refuse(&mut self)
        ensures state { self.new ≡ with_totals refused self.old }
    {
        self.totals.refused = self.totals.refused.saturating_add(1);
    }

    /// Counts the answer to a write.
    pub fn write(&mut self, answer: Result<bool, Failed>)
        ensures state { self.new ≡ with_totals (written answer) self.old }
    {
        match answer {
            Ok(true) => self.totals.written = self.totals.written.saturating_add(1),
            Ok(false) => {}
            Err(_) => self.totals.failed = self.totals.failed.saturating_add(1),
        }
    }

    /// A line couldn't be told.
    pub fn drop_line(&mut self)
        ensures state { self.new ≡ with_totals dropped self.old }
    {
        self.totals.dropped = self.totals.dropped.saturating_add(1);
    }
}
