//! When it is shown how far a source was read.
ghost use Rattle.std.specs.Prelude.{◌≡◌};
ghost use Rattle.progress_source.specs.Meters.{change_at, change_over, counted, is_due, new_meter, over, shown_by};

use crate::Extent;

/// The first line comes after so many microseconds.
pub const FIRST: u64 = 1_000_000;

/// From one line to the next so many microseconds pass at least.
pub const EVERY: u64 = 100_000;

/// What changes on the terminal.
#[derive(Clone, Copy, Debug, PartialEq, Eq)]
pub enum Change {
    /// A line comes, in place of the one before.
    Line(Extent),
    /// The line goes.
    Clears,
}

/// What was read of a source, and the line that stands.
#[derive(Clone, Copy, Debug, PartialEq, Eq)]
pub struct Meter {
    /// How many octets the source has in all, where that is known.
    pub total: Option<u64>,
    /// How many were read, up to 2^64 - 1.
    pub octets: u64,
    /// The moment of the line that stands, if one does, in microseconds.
    pub shown: Option<u64>,
    /// No more line comes.
    pub is_over: bool,
}

impl Meter {
    /// Nothing was read yet of a source of so many octets.
    pub fn new(total: Option<u64>) -> Meter
        ensures value { result ≡ new_meter total }
    {
        Meter {
            total,
            octets: 0,
            shown: None,
            is_over: false,
        }
    }

    /// Whether a line comes at a moment.
    fn is_due(&self, us: u64) -> bool
        ensures value { result ≡ is_due self.now us }
    {
        if self.is_over {
            return false;
        }
        match self.shown {
            None => us >= FIRST,
            Some(last) => us.saturating_sub(last) >= EVERY,
        }
    }

    /// So many octets more were read at a moment. What changes then.
    pub fn count(&mut self, us: u64, octets: u64) -> Option<Change>
        ensures change { result ≡ change_at us (counted octets self.old) }
        ensures state { self.new ≡ shown_by us (counted octets self.old) }
    {
        self.octets = self.octets.saturating_add(octets);
        if !self.is_due(us) {
            return None;
        }
        self.shown = Some(us);
        Some(Change::Line(Extent {
            octets: self.octets,
            total: self.total,
            us,
        }))
    }

    /// No more line comes. What changes then.
    pub fn end(&mut self) -> Option<Change>
        ensures change { result ≡ change_over self.old.shown }
        ensures state { self.new ≡ over self.old }
    {
        self.is_over = true;
        match self.shown {
            None => None,
            Some(_) => {
                self.shown = None;
                Some(Change::Clears)
            }
        }
    }
}
