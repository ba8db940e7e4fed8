//! A source that notes what it is asked for.
ghost use Rattle.std.specs.Prelude.{◌≡◌};

use live_source::LiveSource;
use outside_io::{Failed, Pieces, Source};

/// A source in memory that notes how many octets each call of `gather` asks for, of the first sixteen. At the second they
/// aren't there. What it gives is not told.
#[derive(Drop)]
pub struct AskedSource {
    inner: Pieces,
    counts: [usize; 16],
    calls: usize,
}

impl AskedSource {
    pub fn over(inner: Pieces) -> AskedSource {
        AskedSource {
            inner,
            counts: [0; 16],
            calls: 0,
        }
    }

    /// What it was asked for, call by call.
    pub fn asked(&self) -> Option<&[usize]> {
        self.counts.get(..self.calls)
    }

    fn note(&mut self, count: usize)
        ensures inner { self.new.inner ≡ self.old.inner }
    {
        if let Some(place) = self.counts.get_mut(self.calls) {
            *place = count;
            self.calls = self.calls.saturating_add(1);
        }
    }
}

impl Source for AskedSource {
    ghost use Rattle.std.specs.Prelude.{None};

    ghost remaining = { λ _. None };

    ghost faults = { λ asked. asked.inner.calls.faults };

    fn read(&mut self, buf: &mut [u8]) -> Result<usize, Failed> {
        self.inner.read(buf)
    }
}

impl LiveSource for AskedSource {
    fn is_in_datagrams(&self) -> bool {
        false
    }

    fn gather(&mut self, count: usize) -> bool {
        self.note(count);
        self.calls != 2
    }

    fn read_payload(&mut self, _block: &mut [u8; 1500]) -> Result<usize, Failed> {
        Ok(0)
    }
}
