//! How often values came.
ghost use Rattle.std.specs.Prelude.{◌≡◌, ◌+◌, ◌<◌, ◌^◌, ℕ, List, [], ◌∷◌, length, replicate, IfOk};
ghost use Rattle.value_histogram.specs.Ranks.{IsHistogramOf, rank_of, spread_of, told_value, raised};

use crate::spread::Spread;
use std::alloc::{AllocError, Global};
use std::marker::Model;

/// How many values are told apart: those below it, where each greater one counts as the last.
pub const VALUES: usize = 16_384;

/// How often each value came. Each count stays at its greatest value.
#[derive(Drop)]
pub struct Histogram {
    counts: Vec<u64>,
    /// How many values came.
    total: u64,
}

impl Model for Histogram {
    ghost use Rattle.std.specs.Prelude.{◌≡◌, length};
    ghost use Rattle.value_histogram.specs.Ranks.{HistogramState};

    ghost Value = { HistogramState };

    ghost view = { λ h. record { counts = h.counts.items; total = h.total } };

    ghost invariant = { λ h. length h.counts.items ≡ 16384 };
}

impl Histogram {
    /// No value came. The memory for all counts is taken here.
    pub fn new(alloc: Global) -> Result<Histogram, AllocError>
        ensures state { IfOk result (λ h. IsHistogramOf h []) }
    {
        Ok(Histogram {
            counts: zeros(alloc, VALUES)?,
            total: 0,
        })
    }

    /// Takes a value.
    pub fn add(&mut self, value: u64)
        ensures state { (values : List ℕ) → IsHistogramOf self.old values
            → IsHistogramOf self.new (told_value value ∷ values) }
    {
        let at = value.min(VALUES as u64 - 1) as usize;
        raise(&mut self.counts, at);
        self.total = self.total.saturating_add(1);
    }

    /// How the values are spread.
    pub fn spread(&self) -> Spread
        ensures value { (values : List ℕ) → IsHistogramOf self.now values → result ≡ spread_of values }
    {
        Spread {
            count: self.total,
            least: self.rank(self.total.saturating_sub(1)),
            median: self.rank(self.total / 2),
            high: self.rank(self.total / 100),
            greatest: self.rank(0),
        }
    }

    // The least value that no more than so many of those that came lie above.
    fn rank(&self, most: u64) -> u64
        requires within { most + 1 < 2 ^ 64 }
        ensures value { (values : List ℕ) → IsHistogramOf self.now values → result ≡ rank_of most values }
    {
        let mut above: u64 = 0;
        for step in 0..VALUES - 1 {
            let at = VALUES - 1 - step;
            above = above.saturating_add(self.counts[at]);
            if above > most {
                return at as u64;
            }
        }
        0
    }
}

// So many numbers that are 0.
fn zeros(alloc: Global, count: usize) -> Result<Vec<u64>, AllocError>
    ensures value { IfOk result (λ v. v.items ≡ replicate count 0) }
{
    let mut numbers = Vec::with_capacity(alloc, count)?;
    numbers.resize(count, 0)?;
    Ok(numbers)
}

// One more of a value.
fn raise(counts: &mut [u64], at: usize)
    requires among { at < length counts.old }
    ensures value { counts.new ≡ raised counts.old at }
{
    counts[at] = counts[at].saturating_add(1);
}
