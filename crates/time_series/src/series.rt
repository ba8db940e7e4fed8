//! A series of amounts.
ghost use Rattle.std.specs.Prelude.{◌≡◌, ◌≤◌, ◌<◌, ◌*◌, ◌/◌, ◌^◌, ℕ, List, [], ◌∷◌, length, replicate, IfOk};
ghost use Rattle.time_series.specs.Points.{Mark, IsSeriesOf, points_of, shown_points, width_of};
ghost use Rattle.time_series.specs.Inside.Widening.{raised, AreSums};

use crate::widening::{halvings, widen};
use std::alloc::{AllocError, Global};
use std::marker::Model;

/// The most points of a series.
pub const POINTS: usize = 4096;

/// Amounts that came in seconds from 0 on, each added to the bucket that its second lies in. Each sum stays at its
/// greatest value.
#[derive(Drop)]
pub struct Series {
    points: Vec<u64>,
    /// How often the width has doubled.
    scale: u32,
    /// The latest second of an amount.
    latest: u64,
}

impl Model for Series {
    ghost use Rattle.time_series.specs.Points.{SeriesState};
    ghost use Rattle.time_series.specs.Inside.Widening.{IsRoomy};

    ghost Value = { SeriesState };

    ghost view = { λ s. record { points = s.points.items; scale = s.scale; latest = s.latest } };

    ghost invariant = { λ s. IsRoomy s.points.items s.scale s.latest };
}

impl Series {
    /// A series of no amounts. It takes the memory for all points.
    pub fn new(alloc: Global) -> Result<Series, AllocError>
        ensures state { IfOk result (λ s. IsSeriesOf s []) }
    {
        Ok(Series {
            points: zeros(alloc, POINTS)?,
            scale: 0,
            latest: 0,
        })
    }

    /// Adds an amount that came in a second, which may lie before or behind those that came so far.
    pub fn add(&mut self, second: u64, amount: u64)
        ensures state { (marks : List Mark) → IsSeriesOf self.old marks
            → IsSeriesOf self.new (record { second = second; amount = amount } ∷ marks) }
    {
        // Nothing more in a second that has a bucket leaves all sums as they are.
        if amount > 0 || second > self.latest {
            self.put(second, amount);
        }
    }

    // Adds an amount to the bucket of its second, which may be a new one.
    fn put(&mut self, second: u64, amount: u64)
        ensures state { (marks : List Mark) → IsSeriesOf self.old marks
            → IsSeriesOf self.new (record { second = second; amount = amount } ∷ marks) }
    {
        let latest = self.latest.max(second);
        let scale = halvings(latest);
        add_at(&mut self.points, self.scale, scale, second, amount);
        self.scale = scale;
        self.latest = latest;
    }

    /// The sums of the buckets, from that of the first second to that of the latest.
    pub fn points(&self) -> &[u64]
        ensures value { result.now ≡ shown_points self.now }
        ensures sums { (marks : List Mark) → IsSeriesOf self.now marks → result.now ≡ points_of marks }
        ensures some { 1 ≤ length result.now }
        ensures few { length result.now ≤ POINTS }
    {
        let last = (self.latest >> self.scale) as usize;
        &self.points[..last + 1]
    }

    /// How many seconds wide a bucket is.
    pub fn width(&self) -> u64
        ensures value { result ≡ 2 ^ self.now.scale }
        ensures sums { (marks : List Mark) → IsSeriesOf self.now marks → result ≡ width_of marks }
    {
        1 << self.scale
    }
}

/// So many numbers that are 0.
pub fn zeros(alloc: Global, count: usize) -> Result<Vec<u64>, AllocError>
    ensures value { IfOk result (λ v. v.items ≡ replicate count 0) }
{
    let mut numbers = Vec::with_capacity(alloc, count)?;
    numbers.resize(count, 0)?;
    Ok(numbers)
}

// Doubles the width of the buckets, from one scale to another, and adds an amount to the bucket of its second.
fn add_at(points: &mut [u64], from: u32, to: u32, second: u64, amount: u64)
    requires room { length points.old ≡ POINTS }
    requires order { from ≤ to }
    requires scale { to ≤ 52 }
    requires within { second < 4096 * 2 ^ to }
    ensures sums { (marks : List Mark) → AreSums from marks points.old
        → AreSums to (record { second = second; amount = amount } ∷ marks) points.new }
{
    widen(points, from, to);
    raise(points, second, to, amount);
}

// Adds an amount to the bucket of a second.
fn raise(points: &mut [u64], second: u64, scale: u32, amount: u64)
    requires room { second / 2 ^ scale < length points.old }
    requires scale { scale ≤ 52 }
    ensures value { points.new ≡ raised points.old (second / 2 ^ scale) amount }
{
    let at = (second >> scale) as usize;
    points[at] = points[at].saturating_add(amount);
}
