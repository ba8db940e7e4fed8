//! A series of the greatest amounts.
ghost use Rattle.std.specs.Prelude.{◌≡◌, ◌≤◌, ◌<◌, ◌+◌, ◌*◌, ◌/◌, ◌^◌, ℕ, List, [], ◌∷◌, length, max, slice_index, IfOk};
ghost use Rattle.time_series.specs.Points.{Mark, shown_points};
ghost use Rattle.time_series.specs.Peaks.{IsPeaksOf, peaks_of};
ghost use Rattle.time_series.specs.Inside.Rising.{lifted, ArePeaks};

use crate::series::{POINTS, zeros};
use crate::widening::{clear_rest, halvings};
use std::alloc::{AllocError, Global};
use std::marker::Model;

/// Amounts that came in seconds from 0 on, of which the greatest of each bucket is kept.
#[derive(Drop)]
pub struct Peaks {
    points: Vec<u64>,
    /// How often the width has doubled.
    scale: u32,
    /// The latest second of an amount.
    latest: u64,
}

impl Model for Peaks {
    ghost use Rattle.time_series.specs.Points.{SeriesState};
    ghost use Rattle.time_series.specs.Inside.Widening.{IsRoomy};

    ghost Value = { SeriesState };

    ghost view = { λ s. record { points = s.points.items; scale = s.scale; latest = s.latest } };

    ghost invariant = { λ s. IsRoomy s.points.items s.scale s.latest };
}

impl Peaks {
    /// The peaks of no amounts. They take the memory for all points.
    pub fn new(alloc: Global) -> Result<Peaks, AllocError>
        ensures state { IfOk result (λ s. IsPeaksOf s []) }
    {
        Ok(Peaks {
            points: zeros(alloc, POINTS)?,
            scale: 0,
            latest: 0,
        })
    }

    /// Takes an amount that came in a second, which may lie before or behind those that came so far.
    pub fn add(&mut self, second: u64, amount: u64)
        ensures state { (marks : List Mark) → IsPeaksOf self.old marks
            → IsPeaksOf self.new (record { second = second; amount = amount } ∷ marks) }
    {
        let latest = self.latest.max(second);
        let scale = halvings(latest);
        lift_at(&mut self.points, self.scale, scale, second, amount);
        self.scale = scale;
        self.latest = latest;
    }

    /// The greatest amounts of the buckets, from that of the first second to that of the latest.
    pub fn points(&self) -> &[u64]
        ensures value { result.now ≡ shown_points self.now }
        ensures peaks { (marks : List Mark) → IsPeaksOf self.now marks → result.now ≡ peaks_of marks }
        ensures some { 1 ≤ length result.now }
        ensures few { length result.now ≤ POINTS }
    {
        let last = (self.latest >> self.scale) as usize;
        &self.points[..last + 1]
    }
}

// Doubles the width of the buckets, from one scale to another, and takes an amount into the bucket of its second.
fn lift_at(points: &mut [u64], from: u32, to: u32, second: u64, amount: u64)
    requires room { length points.old ≡ POINTS }
    requires order { from ≤ to }
    requires scale { to ≤ 52 }
    requires within { second < 4096 * 2 ^ to }
    ensures peaks { (marks : List Mark) → ArePeaks from marks points.old
        → ArePeaks to (record { second = second; amount = amount } ∷ marks) points.new }
{
    widen_peaks(points, from, to);
    lift(points, second, to, amount);
}

// Takes an amount into the bucket of a second.
fn lift(points: &mut [u64], second: u64, scale: u32, amount: u64)
    requires room { second / 2 ^ scale < length points.old }
    requires scale { scale ≤ 52 }
    ensures value { points.new ≡ lifted points.old (second / 2 ^ scale) amount }
{
    let at = (second >> scale) as usize;
    points[at] = points[at].max(amount);
}

// Doubles the width of the buckets, from one scale to another.
fn widen_peaks(points: &mut [u64], from: u32, to: u32)
    requires room { length points.old ≡ POINTS }
    requires order { from ≤ to }
    ensures peaks { (marks : List Mark) → ArePeaks from marks points.old → ArePeaks to marks points.new }
{
    for _ in from..to {
        halve_peaks(points);
    }
}

// Doubles the width of the buckets once: each takes the greater of two neighbours.
fn halve_peaks(points: &mut [u64])
    requires room { length points.old ≡ POINTS }
    ensures peaks { (scale : ℕ) (marks : List Mark) → ArePeaks scale marks points.old
        → ArePeaks (scale + 1) marks points.new }
{
    join_peaks(points);
    clear_rest(points);
}

// Puts the greater of each two neighbours into the first half.
fn join_peaks(points: &mut [u64])
    requires room { length points.old ≡ POINTS }
    ensures peaks { (i : ℕ) → i < 2048
        → slice_index points.new i ≡ max (slice_index points.old (2 * i)) (slice_index points.old (2 * i + 1)) }
{
    for i in 0..POINTS / 2 {
        points[i] = points[2 * i].max(points[2 * i + 1]);
    }
}
