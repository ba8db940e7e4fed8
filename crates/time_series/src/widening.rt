//! The width of buckets, and its doubling.
ghost use Rattle.std.specs.Prelude.{◌≡◌, ◌≤◌, ◌<◌, ◌+◌, ◌*◌, ℕ, List, length, slice_index};
ghost use Rattle.time_series.specs.Points.{Mark, capped, halvings};
ghost use Rattle.time_series.specs.Inside.Widening.{AreSums};

use crate::series::POINTS;

/// How often a second is halved until there is a point for it.
pub fn halvings(second: u64) -> u32
    ensures value { result ≡ halvings second }
    ensures within { result ≤ 52 }
{
    let mut left = second;
    for count in 0..52 {
        if left < POINTS as u64 {
            return count;
        }
        left /= 2;
    }
    52
}

/// Doubles the width of the buckets, from one scale to another.
pub fn widen(points: &mut [u64], from: u32, to: u32)
    requires room { length points.old ≡ POINTS }
    requires order { from ≤ to }
    ensures sums { (marks : List Mark) → AreSums from marks points.old → AreSums to marks points.new }
{
    for _ in from..to {
        halve(points);
    }
}

/// Doubles the width of the buckets once: each takes the sum of two neighbours.
fn halve(points: &mut [u64])
    requires room { length points.old ≡ POINTS }
    ensures sums { (scale : ℕ) (marks : List Mark) → AreSums scale marks points.old
        → AreSums (scale + 1) marks points.new }
{
    join_pairs(points);
    clear_rest(points);
}

/// Puts the sum of each two neighbours into the first half.
fn join_pairs(points: &mut [u64])
    requires room { length points.old ≡ POINTS }
    ensures sums { (i : ℕ) → i < 2048
        → slice_index points.new i ≡ capped (slice_index points.old (2 * i) + slice_index points.old (2 * i + 1)) }
{
    for i in 0..POINTS / 2 {
        points[i] = points[2 * i].saturating_add(points[2 * i + 1]);
    }
}

/// Nothing stands in the second half.
pub fn clear_rest(points: &mut [u64])
    requires room { length points.old ≡ POINTS }
    ensures first { (i : ℕ) → i < 2048 → slice_index points.new i ≡ slice_index points.old i }
    ensures second { (i : ℕ) → 2048 ≤ i → i < 4096 → slice_index points.new i ≡ 0 }
{
    for i in POINTS / 2..POINTS {
        points[i] = 0;
    }
}
