//! The greatest of points, and their sum.
ghost use Rattle.std.specs.Prelude.{◌≡◌};
ghost use Rattle.html_parts.specs.Chart.{greatest_of, total_of};

/// The greatest of points, and 0 where there are none.
#[tactic(auto, using(crate::proofs::ChartLemmas::greatest_push))]
pub fn greatest(points: &[u64]) -> u64
    ensures value { result ≡ greatest_of points.now }
{
    let mut greatest: u64 = 0;
    for point in points {
        greatest = greatest.max(*point);
    }
    greatest
}

/// Their sum, up to 2^64 - 1.
pub fn total(points: &[u64]) -> u64
    ensures value { result ≡ total_of points.now }
{
    let mut total: u64 = 0;
    for point in points {
        total = total.saturating_add(*point);
    }
    total
}
