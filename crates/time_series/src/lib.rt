//! Amounts over time, summed or by the greatest, in buckets of equal width. The width doubles as time goes on, so that
//! there are never more than 4,096 of them, in memory that is taken once. A contract sees the list of the amounts and
//! of the seconds in which they came.
#![tactic(auto)]

pub mod laws;
mod peaks;
mod series;
mod widening;

pub use peaks::Peaks;
pub use series::{POINTS, Series};
