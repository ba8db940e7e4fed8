//! The figures of a session.
use crate::table::Table;
use value_histogram::Spread;

/// The figures of the steps so far.
#[derive(Clone, Copy)]
pub struct Figures<'a> {
    /// From the first step to the last, in ticks of 1/90,000 s.
    pub ticks: u64,
    /// How many packets were sent, by their numbers.
    pub sent: u64,
    /// How jitter is spread, in tenths of a millisecond.
    pub jitter: Spread,
    /// How round-trip times are spread, in milliseconds.
    pub trips: Spread,
    /// What was counted over time.
    pub table: &'a Table,
}
