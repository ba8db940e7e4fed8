/// Where a buffer stands in its life.
#[derive(Clone, Copy, Debug, PartialEq, Eq)]
pub enum Phase {
    /// It takes arrivals.
    Open,
    /// It was flushed: all that was buffered is written.
    Ended,
    /// A write failed: what was buffered is dropped.
    Failed,
}
