//! Why what was to be sent isn't.

/// Why what was to be sent isn't.
#[derive(Clone, Copy, Debug, PartialEq, Eq)]
pub enum SendBad {
    /// The sealer had no pair for the next datagram, or the sequence numbers have ended.
    Spent,
    /// Every link is down.
    LinksDown,
}
