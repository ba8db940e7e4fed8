//! How a source is sent.
/// How a source is sent.
#[derive(Clone, Copy, Debug, PartialEq, Eq)]
pub struct SendSettings {
    /// From the start to the first piece's time, in microseconds.
    pub lead: u64,
    /// From one piece's time to the next one's, in microseconds: at most 1,000,000.
    pub gap: u64,
    /// For how long turns go on after the source's end, in microseconds.
    pub linger: u64,
    /// How many turns are made at most.
    pub turns: u64,
}
