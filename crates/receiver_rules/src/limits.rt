/// What a receiver's buffer is set to.
#[derive(Clone, Copy, Debug, PartialEq, Eq)]
pub struct Limits {
    /// How long after its time a packet is played out, in ticks of 1/90,000 s.
    pub playout_delay: u64,
    /// Buffered numbers lie less than this apart: how many packets there is room for.
    pub capacity: u64,
    /// How long ago the last packet must have been kept before a packet of another flow opens a new epoch, in ticks.
    /// Where it is 0 the flow of the first packet stays the only one.
    pub restart_time: u64,
    /// Whether what deadlines count from follows a sender's clock that drifts.
    pub drift: bool,
}
