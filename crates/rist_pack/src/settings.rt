//! The flow that a source is packed as.
/// The flow that a source is packed as.
#[derive(Clone, Copy, Debug, PartialEq, Eq)]
pub struct PackSettings {
    /// The SSRC of the flow. It is even: the lowest bit marks a retransmission (VSF TR-06-1).
    pub flow: u32,
    /// The first packet's sequence number.
    pub first: u32,
    /// From one packet to the next, in microseconds.
    pub gap: u64,
}
