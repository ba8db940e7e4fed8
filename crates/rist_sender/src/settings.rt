//! What a sender is set to.
use bond_links::Bond;

/// What a sender is set to.
#[derive(Drop)]
pub struct Settings {
    /// The SSRC of the flow. It is even: the lowest bit marks a retransmission (VSF TR-06-1).
    pub flow: u32,
    /// The first packet's sequence number.
    pub first: u32,
    /// How many packets are stored for retransmission: 1 to 65,536.
    pub store: usize,
    /// For how long after a retransmission a packet isn't sent again, in milliseconds: 1 to 1,000.
    pub hold: u16,
    /// How packets are spread over links.
    pub bond: Bond,
}
