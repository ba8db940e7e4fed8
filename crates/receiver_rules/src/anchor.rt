/// What the media arrival that opens an epoch fixes: from it numbers count, and deadlines at first. The first arrival
/// opens the first epoch.
#[derive(Clone, Copy, Debug, PartialEq, Eq)]
pub struct Anchor {
    /// The SSRC with its lowest bit cleared.
    pub flow: u32,
    /// The effective time of its arrival, in ticks of 1/90,000 s.
    pub time: u64,
    /// Its extended sequence number, from 2^40 on.
    pub number: u64,
    /// Its extended RTP timestamp, from 2^60 on, in ticks.
    pub timestamp: u64,
}

/// The packet with the highest number that an epoch has kept: what later numbers and timestamps are unwrapped against.
#[derive(Clone, Copy, Debug, PartialEq, Eq)]
pub struct Highest {
    /// The highest extended sequence number that was kept.
    pub number: u64,
    /// The extended RTP timestamp of that packet, in ticks.
    pub timestamp: u64,
}
