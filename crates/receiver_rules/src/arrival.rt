use seq_unwrap::Width;

/// A media packet as it comes: the fields of its RTP header that the rules read (RFC 3550, section 5.1),
/// and its payload, borrowed from the datagram.
#[derive(Clone, Copy)]
pub struct Arrival<'a> {
    /// The SSRC with its lowest bit cleared: an original and its retransmissions are one flow (VSF TR-06-1).
    pub flow: u32,
    /// Whether it is a retransmission: the lowest bit of its SSRC is set.
    pub again: bool,
    /// How many bits of the sequence number were sent.
    pub width: Width,
    /// The sequence number as sent. One of 16 bits is below 65,536.
    pub word: u32,
    /// The timestamp as sent, in ticks of 1/90,000 s.
    pub stamp: u32,
    /// The octets after the header, without padding. There may be none.
    pub payload: &'a [u8],
}
