//! What a datagram is sent on.

/// Which of a link's channels a datagram goes on.
#[derive(Clone, Copy, Debug, PartialEq, Eq)]
pub enum Channel {
    /// RTP.
    Media,
    /// RTCP.
    Control,
    /// GRE, which carries both.
    Tunnel,
}
