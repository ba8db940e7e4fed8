//! The profiles of the protocol.

/// What datagrams a session sends.
#[derive(Clone, Copy, Debug, PartialEq, Eq)]
pub enum Profile {
    /// RTP and RTCP on two ports (VSF TR-06-1).
    Simple,
    /// Both of them in one GRE tunnel (VSF TR-06-2; the tunnel is this profile's).
    Main,
}
