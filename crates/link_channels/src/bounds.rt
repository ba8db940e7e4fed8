//! How much there is of each at most.

/// How many links a session has (this profile).
pub const MAX_LINKS: usize = 16;

/// How many octets a datagram has (this profile).
pub const MAX_DATAGRAM: usize = 2048;

/// How many octets a payload has (this profile).
pub const MAX_PAYLOAD: usize = 1500;
