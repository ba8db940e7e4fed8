//! How a worker comes to what is shared.

use link_channels::MAX_PAYLOAD;

/// What a worker's steps are made on.
#[derive(Drop)]
pub struct Access<'a, R, S, M> {
    /// What lets a thread wait.
    pub rt: &'a R,
    /// What is shared.
    pub desk: &'a S,
    /// Memory for the datagrams that a step makes.
    pub room: M,
    /// Memory for the payload of a datagram whose null packets were deleted.
    pub payload: [u8; MAX_PAYLOAD],
}
