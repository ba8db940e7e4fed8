//! A link of a gateway, on either side.
use crate::side_worker::SideWorker;
use rist_desk::Worker;

/// What one thread of a gateway serves.
#[derive(Drop)]
pub enum EitherWorker<L, C, U, D, P> {
    /// A link that is received on.
    Receiving(Worker<L, C, U>),
    /// A link that is sent on.
    Sending(SideWorker<D, P>),
}
