//! The desk that threads share in turns.
use crate::shared::Shared;
use outside_io::Sink;
use rist_desk::{DeskOrigin, Step};
use turn_lock::TurnLock;

/// A receiver and its sink behind a lock that is passed on in turns. It stands for one history of steps, which no memory is
/// taken for: each step is added to it in the turn that makes it.
#[derive(Drop)]
pub struct TurnDesk<N: DeskOrigin, K: Sink + Drop> {
    pub lock: TurnLock<Step, Shared<N, K>>,
}
