//! The desk of several flows that threads share in turns.
use crate::fan_step::FanStep;
use crate::origin::FanOrigin;
use crate::shared::SharedFan;
use outside_io::Sink;
use turn_lock::TurnLock;

/// Receivers of several flows, each with a sink of its own, behind a lock that is passed on in turns. They stand, place by
/// place, for what each saw of one history of rows, which no memory is taken for.
#[derive(Drop)]
pub struct FanDesk<N: FanOrigin, K: Sink + Drop> {
    pub lock: TurnLock<FanStep, SharedFan<N, K>>,
}
