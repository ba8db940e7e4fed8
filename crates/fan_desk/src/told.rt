//! What is told to all places in a turn.
use rist_ends::Told;

/// What is told, and the place that it is for. Each other place is told of a datagram that was refused, at the same moment,
/// and so is each where it is for none; a tick is for all.
#[derive(Clone, Copy)]
pub struct FanTold<'a> {
    pub place: Option<u8>,
    pub told: Told<'a>,
}
