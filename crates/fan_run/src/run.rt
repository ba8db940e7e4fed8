//! What a run over several flows leaves.
use desk_run::Ending;
use rist_fan::{Came, Flow};

/// What a run leaves.
#[derive(Drop)]
pub struct FlowsRun<K> {
    pub ending: Ending,
    /// The receiver and the sink of the first place.
    pub first: Flow<K>,
    /// Those of the others, in order.
    pub more: Vec<Flow<K>>,
    /// What the end came to at each place: Stopped or WriteFault where a write of its sink failed.
    pub came: Vec<Came>,
}
