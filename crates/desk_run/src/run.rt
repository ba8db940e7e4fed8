//! What a run over links leaves.
use crate::ending::Ending;
use rist_ends::Counts;

/// What a run leaves.
#[derive(Drop)]
pub struct Run<K> {
    pub ending: Ending,
    /// What became of the datagrams.
    pub counts: Counts,
    pub sink: K,
}
