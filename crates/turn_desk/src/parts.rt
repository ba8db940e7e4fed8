//! What threads share.
use rist_ends::Receiver;

/// A receiver and its sink.
#[derive(Drop)]
pub struct Parts<K> {
    pub receiver: Receiver,
    pub sink: K,
}
