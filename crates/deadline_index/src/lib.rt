//! Places, each with the tick at which it falls due: which places are due by a tick is found without looking at the others.
//! A contract sees the list of ticks. Only the first call takes memory.
#![tactic(auto)]

mod groups;
pub mod index;
mod levels;

pub use index::{DeadlineIndex, NEVER};
