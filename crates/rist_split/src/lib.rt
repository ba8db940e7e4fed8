//! The split of a capture: each record of a tunnel is told to the receivers of several flows, and each output gains what a replay
//! in the session of its port writes.
#![tactic(auto)]

mod finding;
mod made;
mod outputs;
mod seating;
mod splitter;
mod splitting;
mod start;

pub use made::{SplitMemory, make};
pub use outputs::split_into;
pub use splitting::{SplitEnd, split};
pub use start::Start;
