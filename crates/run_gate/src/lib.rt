//! A gateway, over the objects of a host. A contract sees what its links and its clocks tell before and after.
#![tactic(auto)]

mod gating;
mod sealing;

pub use gating::gate_line;
