//! A receiving of several flows that come in one tunnel, over the objects of a host. A contract sees what its links, its clocks
//! and its sinks tell before and after.
#![tactic(auto)]

mod fanning;
mod making;
mod receiving;
mod reporting;
mod sealing;
mod seating;

pub use fanning::fan_line;
