//! Receivers of several flows that come in one tunnel, each with a sink of its own. They are told as one, and a contract sees of
//! each what it would keep by itself: a step of all is one more step of each one's own history.
#![tactic(auto)]

mod fan;
mod flow;
pub mod laws;
mod stepping;
mod telling;

pub use fan::Fan;
pub use flow::{Came, Flow};
