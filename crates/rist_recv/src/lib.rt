//! A run of receiving: all links are served, the lists that were kept are compared, and the end is told. A contract
//! sees the list of the run's steps, where it was kept, and what the sink tells.
#![tactic(auto)]

mod in_turns;
mod receiving;
mod running;

pub use in_turns::receive_in_turns;
pub use receiving::receive;
pub use running::receive_on;
