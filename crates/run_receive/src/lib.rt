//! A receiving, over the objects of a host. A contract sees what its links, its clocks and its sink tell before and after.
#![tactic(auto)]

mod receiving;

pub use receiving::receive_line;
