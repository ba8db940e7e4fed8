//! A split, over the objects of a host. A contract sees what its source and its sinks tell before and after.
#![tactic(auto)]

mod splitting;

pub use splitting::split_line;
