//! A sending, over the objects of a host. A contract sees what its source, its links and its clock tell before and after.
#![tactic(auto)]

mod sending;

pub use sending::send_line;
