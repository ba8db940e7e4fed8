//! A source that says whether a read of it waits, and one that gathers octets of it ahead of the reads. A contract sees the octets that
//! are left, where the source behind tells them.
#![tactic(auto)]

mod gathered;
mod ready;

pub use gathered::Gathered;
pub use ready::ReadySource;
