//! Octets that only clauses see: what one object took, beside what it does with them.
#![tactic(auto)]

mod log;

pub use log::OctetLog;
