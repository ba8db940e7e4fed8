//! The sender's rules, as definitions over the list of all that it sent: which packets are stored, which of
//! them a request finds and which are sent again, and which links a packet goes on. What they mean is in
//! `laws`.
#![tactic(auto)]

mod bounds;
pub mod laws;
mod send_bad;

pub use bounds::{MAX_LOOKED_AT, MAX_SENT_AGAIN, MAX_STORED};
pub use send_bad::SendBad;
