//! Keepalive messages of the tunnel (this profile): a MAC address, capability bits, and a text that
//! isn't read. A contract sees a message that was read as its fields and its text's length.
#![tactic(auto)]

mod keepalive;
pub mod laws;
mod reading;
mod writing;

pub use keepalive::{KeepBad, Keepalive};
pub use reading::read;
pub use writing::write;
