//! Packing: the octets of a source become the media datagrams of one flow, in a capture. A contract sees the octets
//! that were read of the source, where it tells them, and what its capture gained.
#![tactic(auto)]

mod bad;
mod datagram;
pub mod laws;
mod packing;
mod settings;

pub use bad::PackBad;
pub use packing::pack;
pub use settings::PackSettings;
