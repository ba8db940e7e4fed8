//! A walk over the records of a capture file, or of the datagrams in a pcap file: each is brought to a visitor, and then the
//! end. A contract sees what the visitor writes of the whole records that were read.
#![tactic(auto)]

pub mod laws;
mod port;
mod records;
mod visitor;
mod walk_bad;
mod walking;

pub use port::PortReader;
pub use records::Records;
pub use visitor::{VisitBad, Visitor};
pub use walk_bad::WalkBad;
pub use walking::walk;
