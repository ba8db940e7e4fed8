//! GRE headers in UDP (RFC 2784, section 2; RFC 2890, section 2; RFC 8086, section 3): the key, the
//! sequence number and the protocol. A contract sees a header as these and its length.
#![tactic(auto)]

mod gre;
pub mod laws;
mod reading;
mod tunnel;
mod writing;

pub use gre::{Gre, GreBad};
pub use reading::{DATAGRAM, FULL, KEEPALIVE};
pub use tunnel::Tunnel;
pub use writing::write;
