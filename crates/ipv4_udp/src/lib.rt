//! UDP datagrams in IPv4: which octets spell one, and what they say (RFC 791, section 3.1; RFC 768; the checksums: RFC 1071).
//! A contract sees a datagram that was read as its addresses, ports and data.
#![tactic(auto)]

mod ip;
pub mod laws;
mod place;
mod reading;
mod sum;
mod writing;

pub use ip::{Ip, IpBad, Sums};
pub use place::IpPlace;
pub use writing::{IpHead, MAX_PAYLOAD, write};
