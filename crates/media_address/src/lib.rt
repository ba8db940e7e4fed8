//! The words that stand for an address of UDP where else a name of a file stands: `udp://HOST:port` and `rtp://HOST:port`,
//! HOST an address of IPv4 or one of IPv6 in brackets, with a time to live and a local address behind a question mark. A contract sees a word as its octets.
#![tactic(auto)]

mod address;
mod bad;

pub use address::{Form, MediaAddress, address_of};
pub use bad::AddressBad;
pub use host_text::Settings;
