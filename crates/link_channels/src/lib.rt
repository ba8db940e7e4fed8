//! What both ends of a link go by: the profiles of the protocol, the channels that a link has in each, how many links,
//! octets of a datagram and of a payload there are at most, and when something is due on a link again.
#![tactic(auto)]

mod bounds;
mod channel;
mod intervals;
mod profile;

pub use bounds::{MAX_DATAGRAM, MAX_LINKS, MAX_PAYLOAD};
pub use channel::Channel;
pub use intervals::{KEEPALIVE_INTERVAL, REPORT_INTERVAL, has_passed_since};
pub use profile::Profile;
