//! RTCP compounds (RFC 3550, section 6; RFC 4585, section 6.1), read and written exactly. A contract
//! sees a compound as the list of its packets' contents; the octets are those of a datagram.
#![tactic(auto)]

mod compound;
mod laws;
mod name;
mod packet;
mod reading;
mod refusal;
mod writing;

pub use compound::{Compound, Packets};
pub use laws::{one_reading, the_name_is_read};
pub use name::{RIST_NAME, is_rist};
pub use packet::Packet;
pub use refusal::{Full, RtcpBad, RtcpWhy};
pub use writing::{CompoundOut, OUT_LEN};
