//! RTP data packets: which octets spell one, and what they say (RFC 3550, sections 5.1 and 5.3.1).
//! A contract sees a packet that was read as its number, timestamp, SSRC, extension and payload.
#![tactic(auto)]

mod bad;
pub mod laws;
mod rtp;
mod writing;

pub use bad::RtpBad;
pub use rtp::Rtp;
pub use writing::{RtpHead, write};
