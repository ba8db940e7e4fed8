//! Null packets of a transport stream (ISO/IEC 13818-1, section 2.4.3): deleting them from a payload, and
//! putting them back (this profile). A contract sees payloads as lists of octets, cut into packets.
#![tactic(auto)]

pub mod laws;
mod nulls;
mod packets;
mod restoring;
mod stripping;

pub use nulls::{NullBad, Strip};
pub use packets::MAX_PACKETS_LEN;
pub use restoring::{can_restore, put_back, restore};
pub use stripping::strip;
