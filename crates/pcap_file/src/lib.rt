//! Captures of the network in the classic pcap format, version 2.4 (draft-ietf-opsawg-pcap, sections 4 and 5): the reader of
//! their frames, and the datagrams in these. A contract sees the frames that the octets spell.
#![tactic(auto)]

mod bad;
mod datagram;
mod format;
mod head;
pub mod laws;
mod reader;
mod skipping;

pub use bad::{PcapBad, PcapKind};
pub use datagram::datagram_in;
pub use format::{ByteOrder, Format, Fraction};
pub use reader::{Frame, PcapReader};
