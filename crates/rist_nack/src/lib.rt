//! Requests for retransmission: the numbers that an RTCP compound asks for, and the packets that ask
//! for them (RFC 4585, section 6.2.1; VSF TR-06-1). A contract sees a list of words, each a first
//! number and how many more.
#![tactic(auto)]

mod ask;
mod asking;
mod laws;
mod places;
mod reading;
mod requests;
mod words;
mod writing;

pub use ask::Ask;
pub use asking::Asks;
pub use laws::{written_extensions_hold, written_words_ask};
pub use reading::asks;
pub use requests::flow;
pub use writing::{put_mask, put_range, put_seqext};
