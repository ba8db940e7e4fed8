//! The parts of a made script: the payloads that it sends, and the datagrams that the words of its generator lose and
//! delay (this profile). The words are those of ChaCha (RFC 8439, section 2.3) with eight rounds in place of twenty and
//! a counter of 64 bits, so that anyone can make the script again.
#![tactic(auto)]

mod draws;
mod payload;
mod words;

pub use draws::{Draws, Due, Held, MAX_COUNT, MAX_LINKS, SLOTS_AFTER, Script, Way};
pub use payload::{PAYLOAD_LEN, payload_of};
pub use words::{Drawn, generator};
