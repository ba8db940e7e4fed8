//! The RIST extension of an RTP header (this profile): what null packets were deleted, and the upper half of
//! the number. A contract sees the word as these two.
#![tactic(auto)]

mod counted;
mod ext_word;
pub mod laws;
mod reading;
mod writing;

pub use ext_word::{ExtBad, ExtWord, RIST_PROFILE};
