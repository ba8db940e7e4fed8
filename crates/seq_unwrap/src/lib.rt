//! Numbers of which only the lowest bits are sent, and the whole numbers that they stand for.
//! A contract sees the one number with these lowest bits that lies nearest to a reference
//! (the idea of RFC 3550, appendix A.1; the numbers of 32 bits are this profile's).
#![tactic(auto)]

pub mod laws;
mod unwrapping;
mod width;

pub use unwrapping::{MAX_NUMBER, nearest, unwrap};
pub use width::Width;
