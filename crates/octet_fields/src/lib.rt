//! The fields of a wire format: numbers at their places in network byte order (RFC 791, appendix B), flags
//! in a word, and parts that are written one after another; and counts as lines of text. A contract sees lists of octets.
#![tactic(auto)]

mod lines;
mod reading;
mod writing;

pub use lines::{MAX_COUNT_LEN, put_line};
pub use reading::{is_set, u16_at, u32_at, u64_at};
pub use writing::put_at;
