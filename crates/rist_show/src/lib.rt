//! The records of a capture as lines of text: what each datagram is in a session, as a JSON object (this profile). A
//! contract sees the lines of the whole records that were read.
#![tactic(auto)]

mod line;
mod objects;
mod printer;
mod showing;

pub use showing::show;
