//! The receiver's reorder buffer: it decides on each media arrival, keeps what is to be played out, and writes it by
//! rising number when it is due. A contract sees the list of steps that led to its state.
#![tactic(auto)]

pub mod buffer;
mod fill;
mod phase;
mod places;
mod release;
mod ring;

pub use buffer::Buffer;
pub use outside_io::WriteFault;
pub use phase::Phase;
pub use receiver_rules::{Arrival, Verdict};
