//! How a source is read: in large pieces through a block, so that small reads cost no call outside; and in the pieces of a
//! stream, seven transport stream packets each, the last of which may be shorter. A contract sees what a source had and has
//! left, where it tells it.
#![tactic(auto)]

mod block;
mod fault;
pub mod laws;
mod reading;

pub use block::Block;
pub use fault::PieceFault;
pub use reading::{MAX_LEN, PIECE_LEN, read_piece};
