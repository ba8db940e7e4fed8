//! The outside: what octets come from and go to, and what random words come from. A contract sees the octets and words
//! where an object tells them, and a count of its faults.
#![tactic(auto)]

mod bytes;
mod copying;
mod entropy;
mod failing;
mod file_identity;
mod filling;
mod mem_source;
mod memory;
mod nowhere;
mod pieces;
mod real;
mod real_entropy;
mod sink;
mod source;
mod store;
mod words;
mod write_fault;

pub use bytes::Bytes;
pub use copying::copy_front;
pub use entropy::Entropy;
pub use failing::FailingCalls;
pub use file_identity::FileIdentity;
pub use filling::read_full;
pub use mem_source::MemSource;
pub use memory::NoMemory;
pub use nowhere::Nowhere;
pub use pieces::Pieces;
pub use real::{Reading, RealSink, RealSource, Writing, create_sink, is_named, open_source};
pub use real_entropy::RealEntropy;
pub use sink::Sink;
pub use source::{Failed, Source};
pub use store::Store8;
pub use words::Words;
pub use write_fault::WriteFault;
