//! The capture file (this profile): datagrams with their links, channels and times. A contract sees the records that the
//! octets spell.
#![tactic(auto)]

mod head;
mod laws;
mod reader;
mod writer;

pub use head::Head;
pub use laws::{no_capture_at_fault, one_reading, one_spelling};
pub use outside_io::WriteFault;
pub use reader::{CapBad, CapKind, Reader};
pub use writer::Writer;
