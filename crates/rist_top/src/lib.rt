//! The top call: the words of a command line and a host in, a status out. A contract sees what the host's sources and
//! sinks tell before and after.
#![tactic(auto)]

mod asking;
mod top;

pub use rist_help::complaint;
pub use run_parts::Status;
pub use top::{plain, run};
