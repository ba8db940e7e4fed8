//! A link whose datagrams are recorded as they come. A contract sees what the recording's sink holds, where it tells.
#![tactic(auto)]

mod recorded;
mod recording;

pub use recorded::Recorded;
pub use recording::Recording;
