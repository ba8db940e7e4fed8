//! The replay of a capture: a receiver that makes no datagrams steps the item of each record, and writes what it plays
//! out; or counts its verdicts, and the datagrams that are refused. A contract sees what the records of the capture
//! release, and the counts of the history that they are.
#![tactic(auto)]

mod counter;
mod counting;
pub mod laws;
mod replayer;
mod replaying;
mod text;

pub use counting::count;
pub use replayer::Replayer;
pub use replaying::replay;
