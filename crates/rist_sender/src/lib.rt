//! The sending end of a flow, as pure steps over links that are handed in. A contract sees the history of the sender's
//! calls: which packets it sent, and what became of each datagram that it wrote (`IsSenderAfter`).
#![tactic(auto)]

mod answer;
mod answers;
mod control;
pub mod laws;
mod media;
mod numbers;
mod on_link;
mod payloads;
mod read;
mod sealing;
mod sender;
mod settings;
mod ticks;

pub use answer::Answer;
pub use read::read_at;
pub use sender::Sender;
pub use settings::Settings;
