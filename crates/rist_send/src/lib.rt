//! Sending: the pieces of a source go onto links at their times, while compounds that come back are answered. A
//! contract sees the run turn by turn: what clock, source and links gave, and what the sender did for it
//! (`SendsSource`).
#![tactic(auto)]

mod fault;
mod piece;
mod progress;
mod reading;
mod sending;
mod settings;

pub use fault::SendFault;
pub use sending::send;
pub use settings::SendSettings;
