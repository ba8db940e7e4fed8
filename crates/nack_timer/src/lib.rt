//! The requests for retransmission that are due. A contract sees the missing packets that a timer keeps, each with the
//! time at which it was found missing and what was asked for it, and of each list of steps that the timer stands for the
//! words by which the rules ask.
#![tactic(auto)]

mod entry;
pub mod laws;
mod pass;
mod settings;
mod timer;

pub use settings::Settings;
pub use timer::Timer;
