//! What a user is told of the command line: the help, the version, and what is wrong with words that are no line.
#![tactic(auto)]

mod asking;
mod checks;
mod complaining;
mod help;
pub mod laws;

pub use asking::{Ask, Topic, topic_named, what_is_asked};
pub use complaining::complaint;
pub use help::pieces;
