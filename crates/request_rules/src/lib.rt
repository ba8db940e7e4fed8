//! What a receiver asks for, as definitions over the list of all its steps: which packets are missing and since when,
//! which of them are due, and the words that ask for them. Beside them the values that carry a request.
#![tactic(auto)]

mod asked;
pub mod laws;
mod policy;
mod word;

pub use asked::{Asked, MAX_WORDS};
pub use policy::{NackKind, Policy};
pub use word::AskWord;
