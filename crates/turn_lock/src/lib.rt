//! A lock that is passed on in turns, over a value that stands for a history. A contract sees the turns that a pass has
//! seen and what was added with it; each answer is one after all that was added before, and the value that comes back
//! stands for one history of all passes.
#![tactic(auto)]

mod ends;
mod lock;
mod pass;
mod plays;
mod rule;
mod turning;

pub use lock::TurnLock;
pub use pass::Pass;
pub use rule::{Acts, Chosen, Law, Stage, Turn, Turned, View};
