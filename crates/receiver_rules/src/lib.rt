//! The receiver's rules, as definitions over the list of all steps: numbers and deadlines, which packets are
//! kept, the verdict on each arrival, and what is released. Beside them the small functions that every body of
//! the rules needs.
#![tactic(auto)]

mod anchor;
mod arrival;
mod bounds;
pub mod clock;
pub mod laws;
mod limits;
pub mod place;
mod tick;
mod verdict;

pub use anchor::{Anchor, Highest};
pub use arrival::Arrival;
pub use bounds::{DRIFT_STEP, DRIFT_WINDOW, MAX_DELAY, MAX_RESTART, MAX_SPAN};
pub use clock::Clock;
pub use limits::Limits;
pub use tick::tick_of;
pub use verdict::Verdict;
