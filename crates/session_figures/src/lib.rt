//! The figures of a session, over the steps that its records are: how many packets were sent, received first time,
//! recovered, never written and late, what came on each link, how often the flow restarted, how full the buffer was
//! and how its clock moved, in all and over time; how jitter and round-trip times are spread. A contract sees the
//! history of the steps.
#![tactic(auto)]

mod amounts;
mod counter;
mod figures;
mod jitter;
pub mod laws;
mod playout;
mod stepping;
mod table;
mod trips;

pub use amounts::{Amounts, Passed};
pub use counter::Counter;
pub use figures::Figures;
pub use jitter::Jitter;
pub use playout::{Playout, Standing};
pub use table::Table;
