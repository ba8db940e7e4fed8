//! How often each of 16,384 values came, in memory that is taken once, and which of them no more than so many others lie
//! above. A contract sees the list of the values.
#![tactic(auto)]

mod histogram;
mod spread;

pub use histogram::{Histogram, VALUES};
pub use spread::Spread;
