//! A source that shows how far it was read, each tenth of a second once a second has passed. To whoever reads it, it is
//! the source behind.
#![tactic(auto)]

mod extent;
mod meter;
mod outlet;
mod progress;
#[cfg(test)]
mod tests;

pub use extent::Extent;
pub use meter::{Change, Meter};
pub use outlet::{Lines, Outlet};
pub use progress::{Progress, Showing};
