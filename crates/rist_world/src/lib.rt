//! A sender and a receiver over a simulated network, and the run of a script over them. A contract sees the course of
//! the run: what the sender did, the receiver's steps, and the datagrams on the way (`IsWorldAfter`).
#![tactic(auto)]

mod counts;
mod made;
mod made_run;
mod marks;
mod mover;
mod running;
mod summary;
mod tally;
mod wire;
mod world;
mod written;

pub use made::Made;
pub use made_run::drill_made;
pub use mover::{Listed, Mover};
pub use running::{Report, drill};
pub use summary::{SUMMARY_LEN, put_summary};
pub use world::World;
pub use world_rules::Move;
