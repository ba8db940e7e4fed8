//! A receiver and its sink that threads share in turns. A contract sees the list of all steps that were made, for which no
//! memory is taken, and what each thread added to it.
#![tactic(auto)]

mod aside;
mod desk;
mod ending;
mod parts;
mod shared;
mod shares;
mod steps;

pub use aside::{Aside, NoRoom};
pub use desk::TurnDesk;
pub use ending::tell_end;
pub use parts::Parts;
pub use shared::Shared;
