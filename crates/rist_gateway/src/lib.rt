//! The gateway: what a receiver plays out goes on over other links, payload by payload, as it is released. A contract
//! sees what the sending end did, deed by deed, and what each of its links was given.
#![tactic(auto)]

mod cuts;
mod either_worker;
mod ending;
mod found;
mod handed;
mod in_turns;
pub mod laws;
mod lending;
mod look;
mod memory;
mod onward;
mod origin;
mod receiving;
mod receiving_end;
mod run;
mod shares_beside;
mod side_worker;
mod sides;
mod threads;

pub use either_worker::EitherWorker;
pub use ending::GateEnding;
pub use memory::{GateMemory, make, make_in_turns};
pub use onward::Onward;
pub use origin::OnwardOrigin;
pub use receiving_end::{KeptEnd, ReceivingEnd};
pub use run::{Gated, gate_on};
pub use shares_beside::SharesBeside;
pub use side_worker::{SideEnded, SideWorker};
pub use threads::gate;
