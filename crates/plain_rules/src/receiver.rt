//! Plain, slow programs that answer what the receiver's rules say: they keep every packet, and make each test over all
//! of them. Tests compare the programs that run with them.
mod kept;
mod programs;
mod running;
mod steps;

pub use kept::Kept;
pub use programs::{released, verdicts};
pub use running::{Run, nothing_yet, opens_epoch, take};
pub use steps::{Event, Step};
