//! Receivers of several flows, each with a sink of its own, that threads share in turns. A contract sees the one history of
//! all rows that were made, for which no memory is taken, what each place saw of it, and what each thread added to it.
#![tactic(auto)]

mod desk;
mod ending;
mod fan_step;
mod figures;
mod flows;
pub mod laws;
mod origin;
mod row_end;
mod sending;
mod shared;
mod steps;
mod told;
mod tunnel_desk;

pub use desk::FanDesk;
pub use ending::tell_end;
pub use fan_step::FanStep;
pub use origin::FanOrigin;
pub use shared::SharedFan;
pub use told::FanTold;
pub use tunnel_desk::{RowPass, TunnelDesk};
