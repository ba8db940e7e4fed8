//! A link that tells from time to time what came on it and what went, and when it came up or went quiet, and the first link of a
//! run the figures of the receiver. To whoever reads and writes it, it is the link behind.
#![tactic(auto)]

mod line;
mod meter;
mod metered;
mod outputs;
mod receiver;
mod teller;

pub use line::link_line;
pub use meter::{Event, LinkTotals, Meter, Telling};
pub use metered::Metered;
pub use outputs::LineOutput;
pub use receiver::receiver_line;
pub use teller::{Lines, Teller};
