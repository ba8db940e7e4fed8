//! The receiving end of a flow, as pure steps. A receiver is told the items of datagrams, ticks of its clock and the
//! end, each on a link and at a moment, and writes what is played out. A contract sees the history of its steps.
#![tactic(auto)]

mod counts;
mod fill;
mod items;
mod numbers;
mod outcome;
mod receiver;
mod reporting;
mod settings;
mod stepping;
mod told;

pub use counts::Counts;
pub use items::what_of;
pub use numbers::{Numbers, missing_now, sent_now};
pub use outcome::{Answer, Outcome};
pub use receiver::Receiver;
pub use rist_reporter::{Out, Outs};
pub use settings::Settings;
pub use told::{Told, What};
