//! Whether the system asks the program to end, and a link and a source that come to their end then. A contract sees the answers that
//! a sign has still to give, where it tells them.
#![tactic(auto)]

mod asked_after;
mod process_sign;
mod sign;
mod status;
mod until;
mod until_source;

pub use asked_after::AskedAfter;
pub use process_sign::ProcessSign;
pub use sign::EndSign;
pub use status::is_end_asked;
pub use until::Until;
pub use until_source::UntilSource;
