//! What all commands share: how one ended, what the objects of a host tell, the session of a line and its sealer. A
//! contract sees what the host's objects tell before and after.
#![tactic(auto)]

mod sealing;
mod sessions;
mod status;
mod telling;
mod watching;

pub use sealing::sealer_for;
pub use sessions::session_of;
pub use status::Status;
pub use telling::Telling;
pub use watching::watch;
