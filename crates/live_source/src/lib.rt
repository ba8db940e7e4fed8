//! A source that says whether a piece is there, so that none has to be waited for, and one that comes in datagrams. A contract sees what it
//! has still to give and what it answers, where it tells them.
#![tactic(auto)]

mod live;
mod memory;
mod pausing;
mod payloads;

pub use live::LiveSource;
pub use pausing::PausingSource;
pub use payloads::PayloadSource;
