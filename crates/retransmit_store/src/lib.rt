//! The packets that a sender stores for retransmission: the last ones that it sent, each with the tick at which it
//! was last sent again. A contract sees them as a list, the newest first (`StoreState`), and what a history of
//! sendings leaves of it (`IsStoreAfter`).
#![tactic(auto)]

mod sent;
mod store;

pub use sent::Sent;
pub use store::Store;
