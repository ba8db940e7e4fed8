//! Link bonding: which links a media packet goes on. A contract sees a bond as its number of links, or their
//! weights (`Bonding`).
#![tactic(auto)]

mod bond;
mod plan;
mod weights;

pub use bond::Bond;
pub use plan::Plan;
