//! The texts of addresses and ports, and of how datagrams leave this machine. A contract sees a text as its octets.
#![tactic(auto)]

mod hosts;
mod parts;
mod settings;

pub use hosts::{address_of, place_of};
pub use parts::{behind, first_part, number_in, split_at};
pub use settings::Settings;
