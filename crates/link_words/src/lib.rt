//! The links of a command line that are written by names or by URLs: which words are links, and the words with an address in
//! place of each. A contract sees words, and the addresses of names where a lookup tells them.
#![tactic(auto)]

mod addresses;
mod forms;
mod hosts;
mod lookup;
mod no_link;
mod parameters;
mod positions;
mod resolving;
mod texts;

pub use addresses::{push_links, put_link};
pub use forms::{LinkWord, Written, read_link};
pub use hosts::{is_host, is_name, is_port};
pub use lookup::{Hosts, Lookup, SystemNames};
pub use no_link::NoLink;
pub use parameters::{MAX_PARAMETERS, option_of, push_options};
pub use positions::{Scan, has_written, scan_of};
pub use resolving::with_addresses;

#[cfg(test)]
mod tests;
