//! What no clause says of links, clocks, addresses and signs: that calls succeed, and what they answer. There are tests alone,
//! and they stand above those crates.
#![tactic(auto)]

#[cfg(test)]
mod addresses;
#[cfg(test)]
mod asserts;
#[cfg(test)]
mod links;
#[cfg(test)]
mod metering;
#[cfg(test)]
mod signs;
#[cfg(test)]
mod told;
