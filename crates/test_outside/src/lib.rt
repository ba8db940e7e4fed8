//! What no clause says of the outside as a host hands it out, and of streams over UDP: that calls succeed, and what files,
//! streams, links and datagrams give. There are tests alone, and they stand above those crates.
#![tactic(auto)]

#[cfg(test)]
mod asserts;
#[cfg(test)]
mod datagrams;
#[cfg(test)]
mod filling;
#[cfg(test)]
mod heard;
#[cfg(test)]
mod hosts;
#[cfg(test)]
mod opening;
#[cfg(test)]
mod sinks;
