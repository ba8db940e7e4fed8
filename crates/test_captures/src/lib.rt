//! What no clause says of sources and sinks in memory, of captures, of those of the network and of walks over them: that calls
//! succeed, and what they give. There are tests alone, and they stand above those crates, so that no crate is proved a second
//! time for them.
#![tactic(auto)]

#[cfg(test)]
mod asserts;
#[cfg(test)]
mod blocks;
#[cfg(test)]
mod bytes;
#[cfg(test)]
mod captures;
#[cfg(test)]
mod frames;
#[cfg(test)]
mod pieces;
#[cfg(test)]
mod walks;
