//! Worked runs of the crates of one rule each, and of the playout buffer: what a receiver keeps, plays out and asks
//! for, and what a sender stores and on which links it sends. There are tests alone, and they stand above those
//! crates, so that no crate is proved a second time for them.
#![tactic(auto)]

#[cfg(test)]
mod asking;
#[cfg(test)]
mod bonds;
#[cfg(test)]
mod compounds;
#[cfg(test)]
mod receiving;
#[cfg(test)]
mod runs;
#[cfg(test)]
mod stores;
#[cfg(test)]
mod ticks;
#[cfg(test)]
mod words;
