//! Worked values of the standards for the crates of one format or one rule each: octets and what they are read as,
//! values and what they are written as, keys and codes. There are tests alone, and they stand above those crates, so
//! that no crate is proved a second time for them.
#![tactic(auto)]

#[cfg(test)]
mod aes;
#[cfg(test)]
mod counter_mode;
#[cfg(test)]
mod deadlines;
#[cfg(test)]
mod extensions;
#[cfg(test)]
mod fields;
#[cfg(test)]
mod gre;
#[cfg(test)]
mod keepalives;
#[cfg(test)]
mod keys;
#[cfg(test)]
mod lines;
#[cfg(test)]
mod nacks;
#[cfg(test)]
mod nulls;
#[cfg(test)]
mod numbers;
#[cfg(test)]
mod round_trips;
#[cfg(test)]
mod rtcp;
#[cfg(test)]
mod rtp;
#[cfg(test)]
mod udp;
