//! The nonces and sequence numbers under which datagrams are sealed (this profile; the two fields are those of RFC 2890).
//! A contract sees a sealer's nonces and how many pairs it gave.
#![tactic(auto)]

pub mod laws;
mod nonces;
mod sealer;
#[cfg(test)]
mod tests;

pub use sealer::{EntropyFault, MAX_PAIRS, NONCE_COUNT, Pair, Sealer, Spent};
