//! The Advanced Encryption Standard (FIPS 197): blocks of 16 octets enciphered under a key of 128 or 256 bits, on vectors
//! of 16 lanes, with no look-up in memory by an index that depends on the key or the text.
#![tactic(auto)]

mod cipher;
mod key;
mod key_schedule;
mod lanes;
mod prefix;
mod rounds;
mod substitution;
mod tower;
mod words;

pub use cipher::Aes;
pub use key::Key;
pub use prefix::Prefix;
