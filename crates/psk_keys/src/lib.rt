//! Keys from a passphrase: HMAC (RFC 2104, section 2) and PBKDF2 (RFC 8018, section 5.2) over SHA-256, and a session's
//! keys by nonce (this profile).
#![tactic(auto)]

mod cached;
mod derivation;
mod keys;
pub mod laws;
mod mac;
mod phrase;

pub use cached::CACHED_KEYS;
pub use derivation::pbkdf2;
pub use keys::{Keys, derived_key};
pub use mac::hmac;
pub use phrase::{MAX_PHRASE_LEN, Phrase};
