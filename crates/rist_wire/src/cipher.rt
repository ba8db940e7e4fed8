//! Keys and counter blocks of enciphered datagrams (this profile).
ghost use Rattle.std.specs.Prelude.{◌≡◌, None};
ghost use Rattle.psk_keys.specs.Keys.{IsKeyLength};
ghost use Rattle.rist_wire.specs.Cipher.{key_by, ciphered, ciphered_under, first_counter_block, key_under, secret_of};

use crate::session::Session;
use aes_block::Aes;
use aes_ctr::apply;
use psk_keys::{Keys, derived_key};

// The key behind a header with this key field, where the session has a passphrase: derived anew.
fn derived_by(session: &Session, nonce: Option<u32>) -> Option<Aes>
    requires bits { IsKeyLength session.now.bits }
    ensures key { result ≡ key_by session.now.pass session.now.bits nonce }
{
    match (&session.pass, nonce) {
        (Some(pass), Some(nonce)) => Some(Aes::new(&derived_key(
            pass.octets(),
            session.bits,
            nonce.to_be_bytes(),
        ))),
        (Some(_), None) => None,
        (None, _) => None,
    }
}

// The first counter block: the sequence number, and twelve zeros.
fn first_counter_block(sequence: u32) -> [u8; 16]
    ensures block { result ≡ first_counter_block sequence }
{
    let [a, b, c, d] = sequence.to_be_bytes();
    [a, b, c, d, 0, 0, 0, 0, 0, 0, 0, 0, 0, 0, 0, 0]
}

#[tactic(auto, unfolding(crate::specs::Cipher::ciphered))]
fn cipher(key: &Aes, sequence: u32, text: &mut [u8])
    ensures text { text.new ≡ ciphered key.now sequence text.old }
{
    apply(key, first_counter_block(sequence), text);
}

/// Enciphers a text in place, or deciphers it, under a key from the block of a sequence number. Without a key it
/// stays as it is.
pub(crate) fn cipher_under(key: &Option<Aes>, sequence: Option<u32>, text: &mut [u8])
    ensures text { text.new ≡ ciphered_under key.now sequence text.old }
{
    if let Some(key) = key {
        cipher(key, sequence.unwrap_or(0), text);
    }
}

/// Deciphers a text in place under the key behind a header with this key field, where keys are kept. The key is cached
/// with its round keys.
pub(crate) fn decipher(
    keys: &mut Option<Keys>,
    nonce: Option<u32>,
    sequence: Option<u32>,
    text: &mut [u8],
)
    ensures text { text.new ≡ ciphered_under (key_under (secret_of keys.old) nonce) sequence text.old }
    ensures same { secret_of keys.new ≡ secret_of keys.old }
{
    let Some(keys) = keys else {
        return;
    };
    if let Some(nonce) = nonce {
        keys.turn_to(nonce.to_be_bytes());
        cipher(keys.latest(), sequence.unwrap_or(0), text);
    }
}

/// The key of the nonce in use: derived anew only where the nonce changes.
#[derive(Drop)]
pub(crate) struct KeyInUse {
    pub(crate) nonce: Option<u32>,
    pub(crate) key: Option<Aes>,
}

impl KeyInUse {
    /// Of no nonce.
    pub(crate) fn none() -> KeyInUse
        ensures nonce { result.nonce ≡ None }
        ensures key { result.key ≡ None }
    {
        KeyInUse {
            nonce: None,
            key: None,
        }
    }

    /// Takes the key of this nonce into use.
    pub(crate) fn turn_to(&mut self, session: &Session, nonce: Option<u32>)
        requires bits { IsKeyLength session.now.bits }
        requires derived { self.old.key ≡ key_by session.now.pass session.now.bits self.old.nonce }
        ensures nonce { self.new.nonce ≡ nonce }
        ensures key { self.new.key ≡ key_by session.now.pass session.now.bits nonce }
    {
        if self.nonce != nonce {
            self.key = derived_by(session, nonce);
            self.nonce = nonce;
        }
    }
}
