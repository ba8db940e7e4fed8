//! HMAC over SHA-256 (RFC 2104, section 2).

ghost use Rattle.std.specs.Prelude.{◌≡◌, ◌≤◌, ℕ, List, ◌++◌, length};
ghost use Rattle.psk_keys.specs.Hmac.{block_key, filled_block, hmac, padded_key};

use sha2::{Digest, Sha256};

/// The octets of a block of the hash function.
const BLOCK_LEN: usize = 64;

const INNER_PAD: u8 = 0x36;

const OUTER_PAD: u8 = 0x5c;

/// The keyed hash of a text, in 32 octets (RFC 2104, section 2).
pub fn hmac(key: &[u8], text: &[u8]) -> [u8; 32]
    ensures code { result ≡ hmac key.now text.now }
{
    Mac::of(key).code(text)
}

// A key that both hashers have taken in, so that it is hashed once for any number of texts.
#[derive(Drop)]
pub(crate) struct Mac {
    pub(crate) inner: Sha256,
    pub(crate) outer: Sha256,
}

impl Mac {
    ghost use Rattle.psk_keys.specs.Inside.Keyed.{IsKeyed};

    pub(crate) fn of(key: &[u8]) -> Mac
        ensures { IsKeyed result key.now }
    {
        let block = block_key(key);
        Mac {
            inner: Sha256::new_with_prefix(padded(block, INNER_PAD).as_slice()),
            outer: Sha256::new_with_prefix(padded(block, OUTER_PAD).as_slice()),
        }
    }

    pub(crate) fn code(&self, text: &[u8]) -> [u8; 32]
        ensures { (key : List ℕ) → IsKeyed self.now key → result ≡ hmac key text.now }
    {
        self.code_of_parts(text, &[])
    }

    // The code of a text in two parts.
    pub(crate) fn code_of_parts(&self, front: &[u8], back: &[u8]) -> [u8; 32]
        ensures { (key : List ℕ) → IsKeyed self.now key
            → result ≡ hmac key (front.now ++ back.now) }
    {
        let mut inner = copy_of(&self.inner);
        inner.update(front);
        inner.update(back);
        let mut outer = copy_of(&self.outer);
        outer.update(inner.finalize().as_slice());
        outer.finalize()
    }
}

// A copy of a hasher, which takes no memory.
fn copy_of(hasher: &Sha256) -> Sha256
    ensures { result ≡ hasher.now }
{
    match hasher.clone() {
        Ok(copy) => copy,
        Err(_) => unreachable!(),
    }
}

// The key as a block: a longer one is hashed first.
fn block_key(key: &[u8]) -> [u8; BLOCK_LEN]
    ensures { result ≡ block_key key.now }
{
    if key.len() > BLOCK_LEN {
        filled(&Sha256::digest(key))
    } else {
        filled(key)
    }
}

fn filled(octets: &[u8]) -> [u8; BLOCK_LEN]
    requires { length octets.now ≤ BLOCK_LEN }
    ensures { result ≡ filled_block octets.now }
{
    let mut block = [0; BLOCK_LEN];
    block[..octets.len()].copy_from_slice(octets);
    block
}

fn padded(mut block: [u8; BLOCK_LEN], pad: u8) -> [u8; BLOCK_LEN]
    ensures { result ≡ padded_key pad block }
{
    for octet in block.iter_mut() {
        *octet ^= pad;
    }
    block
}
