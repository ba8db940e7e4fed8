//! The keys of a session by nonce, the four that were used last cached.

ghost use Rattle.std.specs.Prelude.{◌≡◌, ◌≤◌, ◌<◌, ◌/◌, [], length, take, slice_index, IfOk};
ghost use Rattle.std.specs.Int.{w32, to_be_bytes, from_be_bytes};
ghost use Rattle.aes_block.specs.Cipher.{key_octets};
ghost use Rattle.psk_keys.specs.Keys.{IsKeyLength, KeysState, key_of, after_use};

use crate::cached::{
    CACHED_KEYS, Cached, Places, empty_places, filled_places, place_of, promote, put_latest,
};
use crate::{Phrase, pbkdf2};
use aes_block::{Aes, Key};
use outside_io::NoMemory;
use std::alloc::Global;
use std::marker::Model;

/// The rounds of a derivation (this profile).
const ROUND_COUNT: u32 = 1024;

// The front of some octets as a key of so many bits.
fn key_from(octets: [u8; 32], bits: u16) -> Key
    requires bits { IsKeyLength bits }
    ensures key { key_octets result ≡ take (bits / 8) octets }
{
    if bits == 256 {
        return Key::Long(octets);
    }
    let mut front = [0; 16];
    front.copy_from_slice(&octets[..16]);
    Key::Short(front)
}

/// The key of a nonce, derived anew by PBKDF2 (RFC 8018, section 5.2): the nonce is the salt, with 1,024 rounds (this
/// profile).
#[tactic(auto, unfolding(crate::specs::Keys::key_of))]
pub fn derived_key(pass: &[u8], bits: u16, nonce: [u8; 4]) -> Key
    requires bits { IsKeyLength bits }
    ensures key { key_octets result ≡ key_of pass.now bits nonce }
{
    key_from(pbkdf2(pass, &nonce, ROUND_COUNT), bits)
}

// A nonce as a number.
fn number_of(nonce: [u8; 4]) -> u32
    ensures value { result ≡ from_be_bytes w32 nonce }
    ensures spelled { to_be_bytes w32 result ≡ nonce }
{
    u32::from_be_bytes(nonce)
}

/// The keys that a passphrase gives for nonces. A derivation is dear, so the four keys that were used last are cached,
/// each with its round keys, in memory that is taken once. A contract sees the passphrase, the bits of a key, and the
/// nonces of the cached keys, the latest first.
#[derive(Drop)]
pub struct Keys {
    phrase: Phrase,
    bits: u16,
    places: Places,
}

impl Model for Keys {
    ghost use Rattle.psk_keys.specs.Keys.{IsKeyLength, KeysState};
    ghost use Rattle.psk_keys.specs.Inside.Cached.{AreKept, nonces_of};

    ghost Value = { KeysState };

    ghost view = { λ k. record { phrase = k.phrase; bits = k.bits; cached = nonces_of k.places.entries } };

    ghost invariant = { λ k. AreKept k.phrase k.bits k.places.entries × IsKeyLength k.bits };
}

impl Keys {
    /// Keys of 128 or 256 bits. This alone takes memory.
    pub fn with(alloc: Global, phrase: Phrase, bits: u16) -> Result<Keys, NoMemory>
        requires bits { IsKeyLength bits }
        ensures value { IfOk result (λ keys. keys ≡ record { phrase = phrase; bits = bits; cached = [] }) }
    {
        Ok(Keys {
            phrase,
            bits,
            places: empty_places(alloc)?,
        })
    }

    /// Makes the key of a nonce the latest: a cached one comes to the front, and another is derived, for which the last
    /// of four makes room.
    pub fn turn_to(&mut self, nonce: [u8; 4])
        ensures used { self.new ≡ after_use (from_be_bytes w32 nonce) self.old }
        ensures some { 0 < length self.new.cached }
    {
        let number = number_of(nonce);
        prove!(self.places.len() == CACHED_KEYS);
        match place_of(&self.places, number) {
            Some(place) => promote(&mut self.places, place),
            None => {
                let cipher = Aes::new(&derived_key(self.phrase.octets(), self.bits, nonce));
                put_latest(
                    &mut self.places,
                    Cached {
                        nonce: number,
                        cipher,
                    },
                );
            }
        }
    }

    /// The latest key with its round keys.
    pub fn latest(&self) -> &Aes
        requires some { 0 < length self.now.cached }
        ensures key { result.now
            ≡ key_of self.now.phrase self.now.bits (to_be_bytes w32 (slice_index self.now.cached 0)) }
    {
        match self.places.peek_mru() {
            Some((_, Some(latest))) => &latest.cipher,
            Some((_, None)) => unreachable!(),
            None => unreachable!(),
        }
    }

    /// The key of a nonce, which becomes the latest.
    pub fn key_for(&mut self, nonce: [u8; 4]) -> Key
        ensures value { key_octets result ≡ key_of self.old.phrase self.old.bits nonce }
        ensures used { self.new ≡ after_use (from_be_bytes w32 nonce) self.old }
    {
        self.turn_to(nonce);
        self.latest().key()
    }

    /// How many keys are cached.
    pub fn cached(&self) -> usize
        ensures value { result ≡ length self.now.cached }
        ensures within { length self.now.cached ≤ CACHED_KEYS }
    {
        filled_places(&self.places)
    }
}
