//! The cipher (FIPS 197, section 5.1).

ghost use Rattle.std.specs.Prelude.{◌≡◌, ◌+◌, ◌<◌, ◌++◌, [], ◌∷◌, take};
ghost use Rattle.aes_block.specs.Cipher.{cipher, key_octets};
ghost use Rattle.aes_block.specs.Inside.Rounds.{Comes};

use crate::key::Key;
use crate::key_schedule::{ROUND_KEYS, expanded, round_keys};
use crate::prefix::Prefix;
use crate::rounds::{begun, last, middle, prepared};
use std::marker::Model;
use std::simd::prelude::*;

/// A key with its round keys, ready to encipher blocks. A contract sees the octets of the key.
#[derive(Drop)]
pub struct Aes {
    key: Key,
    plain: [[u8; 16]; ROUND_KEYS],
    prepared: [[u8; 16]; ROUND_KEYS],
}

impl Model for Aes {
    ghost use Rattle.std.specs.Prelude.{ℕ, List};
    ghost use Rattle.aes_block.specs.Cipher.{key_octets};
    ghost use Rattle.aes_block.specs.Inside.Keys.{AreRoundKeys};

    ghost Value = { List ℕ };

    ghost view = { λ a. key_octets a.key };

    ghost invariant = { λ a. AreRoundKeys (key_octets a.key) a.plain a.prepared };
}

impl Aes {
    /// Expands a key into its round keys (FIPS 197, section 5.2).
    pub fn new(key: &Key) -> Aes
        ensures key { result ≡ key_octets key.now }
    {
        let plain = round_keys(&expanded(key.octets()));
        Aes {
            key: *key,
            prepared: prepared(&plain),
            plain,
        }
    }

    /// The key.
    pub fn key(&self) -> Key
        ensures key { key_octets result ≡ self.now }
    {
        self.key
    }

    /// Enciphers a block in place (FIPS 197, section 5.1).
    pub fn encrypt(&self, block: &mut [u8; 16])
        ensures block { block.new ≡ cipher self.now block.old }
    {
        let rounds = self.key.rounds();
        let mut state = begun(u8x16::from_array(*block), u8x16::from_array(self.plain[0]));
        for round in 1..rounds {
            state = middle(state, u8x16::from_array(self.prepared[round]));
        }
        *block = last(state, u8x16::from_array(self.plain[rounds])).to_array();
    }

    /// Enciphers four blocks side by side, so that none waits for another.
    #[inline(always)]
    pub fn encrypt_four(&self, blocks: (u8x16, u8x16, u8x16, u8x16)) -> (u8x16, u8x16, u8x16, u8x16)
        ensures first { result.0 ≡ cipher self.now blocks.0 }
        ensures second { result.1 ≡ cipher self.now blocks.1 }
        ensures third { result.2 ≡ cipher self.now blocks.2 }
        ensures fourth { result.3 ≡ cipher self.now blocks.3 }
    {
        let key = u8x16::from_array(self.plain[0]);
        let a = begun(blocks.0, key);
        let b = begun(blocks.1, key);
        let c = begun(blocks.2, key);
        let d = begun(blocks.3, key);
        self.finished((a, b, c, d), 0)
    }

    /// What the blocks that begin as this one does, but for its last octet, share of the first two rounds.
    pub fn prefix(&self, block: u8x16) -> Prefix
        ensures key { result.key ≡ self.now }
        ensures octets { result.octets ≡ take 15 block }
    {
        let zeroth = u8x16::from_array(self.plain[0]);
        let first = u8x16::from_array(self.prepared[1]);
        let second = u8x16::from_array(self.prepared[2]);
        Prefix::of(self.key, zeroth, first, second, block)
    }

    /// Enciphers four blocks of a row side by side: those with this last octet and the next three.
    #[inline(always)]
    pub fn encrypt_row(&self, prefix: &Prefix, last: u8) -> (u8x16, u8x16, u8x16, u8x16)
        requires key { prefix.now.key ≡ self.now }
        requires within { last + 3 < 256 }
        ensures first { result.0 ≡ cipher self.now (prefix.now.octets ++ last ∷ []) }
        ensures second { result.1 ≡ cipher self.now (prefix.now.octets ++ (last + 1) ∷ []) }
        ensures third { result.2 ≡ cipher self.now (prefix.now.octets ++ (last + 2) ∷ []) }
        ensures fourth { result.3 ≡ cipher self.now (prefix.now.octets ++ (last + 3) ∷ []) }
    {
        self.finished(prefix.states(last), 2)
    }

    // The blocks that come of four states after so many rounds.
    #[inline(always)]
    fn finished(
        &self,
        states: (u8x16, u8x16, u8x16, u8x16),
        done: usize,
    ) -> (u8x16, u8x16, u8x16, u8x16)
        requires few { done < 10 }
        ensures first { Comes self.now done states.0 result.0 }
        ensures second { Comes self.now done states.1 result.1 }
        ensures third { Comes self.now done states.2 result.2 }
        ensures fourth { Comes self.now done states.3 result.3 }
    {
        let rounds = self.key.rounds();
        let (mut a, mut b, mut c, mut d) = states;
        for round in done + 1..rounds {
            let key = u8x16::from_array(self.prepared[round]);
            a = middle(a, key);
            b = middle(b, key);
            c = middle(c, key);
            d = middle(d, key);
        }
        let key = u8x16::from_array(self.plain[rounds]);
        (last(a, key), last(b, key), last(c, key), last(d, key))
    }
}
