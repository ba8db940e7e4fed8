//! The first two rounds of the blocks of a row, which begin with the same 15 octets. The last octet comes to one column
//! in the first round, and each octet of this column to one column of its own in the second (FIPS 197, sections 5.1.2
//! and 5.1.3).

ghost use Rattle.std.specs.Prelude.{◌≡◌, ◌+◌, ◌++◌, ◌<◌, [], ◌∷◌, take};
ghost use Rattle.aes_block.specs.Cipher.{expanded_key, key_octets, round_key, state_after};
ghost use Rattle.aes_block.specs.Inside.Keys.{unprepared};
ghost use Rattle.aes_block.specs.Inside.Rounds.{octets_of};

use crate::key::Key;
use crate::rounds::{begun, middle};
use crate::substitution::substituted;
use crate::tower::towered;
use std::marker::Model;
use std::simd::prelude::*;

/// What the blocks that begin with the same 15 octets share of the first two rounds under a key. A contract sees the
/// octets of the key, and these 15.
#[derive(Drop)]
pub struct Prefix {
    key: Key,
    block: u8x16,
    start: u8x16,
    first: u8x16,
    second: u8x16,
}

impl Model for Prefix {
    ghost use Rattle.std.specs.Prelude.{take};
    ghost use Rattle.aes_block.specs.Cipher.{key_octets};
    ghost use Rattle.aes_block.specs.Inside.Rows.{IsPrefix};
    ghost use Rattle.aes_block.specs.Row.{Row};

    ghost Value = { Row };

    ghost view = { λ p. record { key = key_octets p.key; octets = take 15 p.block } };

    ghost invariant = { λ p. IsPrefix (key_octets p.key) p.block p.start p.first p.second };
}

impl Prefix {
    // What the blocks share that begin as this one, from the first three round keys.
    pub(crate) fn of(key: Key, zeroth: u8x16, first: u8x16, second: u8x16, block: u8x16) -> Prefix
        requires zeroth { zeroth ≡ round_key (expanded_key (key_octets key)) 0 }
        requires first { unprepared first ≡ round_key (expanded_key (key_octets key)) 1 }
        requires second { unprepared second ≡ round_key (expanded_key (key_octets key)) 2 }
        ensures key { result.key ≡ key_octets key }
        ensures octets { result.octets ≡ take 15 block }
    {
        let zero = u8x16::splat(0);
        let state = begun(block, zeroth);
        let but_last = state.shuffle(zero, [0, 1, 2, 3, 4, 5, 6, 7, 8, 9, 10, 11, 12, 13, 14, 16]);
        let once = middle(but_last, first);
        let but_column = once.shuffle(
            zero,
            [16, 1, 2, 3, 16, 5, 6, 7, 16, 9, 10, 11, 16, 13, 14, 15],
        );
        Prefix {
            key,
            block,
            start: zeroth.swizzle([
                15, 15, 15, 15, 15, 15, 15, 15, 15, 15, 15, 15, 15, 15, 15, 15,
            ]),
            first: once.swizzle([0, 4, 8, 12, 0, 4, 8, 12, 0, 4, 8, 12, 0, 4, 8, 12]),
            second: middle(but_column, second),
        }
    }

    // The states after two rounds of the blocks with this last octet and the next three. One vector has the last octet
    // of each block at four lanes, and then its first column.
    #[inline(always)]
    pub(crate) fn states(&self, last: u8) -> (u8x16, u8x16, u8x16, u8x16)
        requires within { last + 3 < 256 }
        ensures first { octets_of result.0
            ≡ state_after (expanded_key self.now.key) 2 (self.now.octets ++ last ∷ []) }
        ensures second { octets_of result.1
            ≡ state_after (expanded_key self.now.key) 2 (self.now.octets ++ (last + 1) ∷ []) }
        ensures third { octets_of result.2
            ≡ state_after (expanded_key self.now.key) 2 (self.now.octets ++ (last + 2) ∷ []) }
        ensures fourth { octets_of result.3
            ≡ state_after (expanded_key self.now.key) 2 (self.now.octets ++ (last + 3) ∷ []) }
    {
        let zero = u8x16::splat(0);
        let places = u8x16::from_array([0, 0, 0, 0, 1, 1, 1, 1, 2, 2, 2, 2, 3, 3, 3, 3]);
        let lasts = u8x16::splat(last) + places;
        let (once, twice) = substituted(towered(lasts ^ self.start));
        let columns = self.first
            ^ once.shuffle(
                zero,
                [0, 1, 2, 16, 4, 5, 6, 16, 8, 9, 10, 16, 12, 13, 14, 16],
            )
            ^ twice.shuffle(
                zero,
                [16, 16, 2, 3, 16, 16, 6, 7, 16, 16, 10, 11, 16, 16, 14, 15],
            );
        let (once, twice) = substituted(columns);
        let a = self.second
            ^ once.shuffle(zero, [16, 3, 2, 1, 0, 3, 2, 16, 0, 3, 16, 1, 0, 16, 2, 1])
            ^ twice.shuffle(
                zero,
                [0, 16, 16, 1, 16, 16, 2, 1, 16, 3, 2, 16, 0, 3, 16, 16],
            );
        let b = self.second
            ^ once.shuffle(zero, [16, 7, 6, 5, 4, 7, 6, 16, 4, 7, 16, 5, 4, 16, 6, 5])
            ^ twice.shuffle(
                zero,
                [4, 16, 16, 5, 16, 16, 6, 5, 16, 7, 6, 16, 4, 7, 16, 16],
            );
        let c = self.second
            ^ once.shuffle(
                zero,
                [16, 11, 10, 9, 8, 11, 10, 16, 8, 11, 16, 9, 8, 16, 10, 9],
            )
            ^ twice.shuffle(
                zero,
                [8, 16, 16, 9, 16, 16, 10, 9, 16, 11, 10, 16, 8, 11, 16, 16],
            );
        let d = self.second
            ^ once.shuffle(
                zero,
                [
                    16, 15, 14, 13, 12, 15, 14, 16, 12, 15, 16, 13, 12, 16, 14, 13,
                ],
            )
            ^ twice.shuffle(
                zero,
                [
                    12, 16, 16, 13, 16, 16, 14, 13, 16, 15, 14, 16, 12, 15, 16, 16,
                ],
            );
        (a, b, c, d)
    }
}
