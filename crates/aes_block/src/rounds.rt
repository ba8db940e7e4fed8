//! The rounds on vectors (FIPS 197, section 5.1). Between rounds a vector has the state row by row, so that
//! MixColumns moves whole words.

ghost use Rattle.std.specs.Prelude.{◌≡◌, ℕ, ◌<◌, [], map, slice_index_or};
ghost use Rattle.aes_block.specs.State.{add_round_key, mix_columns, shift_rows, sub_bytes};
ghost use Rattle.aes_block.specs.Inside.Keys.{unprepared};
ghost use Rattle.aes_block.specs.Inside.Mix.{columns_of};
ghost use Rattle.aes_block.specs.Inside.Rounds.{lane_round, octets_of};
ghost use Rattle.aes_block.specs.Inside.Tower.{tower};

use crate::key_schedule::ROUND_KEYS;
use crate::lanes::sum;
use crate::substitution::{SUB_CONSTANT, substituted, substituted_last};
use crate::tower::towered;
use std::simd::prelude::*;

// A state row by row, of one column by column, and the other way round.
#[inline(always)]
fn transposed(v: u8x16) -> u8x16
    ensures { result ≡ columns_of v }
{
    v.swizzle([0, 4, 8, 12, 1, 5, 9, 13, 2, 6, 10, 14, 3, 7, 11, 15])
}

// A round, under a prepared key. ShiftRows comes first, as the S-box is the same at each place. Then each row of the
// sum is twice itself and once the next row, the same of the next row, and once the row before.
#[inline(always)]
pub(crate) fn middle(t: u8x16, key: u8x16) -> u8x16
    ensures lanes { result ≡ columns_of (lane_round (columns_of t) (columns_of key)) }
    ensures octets { octets_of result
        ≡ add_round_key (mix_columns (shift_rows (sub_bytes (octets_of t)))) (unprepared key) }
{
    let shifted = t.swizzle([0, 1, 2, 3, 5, 6, 7, 4, 10, 11, 8, 9, 15, 12, 13, 14]);
    let (once, twice) = substituted(shifted);
    let both = twice ^ once.swizzle([4, 5, 6, 7, 8, 9, 10, 11, 12, 13, 14, 15, 0, 1, 2, 3]);
    both ^ both.swizzle([4, 5, 6, 7, 8, 9, 10, 11, 12, 13, 14, 15, 0, 1, 2, 3])
        ^ once.swizzle([12, 13, 14, 15, 0, 1, 2, 3, 4, 5, 6, 7, 8, 9, 10, 11])
        ^ key
}

// The last round, which gives a state column by column.
#[inline(always)]
pub(crate) fn last(t: u8x16, key: u8x16) -> u8x16
    ensures { result ≡ add_round_key (shift_rows (sub_bytes (octets_of t))) key }
{
    let shifted = t.swizzle([0, 5, 10, 15, 1, 6, 11, 12, 2, 7, 8, 13, 3, 4, 9, 14]);
    substituted_last(shifted) ^ key
}

// The state before the first round, of a block column by column.
#[inline(always)]
pub(crate) fn begun(block: u8x16, key: u8x16) -> u8x16
    ensures lanes { result ≡ columns_of (map tower (add_round_key block key)) }
    ensures octets { octets_of result ≡ add_round_key block key }
{
    transposed(towered(sum(block, key)))
}

// A round key as `middle` takes it.
#[inline(always)]
fn prepared_key(key: u8x16) -> u8x16
    ensures { unprepared result ≡ key }
{
    transposed(towered(key ^ u8x16::splat(SUB_CONSTANT)))
}

// Round keys as `middle` takes them.
pub(crate) fn prepared(keys: &[[u8; 16]; ROUND_KEYS]) -> [[u8; 16]; ROUND_KEYS]
    ensures { (r : ℕ) → r < ROUND_KEYS → unprepared (slice_index_or result r []) ≡ slice_index_or keys.now r [] }
{
    let mut all = [[0; 16]; ROUND_KEYS];
    for round in 0..ROUND_KEYS {
        let key = u8x16::from_array(keys[round]);
        all[round] = prepared_key(key).to_array();
    }
    all
}
