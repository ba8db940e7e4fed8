//! The S-box on vectors (FIPS 197, section 5.1.1): inverses over the field of 16 elements, and a table for each result.

ghost use Rattle.std.specs.Prelude.{◌≡◌, map};
ghost use Rattle.aes_block.specs.Field.{sub_byte};
ghost use Rattle.aes_block.specs.Inside.Rounds.{once, twice};
ghost use Rattle.aes_block.specs.Inside.Tower.{lower, untower, upper};

use crate::lanes::{high, look_up, low, sum};
use std::simd::prelude::*;

// The constant that the S-box adds.
pub(crate) const SUB_CONSTANT: u8 = 0x63;

// The inverse of each element of the field, and 128 for 0, where the next table reads 0.
const INVERSES: [u8; 16] = [128, 1, 8, 13, 15, 6, 5, 14, 2, 12, 11, 10, 9, 3, 7, 4];

// A fixed element over each.
const QUOTIENTS: [u8; 16] = [128, 7, 11, 15, 6, 10, 4, 1, 9, 8, 5, 2, 12, 14, 13, 3];

// The S-box without its constant, over the field of 16 elements.
const ONCE_UPPER: [u8; 16] = [
    0, 62, 80, 203, 143, 225, 155, 177, 68, 245, 42, 20, 110, 122, 223, 165,
];

const ONCE_LOWER: [u8; 16] = [
    0, 35, 226, 250, 21, 212, 24, 54, 239, 217, 46, 13, 193, 204, 247, 59,
];

// Twice that.
const TWICE_UPPER: [u8; 16] = [
    0, 36, 113, 11, 198, 147, 122, 226, 205, 47, 152, 188, 85, 233, 183, 94,
];

const TWICE_LOWER: [u8; 16] = [
    0, 41, 225, 10, 64, 136, 235, 105, 74, 35, 130, 171, 200, 99, 161, 194,
];

// The S-box without its constant, as octets.
const LAST_UPPER: [u8; 16] = [
    0, 199, 189, 111, 23, 109, 210, 208, 120, 168, 2, 197, 122, 191, 170, 21,
];

const LAST_LOWER: [u8; 16] = [
    0, 106, 187, 95, 165, 116, 228, 207, 250, 53, 43, 65, 209, 144, 30, 142,
];

// Where the two tables of a result are read, for the inverse of each lane.
#[inline(always)]
fn parts(t: u8x16) -> (u8x16, u8x16)
    ensures upper { result.0 ≡ map upper t }
    ensures lower { result.1 ≡ map lower t }
{
    let i = high(t);
    let k = low(t);
    let j = sum(i, k);
    let quotient = look_up(QUOTIENTS, k);
    let inverse_i = look_up(INVERSES, i);
    let inverse_j = look_up(INVERSES, j);
    let by_i = sum(inverse_i, quotient);
    let by_j = sum(inverse_j, quotient);
    let back_i = look_up(INVERSES, by_i);
    let back_j = look_up(INVERSES, by_j);
    (sum(back_i, j), sum(back_j, i))
}

// The S-box at each lane less its constant, and twice that in the field.
#[inline(always)]
pub(crate) fn substituted(t: u8x16) -> (u8x16, u8x16)
    ensures once { result.0 ≡ map once t }
    ensures twice { result.1 ≡ map twice t }
{
    let (u, l) = parts(t);
    let once_upper = look_up(ONCE_UPPER, u);
    let once_lower = look_up(ONCE_LOWER, l);
    let once = sum(once_upper, once_lower);
    let twice_upper = look_up(TWICE_UPPER, u);
    let twice_lower = look_up(TWICE_LOWER, l);
    let twice = sum(twice_upper, twice_lower);
    (once, twice)
}

// The S-box at each lane.
#[inline(always)]
pub(crate) fn substituted_last(t: u8x16) -> u8x16
    ensures { result ≡ map (λ y. sub_byte (untower y)) t }
{
    let (u, l) = parts(t);
    let last_upper = look_up(LAST_UPPER, u);
    let last_lower = look_up(LAST_LOWER, l);
    let last = sum(last_upper, last_lower);
    last ^ u8x16::splat(SUB_CONSTANT)
}
