//! Octets over the field of 16 elements (Hamburg 2009). Between rounds a state is kept so: `untower` is the octet that a
//! lane stands for.

ghost use Rattle.std.specs.Prelude.{◌≡◌, map};
ghost use Rattle.aes_block.specs.Inside.Tower.{tower, untower};

use crate::lanes::{high, look_up, low, sum};
use std::simd::prelude::*;

// What the low half of an octet is over the field of 16 elements.
const TOWER_LOW: [u8; 16] = [
    0, 112, 42, 90, 152, 232, 178, 194, 8, 120, 34, 82, 144, 224, 186, 202,
];

// What its high half is.
const TOWER_HIGH: [u8; 16] = [
    0, 77, 124, 49, 125, 48, 1, 76, 129, 204, 253, 176, 252, 177, 128, 205,
];

// The lanes over the field of 16 elements.
#[inline(always)]
pub(crate) fn towered(v: u8x16) -> u8x16
    ensures tower { result ≡ map tower v }
    ensures back { map untower result ≡ v }
{
    let v_low = low(v);
    let v_high = high(v);
    let tower_low = look_up(TOWER_LOW, v_low);
    let tower_high = look_up(TOWER_HIGH, v_high);
    sum(tower_low, tower_high)
}
