//! Vectors of 16 lanes, each lane an octet.

ghost use Rattle.std.specs.Prelude.{◌≡◌, ◌/◌, true, map, bit_and, bit_xor};
ghost use Rattle.std.specs.Simd.Lanes.{zip2, Each1};
ghost use Rattle.aes_block.specs.Inside.Tables.{is_index, read};

use std::simd::prelude::*;

// The low half of each lane.
#[inline(always)]
pub(crate) fn low(v: u8x16) -> u8x16
    ensures { result ≡ map (λ x. bit_and x 15) v }
{
    v & u8x16::splat(15)
}

// The high half of each lane.
#[inline(always)]
pub(crate) fn high(v: u8x16) -> u8x16
    ensures { result ≡ map (λ x. x / 16) v }
{
    v >> u8x16::splat(4)
}

#[inline(always)]
pub(crate) fn sum(a: u8x16, b: u8x16) -> u8x16
    ensures { result ≡ zip2 bit_xor a b }
{
    a ^ b
}

// The entry of a table at each lane, 0 at a lane of 128 or more.
#[inline(always)]
pub(crate) fn look_up(table: [u8; 16], indexes: u8x16) -> u8x16
    requires { Each1 (λ i. is_index i ≡ true) indexes }
    ensures { result ≡ map (read table) indexes }
{
    u8x16::from_array(table).swizzle_dyn(indexes)
}
