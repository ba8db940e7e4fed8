//! Counter blocks (NIST SP 800-38A, appendix B.1).

ghost use Rattle.std.specs.Prelude.{◌≡◌, ◌+◌, ◌%◌, ◌^◌};
ghost use Rattle.std.specs.Int.{w128, to_be_bytes};

use std::simd::prelude::*;

// A number's octets, the highest first.
#[inline(always)]
fn octets_of(number: u128) -> u8x16
    ensures { result ≡ to_be_bytes w128 number }
{
    let low = (number % 0x1_0000_0000_0000_0000) as u64;
    let high = (number / 0x1_0000_0000_0000_0000) as u64;
    u64x2::from_array([low, high])
        .to_le_bytes()
        .swizzle([15, 14, 13, 12, 11, 10, 9, 8, 7, 6, 5, 4, 3, 2, 1, 0])
}

// The counter block so many places after a counter.
#[inline(always)]
pub(crate) fn counter_block(counter: u128, places: u128) -> u8x16
    ensures { result ≡ to_be_bytes w128 ((counter + places) % 2 ^ 128) }
{
    octets_of(counter.wrapping_add(places))
}
