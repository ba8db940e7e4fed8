//! The exclusive or of a text with output blocks.

ghost use Rattle.std.specs.Prelude.{◌≡◌, ℕ, ◌+◌, ◌<◌, ◌≤◌, [], ◌∷◌, length, slice_index, bit_xor};
ghost use Rattle.aes_ctr.specs.Inside.Sums.{IsAdded, StaysBefore, StaysAfter};

use std::simd::prelude::*;

// Four counter blocks are enciphered at a time: none waits for another.
pub(crate) const GROUP_LEN: usize = 64;

// Adds a vector to the 16 octets from an offset on.
#[inline(always)]
fn add_block(text: &mut [u8], offset: usize, block: u8x16)
    requires within { offset + 16 ≤ length text.old }
    ensures block { (k : ℕ) → k < 16 → slice_index text.new (offset + k)
        ≡ bit_xor (slice_index text.old (offset + k)) (slice_index block k) }
    ensures before { StaysBefore text.old text.new offset }
    ensures after { StaysAfter text.old text.new (offset + 16) }
{
    let sum = u8x16::from_slice(&text[offset..]) ^ block;
    sum.copy_to_slice(&mut text[offset..]);
}

// Adds four blocks to the 64 octets from an offset on.
#[inline(always)]
pub(crate) fn add_group(text: &mut [u8], offset: usize, blocks: (u8x16, u8x16, u8x16, u8x16))
    requires within { offset + GROUP_LEN ≤ length text.old }
    ensures group { IsAdded text.old text.new (blocks.0 ∷ blocks.1 ∷ blocks.2 ∷ blocks.3 ∷ []) offset 64 }
    ensures before { StaysBefore text.old text.new offset }
    ensures after { StaysAfter text.old text.new (offset + GROUP_LEN) }
{
    add_block(text, offset, blocks.0);
    add_block(text, offset + 16, blocks.1);
    add_block(text, offset + 32, blocks.2);
    add_block(text, offset + 48, blocks.3);
}

// Adds the front of four blocks to `count` octets from an offset on.
fn add_front(text: &mut [u8], offset: usize, count: usize, blocks: &[[u8; 16]; 4])
    requires fits { count ≤ GROUP_LEN }
    requires within { offset + count ≤ length text.old }
    ensures group { IsAdded text.old text.new blocks.now offset count }
    ensures before { StaysBefore text.old text.new offset }
    ensures after { StaysAfter text.old text.new (offset + count) }
{
    for place in 0..count {
        text[offset + place] ^= blocks[place / 16][place % 16];
    }
}

// The same of four vectors.
pub(crate) fn add_rest(
    text: &mut [u8],
    offset: usize,
    count: usize,
    blocks: (u8x16, u8x16, u8x16, u8x16),
)
    requires fits { count ≤ GROUP_LEN }
    requires within { offset + count ≤ length text.old }
    ensures group { IsAdded text.old text.new (blocks.0 ∷ blocks.1 ∷ blocks.2 ∷ blocks.3 ∷ []) offset count }
    ensures before { StaysBefore text.old text.new offset }
    ensures after { StaysAfter text.old text.new (offset + count) }
{
    let (a, b, c, d) = blocks;
    let octets = [a.to_array(), b.to_array(), c.to_array(), d.to_array()];
    add_front(text, offset, count, &octets);
}
