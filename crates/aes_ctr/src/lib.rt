//! Counter mode over the cipher of `aes_block` (NIST SP 800-38A, section 6.5).
#![tactic(auto)]

ghost use Rattle.std.specs.Prelude.{◌≡◌, [], ◌∷◌, take};
ghost use Rattle.std.specs.Int.{w128, to_be_bytes};
ghost use Rattle.aes_ctr.specs.Ctr.{ctr};
ghost use Rattle.aes_ctr.specs.Inside.Blocks.{AreFrom};

mod counter;
mod sums;

use crate::counter::counter_block;
use crate::sums::{GROUP_LEN, add_group, add_rest};
use aes_block::{Aes, Prefix};
use std::simd::prelude::*;

/// Enciphers a text of any length in place, or deciphers it, from a first counter block. Each next
/// block adds one to the block's number, modulo 2^128, and the last block's keystream is cut.
pub fn apply(aes: &Aes, first: [u8; 16], text: &mut [u8])
    ensures text { text.new ≡ ctr aes.now first text.old }
{
    let mut counter = u128::from_be_bytes(first);
    let mut prefix = aes.prefix(counter_block(counter, 0));
    let mut offset = 0;
    'groups: while text.len() - offset >= GROUP_LEN {
        add_group(text, offset, output_blocks(aes, &prefix, counter));
        counter = counter.wrapping_add(4);
        offset += GROUP_LEN;
        if counter % 256 < 4 {
            prefix = aes.prefix(counter_block(counter, 0));
        }
    }
    let rest = text.len() - offset;
    if rest > 0 {
        add_rest(text, offset, rest, output_blocks(aes, &prefix, counter));
    }
}

// The four output blocks from a counter on, whose row the prefix is of: blocks of a row differ in the last octet alone.
#[inline(always)]
fn output_blocks(aes: &Aes, prefix: &Prefix, counter: u128) -> (u8x16, u8x16, u8x16, u8x16)
    requires key { prefix.now.key ≡ aes.now }
    requires row { prefix.now.octets ≡ take 15 (to_be_bytes w128 counter) }
    ensures { AreFrom aes.now counter (result.0 ∷ result.1 ∷ result.2 ∷ result.3 ∷ []) }
{
    let last = (counter % 256) as u8;
    if last < 253 {
        aes.encrypt_row(prefix, last)
    } else {
        blocks_of_two_rows(aes, counter)
    }
}

// The same where they are not of one row.
fn blocks_of_two_rows(aes: &Aes, counter: u128) -> (u8x16, u8x16, u8x16, u8x16)
    ensures { AreFrom aes.now counter (result.0 ∷ result.1 ∷ result.2 ∷ result.3 ∷ []) }
{
    let first = counter_block(counter, 0);
    let second = counter_block(counter, 1);
    let third = counter_block(counter, 2);
    let fourth = counter_block(counter, 3);
    aes.encrypt_four((first, second, third, fourth))
}
