//! Words of the key schedule, with the first octet highest.

ghost use Rattle.std.specs.Prelude.{◌≡◌, ◌+◌, ◌≤◌, length, take, drop, map};
ghost use Rattle.aes_block.specs.Field.{sub_byte};
ghost use Rattle.aes_block.specs.Inside.Words.{word_octets};

use crate::substitution::substituted_last;
use crate::tower::towered;
use std::simd::prelude::*;

// The word whose octets stand from an offset on.
pub(crate) fn word_from(octets: &[u8], offset: usize) -> u32
    requires { offset + 4 ≤ length octets.now }
    ensures { word_octets result ≡ take 4 (drop offset octets.now) }
{
    u32::from_be_bytes([
        octets[offset],
        octets[offset + 1],
        octets[offset + 2],
        octets[offset + 3],
    ])
}

// The S-box at each lane.
fn substituted(v: u8x16) -> u8x16
    ensures { result ≡ map sub_byte v }
{
    substituted_last(towered(v))
}

// Four octets through the S-box.
pub(crate) fn substitute(octets: [u8; 4]) -> [u8; 4]
    ensures { result ≡ map sub_byte octets }
{
    let [a, b, c, d] = octets;
    let lanes = u8x16::from_array([a, b, c, d, 0, 0, 0, 0, 0, 0, 0, 0, 0, 0, 0, 0]);
    let [e, f, g, h, ..] = substituted(lanes).to_array();
    [e, f, g, h]
}
