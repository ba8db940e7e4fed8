//! Extensions that don't say how many packets there were (librist 0.2).
ghost use Rattle.std.specs.Prelude.{◌≡◌, ◌≤◌, ◌<◌, ◌+◌, ◌/◌, ◌%◌, ◌==◌, ◌∷◌, [], IfSome, count_ones};
ghost use Rattle.std.specs.Int.{bit_at};
ghost use Rattle.ts_nulls.specs.Packets.{packet_len};
ghost use Rattle.ts_nulls.specs.Shape.{IsShape};
ghost use Rattle.rist_ext.specs.Counted.{nulls_by, shape_by, shape_left, word_with, counted_reading_of};

use crate::ext_word::{ExtBad, ExtWord, RIST_PROFILE};
use crate::reading::{strip_in, upper_in};
use octet_fields::is_set;
use ts_nulls::Strip;

// How many octets a packet has (ISO/IEC 13818-1, section 2.4.3.2), or one with sixteen octets behind it.
fn packet_len(long: bool) -> usize
    ensures value { result ≡ packet_len long }
    ensures some { 188 ≤ result }
{
    if long { 204 } else { 188 }
}

// Which of so many packets were null.
fn nulls_by(units: u8, bits: u8) -> Option<u8>
    requires some { 1 ≤ units }
    requires few { units ≤ 7 }
    requires bits { bits < 128 }
    ensures value { result ≡ nulls_by units bits }
    ensures shape { IfSome result (λ nulls. IsShape units nulls) }
{
    if bits % (1 << (7 - units)) == 0 {
        return Some(bits);
    }
    if bits < 1 << units {
        return Some(bits << (7 - units));
    }
    None
}

// The shape of so many packets, where there can be so many.
fn shape_by(long: bool, units: usize, bits: u8) -> Option<Strip>
    requires bits { bits < 128 }
    ensures value { result ≡ shape_by long units bits }
{
    if units == 0 || units > 7 {
        return None;
    }
    let units = units as u8;
    let nulls = nulls_by(units, bits)?;
    Some(Strip { units, long, nulls })
}

// What was deleted from a payload of which so many octets are left.
fn shape_left(long: bool, bits: u8, left: usize) -> Option<Strip>
    requires bits { bits < 128 }
    ensures value { result ≡ shape_left long bits left }
{
    let size = packet_len(long);
    if left % size != 0 {
        return None;
    }
    shape_by(long, left / size + bits.count_ones() as usize, bits)
}

#[tactic(auto, using(std::proofs::lemmas::Bool::Decides::nat_tests), unfolding(crate::specs::Counted::counted_reading_of))]
fn value_of(left: usize, profile: u16, words: &[u8]) -> Result<ExtWord, ExtBad>
    ensures value { result ≡ counted_reading_of left profile words.now }
{
    if profile != RIST_PROFILE {
        return Err(ExtBad::Profile);
    }
    let [first, second, high, low] = words else {
        return Err(ExtBad::Length);
    };
    let upper = upper_in(*first, *high, *low);
    if !is_set(u16::from(*first), 7) || (*first >> 3) & 7 != 0 {
        return Ok(ExtWord {
            strip: strip_in(*first, *second),
            upper,
        });
    }
    let long = is_set(u16::from(*second), 7);
    match shape_left(long, *second & 0x7f, left) {
        Some(shape) => Ok(ExtWord {
            strip: Some(shape),
            upper,
        }),
        None => Err(ExtBad::Size),
    }
}

impl ExtWord {
    /// Reads an extension as `read` does, but for a size of 0 where null packets were deleted: then how many packets there
    /// were follows from the octets that are left of the payload, which have to be whole packets, and from the bits. Its bits
    /// are from the first place on, or, where they can't be so, those of the last places.
    pub fn read_counted(left: usize, profile: u16, words: &[u8]) -> Result<ExtWord, ExtBad>
        // The word, or the first test that fails.
        ensures value { result ≡ counted_reading_of left profile words.now }
    {
        value_of(left, profile, words)
    }
}
