ghost use Rattle.std.specs.Prelude.{◌≡◌, ◌-◌, ◌%◌, ◌<◌, ◌≤◌, ◌==◌, ◌*◌, [], ◌∷◌, true};
ghost use Rattle.ts_nulls.specs.Shape.{IsShape};
ghost use Rattle.rist_ext.specs.Reading.{has_strip, nulls_in, units_in, strip_in, upper_in, reading_of};

use crate::ext_word::{ExtBad, ExtWord, RIST_PROFILE};
use octet_fields::is_set;
use ts_nulls::Strip;

fn kept_bits(units: u8, second: u8) -> u8
    requires { units ≤ 7 }
    ensures { result ≡ nulls_in units second }
{
    let bits = second & 0x7f;
    bits - bits % (1 << (7 - units))
}

// The bits of the packets that were null, without those past the last packet.
fn nulls_in(units: u8, second: u8) -> u8
    requires some { 1 ≤ units }
    requires few { units ≤ 7 }
    ensures value { result ≡ nulls_in units second }
    ensures shape { IsShape units result }
{
    kept_bits(units, second)
}

/// What was deleted, by the first two octets, where they say of how many packets.
pub(crate) fn strip_in(first: u8, second: u8) -> Option<Strip>
    requires { has_strip first ≡ true → 0 < units_in first }
    ensures { result ≡ strip_in first second }
{
    if !is_set(u16::from(first), 7) {
        return None;
    }
    let units = (first >> 3) & 7;
    let nulls = nulls_in(units, second);
    Some(Strip {
        units,
        long: is_set(u16::from(second), 7),
        nulls,
    })
}

/// The upper half of the number, where the first octet says that it is there.
pub(crate) fn upper_in(first: u8, high: u8, low: u8) -> Option<u16>
    ensures { result ≡ upper_in first (high ∷ low ∷ []) }
{
    if is_set(u16::from(first), 6) {
        Some(u16::from_be_bytes([high, low]))
    } else {
        None
    }
}

#[tactic(auto, using(std::proofs::lemmas::Bool::Decides::nat_tests), unfolding(crate::specs::Reading::reading_of))]
fn value_of(profile: u16, words: &[u8]) -> Result<ExtWord, ExtBad>
    ensures value { result ≡ reading_of profile words.now }
{
    if profile != RIST_PROFILE {
        return Err(ExtBad::Profile);
    }
    let [first, second, high, low] = words else {
        return Err(ExtBad::Length);
    };
    if is_set(u16::from(*first), 7) && (*first >> 3) & 7 == 0 {
        return Err(ExtBad::Size);
    }
    Ok(ExtWord {
        strip: strip_in(*first, *second),
        upper: upper_in(*first, *high, *low),
    })
}

impl ExtWord {
    ghost use Rattle.std.specs.Prelude.{IfOk, Ok};
    ghost use Rattle.rist_ext.specs.declared.ext_word.ExtWord.{ExtWord};
    ghost use Rattle.rist_ext.specs.Extension.{Spells};

    /// Reads an extension: its profile word, and the octets of its words. The reserved bits, and those that
    /// the flags leave unused, aren't read.
    pub fn read(profile: u16, words: &[u8]) -> Result<ExtWord, ExtBad>
        // The word, or the first test that fails.
        ensures value { result ≡ reading_of profile words.now }

        // What is read is a word that the octets spell.
        ensures found { IfOk result (λ word. Spells word words.now) }

        // A word that is spelled is read.
        ensures only { (word : ExtWord) → profile ≡ RIST_PROFILE → Spells word words.now → result ≡ Ok word }
    {
        value_of(profile, words)
    }
}
