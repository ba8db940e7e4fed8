//! What the definitions of an extension's spelling and of its reading mean.
ghost use Rattle.std.specs.Prelude.{◌≡◌, ◌%◌, ◌/◌, ◌-◌, ◌^◌, ◌<◌, ℕ, List, Option, Some, Ok, IfSome, length};
ghost use Rattle.ts_nulls.specs.Shape.{Shape};
ghost use Rattle.ts_nulls.specs.Nulls.{stripping_of};
ghost use Rattle.rist_ext.specs.declared.ext_word.ExtWord.{ExtWord};
ghost use Rattle.rist_ext.specs.Extension.{Spells};
ghost use Rattle.rist_ext.specs.Reading.{reading_of};
ghost use Rattle.rist_ext.specs.Counted.{counted_reading_of, uncounted, uncounted_last};

use crate::ext_word::RIST_PROFILE;

/// Octets spell one word at most.
pub fn one_word_is_spelled()
    ensures { (v w : ExtWord) (octets : List ℕ) → Spells v octets → Spells w octets → v ≡ w }
{}

/// A word that is spelled is read.
pub fn what_is_spelled_is_read()
    ensures { (word : ExtWord) (octets : List ℕ) → Spells word octets → reading_of RIST_PROFILE octets ≡ Ok word }
{}

/// A word that is read in this profile's own tunnel is read alike where packets are counted, whatever is left of the payload.
pub fn a_size_is_taken_as_it_is()
    ensures { (left profile : ℕ) (octets : List ℕ) (word : ExtWord) → reading_of profile octets ≡ Ok word
        → counted_reading_of left profile octets ≡ Ok word }
{}

/// The null packets that were deleted from a payload are known without the count of its packets: by the bits from the first
/// place on, and by those of the last places, unless they could be the former.
pub fn a_size_can_be_left_out()
    ensures first { (payload kept : List ℕ) (shape : Shape) (upper : Option ℕ)
        → stripping_of payload ≡ Some (shape, kept) → IfSome upper (λ u. u < 2 ^ 16)
        → counted_reading_of (length kept) RIST_PROFILE (uncounted shape upper)
        ≡ Ok (record { strip = Some shape; upper = upper }) }
    ensures last { (payload kept : List ℕ) (shape : Shape) (upper : Option ℕ)
        → stripping_of payload ≡ Some (shape, kept) → IfSome upper (λ u. u < 2 ^ 16)
        → (shape.nulls / 2 ^ (7 - shape.units) % 2 ^ (7 - shape.units) ≡ 0 → ⊥)
        → counted_reading_of (length kept) RIST_PROFILE (uncounted_last shape upper)
        ≡ Ok (record { strip = Some shape; upper = upper }) }
{}

/// The profile word of the extension is 0x5249, "RI" (this profile).
pub fn the_profile_word_is_this()
    ensures { RIST_PROFILE ≡ 21065 }
{}
