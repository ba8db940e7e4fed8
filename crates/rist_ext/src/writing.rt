ghost use Rattle.std.specs.Prelude.{◌≡◌, ◌^◌, ◌<◌, Ok, IfSome};
ghost use Rattle.rist_ext.specs.Extension.{first_octet, second_octet, upper_of, nothing_unread};
ghost use Rattle.ts_nulls.specs.Shape.{IsShape};

use crate::ext_word::{ExtWord, RIST_PROFILE};

// The first two octets: the flags and the size, then the nulls.
fn halves(word: &ExtWord) -> (u8, u8)
    ensures first { result.0 ≡ first_octet word.now nothing_unread }
    ensures second { result.1 ≡ second_octet word.now.strip 0 }
    ensures fits { IfSome word.now.strip (λ shape. IsShape shape.units shape.nulls) }
{
    let wide = 0x40 * u8::from(word.upper.is_some());
    match word.strip {
        Some(strip) => (
            0x80 + wide + 8 * strip.units,
            0x80 * u8::from(strip.long) + strip.nulls,
        ),
        None => (wide, 0),
    }
}

fn upper_of(word: &ExtWord) -> u16
    ensures value { result ≡ upper_of word.now.upper 0 }
    ensures fits { IfSome word.now.upper (λ upper. upper < 2 ^ 16) }
{
    match word.upper {
        Some(upper) => upper,
        None => 0,
    }
}

impl ExtWord {
    ghost use Rattle.rist_ext.specs.Extension.{spelling, nothing_unread};
    ghost use Rattle.rist_ext.specs.Reading.{reading_of};

    /// Writes the word, with everything 0 that isn't read.
    pub fn write(&self) -> [u8; 4]
        ensures octets { result ≡ spelling self.now nothing_unread }

        // What is written is read back.
        ensures read_back { reading_of RIST_PROFILE result ≡ Ok self.now }
    {
        let (first, second) = halves(self);
        let [high, low] = upper_of(self).to_be_bytes();
        [first, second, high, low]
    }
}
