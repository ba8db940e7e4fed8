//! The words of a number.
ghost use Rattle.std.specs.Prelude.{◌≡◌, ◌+◌};
ghost use Rattle.made_script.specs.Words.{generator_at, word_of};

use outside_io::{Entropy, Failed};
use rand_chacha::ChaCha8Rng;
use rand_core::SeedableRng;
use rand_core::utils::NextWord;
use std::marker::Model;

/// The generator of a number: its key is the number's eight octets, the highest first, and then 24 octets of one value.
pub fn generator(number: u64, filling: u8) -> ChaCha8Rng
    ensures value { result ≡ generator_at number filling 0 }
{
    let mut key = [filling; 32];
    key[..8].copy_from_slice(&number.to_be_bytes());
    ChaCha8Rng::from_seed(key)
}

/// The next word of a generator.
pub(crate) fn next_word(words: &mut ChaCha8Rng) -> u32
    ensures value { (number filling place : _) → words.old ≡ generator_at number filling place
        → result ≡ word_of number filling place }
    ensures next { (number filling place : _) → words.old ≡ generator_at number filling place
        → words.new ≡ generator_at number filling (place + 1) }
{
    words.next_word()
}

/// The next so many words of a number as a source of random words, which fails behind the last of them.
#[derive(Drop)]
pub struct Drawn {
    number: u64,
    filling: u8,
    words: ChaCha8Rng,
    at: u64,
    left: u64,
    faults: u64,
}

impl Model for Drawn {
    ghost use Rattle.std.specs.Prelude.{◌≡◌, ◌≤◌, ◌<◌, ◌+◌, ◌^◌};
    ghost use Rattle.made_script.specs.Words.{DrawnState, generator_at};

    ghost Value = { DrawnState };

    ghost view = { λ d. record { number = d.number; filling = d.filling; at = d.at; left = d.left; faults = d.faults } };

    ghost invariant = { λ d. (d.words ≡ generator_at d.number d.filling d.at) × (d.at + d.left < 2 ^ 64) × (0 < d.faults → d.left ≡ 0) };
}

impl Drawn {
    ghost use Rattle.std.specs.Prelude.{◌≡◌};

    /// So many words of a number, from the first one on.
    pub fn with(number: u64, filling: u8, left: u64) -> Drawn
        ensures value { result ≡ record { number = number; filling = filling; at = 0; left = left; faults = 0 } }
    {
        Drawn {
            number,
            filling,
            words: generator(number, filling),
            at: 0,
            left,
            faults: 0,
        }
    }
}

impl Entropy for Drawn {
    ghost use Rattle.std.specs.Prelude.{Some};
    ghost use Rattle.made_script.specs.Words.{words_left};

    ghost remaining = { λ drawn. Some (words_left drawn) };

    ghost faults = { λ drawn. drawn.faults };

    fn word(&mut self) -> Result<u32, Failed> {
        if self.left == 0 {
            self.faults = self.faults.saturating_add(1);
            return Err(Failed);
        }
        self.at += 1;
        self.left -= 1;
        Ok(next_word(&mut self.words))
    }
}
