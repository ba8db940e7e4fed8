//! The key schedule (FIPS 197, section 5.2), in words with the first octet highest.

ghost use Rattle.std.specs.Prelude.{◌≡◌, ◌+◌, ◌*◌, ◌/◌, ◌%◌, ◌<◌, ◌≤◌, ℕ, [], ◌∷◌, slice_index_or, length, take, map, bit_xor, slice_index};
ghost use Rattle.std.specs.Simd.Lanes.{zip2};
ghost use Rattle.aes_block.specs.Schedule.{power_of_x, rot_word, step_word, sub_word, words_of};
ghost use Rattle.aes_block.specs.Cipher.{expanded_key, round_count, round_key};
ghost use Rattle.aes_block.specs.Inside.Words.{word_octets};

use crate::words::{substitute, word_from};

/// How many round keys the longest schedule has: one for each of 14 rounds, and one before the first.
pub(crate) const ROUND_KEYS: usize = 15;

/// Its words, four a round key.
const SCHEDULE_WORDS: usize = 60;

// The powers of x from the first on (FIPS 197, section 5.2).
static ROUND_CONSTANTS: [u8; 10] = [0x01, 0x02, 0x04, 0x08, 0x10, 0x20, 0x40, 0x80, 0x1b, 0x36];

fn constant_at(table: &[u8; 10], index: usize) -> u8
    requires { index < 10 }
    ensures { result ≡ slice_index table.now index }
{
    table[index]
}

fn round_constant(place: usize) -> u8
    requires { place < 10 }
    ensures { result ≡ power_of_x place }
{
    constant_at(&ROUND_CONSTANTS, place)
}

// A word through the S-box.
fn substituted(word: u32) -> u32
    ensures { word_octets result ≡ sub_word (word_octets word) }
{
    u32::from_be_bytes(substitute(word.to_be_bytes()))
}

// A word moved one octet to the left and through the S-box, with a constant added to its first octet.
fn turned(word: u32, constant: u8) -> u32
    ensures { word_octets result
        ≡ zip2 bit_xor (sub_word (rot_word (word_octets word))) (constant ∷ 0 ∷ 0 ∷ 0 ∷ []) }
{
    let [a, b, c, d] = word.to_be_bytes();
    let [e, f, g, h] = substitute([b, c, d, a]);
    u32::from_be_bytes([e ^ constant, f, g, h])
}

// What is added to the word a key's length before word `place`, from the word before it.
fn step(key_words: usize, place: usize, before: u32) -> u32
    requires least { 4 ≤ key_words }
    requires within { key_words ≤ place }
    requires place { place < 4 * (key_words + 7) }
    ensures { word_octets result ≡ step_word key_words place (word_octets before) }
{
    if place % key_words == 0 {
        turned(before, round_constant(place / key_words - 1))
    } else if key_words > 6 && place % key_words == 4 {
        substituted(before)
    } else {
        before
    }
}

// The words of a key, and zeros.
fn loaded(key: &[u8]) -> [u32; SCHEDULE_WORDS]
    requires { length key.now ≤ 32 }
    ensures { map word_octets (take (length key.now / 4) result) ≡ words_of key.now }
{
    let mut words = [0; SCHEDULE_WORDS];
    for place in 0..key.len() / 4 {
        words[place] = word_from(key, 4 * place);
    }
    words
}

// The schedule of a key, and zeros.
pub(crate) fn expanded(key: &[u8]) -> [u32; SCHEDULE_WORDS]
    requires least { 16 ≤ length key.now }
    requires most { length key.now ≤ 32 }
    ensures { map word_octets (take (4 * (round_count key.now + 1)) result) ≡ expanded_key key.now }
{
    let key_words = key.len() / 4;
    let mut words = loaded(key);
    for place in key_words..4 * (key_words + 7) {
        words[place] = words[place - key_words] ^ step(key_words, place, words[place - 1]);
    }
    words
}

// A round key of a schedule.
fn key_at(words: &[u32; SCHEDULE_WORDS], round: usize) -> [u8; 16]
    requires { round < ROUND_KEYS }
    ensures { result ≡ round_key (map word_octets words.now) round }
{
    let first = 4 * round;
    let [a0, a1, a2, a3] = words[first].to_be_bytes();
    let [b0, b1, b2, b3] = words[first + 1].to_be_bytes();
    let [c0, c1, c2, c3] = words[first + 2].to_be_bytes();
    let [d0, d1, d2, d3] = words[first + 3].to_be_bytes();
    [
        a0, a1, a2, a3, b0, b1, b2, b3, c0, c1, c2, c3, d0, d1, d2, d3,
    ]
}

/// The round keys of a schedule.
pub(crate) fn round_keys(words: &[u32; SCHEDULE_WORDS]) -> [[u8; 16]; ROUND_KEYS]
    ensures { (r : ℕ) → r < ROUND_KEYS
        → slice_index_or result r [] ≡ round_key (map word_octets words.now) r }
{
    let mut keys = [[0; 16]; ROUND_KEYS];
    for round in 0..ROUND_KEYS {
        keys[round] = key_at(words, round);
    }
    keys
}
