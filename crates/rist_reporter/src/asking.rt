//! How many numbers requests ask for.
ghost use Rattle.std.specs.Prelude.{◌≡◌, ◌≤◌, length};
ghost use Rattle.request_rules.specs.Words.{numbers_in};
ghost use Rattle.rist_reporter.specs.Asking.{number_count};

use request_rules::{AskWord, NackKind};

/// How many numbers a word asks for.
fn numbers_of(kind: NackKind, word: &AskWord) -> u64
    ensures value { result ≡ length (numbers_in kind word.now) }
    ensures within { result ≤ 65536 }
{
    let second = word.second;
    match kind {
        NackKind::Range => 1 + u64::from(second),
        NackKind::Mask => 1 + u64::from(second.count_ones()),
    }
}

/// How many numbers at most 64 words ask for.
pub(crate) fn number_count(kind: NackKind, words: &[AskWord]) -> u64
    requires few { length words.now ≤ 64 }
    ensures value { result ≡ number_count kind words.now }
{
    let mut count = 0;
    for word in words.iter() {
        count += numbers_of(kind, word);
    }
    count
}
