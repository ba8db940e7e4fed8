//! The words of a step's requests, in memory of a fixed size.
ghost use Rattle.std.specs.Prelude.{◌≡◌, ◌≤◌, [], length};

use request_rules::{AskWord, MAX_WORDS};
use std::marker::Model;

/// The words by which a step asked, at most 64. A contract sees their list.
#[derive(Drop)]
pub struct AskedWords {
    words: [AskWord; MAX_WORDS],
    count: usize,
}

impl Model for AskedWords {
    ghost use Rattle.std.specs.Prelude.{◌≤◌, List, take};
    ghost use Rattle.request_rules.specs.declared.asked.TheConstants.{MAX_WORDS};
    ghost use Rattle.request_rules.specs.declared.word.AskWord.{AskWord};

    ghost Value = { List AskWord };

    ghost view = { λ w. take w.count w.words };

    ghost invariant = { λ w. w.count ≤ MAX_WORDS };
}

impl AskedWords {
    /// No words.
    pub fn none() -> AskedWords
        ensures value { result ≡ [] }
    {
        AskedWords::of(&[])
    }

    /// These words.
    pub fn of(words: &[AskWord]) -> AskedWords
        requires few { length words.now ≤ MAX_WORDS }
        ensures value { result ≡ words.now }
    {
        let mut block = [AskWord {
            first: 0,
            second: 0,
        }; MAX_WORDS];
        block[..words.len()].copy_from_slice(words);
        AskedWords {
            words: block,
            count: words.len(),
        }
    }

    /// The words.
    pub fn words(&self) -> &[AskWord]
        ensures value { result.now ≡ self.now }
    {
        &self.words[..self.count]
    }

    /// The same words once more.
    pub fn copy(&self) -> AskedWords
        ensures value { result ≡ self.now }
    {
        AskedWords {
            words: self.words,
            count: self.count,
        }
    }
}

impl PartialEq for AskedWords {
    ghost use Rattle.std.specs.Prelude.{nat_eq};
    ghost use Rattle.std.specs.Cmp.Lexicographic.{pointwise};
    ghost use Rattle.std.specs.Cmp.Rules.{comparing};
    ghost use Rattle.std.specs.Ordering.{on, eq_of_both};
    ghost use Rattle.std.proofs.Common.{rules};

    ghost eq = { pointwise (eq_of_both (on (λ w. w.first) nat_eq) (on (λ w. w.second) nat_eq)) };

    ghost laws = { Prim.search (comparing, rules) };

    fn eq(&self, other: &AskedWords) -> bool {
        self.words() == other.words()
    }
}

impl Eq for AskedWords {
    ghost use Rattle.std.specs.Cmp.Rules.{comparing};
    ghost use Rattle.std.proofs.Common.{rules};

    ghost laws = { Prim.search (comparing, rules) };
}
