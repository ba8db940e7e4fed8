//! The words of a request. A contract sees their list.
ghost use Rattle.std.specs.Prelude.{◌≡◌};
ghost use Rattle.request_rules.specs.Building.{extended, IsAbove};

use crate::policy::NackKind;
use crate::word::AskWord;
use std::marker::Model;

/// How many words one request has at most.
pub const MAX_WORDS: usize = 64;

/// At most 64 words.
#[derive(Debug, Drop)]
pub struct Asked {
    words: [AskWord; 64],
    count: usize,
}

impl Model for Asked {
    ghost use Rattle.std.specs.Prelude.{◌≤◌, ◌≡◌, List, take, length};
    ghost use Rattle.request_rules.specs.declared.word.AskWord.{AskWord};

    ghost Value = { List AskWord };

    ghost view = { λ a. take a.count a.words };

    ghost invariant = { λ a. (a.count ≤ 64) × (length a.words ≡ 64) };
}

impl Asked {
    ghost use Rattle.std.specs.Prelude.{[], length, ◌≤◌, nat_lt, nat_eq};
    ghost use Rattle.request_rules.specs.Building.{with_number, with_last, takes, IsAboveLast};

    /// No words.
    pub fn none() -> Asked
        ensures value { result ≡ [] }
    {
        Asked {
            words: [AskWord {
                first: 0,
                second: 0,
            }; 64],
            count: 0,
        }
    }

    /// The words.
    pub fn words(&self) -> &[AskWord]
        ensures value { result.now ≡ self.now }
        ensures within { length result.now ≤ 64 }
    {
        &self.words[..self.count]
    }

    /// Whether there is none.
    pub fn is_empty(&self) -> bool
        ensures value { result ≡ nat_eq (length self.now) 0 }
    {
        self.words().is_empty()
    }

    /// Asks for one more number, which is higher than all before, and says whether there was room for it.
    pub fn add(&mut self, kind: NackKind, number: u64) -> bool
        requires above { IsAboveLast kind self.old number }
        ensures value { self.new ≡ with_number kind 64 self.old number }
        ensures takes { result ≡ takes kind 64 self.old number }
    {
        if self.count == 0 {
            self.words[0] = AskWord {
                first: number,
                second: 0,
            };
            self.count = 1;
            return true;
        }
        match extended(kind, &self.words[self.count - 1], number) {
            Some(longer) => {
                self.words[self.count - 1] = longer;
                true
            }
            None => self.begin(number),
        }
    }

    /// A word of its own, where there is room for it.
    fn begin(&mut self, number: u64) -> bool
        ensures value { self.new ≡ with_last self.old number }
        ensures takes { result ≡ nat_lt (length self.old) 64 }
    {
        if self.count == MAX_WORDS {
            return false;
        }
        self.words[self.count] = AskWord {
            first: number,
            second: 0,
        };
        self.count += 1;
        true
    }
}

/// A word with one more number, where it can name it.
fn extended(kind: NackKind, word: &AskWord, number: u64) -> Option<AskWord>
    requires { IsAbove kind word.now number }
    ensures { result ≡ extended kind word.now number }
{
    match kind {
        NackKind::Range => {
            if number == word.first + word.second as u64 + 1 {
                Some(AskWord {
                    first: word.first,
                    second: word.second + 1,
                })
            } else {
                None
            }
        }
        NackKind::Mask => {
            if number - word.first <= 16 {
                Some(AskWord {
                    first: word.first,
                    second: word.second + (1 << (number - word.first - 1)),
                })
            } else {
                None
            }
        }
    }
}
