//! Words with the passphrase itself in place of what names its file.
ghost use Rattle.std.specs.Prelude.{◌≡◌, ◌≤◌, IfOk, string_bytes, length};
ghost use Rattle.std.specs.List.{insert};
ghost use Rattle.pass_words.specs.Options.{IsWithin};
ghost use Rattle.pass_words.specs.Placing.{phrase_word_of, placed};

use crate::options::{PassOption, pass_word};
use outside_io::NoMemory;
use std::alloc::Global;

/// How many words stand before the options of a command: the program's name and the command.
const COMMAND_LEN: usize = 2;

/// The option of a passphrase and the passphrase, as one word.
pub fn phrase_word(alloc: Global, option: PassOption, phrase: &str) -> Result<String, NoMemory>
    ensures { IfOk result (λ word. string_bytes word ≡ phrase_word_of option phrase.now) }
{
    let mut word = String::from_str(alloc, pass_word(option))?;
    word.push('=')?;
    word.push_str(phrase)?;
    Ok(word)
}

/// The words with one word in place of the option at an index, and of its value where that is a word of its own.
pub fn with_word(
    mut words: Vec<String>,
    at: usize,
    is_apart: bool,
    word: String,
) -> Result<Vec<String>, NoMemory>
    requires within { IsWithin at is_apart (length words.items) }
    ensures { IfOk result (λ r. r.items ≡ placed at is_apart word words.items) }
{
    words.remove(at);
    if is_apart {
        words.remove(at);
    }
    match words.insert(at, word) {
        Ok(()) => Ok(words),
        Err(_) => Err(NoMemory),
    }
}

/// The words with one more behind the command.
pub fn with_variable(mut words: Vec<String>, word: String) -> Result<Vec<String>, NoMemory>
    requires within { 2 ≤ length words.items }
    ensures { IfOk result (λ r. r.items ≡ insert words.items 2 word) }
{
    match words.insert(COMMAND_LEN, word) {
        Ok(()) => Ok(words),
        Err(_) => Err(NoMemory),
    }
}
