//! Where the words of a command line name a file with a passphrase, and whether a variable stands for one.
ghost use Rattle.std.specs.Prelude.{◌≡◌, ◌<◌, ◌≤◌, true, IfOk, IfSome, drop, length, map, option_map, string_bytes};
ghost use Rattle.pass_words.specs.Options.{IsWithin, asks_help, file_from, file_word_of, gives_pass, has_option, is_of_command, is_option, is_value};
ghost use Rattle.pass_words.specs.Options.{pass_count, pass_file_of, pass_word_of, place_of, shown_place, split_at_equals};
ghost use Rattle.pass_words.specs.Options.{takes_variable, value_of};

use std::fmt::{self, Display, Formatter, Write};

/// The word behind which each has its meaning by its place.
const LAST_OPTION: &str = "--";

/// The option by which a passphrase is given.
#[derive(Clone, Copy, Debug, PartialEq, Eq)]
pub enum PassOption {
    /// `--pass`, and `--pass-file` for a file.
    Own,
    /// `--in-pass`, and `--in-pass-file`: of the links that a gateway receives on.
    Incoming,
}

/// A file that words name.
#[derive(Clone, Copy, Debug, PartialEq, Eq)]
pub struct PassFile<'a> {
    /// The file's name, which isn't empty.
    pub name: &'a str,
    /// The index of the option among the words.
    pub at: usize,
    /// Whether the name is a word of its own, behind the option.
    pub is_apart: bool,
}

/// Why words name no file.
#[derive(Clone, Copy, Debug, PartialEq, Eq)]
pub enum PassFault {
    /// A passphrase is given twice: by the option and by a file, or by two files.
    Twice(PassOption),
    /// No name stands behind the option of a file.
    NoName(PassOption),
}

impl Display for PassFault {
    ghost use Rattle.std.specs.Prelude.{Some};
    ghost use Rattle.pass_words.specs.Text.{pass_fault_text};

    ghost output = { λ fault. Some (pass_fault_text fault) };

    fn fmt<W: Write>(&self, f: &mut Formatter<W>) -> fmt::Result {
        f.write_str(match self {
            PassFault::Twice(PassOption::Own) => "--pass, --pass-file: one of them, once",
            PassFault::Twice(PassOption::Incoming) =>
                "--in-pass, --in-pass-file: one of them, once",
            PassFault::NoName(PassOption::Own) => "--pass-file: the name of a file is missing",
            PassFault::NoName(PassOption::Incoming) =>
                "--in-pass-file: the name of a file is missing",
        })
    }
}

/// The option that stands before a passphrase.
pub(crate) fn pass_word(option: PassOption) -> &'static str
    ensures { result.now ≡ pass_word_of option }
{
    match option {
        PassOption::Own => "--pass",
        PassOption::Incoming => "--in-pass",
    }
}

/// The option that stands before the name of a file with one.
fn file_word(option: PassOption) -> &'static str
    ensures { result.now ≡ file_word_of option }
{
    match option {
        PassOption::Own => "--pass-file",
        PassOption::Incoming => "--in-pass-file",
    }
}

/// Whether a command has the option of a passphrase.
fn has_option(option: PassOption, command: &str) -> bool
    ensures { result ≡ has_option option command.now }
{
    match option {
        PassOption::Own => {
            command == "replay"
                || command == "show"
                || command == "count"
                || command == "report"
                || command == "pack"
                || command == "split"
                || command == "send"
                || command == "recv"
                || command == "fan"
                || command == "gate"
        }
        PassOption::Incoming => command == "gate",
    }
}

/// Whether the words' command has the option of a passphrase.
fn is_of_command(option: PassOption, words: &[String]) -> bool
    ensures value { result ≡ is_of_command option (map string_bytes words.now) }
    ensures within { result ≡ true → 2 ≤ length words.now }
{
    match words {
        [_, command, ..] => has_option(option, command.as_str()),
        _ => false,
    }
}

/// The file that the words name, the program's name first, if their command has the option and they do.
pub fn pass_file<'a>(
    option: PassOption,
    words: &'a [String],
) -> Result<Option<PassFile<'a>>, PassFault>
    ensures value { shown_place result ≡ pass_file_of option (map string_bytes words.entry.now) }
    ensures within { IfOk result (λ found. IfSome found (λ file.
        IsWithin file.at file.is_apart (length words.entry.now))) }
{
    if !is_of_command(option, words) {
        return Ok(None);
    }
    let Some(at) = file_at(option, words) else {
        return Ok(None);
    };
    if pass_count(option, words) != 1 {
        return Err(PassFault::Twice(option));
    }
    file_in(option, words, at)
}

/// The file that is named by the option at an index.
fn file_in<'a>(
    option: PassOption,
    words: &'a [String],
    at: usize,
) -> Result<Option<PassFile<'a>>, PassFault>
    requires within { at < length words.now }
    ensures value { shown_place result ≡ place_of option at (value_of (map string_bytes (drop at words.entry.now))) }
    ensures within { IfOk result (λ found. IfSome found (λ file.
        IsWithin file.at file.is_apart (length words.entry.now))) }
{
    match value_in(&words[at..]) {
        Some((name, is_apart)) => Ok(Some(PassFile { name, at, is_apart })),
        None => Err(PassFault::NoName(option)),
    }
}

/// The value of the option that stands first, and whether that is a word of its own.
fn value_in<'a>(words: &'a [String]) -> Option<(&'a str, bool)>
    ensures value { option_map (λ v. (v.0.now, v.1)) result ≡ value_of (map string_bytes words.entry.now) }
    ensures within { IfSome result (λ v. IsWithin 0 v.1 (length words.entry.now)) }
{
    let [word, rest @ ..] = words else {
        return None;
    };
    match (split_at_equals(word.as_str()), rest) {
        (Some((_, name)), _) if name.is_empty() => None,
        (Some((_, name)), _) => Some((name, false)),
        (None, [name, ..]) if is_value(name.as_str()) => Some((name.as_str(), true)),
        (None, _) => None,
    }
}

/// Whether a word can be a value: it isn't empty, and begins with no `-` but where it is that alone.
fn is_value(word: &str) -> bool
    ensures { result ≡ is_value word.now }
{
    match word.as_bytes() {
        [] => false,
        [b'-'] => true,
        [b'-', ..] => false,
        _ => true,
    }
}

/// A word's parts before and behind its first `=`.
fn split_at_equals<'a>(word: &'a str) -> Option<(&'a str, &'a str)>
    ensures { option_map (λ s. (s.0.now, s.1.now)) result ≡ split_at_equals word.entry.now }
{
    word.split_once('=')
}

/// Whether a word is this option, alone or with its value behind `=`.
fn is_option(word: &str, option: &str) -> bool
    ensures { result ≡ is_option option.now word.now }
{
    match split_at_equals(word) {
        Some((name, _)) => name == option,
        None => word == option,
    }
}

/// Whether a variable stands for a passphrase: the words' command has the option, and they neither give one nor ask for
/// help.
pub fn takes_variable(words: &[String]) -> bool
    ensures value { result ≡ takes_variable (map string_bytes words.now) }
    ensures within { result ≡ true → 2 ≤ length words.now }
{
    !asks_help(words)
        && is_of_command(PassOption::Own, words)
        && pass_count(PassOption::Own, words) == 0
}

/// Whether the words ask for the help of a command.
fn asks_help(words: &[String]) -> bool
    ensures { result ≡ asks_help (map string_bytes words.now) }
{
    match words {
        [_, _, word] => word.as_str() == "--help",
        _ => false,
    }
}

/// Whether a word is the option before a passphrase or a file's name.
fn gives_pass(option: PassOption, word: &str) -> bool
    ensures { result ≡ gives_pass option word.now }
{
    is_option(word, pass_word(option)) || is_option(word, file_word(option))
}

/// The index of the first option before a file's name.
fn file_at(option: PassOption, words: &[String]) -> Option<usize>
    ensures value { result ≡ file_from option 0 (map string_bytes words.now) }
    ensures within { IfSome result (λ at. at < length words.now) }
{
    let name = file_word(option);
    let mut at = 0;
    for word in words {
        if word.as_str() == LAST_OPTION {
            return None;
        }
        if is_option(word.as_str(), name) {
            return Some(at);
        }
        at += 1;
    }
    None
}

/// How many options there are before a passphrase or a file's name.
fn pass_count(option: PassOption, words: &[String]) -> usize
    ensures { result ≡ pass_count option (map string_bytes words.now) }
{
    let mut count = 0;
    for word in words {
        if word.as_str() == LAST_OPTION {
            return count;
        }
        if gives_pass(option, word.as_str()) {
            count += 1;
        }
    }
    count
}
