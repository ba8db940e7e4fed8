//! Which words of a command line are links.
ghost use Rattle.std.specs.Prelude.{◌≡◌, ◌≤◌, IsSome, length, map, string_bytes};
ghost use Rattle.link_words.specs.Positions.{after, ahead_of, is_flag, is_last_option, is_link, is_option, is_position, scan_of, wants_value, written_from};

use crate::forms::is_written;
use crate::texts::split_at;

/// The word behind which each has its meaning by its place.
const LAST_OPTION: &str = "--";

/// What is known of a word before it is read.
#[derive(Clone, Copy, Debug, PartialEq, Eq)]
pub struct Scan {
    /// How many positions stand before the links, from here on.
    pub ahead: usize,
    /// Whether the word is the value of the option before it.
    pub is_value: bool,
    /// Whether `--` came before.
    pub is_ended: bool,
}

impl Scan {
    /// Whether the word is a link.
    pub fn is_link(self, word: &str) -> bool
        ensures { result ≡ is_link self word.now }
    {
        self.is_position(word) && self.ahead == 0
    }

    /// Whether it is given by its place.
    fn is_position(self, word: &str) -> bool
        ensures { result ≡ is_position self word.now }
    {
        !self.is_value && (self.is_ended || !is_option(word))
    }

    /// What is known of the word behind this one.
    pub fn after(self, word: &str) -> Scan
        ensures { result ≡ after self word.now }
    {
        if self.is_position(word) {
            return Scan {
                ahead: self.ahead.saturating_sub(1),
                ..self
            };
        }
        if self.is_value {
            return Scan {
                is_value: false,
                ..self
            };
        }
        Scan {
            ahead: self.ahead,
            is_value: wants_value(word),
            is_ended: is_last_option(word),
        }
    }
}

/// Whether a word begins with `-`, and isn't that alone.
fn is_option(word: &str) -> bool
    ensures { result ≡ is_option word.now }
{
    match word.as_bytes() {
        [first, _, ..] => *first == b'-',
        _ => false,
    }
}

fn is_last_option(word: &str) -> bool
    ensures { result ≡ is_last_option word.now }
{
    word == LAST_OPTION
}

/// Whether a word is an option that stands for itself.
fn is_flag(word: &str) -> bool
    ensures { result ≡ is_flag word.now }
{
    word == "--nulls"
        || word == "--wide"
        || word == "--full"
        || word == "--echo"
        || word == "--listen"
        || word == "--drift"
        || word == "--call"
        || word == "--in-full"
        || word == "--help"
}

/// Whether the value of an option is the word behind it.
fn wants_value(word: &str) -> bool
    ensures { result ≡ wants_value word.now }
{
    !is_last_option(word) && !is_flag(word) && split_at(word, '=').is_none()
}

/// How many positions of a command stand before its links.
fn ahead_of(command: &str) -> Option<usize>
    ensures { result ≡ ahead_of command.now }
{
    if command == "gate" {
        return Some(0);
    }
    if command == "send" || command == "recv" || command == "fan" {
        return Some(1);
    }
    None
}

/// What is known of the third word, behind the command's name, where the command has links.
pub fn scan_of(words: &[String]) -> Option<Scan>
    ensures value { result ≡ scan_of (map string_bytes words.now) }
    ensures within { IsSome result → 2 ≤ length words.now }
{
    match words {
        [_, command, ..] => match ahead_of(command.as_str()) {
            Some(ahead) => Some(Scan {
                ahead,
                is_value: false,
                is_ended: false,
            }),
            None => None,
        },
        _ => None,
    }
}

/// Whether one of the words behind the command's name is a link with a name or a URL.
pub fn has_written(scan: Scan, words: &[String]) -> bool
    ensures { result ≡ written_from scan (map string_bytes words.now) }
{
    let mut at = scan;
    for word in words {
        if at.is_link(word.as_str()) && is_written(word.as_str()) {
            return true;
        }
        at = at.after(word.as_str());
    }
    false
}
