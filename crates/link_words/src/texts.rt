//! Parts of words.
ghost use Rattle.std.specs.Prelude.{◌≡◌, ◌<◌, ◌++◌, ◌∷◌, [], IfErr, OnOk, map, option_map, string_bytes};
ghost use Rattle.link_words.specs.Texts.{split_at};
ghost use Rattle.link_words.specs.Parameters.{first_part};

use crate::no_link::NoLink;

/// The text before the first of a mark, and the text behind it.
pub(crate) fn split_at<'a>(text: &'a str, mark: char) -> Option<(&'a str, &'a str)>
    requires ascii { mark < 128 }
    ensures { option_map (λ s. (s.0.now, s.1.now)) result ≡ split_at mark text.entry.now }
{
    text.split_once(mark)
}

/// The text before the first of a mark, or all of it; and the text behind the mark if there is one.
pub(crate) fn first_part<'a>(text: &'a str, mark: char) -> (&'a str, Option<&'a str>)
    requires ascii { mark < 128 }
    ensures { (result.0.now, option_map (λ more. more.now) result.1) ≡ first_part mark text.entry.now }
{
    match split_at(text, mark) {
        Some((part, more)) => (part, Some(more)),
        None => (text, None),
    }
}

/// Adds a word.
pub(crate) fn push(words: &mut Vec<String>, word: String) -> Result<(), NoLink>
    ensures ok { OnOk result (map string_bytes words.new.items
        ≡ map string_bytes words.old.items ++ string_bytes word ∷ []) }
    ensures memory { IfErr result (λ e. e ≡ NoLink.Memory) }
{
    match words.push(word) {
        Ok(()) => Ok(()),
        Err(_) => Err(NoLink::Memory),
    }
}

/// Adds all of some words.
pub(crate) fn append(words: &mut Vec<String>, mut more: Vec<String>) -> Result<(), NoLink>
    ensures ok { OnOk result (map string_bytes words.new.items
        ≡ map string_bytes words.old.items ++ map string_bytes more.items) }
    ensures memory { IfErr result (λ e. e ≡ NoLink.Memory) }
{
    match words.append(&mut more) {
        Ok(()) => Ok(()),
        Err(_) => Err(NoLink::Memory),
    }
}
