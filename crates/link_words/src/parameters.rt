//! The options that a URL's parameters stand for.
ghost use Rattle.std.specs.Prelude.{◌≡◌, ◌++◌, ◌∷◌, [], ◌&&◌, not, Ok, Some, IfErr, IfOk, OnOk, map, option_map, string_bytes};
ghost use Rattle.std.specs.List.{list_any};
ghost use Rattle.std.specs.Str.{bytes_eq};
ghost use Rattle.link_words.specs.Addresses.{options_at, options_from};
ghost use Rattle.link_words.specs.Parameters.{IsRefused, in_url, is_of_link, is_receiving, kept_in, mark_behind, option_of, option_word, options_of, parameters_in, receiver_option, session_option, with_kept, with_parameter, with_word};

use crate::forms::{LinkWord, read_link};
use crate::no_link::NoLink;
use crate::positions::Scan;
use crate::texts::{first_part, push};
use std::alloc::Global;

/// The parameters of a URL at most.
pub const MAX_PARAMETERS: usize = 16;

/// The option of a command that a parameter of this name stands for.
pub fn option_of(command: &str, name: &str) -> Option<&'static str>
    ensures { option_map (λ o. o.now) result ≡ option_of command.now name.now }
{
    if is_receiving(command) {
        return receiver_option(name);
    }
    if command == "send" {
        return session_option(name);
    }
    None
}

/// Whether a command receives on all of its links.
fn is_receiving(command: &str) -> bool
    ensures { result ≡ is_receiving command.now }
{
    command == "recv" || command == "fan"
}

fn receiver_option(name: &str) -> Option<&'static str>
    ensures { option_map (λ o. o.now) result ≡ receiver_option name.now }
{
    if name == "buffer" {
        return Some("--delay");
    }
    if name == "reorder-buffer" {
        return Some("--reorder");
    }
    if name == "rtt-min" {
        return Some("--least");
    }
    if name == "max-retries" {
        return Some("--tries");
    }
    session_option(name)
}

fn session_option(name: &str) -> Option<&'static str>
    ensures { option_map (λ o. o.now) result ≡ session_option name.now }
{
    if name == "secret" {
        return Some("--pass");
    }
    if name == "aes-type" {
        return Some("--bits");
    }
    None
}

/// The option with its value that a parameter stands for, as one word. A fault names its URL.
fn option_word(alloc: Global, command: &str, url: &str, text: &str) -> Result<String, NoLink>
    ensures ok { IfOk result (λ word. in_url url.now (option_word command.now text.now) ≡ Ok (string_bytes word)) }
    ensures refused { IfErr result (IsRefused (in_url url.now (option_word command.now text.now))) }
{
    let (name, value) = first_part(text, '=');
    match (option_of(command, name), value) {
        (Some(option), Some(value)) => valued(alloc, option, value),
        _ => Err(NoLink::Parameter(
            String::from_str(alloc, name)?,
            String::from_str(alloc, url)?,
        )),
    }
}

/// An option and its value, as one word.
fn valued(alloc: Global, option: &str, value: &str) -> Result<String, NoLink>
    ensures ok { IfOk result (λ word. string_bytes word ≡ option.now ++ 61 ∷ value.now) }
    ensures memory { IfErr result (λ refused. refused ≡ NoLink.Memory) }
{
    let mut word = String::from_str(alloc, option)?;
    word.push('=')?;
    word.push_str(value)?;
    Ok(word)
}

/// Adds a word, unless it is there.
fn push_word(words: &mut Vec<String>, word: String) -> Result<(), NoLink>
    ensures ok { OnOk result (map string_bytes words.new.items
        ≡ with_word (map string_bytes words.old.items) (string_bytes word)) }
    ensures memory { IfErr result (λ refused. refused ≡ NoLink.Memory) }
{
    if contains(words.as_slice(), word.as_str()) {
        return Ok(());
    }
    push(words, word)
}

fn contains(words: &[String], word: &str) -> bool
    ensures { result ≡ list_any (λ o. bytes_eq o word.now) (map string_bytes words.now) }
{
    for other in words {
        if other.as_str() == word {
            return true;
        }
    }
    false
}

/// Whether a parameter stays with its link.
fn is_of_link(text: &str) -> bool
    ensures { result ≡ is_of_link text.now }
{
    let (name, _) = first_part(text, '=');
    name == "from" || name == "ttl"
}

/// Adds the option that a parameter stands for. One that stays with its link stands for none.
fn push_parameter(
    alloc: Global,
    command: &str,
    url: &str,
    options: &mut Vec<String>,
    text: &str,
) -> Result<(), NoLink>
    ensures ok { OnOk result (with_parameter command.now url.now (map string_bytes options.old.items) text.now
        ≡ Ok (map string_bytes options.new.items)) }
    ensures refused { IfErr result (IsRefused (with_parameter command.now url.now
        (map string_bytes options.old.items) text.now)) }
{
    if is_of_link(text) {
        return Ok(());
    }
    match option_word(alloc, command, url, text) {
        Ok(word) => push_word(options, word),
        Err(refused) => Err(refused),
    }
}

/// Adds the options that a URL's parameters stand for.
fn push_parameters(
    alloc: Global,
    command: &str,
    url: &str,
    options: &mut Vec<String>,
    parameters: Option<&str>,
) -> Result<(), NoLink>
    ensures ok { OnOk result (parameters_in 16 command.now url.now (map string_bytes options.old.items)
        (option_map (λ p. p.now) parameters.entry) ≡ Ok (map string_bytes options.new.items)) }
    ensures refused { IfErr result (IsRefused (parameters_in 16 command.now url.now
        (map string_bytes options.old.items) (option_map (λ p. p.now) parameters.entry))) }
{
    match parameters {
        Some(text) => push_all(alloc, command, url, options, text),
        None => Ok(()),
    }
}

/// Adds the options that the parameters in a text stand for.
fn push_all(
    alloc: Global,
    command: &str,
    url: &str,
    options: &mut Vec<String>,
    text: &str,
) -> Result<(), NoLink>
    ensures ok { OnOk result (parameters_in 16 command.now url.now (map string_bytes options.old.items)
        (Some text.now) ≡ Ok (map string_bytes options.new.items)) }
    ensures refused { IfErr result (IsRefused (parameters_in 16 command.now url.now
        (map string_bytes options.old.items) (Some text.now))) }
{
    let mut rest = text;
    for _ in 0..MAX_PARAMETERS {
        let (parameter, more) = first_part(rest, '&');
        match push_parameter(alloc, command, url, options, parameter) {
            Ok(()) => {}
            Err(refused) => return Err(refused),
        }
        match more {
            Some(next) => rest = next,
            None => return Ok(()),
        }
    }
    Err(NoLink::TooMany(String::from_str(alloc, url)?))
}

/// Adds the options that a link's parameters stand for.
fn push_options_of(
    alloc: Global,
    command: &str,
    options: &mut Vec<String>,
    word: &str,
) -> Result<(), NoLink>
    ensures ok { OnOk result (options_of command.now (map string_bytes options.old.items) word.now
        ≡ Ok (map string_bytes options.new.items)) }
    ensures refused { IfErr result (IsRefused (options_of command.now (map string_bytes options.old.items) word.now)) }
{
    let (url, _) = first_part(word, '?');
    match read_link(word) {
        LinkWord::Plain => Ok(()),
        LinkWord::Faulty => Err(NoLink::NoEndpoint(String::from_str(alloc, url)?)),
        LinkWord::Written(link) => {
            if refuses(command, link.listens) {
                return Err(NoLink::Listens(String::from_str(alloc, url)?));
            }
            push_parameters(alloc, command, url, options, link.parameters)
        }
    }
}

/// Whether an `@`, where there is one, is refused.
fn refuses(command: &str, listens: bool) -> bool
    ensures { result ≡ (listens && not (is_receiving command.now)) }
{
    listens && !is_receiving(command)
}

/// Adds the options that a word's parameters stand for, where it is a link.
fn push_options_at(
    alloc: Global,
    command: &str,
    scan: Scan,
    options: &mut Vec<String>,
    word: &str,
) -> Result<(), NoLink>
    ensures ok { OnOk result (options_at command.now scan (map string_bytes options.old.items) word.now
        ≡ Ok (map string_bytes options.new.items)) }
    ensures refused { IfErr result (IsRefused (options_at command.now scan
        (map string_bytes options.old.items) word.now)) }
{
    if scan.is_link(word) {
        return push_options_of(alloc, command, options, word);
    }
    Ok(())
}

/// Adds the options that the parameters of the links among the words stand for.
#[tactic(auto, using(crate::proofs::LinkLemmas::next_options, crate::proofs::LinkLemmas::bad_options))]
pub fn push_options(
    alloc: Global,
    command: &str,
    scan: Scan,
    words: &[String],
    options: &mut Vec<String>,
) -> Result<(), NoLink>
    ensures ok { OnOk result (options_from command.now scan (map string_bytes options.old.items)
        (map string_bytes words.now) ≡ Ok (map string_bytes options.new.items)) }
    ensures refused { IfErr result (IsRefused (options_from command.now scan (map string_bytes options.old.items)
        (map string_bytes words.now))) }
{
    let mut at = scan;
    for word in words {
        match push_options_at(alloc, command, at, options, word.as_str()) {
            Ok(()) => {}
            Err(refused) => return Err(refused),
        }
        at = at.after(word.as_str());
    }
    Ok(())
}

/// Adds the parameters that stay with a link behind it.
pub(crate) fn push_kept(
    alloc: Global,
    link: &mut String,
    parameters: Option<&str>,
) -> Result<(), NoLink>
    ensures ok { OnOk result (string_bytes link.new
        ≡ string_bytes link.old ++ kept_in 16 [] (option_map (λ p. p.now) parameters.entry)) }
    ensures memory { IfErr result (λ refused. refused ≡ NoLink.Memory) }
{
    let Some(text) = parameters else {
        return Ok(());
    };
    let kept = kept_in(alloc, text)?;
    link.push_str(kept.as_str())?;
    Ok(())
}

/// The parameters in a text that stay with their link.
fn kept_in(alloc: Global, text: &str) -> Result<String, NoLink>
    ensures ok { IfOk result (λ kept. string_bytes kept ≡ kept_in 16 [] (Some text.now)) }
    ensures memory { IfErr result (λ refused. refused ≡ NoLink.Memory) }
{
    let mut kept = String::new(alloc);
    let mut rest = text;
    for _ in 0..MAX_PARAMETERS {
        let (parameter, more) = first_part(rest, '&');
        keep(&mut kept, parameter)?;
        match more {
            Some(next) => rest = next,
            None => return Ok(kept),
        }
    }
    Ok(kept)
}

/// Adds a parameter, where it stays with its link.
fn keep(kept: &mut String, text: &str) -> Result<(), NoLink>
    ensures ok { OnOk result (string_bytes kept.new ≡ with_kept (string_bytes kept.old) text.now) }
    ensures memory { IfErr result (λ refused. refused ≡ NoLink.Memory) }
{
    if !is_of_link(text) {
        return Ok(());
    }
    let mark = mark_behind(kept.as_str());
    kept.push(mark)?;
    kept.push_str(text)?;
    Ok(())
}

/// The mark before the next parameter that stays.
fn mark_behind(kept: &str) -> char
    ensures value { result ≡ mark_behind kept.now }
{
    if kept.is_empty() { '?' } else { '&' }
}
