//! The words of a command line with an address for each link.
ghost use Rattle.std.specs.Prelude.{◌≡◌, ◌≤◌, false, true, ℕ, List, Ok, Some, None, IfErr, IfOk, IfSome, IsSome, drop, length, map, string_bytes, take};
ghost use Rattle.std.specs.declared.option.Option.{Option};
ghost use Rattle.std.specs.declared.net.ip_addr.IpAddr.{IpAddr as IpAddrValue};
ghost use Rattle.link_words.specs.Addresses.{command_of, has_written, resolved_by, resolved_of};
ghost use Rattle.link_words.specs.Parameters.{IsRefused};
ghost use Rattle.link_words.specs.Positions.{scan_of};

use crate::addresses::push_links;
use crate::lookup::Lookup;
use crate::no_link::NoLink;
use crate::parameters::push_options;
use crate::positions::{Scan, has_written, scan_of};
use crate::texts::{append, push};
use std::alloc::Global;

/// The words, the program's name first, with an address for each link that has a name or a URL, and the options that URLs'
/// parameters stand for behind the command. Names are looked up in the order of the links, once all URLs are read.
pub fn with_addresses<L: Lookup>(
    alloc: Global,
    lookup: &mut L,
    words: Vec<String>,
) -> Result<Vec<String>, NoLink>
    // Words without a name or a URL for a link are as they are given.
    ensures same { has_written (map string_bytes words.items) ≡ false → result ≡ Ok words }
    // Else each link has an address, where the lookup tells.
    ensures ok { IfOk result (λ line. has_written (map string_bytes words.items) ≡ true
        → (t : List ℕ → Option IpAddrValue) → L.table lookup.old ≡ Some t
        → resolved_of t (map string_bytes words.items) ≡ Ok (map string_bytes line.items)) }
    // Where there are none, that is the first fault, memory aside.
    ensures refused { IfErr result (λ e. (t : List ℕ → Option IpAddrValue) → L.table lookup.old ≡ Some t
        → IsRefused (resolved_of t (map string_bytes words.items)) e) }
    ensures table { L.table lookup.new ≡ L.table lookup.old }
{
    match scan_of_written(words.as_slice()) {
        Some(scan) => rewritten(alloc, lookup, scan, words.as_slice()),
        None => Ok(words),
    }
}

/// What is known of the third word, where one of the links has a name or a URL.
fn scan_of_written(words: &[String]) -> Option<Scan>
    ensures some { IfSome result (λ scan. scan_of (map string_bytes words.now) ≡ Some scan) }
    ensures none { result ≡ None → has_written (map string_bytes words.now) ≡ false }
    ensures written { IsSome result → has_written (map string_bytes words.now) ≡ true }
    ensures within { IsSome result → 2 ≤ length words.now }
{
    let scan = scan_of(words)?;
    if has_written(scan, rest_of(words)) {
        return Some(scan);
    }
    None
}

/// The words behind the command.
fn rest_of<'a>(words: &'a [String]) -> &'a [String]
    requires within { 2 ≤ length words.now }
    ensures { map string_bytes result.now ≡ drop 2 (map string_bytes words.entry.now) }
{
    &words[2..]
}

/// The command.
fn command_of<'a>(words: &'a [String]) -> &'a str
    ensures { result.now ≡ command_of (map string_bytes words.entry.now) }
{
    match words {
        [_, command, ..] => command.as_str(),
        _ => "",
    }
}

/// The words of a command whose links are looked for by a scan.
fn rewritten<L: Lookup>(
    alloc: Global,
    lookup: &mut L,
    scan: Scan,
    words: &[String],
) -> Result<Vec<String>, NoLink>
    requires within { 2 ≤ length words.now }
    ensures ok { IfOk result (λ line. (t : List ℕ → Option IpAddrValue) → L.table lookup.old ≡ Some t
        → resolved_by t (map string_bytes words.now) (Some scan) ≡ Ok (map string_bytes line.items)) }
    ensures refused { IfErr result (λ e. (t : List ℕ → Option IpAddrValue) → L.table lookup.old ≡ Some t
        → IsRefused (resolved_by t (map string_bytes words.now) (Some scan)) e) }
    ensures table { L.table lookup.new ≡ L.table lookup.old }
{
    let mut options = Vec::new(alloc);
    push_options(alloc, command_of(words), scan, rest_of(words), &mut options)?;
    let mut line = front_of(alloc, words)?;
    append(&mut line, options)?;
    match push_links(alloc, lookup, scan, rest_of(words), &mut line) {
        Ok(()) => Ok(line),
        Err(refused) => Err(refused),
    }
}

/// The program's name and the command.
fn front_of(alloc: Global, words: &[String]) -> Result<Vec<String>, NoLink>
    requires within { 2 ≤ length words.now }
    ensures ok { IfOk result (λ front. map string_bytes front.items ≡ take 2 (map string_bytes words.now)) }
    ensures memory { IfErr result (λ e. e ≡ NoLink.Memory) }
{
    let mut front = Vec::new(alloc);
    push(&mut front, String::from_str(alloc, words[0].as_str())?)?;
    push(&mut front, String::from_str(alloc, words[1].as_str())?)?;
    Ok(front)
}
