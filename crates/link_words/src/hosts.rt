//! Hosts and ports as they are written (RFC 3986, section 3.2; RFC 1123, section 2.1).
ghost use Rattle.std.specs.Prelude.{◌≡◌, option_map};
ghost use Rattle.std.specs.List.{list_all};
ghost use Rattle.std.specs.Char.{is_ascii_digit};
ghost use Rattle.link_words.specs.Hosts.{bracketed_endpoint, endpoint_of, first_after, is_host, is_host_octet, is_letter, is_literal, is_name, is_port, last_first, plain_endpoint};

use crate::texts::split_at;
use host_text::{address_of, behind};

/// Whether a text is a host: letters, digits, hyphens and dots.
pub fn is_host(host: &str) -> bool
    ensures { result ≡ is_host host.now }
{
    !host.is_empty() && are_host_octets(host.as_bytes())
}

fn are_host_octets(octets: &[u8]) -> bool
    ensures { result ≡ list_all is_host_octet octets.now }
{
    octets.iter().all(|octet| is_host_octet(*octet))
}

fn is_host_octet(octet: u8) -> bool
    ensures { result ≡ is_host_octet octet }
{
    octet.is_ascii_alphanumeric() || octet == b'-' || octet == b'.'
}

/// Whether a text is a host's name: its last label begins with a letter, as in no form of an address of numbers.
pub fn is_name(host: &str) -> bool
    ensures { result ≡ is_name host.now }
{
    is_host(host) && is_letter(last_first(host.as_bytes()))
}

/// The first octet of the last label.
fn last_first(host: &[u8]) -> Option<u8>
    ensures { result ≡ last_first None host.now }
{
    let mut first = None;
    for octet in host {
        first = first_after(first, *octet);
    }
    first
}

/// The first octet of the label that goes on, after one octet more.
fn first_after(first: Option<u8>, octet: u8) -> Option<u8>
    ensures { result ≡ first_after first octet }
{
    if octet == b'.' {
        return None;
    }
    match first {
        Some(first) => Some(first),
        None => Some(octet),
    }
}

fn is_letter(octet: Option<u8>) -> bool
    ensures { result ≡ is_letter octet }
{
    match octet {
        Some(octet) => octet.is_ascii_alphabetic(),
        None => false,
    }
}

/// Whether a text is a port: decimal digits.
pub fn is_port(port: &str) -> bool
    ensures { result ≡ is_port port.now }
{
    !port.is_empty() && are_digits(port.as_bytes())
}

fn are_digits(octets: &[u8]) -> bool
    ensures { result ≡ list_all is_ascii_digit octets.now }
{
    octets.iter().all(|octet| octet.is_ascii_digit())
}

/// A host and a port with a colon between them. An address of IPv6 stands in brackets, and is given without.
pub(crate) fn endpoint_of<'a>(word: &'a str) -> Option<(&'a str, &'a str)>
    ensures { option_map (λ s. (s.0.now, s.1.now)) result ≡ endpoint_of word.entry.now }
{
    match behind("[", word) {
        Some(inside) => bracketed_endpoint(inside),
        None => plain_endpoint(word),
    }
}

fn plain_endpoint<'a>(word: &'a str) -> Option<(&'a str, &'a str)>
    ensures { option_map (λ s. (s.0.now, s.1.now)) result ≡ plain_endpoint word.entry.now }
{
    let (host, port) = split_at(word, ':')?;
    if is_host(host) && is_port(port) {
        return Some((host, port));
    }
    None
}

/// What stands behind an opening bracket.
fn bracketed_endpoint<'a>(text: &'a str) -> Option<(&'a str, &'a str)>
    ensures { option_map (λ s. (s.0.now, s.1.now)) result ≡ bracketed_endpoint text.entry.now }
{
    let (host, rest) = split_at(text, ']')?;
    let port = behind(":", rest)?;
    if is_literal(host) && is_port(port) {
        return Some((host, port));
    }
    None
}

/// Whether a host is an address of IPv6 without its brackets.
pub(crate) fn is_literal(host: &str) -> bool
    ensures { result ≡ is_literal host.now }
{
    match address_of(host) {
        Some(address) => address.is_ipv6(),
        None => false,
    }
}
