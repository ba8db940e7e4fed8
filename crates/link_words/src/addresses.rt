//! Links with an address in place of each name.
ghost use Rattle.std.specs.Prelude.{◌≡◌, ◌++◌, ◌∷◌, [], ℕ, List, Ok, Some, IfErr, IfOk, OnOk, map, option_map, string_bytes};
ghost use Rattle.std.specs.declared.option.Option.{Option};
ghost use Rattle.std.specs.declared.net.ip_addr.IpAddr.{IpAddr as IpAddrValue};
ghost use Rattle.link_words.specs.Addresses.{address_text, endpoint_by, host_text, link_at, link_of, links_from, with_address};
ghost use Rattle.link_words.specs.Parameters.{IsRefused, kept_in};

use crate::forms::{LinkWord, read_link};
use crate::hosts::{is_literal, is_name};
use crate::lookup::Lookup;
use crate::no_link::NoLink;
use crate::parameters::push_kept;
use crate::positions::Scan;
use crate::texts::{first_part, push};
use std::alloc::Global;
use std::net::IpAddr;

/// Adds the words behind a line, with an address for each link.
pub fn push_links<L: Lookup>(
    alloc: Global,
    lookup: &mut L,
    scan: Scan,
    words: &[String],
    line: &mut Vec<String>,
) -> Result<(), NoLink>
    ensures ok { OnOk result ((t : List ℕ → Option IpAddrValue) → L.table lookup.old ≡ Some t
        → links_from t scan (map string_bytes line.old.items) (map string_bytes words.now)
        ≡ Ok (map string_bytes line.new.items)) }
    ensures refused { IfErr result (λ e. (t : List ℕ → Option IpAddrValue) → L.table lookup.old ≡ Some t
        → IsRefused (links_from t scan (map string_bytes line.old.items) (map string_bytes words.now)) e) }
    ensures table { L.table lookup.new ≡ L.table lookup.old }
{
    let mut at = scan;
    for word in words {
        let link = match link_at(alloc, lookup, at, word.as_str()) {
            Ok(link) => link,
            Err(refused) => return Err(refused),
        };
        push(line, link)?;
        at = at.after(word.as_str());
    }
    Ok(())
}

/// A word, with an address where it is a link.
fn link_at<L: Lookup>(
    alloc: Global,
    lookup: &mut L,
    scan: Scan,
    word: &str,
) -> Result<String, NoLink>
    ensures ok { IfOk result (λ link. (t : List ℕ → Option IpAddrValue) → L.table lookup.old ≡ Some t
        → link_at t scan word.now ≡ Ok (string_bytes link)) }
    ensures refused { IfErr result (λ e. (t : List ℕ → Option IpAddrValue) → L.table lookup.old ≡ Some t
        → IsRefused (link_at t scan word.now) e) }
    ensures table { L.table lookup.new ≡ L.table lookup.old }
{
    if scan.is_link(word) {
        return put_link(alloc, lookup, word);
    }
    Ok(String::from_str(alloc, word)?)
}

/// A link with an address. One that has neither a name nor a URL is as it is.
pub fn put_link<L: Lookup>(alloc: Global, lookup: &mut L, word: &str) -> Result<String, NoLink>
    ensures ok { IfOk result (λ link. (t : List ℕ → Option IpAddrValue) → L.table lookup.old ≡ Some t
        → link_of t word.now ≡ Ok (string_bytes link)) }
    ensures refused { IfErr result (λ e. (t : List ℕ → Option IpAddrValue) → L.table lookup.old ≡ Some t
        → IsRefused (link_of t word.now) e) }
    ensures table { L.table lookup.new ≡ L.table lookup.old }
{
    match read_link(word) {
        LinkWord::Plain => Ok(String::from_str(alloc, word)?),
        LinkWord::Faulty => {
            let (url, _) = first_part(word, '?');
            Err(NoLink::NoEndpoint(String::from_str(alloc, url)?))
        }
        LinkWord::Written(link) => match endpoint(alloc, lookup, link.host, link.port) {
            Ok(text) => with_kept(alloc, text, link.parameters),
            Err(refused) => Err(refused),
        },
    }
}

/// A link, and behind it the parameters that stay with it.
fn with_kept(alloc: Global, mut link: String, parameters: Option<&str>) -> Result<String, NoLink>
    ensures ok { IfOk result (λ text. string_bytes text
        ≡ string_bytes link ++ kept_in 16 [] (option_map (λ p. p.now) parameters.entry)) }
    ensures memory { IfErr result (λ e. e ≡ NoLink.Memory) }
{
    push_kept(alloc, &mut link, parameters)?;
    Ok(link)
}

/// A host and a port as a link: an address in place of a name.
fn endpoint<L: Lookup>(
    alloc: Global,
    lookup: &mut L,
    host: &str,
    port: &str,
) -> Result<String, NoLink>
    ensures ok { IfOk result (λ link. (t : List ℕ → Option IpAddrValue) → L.table lookup.old ≡ Some t
        → endpoint_by t host.now port.now ≡ Ok (string_bytes link)) }
    ensures refused { IfErr result (λ e. (t : List ℕ → Option IpAddrValue) → L.table lookup.old ≡ Some t
        → IsRefused (endpoint_by t host.now port.now) e) }
    ensures table { L.table lookup.new ≡ L.table lookup.old }
{
    if is_name(host) {
        return named_link(alloc, lookup, host, port);
    }
    Ok(host_link(alloc, host, port)?)
}

/// A host that is no name and a port, as a link.
fn host_link(alloc: Global, host: &str, port: &str) -> Result<String, NoLink>
    ensures ok { IfOk result (λ link. string_bytes link ≡ host_text host.now ++ 58 ∷ port.now) }
    ensures memory { IfErr result (λ e. e ≡ NoLink.Memory) }
{
    if is_literal(host) {
        let host = format!(in alloc; "[{host}]")?;
        return joined(alloc, host.as_str(), port);
    }
    joined(alloc, host, port)
}

/// A name's address and the port, as a link.
fn named_link<L: Lookup>(
    alloc: Global,
    lookup: &mut L,
    host: &str,
    port: &str,
) -> Result<String, NoLink>
    ensures ok { IfOk result (λ link. (t : List ℕ → Option IpAddrValue) → L.table lookup.old ≡ Some t
        → with_address host.now port.now (t host.now) ≡ Ok (string_bytes link)) }
    ensures refused { IfErr result (λ e. (t : List ℕ → Option IpAddrValue) → L.table lookup.old ≡ Some t
        → IsRefused (with_address host.now port.now (t host.now)) e) }
    ensures table { L.table lookup.new ≡ L.table lookup.old }
{
    match lookup.address(host) {
        Some(address) => with_port(alloc, address, port),
        None => Err(NoLink::Unknown(String::from_str(alloc, host)?)),
    }
}

/// An address and a port, as a link.
fn with_port(alloc: Global, address: IpAddr, port: &str) -> Result<String, NoLink>
    ensures ok { IfOk result (λ link. string_bytes link ≡ address_text address ++ 58 ∷ port.now) }
    ensures memory { IfErr result (λ e. e ≡ NoLink.Memory) }
{
    let host = match address {
        IpAddr::V4(address) => format!(in alloc; "{address}")?,
        IpAddr::V6(address) => format!(in alloc; "[{address}]")?,
    };
    joined(alloc, host.as_str(), port)
}

/// A host and a port with a colon between them.
fn joined(alloc: Global, host: &str, port: &str) -> Result<String, NoLink>
    ensures ok { IfOk result (λ link. string_bytes link ≡ host.now ++ 58 ∷ port.now) }
    ensures memory { IfErr result (λ e. e ≡ NoLink.Memory) }
{
    let mut link = String::from_str(alloc, host)?;
    link.push(':')?;
    link.push_str(port)?;
    Ok(link)
}
