//! Addresses of IPv4 and IPv6, and the text of a port behind one.
ghost use Rattle.std.specs.Prelude.{◌≡◌, IfSome, None, option_map};
ghost use Rattle.std.specs.declared.net.ip_addr.IpAddr.{IpAddr as IpAddrValue};
ghost use Rattle.std.specs.declared.net.ipv6_addr.Ipv6Addr.{Ipv6Addr as Ipv6Value};
ghost use Rattle.std.specs.Net.Addr.{IsV6And};
ghost use Rattle.std.specs.Net.Grammar.{IsIpv6Text};
ghost use Rattle.host_text.specs.Hosts.{address_of, bracketed_place, dotted_place, ipv4_of, ipv6_of, place_of};

use crate::parts::{behind, number_in, split_at};
use std::net::{IpAddr, Ipv4Addr, Ipv6Addr};

/// The address that a text writes, without brackets.
pub fn address_of(text: &str) -> Option<IpAddr>
    ensures value { result ≡ address_of text.now }
{
    match ipv4_of(text) {
        Some(address) => Some(address),
        None => ipv6_of(text),
    }
}

/// An address, in brackets where it is one of IPv6, and the text of a port behind it.
pub fn place_of(text: &str) -> Option<(IpAddr, &str)>
    ensures value { option_map (λ place. (place.0, place.1.now)) result ≡ place_of text.now }
{
    match behind("[", text) {
        Some(inside) => bracketed_place(inside),
        None => dotted_place(text),
    }
}

/// What stands behind an opening bracket.
fn bracketed_place(text: &str) -> Option<(IpAddr, &str)>
    ensures value { option_map (λ place. (place.0, place.1.now)) result ≡ bracketed_place text.now }
{
    let (address, rest) = split_at(text, ']')?;
    let address = ipv6_of(address)?;
    let port = behind(":", rest)?;
    Some((address, port))
}

fn dotted_place(text: &str) -> Option<(IpAddr, &str)>
    ensures value { option_map (λ place. (place.0, place.1.now)) result ≡ dotted_place text.now }
{
    let (address, port) = split_at(text, ':')?;
    let address = ipv4_of(address)?;
    Some((address, port))
}

/// An address of IPv4.
fn ipv4_of(text: &str) -> Option<IpAddr>
    ensures value { result ≡ ipv4_of text.now }
{
    let (a, rest) = split_at(text, '.')?;
    let (b, rest) = split_at(rest, '.')?;
    let (c, d) = split_at(rest, '.')?;
    Some(IpAddr::V4(Ipv4Addr::new(
        number_in(a, 0, 255)? as u8,
        number_in(b, 0, 255)? as u8,
        number_in(c, 0, 255)? as u8,
        number_in(d, 0, 255)? as u8,
    )))
}

/// An address of IPv6: of the texts that RFC 4291, section 2.2 allows, its address.
fn ipv6_of(text: &str) -> Option<IpAddr>
    ensures value { result ≡ ipv6_of text.now }
    ensures written { IfSome result (λ address. IsV6And address (IsIpv6Text text.now)) }
    ensures none { result ≡ None → (address : Ipv6Value) → ¬ (IsIpv6Text text.now address) }
{
    match Ipv6Addr::parse_ascii(text.as_bytes()) {
        Ok(address) => Some(IpAddr::V6(address)),
        Err(_) => None,
    }
}
