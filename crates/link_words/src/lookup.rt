//! What looks up the address of a host by its name.
ghost use Rattle.std.specs.Prelude.{◌≡◌, ℕ, List, Some};
ghost use Rattle.std.specs.declared.option.Option.{Option};
ghost use Rattle.std.specs.declared.net.ip_addr.IpAddr.{IpAddr as IpAddrValue};
ghost use Rattle.link_words.specs.Names.{address_in, chosen};

use std::net::{IpAddr, Net, ToSocketAddrs};

/// Looks up the address of a host.
pub trait Lookup {
    /// The addresses that names have, where it tells them.
    ghost table: { Self → Option (List ℕ → Option IpAddrValue) };

    /// The address of a host of this name, if it has one.
    fn address(&mut self, name: &str) -> Option<IpAddr>
        ensures value { (t : List ℕ → Option IpAddrValue) → table self.old ≡ Some t → result ≡ t name.now }
        ensures table { table self.new ≡ table self.old };
}

/// Names in memory, each row with an address of one. It tells them.
#[derive(Drop)]
pub struct Hosts<'a>(pub &'a [(&'a str, IpAddr)]);

impl<'a> Lookup for Hosts<'a> {
    ghost use Rattle.std.specs.Prelude.{Some};
    ghost use Rattle.link_words.specs.Names.{address_in};

    ghost table = { λ hosts. Some (address_in hosts.0.now) };

    fn address(&mut self, name: &str) -> Option<IpAddr> {
        address_in(self.0, name)
    }
}

/// The address of a name, of the rows with it: the first of IPv4, and where there is none the first of IPv6.
fn address_in(rows: &[(&str, IpAddr)], name: &str) -> Option<IpAddr>
    ensures { result ≡ address_in rows.now name.now }
{
    let mut best = None;
    for row in rows {
        if row.0 == name {
            best = Some(chosen(best, row.1));
        }
    }
    best
}

/// The address of a host that has one more: the first of IPv4, and where it has none of these the first of IPv6.
fn chosen(best: Option<IpAddr>, next: IpAddr) -> IpAddr
    ensures { result ≡ chosen best next }
{
    match (best, next) {
        (None, _) | (Some(IpAddr::V6(_)), IpAddr::V4(_)) => next,
        (Some(best), _) => best,
    }
}

/// The system's names: the first address of IPv4, and where a host has none of these the first of IPv6, without a scope. It tells
/// nothing, and may take some seconds.
#[derive(Drop)]
pub struct SystemNames<'a, R>(pub &'a R);

impl<'a, R: Net> Lookup for SystemNames<'a, R> {
    ghost use Rattle.std.specs.Prelude.{None};

    ghost table = { λ _. None };

    fn address(&mut self, name: &str) -> Option<IpAddr> {
        let found = (name, 0).to_socket_addrs(self.0).ok()?;
        let mut best = None;
        for address in found {
            best = Some(chosen(best, address.ip()));
        }
        best
    }
}
