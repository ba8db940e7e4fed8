//! What stands behind the question mark of an address.
ghost use Rattle.std.specs.Prelude.{◌≡◌, option_map};
ghost use Rattle.std.specs.Net.Addr.{is_ipv4, is_ipv6};
ghost use Rattle.host_text.specs.Settings.{fits, from_passes, no_settings, settings_for, settings_of, with_from_after, with_setting, with_ttl_after};

use crate::hosts::address_of;
use crate::parts::{number_in, split_at};
use std::net::IpAddr;

/// How datagrams leave this machine.
#[derive(Clone, Copy, Debug, PartialEq, Eq)]
pub struct Settings {
    /// How many networks they may pass (RFC 791, section 3.1, "Time to Live").
    pub ttl: Option<u8>,
    /// The local address that they leave from.
    pub from: Option<IpAddr>,
}

impl Settings {
    /// None is set.
    pub const fn none() -> Settings
        ensures value { result ≡ no_settings }
    {
        Settings {
            ttl: None,
            from: None,
        }
    }

    /// What a text sets for datagrams to an address; nothing where there is no text. A local address has to be of the same kind, and a
    /// time to live is set over IPv4 alone.
    pub fn to(address: IpAddr, text: Option<&str>) -> Option<Settings>
        ensures value { result ≡ settings_for address (option_map (λ t. t.now) text.entry) }
    {
        let Some(text) = text else {
            return Some(Settings::none());
        };
        let settings = Settings::of(text)?;
        if settings.fits(address) {
            return Some(settings);
        }
        None
    }

    /// Whether they fit an address that is sent to.
    fn fits(self, address: IpAddr) -> bool
        ensures value { result ≡ fits address self }
    {
        match address {
            IpAddr::V4(_) => is_from_ipv4(self.from),
            IpAddr::V6(_) => self.ttl.is_none() && is_from_ipv6(self.from),
        }
    }

    /// What a text sets: one setting, or two with an ampersand between them.
    pub fn of(text: &str) -> Option<Settings>
        ensures value { result ≡ settings_of text.now }
    {
        match split_at(text, '&') {
            None => Settings::none().with(text),
            Some((first, second)) => Settings::none().with(first)?.with(second),
        }
    }

    /// These with one more.
    fn with(self, text: &str) -> Option<Settings>
        ensures value { result ≡ with_setting self text.now }
    {
        let (name, value) = split_at(text, '=')?;
        if name == "ttl" {
            return self.with_ttl(value);
        }
        if name == "from" {
            return self.with_from(value);
        }
        None
    }

    fn with_ttl(self, text: &str) -> Option<Settings>
        ensures value { result ≡ with_ttl_after self.ttl self text.now }
    {
        match self.ttl {
            Some(_) => None,
            None => {
                let ttl = number_in(text, 1, 255)? as u8;
                Some(Settings {
                    ttl: Some(ttl),
                    from: self.from,
                })
            }
        }
    }

    fn with_from(self, text: &str) -> Option<Settings>
        ensures value { result ≡ with_from_after self.from self text.now }
    {
        match self.from {
            Some(_) => None,
            None => {
                let from = address_of(text)?;
                Some(Settings {
                    ttl: self.ttl,
                    from: Some(from),
                })
            }
        }
    }
}

fn is_from_ipv4(from: Option<IpAddr>) -> bool
    ensures value { result ≡ from_passes is_ipv4 from }
{
    match from {
        Some(from) => from.is_ipv4(),
        None => true,
    }
}

fn is_from_ipv6(from: Option<IpAddr>) -> bool
    ensures value { result ≡ from_passes is_ipv6 from }
{
    match from {
        Some(from) => from.is_ipv6(),
        None => true,
    }
}
