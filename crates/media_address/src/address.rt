//! An address, and the word that writes it.
ghost use Rattle.std.specs.Prelude.{◌≡◌, option_map};
ghost use Rattle.media_address.specs.Address.{address_of, form_of, place_of, read_as, placed};

use crate::bad::AddressBad;
use host_text::{Settings, behind, first_part, number_in};
use std::net::IpAddr;

/// How a stream lies in datagrams of UDP.
#[derive(Clone, Copy, Debug, PartialEq, Eq)]
pub enum Form {
    /// As it is.
    Udp,
    /// As the payloads of RTP packets.
    Rtp,
}

/// Where a stream goes to or comes from.
#[derive(Clone, Copy, Debug, PartialEq, Eq)]
pub struct MediaAddress {
    /// How it lies in datagrams.
    pub form: Form,
    /// The address of IPv4 or IPv6, that of a multicast group too.
    pub host: IpAddr,
    /// The port, from 1 on.
    pub port: u16,
    /// How datagrams leave this machine.
    pub settings: Settings,
}

/// The address that a word writes; none where it begins neither with `udp://` nor with `rtp://`, and is the name of a file.
pub fn address_of(word: &str) -> Result<Option<MediaAddress>, AddressBad>
    ensures value { result ≡ address_of word.now }
{
    match form_of(word) {
        None => Ok(None),
        Some((form, rest)) => match read_as(form, rest) {
            Ok(address) => Ok(Some(address)),
            Err(bad) => Err(bad),
        },
    }
}

/// The form that a word begins with, and what stands behind it.
fn form_of(word: &str) -> Option<(Form, &str)>
    ensures value { option_map (λ found. (found.0, found.1.now)) result ≡ form_of word.now }
{
    if let Some(rest) = behind("udp://", word) {
        return Some((Form::Udp, rest));
    }
    match behind("rtp://", word) {
        Some(rest) => Some((Form::Rtp, rest)),
        None => None,
    }
}

/// The address in what stands behind the form.
fn read_as(form: Form, text: &str) -> Result<MediaAddress, AddressBad>
    ensures value { result ≡ read_as form text.now }
{
    let (text, settings) = first_part(text, '?');
    let Some((host, port)) = place_of(text) else {
        return Err(AddressBad::NoAddress);
    };
    match Settings::to(host, settings) {
        Some(settings) => Ok(placed(form, (host, port), settings)),
        None => Err(AddressBad::NoSetting),
    }
}

/// An address and a port from 1 on.
fn place_of(text: &str) -> Option<(IpAddr, u16)>
    ensures value { result ≡ place_of text.now }
{
    let (host, port) = host_text::place_of(text)?;
    let port = number_in(port, 1, 65_535)? as u16;
    Some((host, port))
}

fn placed(form: Form, place: (IpAddr, u16), settings: Settings) -> MediaAddress
    ensures value { result ≡ placed form place settings }
{
    let (host, port) = place;
    MediaAddress {
        form,
        host,
        port,
        settings,
    }
}
