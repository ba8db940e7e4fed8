//! The Main Profile's tunnel: where the message of a datagram lies, and its text as plain text.
ghost use Rattle.std.specs.Prelude.{◌≡◌, ◌+◌, ◌≤◌, ◌<◌, length, drop, is_some, IfOk, OnOk};
ghost use Rattle.gre_tunnel.specs.Reading.{reading_of as gre_reading_of};
ghost use Rattle.ipv4_udp.specs.declared.ip.Sums.TheVariants.{Test};
ghost use Rattle.ipv4_udp.specs.Reading.{reading_of as ip_reading_of};
ghost use Rattle.rist_wire.specs.Session.{IsSession};
ghost use Rattle.rist_wire.specs.Cipher.{secret_of, secret_with};
ghost use Rattle.rist_wire.specs.Tunnel.{kind_at, datagram_kind, datagram_message, full_message, text_message, cipher_fault, tunnel_message, plain_datagram, message_at, LiesIn};

use crate::bad::WireBad;
use crate::cipher::decipher;
use crate::item::{Kind, Part};
use crate::session::Session;
use gre_tunnel::{FULL, Gre, KEEPALIVE};
use ipv4_udp::{Ip, Sums};
use octet_fields::u16_at;
use psk_keys::Keys;

// Whether the header may stand in a datagram of the session.
pub(crate) fn cipher_fault(session: &Session, gre: &Gre) -> Option<WireBad>
    ensures value { result ≡ cipher_fault session.now gre.now }
{
    let sealed = gre.key.is_some();
    let passes = session.pass.is_some();
    if sealed && !passes {
        return Some(WireBad::Sealed);
    }
    if gre.protocol != KEEPALIVE && !sealed && passes {
        return Some(WireBad::Clear);
    }
    None
}

// What goes to a destination.
fn kind_at(port: u16, to: u16) -> Result<Kind, WireBad>
    requires port { port ≤ 65534 }
    ensures value { result ≡ kind_at port to }
{
    if to == port {
        return Ok(Kind::Media);
    }
    if to == port + 1 {
        return Ok(Kind::Control);
    }
    Err(WireBad::Port)
}

// What the destination of a text says that it is.
fn datagram_kind(port: u16, text: &[u8]) -> Result<Kind, WireBad>
    requires port { port ≤ 65534 }
    ensures value { result ≡ datagram_kind port text.now }
    ensures long { OnOk result (4 ≤ length text.now) }
{
    if text.len() < 4 {
        return Err(WireBad::Stub);
    }
    kind_at(port, u16_at(text, 2))
}

// The message of a text that begins at a place of the datagram.
fn datagram_part(port: u16, from: usize, octets: &[u8]) -> Result<Part, WireBad>
    requires port { port ≤ 65534 }
    requires within { from ≤ length octets.now }
    ensures message { message_at octets.now result ≡ datagram_message port (drop from octets.now) }
    ensures within { IfOk result (λ part. LiesIn part octets.now) }
{
    match datagram_kind(port, &octets[from..]) {
        Ok(kind) => Ok(Part {
            kind,
            from: from + 4,
            end: octets.len(),
        }),
        Err(bad) => Err(bad),
    }
}

// The message of a full datagram that begins at a place of the datagram.
fn full_part(port: u16, from: usize, octets: &[u8]) -> Result<Part, WireBad>
    requires port { port ≤ 65534 }
    requires within { from ≤ length octets.now }
    ensures message { message_at octets.now result
        ≡ full_message port (ip_reading_of Test (drop from octets.now)) }
    ensures within { IfOk result (λ part. LiesIn part octets.now) }
{
    let place = match Ip::place(&octets[from..], Sums::Test) {
        Ok(place) => place,
        Err(bad) => return Err(WireBad::Ip(bad)),
    };
    match kind_at(port, place.to_port) {
        Ok(kind) => Ok(Part {
            kind,
            from: from + place.from,
            end: from + place.end,
        }),
        Err(bad) => Err(bad),
    }
}

// The message of a text.
pub(crate) fn text_part(port: u16, gre: &Gre, octets: &[u8]) -> Result<Part, WireBad>
    requires port { port ≤ 65534 }
    requires within { gre.now.rest ≤ length octets.now }
    ensures message { message_at octets.now result
        ≡ text_message port gre.now.protocol (drop gre.now.rest octets.now) }
    ensures within { IfOk result (λ part. LiesIn part octets.now) }
{
    if gre.protocol == KEEPALIVE {
        return Ok(Part {
            kind: Kind::Keepalive,
            from: gre.rest,
            end: octets.len(),
        });
    }
    if gre.protocol == FULL {
        return full_part(port, gre.rest, octets);
    }
    datagram_part(port, gre.rest, octets)
}

/// Deciphers a datagram of the tunnel in place where its header says so, and says where its message lies.
pub(crate) fn tunnel_part(
    session: &Session,
    keys: &mut Option<Keys>,
    octets: &mut [u8],
) -> Result<Part, WireBad>
    requires session { IsSession session.now }
    requires keys { secret_of keys.old ≡ secret_with session.now.pass session.now.bits }
    ensures keys { secret_of keys.new ≡ secret_of keys.old }
    ensures message { message_at octets.new result
        ≡ tunnel_message session.now octets.old (gre_reading_of octets.old) }
    ensures within { IfOk result (λ part. LiesIn part octets.new) }
    ensures octets { octets.new ≡ plain_datagram session.now octets.old (gre_reading_of octets.old) }
{
    let gre = match Gre::read(octets) {
        Ok(gre) => gre,
        Err(bad) => return Err(WireBad::Gre(bad)),
    };
    decipher(keys, gre.key, gre.sequence, &mut octets[gre.rest..]);
    match cipher_fault(session, &gre) {
        Some(bad) => Err(bad),
        None => text_part(session.port, &gre, octets),
    }
}
