//! Datagrams of several sessions in one tunnel: the place of the port that each is for.
ghost use Rattle.std.specs.Prelude.{◌≡◌, ◌≤◌, ◌<◌, drop, length, slice_index, IfOk, IfSome};
ghost use Rattle.gre_tunnel.specs.Reading.{reading_of as gre_reading_of};
ghost use Rattle.rist_wire.specs.Session.{IsSession};
ghost use Rattle.rist_wire.specs.Cipher.{secret_of, secret_with};
ghost use Rattle.rist_wire.specs.Tunnel.{tunnel_message, plain_datagram, LiesIn};
ghost use Rattle.rist_wire.specs.Among.{ArePorts, destination_in, place_in, place_or_first, placed, placed_message, session_at, tunnel_place};

use crate::bad::WireBad;
use crate::cipher::decipher;
use crate::item::Part;
use crate::session::Session;
use crate::tunnel::{cipher_fault, text_part};
use gre_tunnel::{FULL, Gre, KEEPALIVE};
use ipv4_udp::{Ip, Sums};
use octet_fields::u16_at;
use psk_keys::Keys;

// The place of the port that a destination is of.
fn place_in(ports: &[u16], to: u16) -> Option<usize>
    ensures value { result ≡ place_in ports.now to }
    ensures within { IfSome result (λ place. place < length ports.now) }
{
    let media = to - to % 2;
    ports.iter().position(|port| *port == media)
}

// The destination that a text of the datagram names.
fn destination_in(gre: &Gre, octets: &[u8]) -> Option<u16>
    requires within { gre.now.rest ≤ length octets.now }
    ensures value { result ≡ destination_in gre.now.protocol (drop gre.now.rest octets.now) }
{
    if gre.protocol == KEEPALIVE {
        return None;
    }
    let text = &octets[gre.rest..];
    if gre.protocol == FULL {
        return match Ip::place(text, Sums::Test) {
            Ok(place) => Some(place.to_port),
            Err(_) => None,
        };
    }
    if text.len() < 4 {
        return None;
    }
    Some(u16_at(text, 2))
}

// The place of a text, the first where its destination is of none of the ports.
fn text_place(ports: &[u16], gre: &Gre, octets: &[u8]) -> usize
    requires some { 1 ≤ length ports.now }
    requires within { gre.now.rest ≤ length octets.now }
    ensures value { result
        ≡ place_or_first ports.now (destination_in gre.now.protocol (drop gre.now.rest octets.now)) }
    ensures within { result < length ports.now }
{
    match destination_in(gre, octets) {
        Some(to) => place_in(ports, to).unwrap_or(0),
        None => 0,
    }
}

/// Deciphers a datagram of the tunnel in place where its header says so, and says at which place among the ports its
/// message is, and where the message lies.
pub(crate) fn tunnel_part_among(
    session: &Session,
    keys: &mut Option<Keys>,
    ports: &[u16],
    octets: &mut [u8],
) -> Result<(u8, Part), WireBad>
    requires session { IsSession session.now }
    requires keys { secret_of keys.old ≡ secret_with session.now.pass session.now.bits }
    requires ports { ArePorts ports.now }
    ensures keys { secret_of keys.new ≡ secret_of keys.old }
    ensures message { placed_message octets.new result
        ≡ placed (tunnel_place ports.now session.now octets.old (gre_reading_of octets.old))
        (tunnel_message
        (session_at ports.now (tunnel_place ports.now session.now octets.old (gre_reading_of octets.old)) session.now)
        octets.old (gre_reading_of octets.old)) }
    ensures within { IfOk result (λ found. LiesIn found.1 octets.new) }
    ensures octets { octets.new ≡ plain_datagram session.now octets.old (gre_reading_of octets.old) }
{
    let gre = match Gre::read(octets) {
        Ok(gre) => gre,
        Err(bad) => return Err(WireBad::Gre(bad)),
    };
    decipher(keys, gre.key, gre.sequence, &mut octets[gre.rest..]);
    if let Some(bad) = cipher_fault(session, &gre) {
        return Err(bad);
    }
    let place = text_place(ports, &gre, octets);
    match text_part(ports[place], &gre, octets) {
        Ok(part) => Ok((place as u8, part)),
        Err(bad) => Err(bad),
    }
}
