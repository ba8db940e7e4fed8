//! The datagrams of messages, in the tunnel or without it.
ghost use Rattle.std.specs.Prelude.{◌≡◌, ◌+◌, ◌≤◌, ◌++◌, ◌&&◌, ◌==◌, ◌^◌, ◌<◌, length, take, drop, is_some, IfSome};
ghost use Rattle.std.specs.Int.{to_be_bytes};
ghost use Rattle.link_channels.specs.declared.profile.Profile.TheVariants.{Simple, Main};
ghost use Rattle.rist_wire.specs.declared.item.Kind.TheVariants.{Keepalive as KeepaliveKind};
ghost use Rattle.rist_wire.specs.Session.{IsSession};
ghost use Rattle.rist_wire.specs.Cipher.{key_by};
ghost use Rattle.rist_wire.specs.Writing.{IsPair, nonce_of, sequence_of};
ghost use Rattle.gre_tunnel.specs.Gre.{IsProtocol};
ghost use Rattle.rist_wire.specs.Datagrams.{IsDatagram, carried_protocol, protocol_for, header_octets, ports_octets, full_head, full_octets, carried, text_for, sealed_text, tunnel_octets, channel_on};

use crate::cipher::cipher_under;
use crate::item::Kind;
use crate::session::Session;
use aes_block::Aes;
use gre_tunnel::{DATAGRAM, FULL, KEEPALIVE, Tunnel};
use ipv4_udp::{IpHead, MAX_PAYLOAD};
use link_channels::{Channel, MAX_DATAGRAM, Profile};
use octet_fields::put_at;
use psk_seal::Pair;

/// The key field of the header of a datagram under this pair.
pub(crate) fn nonce_of(pair: Option<Pair>) -> Option<u32>
    ensures value { result ≡ nonce_of pair }
    ensures fits { IfSome result (λ n. n < 2 ^ 32) }
{
    match pair {
        Some(pair) => Some(pair.nonce),
        None => None,
    }
}

fn sequence_of(pair: Option<Pair>) -> Option<u32>
    ensures value { result ≡ sequence_of pair }
    ensures fits { IfSome result (λ n. n < 2 ^ 32) }
{
    match pair {
        Some(pair) => Some(pair.sequence),
        None => None,
    }
}

fn carried_protocol(full: bool) -> u16
    ensures value { result ≡ carried_protocol full }
    ensures known { IsProtocol result }
{
    if full { FULL } else { DATAGRAM }
}

fn protocol_for(full: bool, kind: Kind) -> u16
    ensures value { result ≡ protocol_for full kind }
    ensures known { IsProtocol result }
{
    match kind {
        Kind::Media => carried_protocol(full),
        Kind::Control => carried_protocol(full),
        Kind::Keepalive => KEEPALIVE,
    }
}

// Writes the header of a datagram at the front, and says where it ends.
fn put_header(
    tunnel: Tunnel,
    bits: u16,
    full: bool,
    pair: Option<Pair>,
    kind: Kind,
    out: &mut [u8; MAX_DATAGRAM],
) -> usize
    ensures fits { IsPair pair }
    ensures octets { take result out.new ≡ header_octets tunnel bits full pair kind }
    ensures within { result ≤ 12 }
{
    let mut header = [0; 12];
    let nonce = nonce_of(pair);
    let sequence = sequence_of(pair);
    let end = gre_tunnel::write(
        tunnel,
        nonce,
        sequence,
        pair.is_some() && bits == 256,
        protocol_for(full, kind),
        &mut header,
    );
    put_at(out, 0, &header[..end])
}

fn put_ports(out: &mut [u8; MAX_DATAGRAM], at: usize, port: u16) -> usize
    requires room { at + 4 ≤ MAX_DATAGRAM }
    ensures end { result ≡ at + 4 }
    ensures octets { take result out.new ≡ take at out.old ++ ports_octets port }
{
    let at = put_at(out, at, &port.to_be_bytes());
    put_at(out, at, &port.to_be_bytes())
}

// The addresses and ports of a full datagram to a port.
fn full_head(port: u16) -> IpHead
    ensures value { result ≡ full_head port }
{
    IpHead {
        from: 0x0a00_0001,
        to: 0x0a00_0002,
        from_port: port,
        to_port: port,
    }
}

// Writes a full datagram behind what is there, and says where it ends.
#[tactic(auto, unfolding(crate::specs::Datagrams::full_octets))]
fn put_full(out: &mut [u8; MAX_DATAGRAM], at: usize, port: u16, message: &[u8]) -> usize
    requires few { length message.now ≤ MAX_PAYLOAD }
    requires room { at + 28 + length message.now ≤ MAX_DATAGRAM }
    ensures end { result ≡ at + 28 + length message.now }
    ensures octets { take result out.new ≡ take at out.old ++ full_octets port message.now }
{
    let end = at + 28 + message.len();
    ipv4_udp::write(&full_head(port), message, &mut out[at..end]);
    end
}

// Writes what goes to a port behind what is there, and says where it ends.
fn put_carried(
    out: &mut [u8; MAX_DATAGRAM],
    at: usize,
    full: bool,
    port: u16,
    message: &[u8],
) -> usize
    requires few { length message.now ≤ MAX_PAYLOAD }
    requires room { at + 28 + length message.now ≤ MAX_DATAGRAM }
    ensures within { result ≤ at + 28 + length message.now }
    ensures after { at ≤ result }
    ensures octets { take result out.new ≡ take at out.old ++ carried full port message.now }
{
    if full {
        return put_full(out, at, port, message);
    }
    let at = put_ports(out, at, port);
    put_at(out, at, message)
}

// Writes a text behind what is there, and says where it ends.
fn put_text(
    out: &mut [u8; MAX_DATAGRAM],
    at: usize,
    full: bool,
    port: u16,
    kind: Kind,
    message: &[u8],
) -> usize
    requires few { length message.now ≤ MAX_PAYLOAD }
    requires room { at + 28 + length message.now ≤ MAX_DATAGRAM }
    requires port { port ≤ 65534 }
    ensures within { result ≤ at + 28 + length message.now }
    ensures after { at ≤ result }
    ensures octets { take result out.new ≡ take at out.old ++ text_for full port kind message.now }
{
    match kind {
        Kind::Media => put_carried(out, at, full, port, message),
        Kind::Control => put_carried(out, at, full, port + 1, message),
        Kind::Keepalive => put_at(out, at, message),
    }
}

// Enciphers what stands between two places.
fn seal(
    session: &Session,
    key: &Option<Aes>,
    pair: Option<Pair>,
    out: &mut [u8; MAX_DATAGRAM],
    from: usize,
    end: usize,
)
    requires derived { key.now ≡ key_by session.now.pass session.now.bits (nonce_of pair) }
    requires order { from ≤ end }
    requires within { end ≤ MAX_DATAGRAM }
    ensures octets { take end out.new
        ≡ take from out.old ++ sealed_text session.now pair (drop from (take end out.old)) }
{
    cipher_under(key, sequence_of(pair), &mut out[from..end]);
}

// Writes the datagram of a message in the tunnel at the front of a block, and says how many octets it has.
fn put_tunnel(
    session: &Session,
    key: &Option<Aes>,
    pair: Option<Pair>,
    kind: Kind,
    message: &[u8],
    out: &mut [u8; MAX_DATAGRAM],
) -> usize
    requires session { IsSession session.now }
    requires derived { key.now ≡ key_by session.now.pass session.now.bits (nonce_of pair) }
    requires room { length message.now ≤ MAX_PAYLOAD }
    ensures fits { IsPair pair }
    ensures octets { take result out.new ≡ tunnel_octets session.now pair kind message.now }
    ensures within { result ≤ length message.now + 40 }
{
    let from = put_header(session.tunnel, session.bits, session.full, pair, kind, out);
    let end = put_text(out, from, session.full, session.port, kind, message);
    seal(session, key, pair, out, from, end);
    end
}

// Writes the datagram of a message without the tunnel at the front of a block: the message itself.
fn put_simple(kind: Kind, message: &[u8], out: &mut [u8; MAX_DATAGRAM]) -> (Channel, usize)
    requires room { length message.now ≤ MAX_PAYLOAD }
    ensures channel { result.0 ≡ channel_on Simple kind }
    ensures octets { take result.1 out.new ≡ message.now }
    ensures within { result.1 ≤ length message.now + 40 }
{
    let channel = match kind {
        Kind::Media => Channel::Media,
        Kind::Control | Kind::Keepalive => Channel::Control,
    };
    (channel, put_at(out, 0, message))
}

/// Writes the datagram of a message at the front of a block, and says on which channel it goes and how many
/// octets it has.
pub(crate) fn put_datagram(
    session: &Session,
    key: &Option<Aes>,
    pair: Option<Pair>,
    kind: Kind,
    message: &[u8],
    out: &mut [u8; MAX_DATAGRAM],
) -> (Channel, usize)
    requires session { IsSession session.now }
    requires derived { key.now ≡ key_by session.now.pass session.now.bits (nonce_of pair) }
    requires paired { session.now.profile ≡ Main → is_some pair ≡ is_some session.now.pass }
    requires tunnel { kind ≡ KeepaliveKind → session.now.profile ≡ Main }
    requires room { length message.now ≤ MAX_PAYLOAD }
    ensures datagram { IsDatagram session.now pair kind message.now result.0 (take result.1 out.new) }
    ensures within { result.1 ≤ length message.now + 40 }
{
    match session.profile {
        Profile::Simple => put_simple(kind, message, out),
        Profile::Main => (
            Channel::Tunnel,
            put_tunnel(session, key, pair, kind, message, out),
        ),
    }
}
