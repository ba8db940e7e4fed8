ghost use Rattle.std.specs.Prelude.{◌≡◌, ◌*◌, ◌/◌, ◌<◌, ◌≤◌, if◌then◌else◌, IfSome, Some, None, length};
ghost use Rattle.ts_nulls.specs.Packets.{packet_len, are_whole, packets_in, begins_packet, is_null};

use std::simd::prelude::*;

/// How many octets a packet has (ISO/IEC 13818-1, section 2.4.3.2).
pub(crate) const SHORT_LEN: usize = 188;

/// How many it has with sixteen octets behind it.
pub(crate) const LONG_LEN: usize = 204;

/// The first octet of a packet.
pub(crate) const SYNC_BYTE: u8 = 0x47;

// The bits of the PID in the first four octets of a packet. In a null packet's all of them are set.
const PID_BITS: [u8; 4] = [0, 0x1f, 0xff, 0];

/// How many packets the longest payload has (this profile).
pub(crate) const MAX_PACKETS: u8 = 7;

/// How many octets the longest payload of packets has.
pub const MAX_PACKETS_LEN: usize = 1428;

/// How many octets a packet has.
pub(crate) fn packet_len(long: bool) -> usize
    ensures value { result ≡ packet_len long }
    ensures low { SHORT_LEN ≤ result }
    ensures high { result ≤ LONG_LEN }
{
    if long { LONG_LEN } else { SHORT_LEN }
}

fn count_of(len: usize, size: usize) -> Option<u8>
    requires { 0 < size }
    ensures { result ≡ (if are_whole len size then Some (len / size) else None) }
{
    let count = len / size;
    if len % size != 0 || count == 0 || count > MAX_PACKETS as usize {
        return None;
    }
    Some(count as u8)
}

/// Whether packets have 204 octets, and how many of them a payload of this length is: 1 to 7.
pub(crate) fn packets_in(len: usize) -> Option<(bool, u8)>
    ensures value { result ≡ packets_in len }
    ensures whole { IfSome result (λ found. packet_len found.0 * found.1 ≡ len) }
    ensures some { IfSome result (λ found. 1 ≤ found.1) }
    ensures few { IfSome result (λ found. found.1 ≤ MAX_PACKETS) }
{
    if let Some(count) = count_of(len, SHORT_LEN) {
        return Some((false, count));
    }
    match count_of(len, LONG_LEN) {
        Some(count) => Some((true, count)),
        None => None,
    }
}

/// Whether a packet begins with the sync byte.
pub(crate) fn begins_packet(octets: &[u8]) -> bool
    requires { SHORT_LEN ≤ length octets.now }
    ensures { result ≡ begins_packet octets.now }
{
    octets[0] == SYNC_BYTE
}

/// Whether a packet is null: its PID, in the lanes of its first four octets.
pub(crate) fn is_null(octets: &[u8]) -> bool
    requires { SHORT_LEN ≤ length octets.now }
    ensures { result ≡ is_null octets.now }
{
    let pid = u8x4::from_array(PID_BITS);
    u8x4::from_slice(octets) & pid == pid
}
