ghost use Rattle.std.specs.Prelude.{◌≡◌, ◌+◌, ◌-◌, ◌*◌, ◌^◌, ◌<◌, ◌≤◌, ◌++◌, if◌then◌else◌, IfSome, length, take, is_some};
ghost use Rattle.std.specs.List.{flat_map, list_all};
ghost use Rattle.ts_nulls.specs.Nulls.{kept, null_bits, stripped_into, stripping_of};
ghost use Rattle.ts_nulls.specs.Packets.{packet_len, packets_of, begins_packet, is_null};

use crate::nulls::Strip;
use crate::packets::{
    MAX_PACKETS, MAX_PACKETS_LEN, SHORT_LEN, begins_packet, is_null, packet_len, packets_in,
};
use link_channels::MAX_PAYLOAD;
use octet_fields::put_at;

// The bit of a packet at its place: 0 if it isn't null.
fn null_bit(packet: &[u8], place: u8) -> u8
    requires packet { SHORT_LEN ≤ length packet.now }
    requires place { place < MAX_PACKETS }
    ensures value { result ≡ (if is_null packet.now then 2 ^ (6 - place) else 0) }
    ensures within { result ≤ 64 }
{
    if is_null(packet) { 0x40 >> place } else { 0 }
}

// Copies a packet to its place unless it is null, and says where the copy ends.
fn put_kept(out: &mut [u8], at: usize, packet: &[u8]) -> usize
    requires packet { SHORT_LEN ≤ length packet.now }
    requires room { at + length packet.now ≤ length out.old }
    ensures within { result ≤ at + length packet.now }
    ensures octets { take result out.new ≡ take at out.old ++ kept packet.now }
{
    if is_null(packet) {
        return at;
    }
    put_at(out, at, packet)
}

// Copies the packets that aren't null, and says the bits of those that are and where the copy ends. None
// where one doesn't begin as a packet.
fn keep(payload: &[u8], size: usize, count: u8, out: &mut [u8; MAX_PAYLOAD]) -> Option<(u8, usize)>
    requires size { SHORT_LEN ≤ size }
    requires whole { size * count ≡ length payload.now }
    requires within { length payload.now ≤ MAX_PACKETS_LEN }
    requires few { count ≤ MAX_PACKETS }
    ensures begins { is_some result ≡ list_all begins_packet (packets_of size count payload.now) }
    ensures bits { IfSome result (λ x. x.0 ≡ null_bits 7 (packets_of size count payload.now)) }
    ensures kept { IfSome result (λ x.
        take x.1 out.new ≡ flat_map kept (packets_of size count payload.now)) }
    ensures within { IfSome result (λ x. x.1 ≤ MAX_PACKETS_LEN) }
{
    let mut rest = payload;
    let mut nulls = 0;
    let mut len = 0;
    for place in 0..count {
        let (packet, after) = rest.split_at(size);
        if !begins_packet(packet) {
            return None;
        }
        nulls += null_bit(packet, place);
        len = put_kept(out, len, packet);
        rest = after;
    }
    Some((nulls, len))
}

/// Copies a payload without its null packets to the front of `out`, and says what was deleted and how many
/// octets were copied. None exactly where the payload isn't one to seven whole packets that each begin as
/// one, or none of them is null; `out` may be written then.
pub fn strip(payload: &[u8], out: &mut [u8; MAX_PAYLOAD]) -> Option<(Strip, usize)>
    ensures value { stripped_into out.new result ≡ stripping_of payload.now }
    ensures within { IfSome result (λ x. x.1 ≤ MAX_PACKETS_LEN) }
{
    let Some((long, units)) = packets_in(payload.len()) else {
        return None;
    };
    let Some((nulls, len)) = keep(payload, packet_len(long), units, out) else {
        return None;
    };
    if nulls == 0 {
        return None;
    }
    Some((Strip { units, long, nulls }, len))
}
