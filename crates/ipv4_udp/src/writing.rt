ghost use Rattle.std.specs.Prelude.{◌≡◌, ◌+◌, ◌≤◌, ◌<◌, ◌^◌, ◌++◌, ℕ, List, Ok, length, take, drop};
ghost use Rattle.ipv4_udp.specs.declared.ip.Sums.TheVariants.{Test};
ghost use Rattle.ipv4_udp.specs.Ip.{IsDatagram, Spells, spelling, header_octets, udp_octets};
ghost use Rattle.ipv4_udp.specs.Reading.{reading_of};
ghost use Rattle.ipv4_udp.specs.Writing.{datagram_with, fields_with, written_fields, header_sum_of, computed_sum_of, udp_sum_of};

use crate::reading::PROTOCOL_UDP;
use crate::sum::{folded, pseudo_header, sum_of, total_of};
use octet_fields::put_at;

/// The addresses and ports of a datagram to be written.
#[derive(Clone, Copy, Debug, PartialEq, Eq)]
pub struct IpHead {
    /// The source address.
    pub from: u32,
    /// The destination address.
    pub to: u32,
    /// The source port.
    pub from_port: u16,
    /// The destination port.
    pub to_port: u16,
}

/// The most octets of data that a datagram is written with (this profile).
pub const MAX_PAYLOAD: usize = 1560;

// The octets of the two headers.
const HEADERS_LEN: usize = 28;

// The octets of a UDP header.
const UDP_LEN: usize = 8;

// The 20 octets of a header with this checksum.
#[tactic(auto, unfolding(crate::specs::Ip::header_octets))]
fn header_with(head: &IpHead, payload: &[u8], header_sum: u16) -> [u8; 20]
    requires few { length payload.now ≤ MAX_PAYLOAD }
    ensures octets { result ≡ header_octets (datagram_with head.now payload.now) (fields_with header_sum 0) }
{
    let total = ((HEADERS_LEN + payload.len()) as u16).to_be_bytes();
    let sum = header_sum.to_be_bytes();
    let [a, b, c, d] = head.from.to_be_bytes();
    let [e, f, g, h] = head.to.to_be_bytes();
    [
        0x45,
        0,
        total[0],
        total[1],
        0,
        0,
        0x40,
        0,
        64,
        PROTOCOL_UDP,
        sum[0],
        sum[1],
        a,
        b,
        c,
        d,
        e,
        f,
        g,
        h,
    ]
}

// The eight octets that stand before the data in UDP, with this checksum.
#[tactic(auto, unfolding(crate::specs::Ip::udp_octets))]
fn udp_header_with(head: &IpHead, payload: &[u8], udp_sum: u16) -> [u8; 8]
    requires few { length payload.now ≤ MAX_PAYLOAD }
    ensures octets { result ++ payload.now ≡ udp_octets (datagram_with head.now payload.now) udp_sum }
{
    let from = head.from_port.to_be_bytes();
    let to = head.to_port.to_be_bytes();
    let len = ((UDP_LEN + payload.len()) as u16).to_be_bytes();
    let sum = udp_sum.to_be_bytes();
    [
        from[0], from[1], to[0], to[1], len[0], len[1], sum[0], sum[1],
    ]
}

// The header's checksum.
fn header_sum_with(head: &IpHead, payload: &[u8]) -> u16
    requires few { length payload.now ≤ MAX_PAYLOAD }
    ensures value { result ≡ header_sum_of (datagram_with head.now payload.now) }
{
    !sum_of(&header_with(head, payload, 0))
}

// UDP's checksum as it is computed.
fn computed_sum_with(head: &IpHead, payload: &[u8]) -> u16
    requires few { length payload.now ≤ MAX_PAYLOAD }
    ensures value { result ≡ computed_sum_of (datagram_with head.now payload.now) }
    ensures fits { IsDatagram (datagram_with head.now payload.now) }
{
    let len = (UDP_LEN + payload.len()) as u16;
    let before = total_of(&pseudo_header(head.from, head.to, len));
    let header = total_of(&udp_header_with(head, payload, 0));
    !folded(before + header + total_of(payload))
}

// UDP's checksum as it is written: a computed 0 would say that none was made.
fn udp_sum_with(head: &IpHead, payload: &[u8]) -> u16
    requires few { length payload.now ≤ MAX_PAYLOAD }
    ensures value { result ≡ udp_sum_of (datagram_with head.now payload.now) }
    ensures fits { IsDatagram (datagram_with head.now payload.now) }
{
    match computed_sum_with(head, payload) {
        0 => 0xffff,
        sum => sum,
    }
}

/// Writes a datagram at the front of `out`, and says how many octets it has: a header without options, both checksums, and
/// the data.
pub fn write(head: &IpHead, payload: &[u8], out: &mut [u8]) -> usize
    requires payload { length payload.now ≤ MAX_PAYLOAD }
    requires room { length payload.now + 28 ≤ length out.old }
    ensures count { result ≡ length payload.now + 28 }
    ensures octets { take result out.new
        ≡ spelling (datagram_with head.now payload.now) (written_fields (datagram_with head.now payload.now)) }
    ensures rest { drop result out.new ≡ drop result out.old }
    ensures spelled { Spells Test (datagram_with head.now payload.now) (take result out.new) }

    // What is written is read back as the value that was given.
    ensures read_back { reading_of Test (take result out.new) ≡ Ok (datagram_with head.now payload.now) }
{
    let header_sum = header_sum_with(head, payload);
    let udp_sum = udp_sum_with(head, payload);
    let at = put_at(out, 0, &header_with(head, payload, header_sum));
    let at = put_at(out, at, &udp_header_with(head, payload, udp_sum));
    put_at(out, at, payload)
}
