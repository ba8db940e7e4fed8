//! The one's complement sum of octets (RFC 1071). The carries are added in again at the end.
ghost use Rattle.std.specs.Prelude.{◌≡◌, ◌+◌, ◌*◌, ◌≤◌, ◌<◌, ◌++◌, length, All};
ghost use Rattle.std.specs.List.{sum};
ghost use Rattle.ipv4_udp.specs.Sum.{words_of, ones_sum};
ghost use Rattle.ipv4_udp.specs.Ip.{pseudo_header};
ghost use Rattle.ipv4_udp.specs.Inside.Total.{folded_total};

use crate::reading::PROTOCOL_UDP;

// The plain sum of the words.
#[tactic(auto, unfolding(crate::specs::Sum::words_of))]
pub(crate) fn total_of(octets: &[u8]) -> u32
    requires few { length octets.now ≤ 65536 }
    ensures value { result ≡ sum (words_of octets.now) }
    ensures within { 2 * result ≤ 65535 * (length octets.now + 1) }
    ensures fits { All (λ octet. octet < 256) octets.now }
{
    let mut total: u32 = 0;
    let mut rest = octets;
    while let [high, low, more @ ..] = rest {
        total += u32::from(u16::from_be_bytes([*high, *low]));
        rest = more;
    }
    if let [last] = rest {
        total += 256 * u32::from(*last);
    }
    total
}

// What a plain sum becomes when its carries are added in again.
pub(crate) fn folded(total: u32) -> u16
    ensures value { result ≡ folded_total total }
{
    let once = (total & 0xffff) + (total >> 16);
    ((once & 0xffff) + (once >> 16)) as u16
}

// The one's complement sum of octets.
pub(crate) fn sum_of(octets: &[u8]) -> u16
    requires few { length octets.now ≤ 65536 }
    ensures value { result ≡ ones_sum (words_of octets.now) }
{
    folded(total_of(octets))
}

// What stands before a UDP datagram of this length where it is summed.
#[tactic(auto, unfolding(crate::specs::Ip::pseudo_header))]
pub(crate) fn pseudo_header(from: u32, to: u32, len: u16) -> [u8; 12]
    ensures value { result ≡ pseudo_header from to len }
{
    let [a, b, c, d] = from.to_be_bytes();
    let [e, f, g, h] = to.to_be_bytes();
    let [high, low] = len.to_be_bytes();
    [a, b, c, d, e, f, g, h, 0, PROTOCOL_UDP, high, low]
}

// The one's complement sum of a UDP datagram behind its pseudo-header.
pub(crate) fn udp_sum_of(from: u32, to: u32, len: u16, udp: &[u8]) -> u16
    requires few { length udp.now ≤ 65536 }
    ensures value { result ≡ ones_sum (words_of (pseudo_header from to len ++ udp.now)) }
{
    folded(total_of(&pseudo_header(from, to, len)) + total_of(udp))
}
