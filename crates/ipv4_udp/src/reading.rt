//! The tests of a datagram, in their order.
ghost use Rattle.std.specs.Prelude.{◌≡◌, ◌+◌, ◌*◌, ◌%◌, ◌≤◌, length};
ghost use Rattle.ipv4_udp.specs.Reading.{reading_of, udp_reading, is_tested, header_len, udp_len, is_bad_header_sum, is_bad_udp_sum};

use crate::ip::{Ip, IpBad, Sums};
use crate::sum::{sum_of, udp_sum_of};
use octet_fields::{u16_at, u32_at};

/// The protocol of UDP in IPv4.
pub(crate) const PROTOCOL_UDP: u8 = 17;

// How many octets a header without options has.
const FIXED_LEN: usize = 20;

// How many octets a UDP header has.
const UDP_LEN: usize = 8;

const VERSION: u8 = 4;

const WHOLE_SUM: u16 = 0xffff;

fn are_tested(sums: Sums) -> bool
    ensures { result ≡ is_tested sums }
{
    match sums {
        Sums::Test => true,
        Sums::Skip => false,
    }
}

// Whether the header, so many octets, has a wrong checksum, where checksums count.
fn is_bad_header_sum(octets: &[u8], len: usize, sums: Sums) -> bool
    requires len { len ≡ header_len octets.now }
    requires within { len ≤ length octets.now }
    requires few { len ≤ 60 }
    ensures value { result ≡ is_bad_header_sum sums octets.now }
{
    are_tested(sums) && sum_of(&octets[..len]) != WHOLE_SUM
}

// Whether UDP's octets, so many, have a wrong checksum between these addresses, where checksums count.
fn is_bad_udp_sum(udp: &[u8], from: u32, to: u32, len: u16, sums: Sums) -> bool
    requires len { len ≡ udp_len udp.now }
    requires within { len ≤ length udp.now }
    requires header { 8 ≤ length udp.now }
    ensures value { result ≡ is_bad_udp_sum sums from to udp.now }
{
    are_tested(sums)
        && u16_at(udp, 6) != 0
        && udp_sum_of(from, to, len, &udp[..usize::from(len)]) != WHOLE_SUM
}

// The datagram that UDP's octets spell between these addresses.
#[tactic(auto, using(std::proofs::lemmas::Bool::Decides::nat_tests), unfolding(crate::specs::Reading::udp_reading))]
fn udp_view_of(udp: &[u8], from: u32, to: u32, sums: Sums) -> Result<Ip<'_>, IpBad>
    ensures value { result ≡ udp_reading sums from to udp.now }
{
    if udp.len() < UDP_LEN {
        return Err(IpBad::UdpShort);
    }
    let len = u16_at(udp, 4);
    let end = usize::from(len);
    if end < UDP_LEN || udp.len() < end {
        return Err(IpBad::UdpLength);
    }
    if is_bad_udp_sum(udp, from, to, len, sums) {
        return Err(IpBad::UdpSum);
    }
    Ok(Ip {
        from,
        to,
        from_port: u16_at(udp, 0),
        to_port: u16_at(udp, 2),
        payload: &udp[UDP_LEN..end],
    })
}

#[tactic(auto, using(std::proofs::lemmas::Bool::Decides::nat_tests), unfolding(crate::specs::Reading::reading_of))]
pub(crate) fn view_of(octets: &[u8], sums: Sums) -> Result<Ip<'_>, IpBad>
    ensures value { result ≡ reading_of sums octets.now }
{
    if octets.len() < FIXED_LEN {
        return Err(IpBad::Short);
    }
    let first = octets[0];
    if first >> 4 != VERSION {
        return Err(IpBad::Version);
    }
    let start = 4 * usize::from(first & 0x0f);
    if start < FIXED_LEN || octets.len() < start {
        return Err(IpBad::Header);
    }
    if is_bad_header_sum(octets, start, sums) {
        return Err(IpBad::HeaderSum);
    }
    let end = usize::from(u16_at(octets, 2));
    if end < start || octets.len() < end {
        return Err(IpBad::Length);
    }
    if u16_at(octets, 6) & 0x3fff != 0 {
        return Err(IpBad::Fragment);
    }
    if octets[9] != PROTOCOL_UDP {
        return Err(IpBad::Protocol);
    }
    udp_view_of(
        &octets[start..end],
        u32_at(octets, 12),
        u32_at(octets, 16),
        sums,
    )
}
