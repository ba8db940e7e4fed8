//! What a file's header tells of its records.
ghost use Rattle.std.specs.Prelude.{◌≡◌, ◌+◌, ◌*◌, ◌≤◌, ◌<◌, ◌^◌, length, IfOk, IfErr, None, Some, take, drop, ℕ, List};
ghost use Rattle.std.specs.Int.{w16, w32, from_be_bytes, from_le_bytes};
ghost use Rattle.pcap_file.specs.Pcap.{IsHeader, spelled_32, spelled_16, is_link_type, micros_at};
ghost use Rattle.pcap_file.specs.Tests.{number_16_at, number_32_at, kind_of, fault_of_header};

use crate::bad::PcapKind;
use octet_fields::{u16_at, u32_at};

/// The order of the octets of each number in the file's own fields.
#[derive(Clone, Copy, Debug, PartialEq, Eq)]
pub enum ByteOrder {
    /// The highest octet comes first.
    Big,
    /// The lowest octet comes first.
    Little,
}

/// What the fraction of a time counts.
#[derive(Clone, Copy, Debug, PartialEq, Eq)]
pub enum Fraction {
    /// Microseconds.
    Micros,
    /// Nanoseconds.
    Nanos,
}

/// What a file's header tells of its records.
#[derive(Clone, Copy, Debug, PartialEq, Eq)]
pub struct Format {
    /// The order of the file's numbers.
    pub order: ByteOrder,
    /// What the fractions of its times count.
    pub fraction: Fraction,
    /// What its packets begin with: 1 for an Ethernet header, 101 for an IP header.
    pub link_type: u16,
}

/// The link type of Ethernet.
pub(crate) const ETHERNET: u16 = 1;

/// And of raw IP.
pub(crate) const RAW_IP: u16 = 101;

/// How many octets a file's header has.
pub(crate) const HEADER_LEN: usize = 24;

// The number of 16 bits at this place, in this order.
pub(crate) fn number_16_at(order: ByteOrder, at: usize, octets: &[u8]) -> u16
    requires within { at + 2 ≤ length octets.now }
    ensures value { result ≡ number_16_at order at octets.now }
{
    match order {
        ByteOrder::Big => u16_at(octets, at),
        ByteOrder::Little => u16::from_le_bytes([octets[at], octets[at + 1]]),
    }
}

// The number of 32 bits at this place, in this order.
pub(crate) fn number_32_at(order: ByteOrder, at: usize, octets: &[u8]) -> u32
    requires within { at + 4 ≤ length octets.now }
    ensures value { result ≡ number_32_at order at octets.now }
{
    match order {
        ByteOrder::Big => u32_at(octets, at),
        ByteOrder::Little => {
            u32::from_le_bytes([octets[at], octets[at + 1], octets[at + 2], octets[at + 3]])
        }
    }
}

// What the magic number tells.
fn kind_of(word: u32) -> Option<(ByteOrder, Fraction)>
    ensures value { result ≡ kind_of word }
{
    match word {
        0xa1b2c3d4 => Some((ByteOrder::Big, Fraction::Micros)),
        0xd4c3b2a1 => Some((ByteOrder::Little, Fraction::Micros)),
        0xa1b23c4d => Some((ByteOrder::Big, Fraction::Nanos)),
        0x4d3cb2a1 => Some((ByteOrder::Little, Fraction::Nanos)),
        _ => None,
    }
}

// The format that a header tells, or the first test that fails.
#[tactic(auto, using(std::proofs::lemmas::Bool::Decides::nat_tests))]
pub(crate) fn format_of(octets: &[u8]) -> Result<Format, PcapKind>
    requires most { length octets.now ≤ HEADER_LEN }
    ensures header { IfOk result (λ format. IsHeader format octets.now) }
    ensures none { IfOk result (λ format. fault_of_header octets.now ≡ None) }
    ensures fault { IfErr result (λ kind. fault_of_header octets.now ≡ Some kind) }
{
    if octets.len() < 4 {
        return Err(PcapKind::Magic);
    }
    let Some((order, fraction)) = kind_of(u32_at(octets, 0)) else {
        return Err(PcapKind::Magic);
    };
    if octets.len() < HEADER_LEN {
        return Err(PcapKind::Truncated);
    }
    if number_16_at(order, 4, octets) != 2 || number_16_at(order, 6, octets) != 4 {
        return Err(PcapKind::Version);
    }
    let link_type = (number_32_at(order, 20, octets) & 0xffff) as u16;
    if link_type != ETHERNET && link_type != RAW_IP {
        return Err(PcapKind::LinkType);
    }
    Ok(Format {
        order,
        fraction,
        link_type,
    })
}

// A time in microseconds.
pub(crate) fn micros_at(fraction: Fraction, seconds: u32, part: u32) -> u64
    ensures value { result ≡ micros_at fraction seconds part }
{
    let part = match fraction {
        Fraction::Micros => part,
        Fraction::Nanos => part / 1000,
    };
    u64::from(seconds) * 1_000_000 + u64::from(part)
}
