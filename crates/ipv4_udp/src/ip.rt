ghost use Rattle.std.specs.Prelude.{◌≡◌, Ok, IfOk};
ghost use Rattle.ipv4_udp.specs.Ip.{Datagram, Spells};
ghost use Rattle.ipv4_udp.specs.Reading.{reading_of};

use crate::reading::view_of;
use std::fmt;
use std::fmt::{Display, Formatter, Write};
use std::marker::Model;

/// Whether the two checksums are tested.
#[derive(Clone, Copy, Debug, PartialEq, Eq)]
pub enum Sums {
    /// Both are tested, that of UDP where one was made.
    Test,
    /// Neither is tested.
    Skip,
}

/// Why octets are no UDP datagram in IPv4: the first test that fails.
#[derive(Clone, Copy, Debug, PartialEq, Eq)]
pub enum IpBad {
    /// Fewer than the 20 octets of a header without options.
    Short,
    /// A version other than 4.
    Version,
    /// The header has fewer than five 32-bit words, or passes the end.
    Header,
    /// The header's checksum is wrong.
    HeaderSum,
    /// The total length is below the header's, or passes the end.
    Length,
    /// More fragments follow, or the fragment offset isn't 0.
    Fragment,
    /// A protocol other than UDP.
    Protocol,
    /// Fewer than eight octets stand behind the header within the total length.
    UdpShort,
    /// The UDP length is below 8, or passes the total length.
    UdpLength,
    /// A UDP checksum was made, and is wrong.
    UdpSum,
}

impl Display for IpBad {
    ghost use Rattle.std.specs.Prelude.{Some};
    ghost use Rattle.ipv4_udp.specs.Text.{text_of};

    ghost output = { λ bad. Some (text_of bad) };

    fn fmt<W: Write>(&self, f: &mut Formatter<W>) -> fmt::Result {
        f.write_str(match self {
            IpBad::Short => "ip short",
            IpBad::Version => "ip version",
            IpBad::Header => "ip header",
            IpBad::HeaderSum => "ip header sum",
            IpBad::Length => "ip length",
            IpBad::Fragment => "ip fragment",
            IpBad::Protocol => "ip protocol",
            IpBad::UdpShort => "udp short",
            IpBad::UdpLength => "udp length",
            IpBad::UdpSum => "udp sum",
        })
    }
}

/// A datagram that was read, a view of its octets.
#[derive(Debug, Drop)]
pub struct Ip<'a> {
    pub(crate) from: u32,
    pub(crate) to: u32,
    pub(crate) from_port: u16,
    pub(crate) to_port: u16,
    pub(crate) payload: &'a [u8],
}

impl<'a> Model for Ip<'a> {
    ghost use Rattle.ipv4_udp.specs.Ip.{Datagram};

    ghost Value = { Datagram };

    ghost view = { λ ip. record {
      from = ip.from;
      to = ip.to;
      from_port = ip.from_port;
      to_port = ip.to_port;
      payload = ip.payload.now;
    } };
}

impl<'a> Ip<'a> {
    /// Reads an IPv4 datagram. Nothing is copied: the data is a slice of the octets. What stands behind the UDP datagram is
    /// stepped over; the service, the identification, the time to live and the options aren't tested.
    pub fn read(octets: &'a [u8], sums: Sums) -> Result<Ip<'a>, IpBad>
        // The value, or the first test that fails.
        ensures value { result ≡ reading_of sums octets.now }

        // What is read is a datagram that the octets spell.
        ensures found { IfOk result (λ ip. Spells sums ip octets.now) }

        // A datagram that is spelled is read.
        ensures only { (datagram : Datagram) → Spells sums datagram octets.now → result ≡ Ok datagram }
    {
        view_of(octets, sums)
    }

    /// The source address.
    pub fn from(&self) -> u32
        ensures value { result ≡ self.now.from }
    {
        self.from
    }

    /// The destination address.
    pub fn to(&self) -> u32
        ensures value { result ≡ self.now.to }
    {
        self.to
    }

    /// The source port.
    pub fn from_port(&self) -> u16
        ensures value { result ≡ self.now.from_port }
    {
        self.from_port
    }

    /// The destination port.
    pub fn to_port(&self) -> u16
        ensures value { result ≡ self.now.to_port }
    {
        self.to_port
    }

    /// The data.
    pub fn payload(&self) -> &'a [u8]
        ensures value { result.now ≡ self.now.payload }
    {
        self.payload
    }
}
