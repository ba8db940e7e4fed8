//! Where the data of a datagram lie.
ghost use Rattle.std.specs.Prelude.{◌≡◌, ◌≤◌, ◌+◌, length, Ok, Err, IfOk, IfErr};
ghost use Rattle.ipv4_udp.specs.Reading.{header_len, reading_of};
ghost use Rattle.ipv4_udp.specs.Place.{IsPlaceOf};

use crate::ip::{Ip, IpBad, Sums};

/// Where the data of a datagram lie, and the port that they go to.
#[derive(Clone, Copy, Debug, PartialEq, Eq)]
pub struct IpPlace {
    /// The destination port.
    pub to_port: u16,
    /// The offset of the first octet of the data.
    pub from: usize,
    /// The offset behind the last one.
    pub end: usize,
}

// How many octets a UDP header has.
const UDP_LEN: usize = 8;

// How many octets stand before the data.
fn headers_len(octets: &[u8]) -> usize
    ensures value { 1 ≤ length octets.now → result ≡ header_len octets.now + 8 }
    ensures within { result ≤ 68 }
{
    match octets {
        [first, ..] => 4 * usize::from(first & 0x0f) + UDP_LEN,
        [] => 0,
    }
}

// The place of what was read.
fn place_of(octets: &[u8], ip: &Ip<'_>, sums: Sums) -> IpPlace
    requires read { reading_of sums octets.now ≡ Ok ip.now }
    ensures place { IsPlaceOf sums octets.now result }
{
    let from = headers_len(octets);
    IpPlace {
        to_port: ip.to_port(),
        from,
        end: from + ip.payload().len(),
    }
}

impl<'a> Ip<'a> {
    /// Reads a datagram as `read` does, and says where its data lie.
    pub fn place(octets: &[u8], sums: Sums) -> Result<IpPlace, IpBad>
        ensures ok { IfOk result (λ place. IsPlaceOf sums octets.now place) }
        ensures err { IfErr result (λ bad. reading_of sums octets.now ≡ Err bad) }
    {
        match Ip::read(octets, sums) {
            Ok(ip) => Ok(place_of(octets, &ip, sums)),
            Err(bad) => Err(bad),
        }
    }
}
