//! The UDP datagram in a frame.
ghost use Rattle.std.specs.Prelude.{◌≡◌, ◌≤◌, length, IfSome};
ghost use Rattle.pcap_file.specs.Converted.{ethernet_ip, ip_in, channel_at, datagram_of, slice_shown, datagram_shown};

use crate::format::{ETHERNET, RAW_IP};
use ipv4_udp::{Ip, Sums};
use link_channels::{Channel, MAX_DATAGRAM, Profile};
use octet_fields::u16_at;

const IPV4_TYPE: u16 = 0x0800;

const VLAN_TYPE: u16 = 0x8100;

// The octets of an Ethernet header.
const ETHERNET_LEN: usize = 14;

// And of one with a VLAN tag.
const TAGGED_LEN: usize = 18;

// The IPv4 datagram behind an Ethernet header.
#[tactic(auto, using(std::proofs::lemmas::Bool::Decides::nat_tests))]
fn ethernet_ip(octets: &[u8]) -> Option<&[u8]>
    ensures value { slice_shown result ≡ ethernet_ip octets.now }
{
    if octets.len() < ETHERNET_LEN {
        return None;
    }
    let kind = u16_at(octets, 12);
    if kind == IPV4_TYPE {
        return Some(&octets[ETHERNET_LEN..]);
    }
    if kind != VLAN_TYPE || octets.len() < TAGGED_LEN {
        return None;
    }
    if u16_at(octets, 16) != IPV4_TYPE {
        return None;
    }
    Some(&octets[TAGGED_LEN..])
}

// The IPv4 datagram of a frame.
fn ip_in(link_type: u16, octets: &[u8]) -> Option<&[u8]>
    ensures value { slice_shown result ≡ ip_in link_type octets.now }
{
    match link_type {
        ETHERNET => ethernet_ip(octets),
        RAW_IP => Some(octets),
        _ => None,
    }
}

// The channel whose datagrams go to this destination.
#[tactic(auto, using(std::proofs::lemmas::Bool::Decides::nat_tests))]
fn channel_at(profile: Profile, port: u16, to: u16) -> Option<Channel>
    ensures value { result ≡ channel_at profile port to }
{
    match profile {
        Profile::Main => {
            if to == port {
                return Some(Channel::Tunnel);
            }
        }
        Profile::Simple => {
            if to == port {
                return Some(Channel::Media);
            }
            if u32::from(to) == u32::from(port) + 1 {
                return Some(Channel::Control);
            }
        }
    }
    None
}

/// The UDP datagram that a frame's octets carry to a port, and its channel: in the Main Profile the tunnel, in the Simple Profile
/// media at the port and control at the next one. None where the frame isn't IPv4 and UDP as `Ip::read` reads it without its
/// checksums, where it goes elsewhere, and where its data have more than 2,048 octets.
pub fn datagram_in(
    link_type: u16,
    octets: &[u8],
    profile: Profile,
    port: u16,
) -> Option<(Channel, &[u8])>
    ensures value { datagram_shown result ≡ datagram_of profile port link_type octets.now }
    ensures within { IfSome result (λ datagram. length datagram.1.now ≤ MAX_DATAGRAM) }
{
    let octets = ip_in(link_type, octets)?;
    let Ok(ip) = Ip::read(octets, Sums::Skip) else {
        return None;
    };
    let payload = ip.payload();
    if payload.len() > MAX_DATAGRAM {
        return None;
    }
    let channel = channel_at(profile, port, ip.to_port())?;
    Some((channel, payload))
}
