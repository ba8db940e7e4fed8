//! Datagrams of several sessions in one tunnel.
ghost use Rattle.rist_wire.specs.Among.{ArePorts};

use crate::datagrams::{main_session, opener_of, secret_session};
use link_channels::Channel;
use rist_wire::{Item, Opener, WireBad};
use seq_unwrap::Width;
use std::test::Fail;

fn ports() -> [u16; 3]
    ensures ports { ArePorts result }
{
    [1968, 1970, 65534]
}

// What a datagram is taken as: the place of its port, and the payload's only octet, or why it is refused.
#[derive(Clone, Copy, Debug, PartialEq, Eq)]
enum Row {
    Media(u8, u8),
    Control(u8),
    Keepalive(u8),
    Refused(WireBad),
    Other,
}

fn row_of(opener: &mut Opener, octets: &[u8]) -> Row {
    let mut block = [0; 2048];
    if octets.len() > 2048 {
        return Row::Other;
    }
    block[..octets.len()].copy_from_slice(octets);
    match opener.take_any(&ports(), Channel::Tunnel, &mut block[..octets.len()]) {
        Ok((place, Item::Media(media))) => match media.payload() {
            [octet] => Row::Media(place, *octet),
            _ => Row::Other,
        },
        Ok((place, Item::Control(_))) => Row::Control(place),
        Ok((place, Item::Keepalive(_))) => Row::Keepalive(place),
        Err(bad) => Row::Refused(bad),
    }
}

// Datagrams for the ports 1968, 1970 and 65534, and for others.
static ROWS: [(&[u8], Row); 12] = [
    (
        b"\x00\x00\x88\xb6\x07\xb0\x07\xb0\x80\x21\x00\x00\x00\x00\x00\x00\x10\x20\x30\x40\x41",
        Row::Media(0, b'A'),
    ),
    (
        b"\x00\x00\x88\xb6\x07\xb2\x07\xb2\x80\x21\x00\x00\x00\x00\x00\x00\x20\x30\x40\x50\x42",
        Row::Media(1, b'B'),
    ),
    // The source port isn't read.
    (
        b"\x00\x00\x88\xb6\x07\xb0\x07\xb2\x80\x21\x00\x00\x00\x00\x00\x00\x20\x30\x40\x50\x42",
        Row::Media(1, b'B'),
    ),
    // A full datagram to 1968.
    (
        b"\x00\x00\x08\x00\x45\x00\x00\x29\x00\x00\x40\x00\x40\x11\x26\xc2\x0a\x00\x00\x01\x0a\x00\x00\x02\x07\xb0\x07\xb0\x00\x15\xda\xdf\x80\x21\x00\x00\x00\x00\x00\x00\x10\x20\x30\x40\x41",
        Row::Media(0, b'A'),
    ),
    (
        b"\x00\x00\x88\xb6\x07\xb1\x07\xb1\x80\xc9\x00\x01\x00\x00\x00\x07",
        Row::Control(0),
    ),
    (
        b"\x00\x00\x88\xb6\xff\xff\xff\xff\x80\xc9\x00\x01\x00\x00\x00\x07",
        Row::Control(2),
    ),
    (
        b"\x00\x00\x88\xb5\x02\x00\x10\x20\x30\x40\x00\x00",
        Row::Keepalive(0),
    ),
    (
        b"\x00\x00\x88\xb6\x07\xb4\x07\xb4\x80\x21\x00\x00\x00\x00\x00\x00\x20\x30\x40\x50\x42",
        Row::Refused(WireBad::Port),
    ),
    (
        b"\x00\x00\x88\xb6\x07\xaf\x07\xaf\x80\xc9\x00\x01\x00\x00\x00\x07",
        Row::Refused(WireBad::Port),
    ),
    (
        b"\x00\x00\x88\xb6\x00\x00\x00\x00\x80",
        Row::Refused(WireBad::Port),
    ),
    (b"\x00\x00\x88\xb6\x07\xb0", Row::Refused(WireBad::Stub)),
    (
        b"\x30\x00\x88\xb6\x00\x00\x00\x01\x00\x00\x00\x00\x51\x74\xfc\xec",
        Row::Refused(WireBad::Sealed),
    ),
];

#[test]
fn a_datagram_is_told_at_the_place_of_its_port(rt: HostRuntime) -> Result<(), Fail> {
    let mut opener = opener_of(rt.alloc(), &main_session(None, 128, Width::W16))?;
    for (octets, row) in &ROWS {
        assert_eq!(rt; row_of(&mut opener, octets), *row);
    }
    Ok(())
}

// A keyed datagram to 1968, by another implementation (OpenSSL 3.0), and the same with one bit of the destination turned,
// which is turned in its text too: 1970.
#[test]
fn what_is_enciphered_is_told_at_the_place_of_its_port(rt: HostRuntime) -> Result<(), Fail> {
    let mut opener = opener_of(rt.alloc(), &secret_session(128))?;
    let first =
        b"\x30\x00\x88\xb6\x00\x00\x00\x01\x00\x00\x00\x00\x51\x74\xfc\xec\xb4\xdd\xf6\x6f\x0d\x72\xb6\x64\x32\x18\xa1\xba\x0f";
    assert_eq!(rt; row_of(&mut opener, first), Row::Media(0, b'A'));
    let second =
        b"\x30\x00\x88\xb6\x00\x00\x00\x01\x00\x00\x00\x00\x51\x74\xfc\xee\xb4\xdd\xf6\x6f\x0d\x72\xb6\x64\x32\x18\xa1\xba\x0f";
    assert_eq!(rt; row_of(&mut opener, second), Row::Media(1, b'A'));
    Ok(())
}
