use ipv4_udp::{Ip, IpBad, IpHead, Sums, write};
use std::test::Fail;

// 41 octets from 10.0.0.1 to 10.0.0.2, both ports 1,968.
static WORKED: [u8; 41] = [
    0x45, 0, 0, 0x29, 0, 0, 0x40, 0, 0x40, 0x11, 0x26, 0xc2, 10, 0, 0, 1, 10, 0, 0, 2, 0x07, 0xb0,
    0x07, 0xb0, 0, 0x15, 0xda, 0xdf, 0x80, 0x21, 0, 0, 0, 0, 0, 0, 0x10, 0x20, 0x30, 0x40, 0x41,
];

// Where an octet of the worked datagram is changed and to what, how many octets are read, and the first test that fails.
static REFUSED: [(usize, u8, usize, Sums, IpBad); 16] = [
    (0, 0x45, 19, Sums::Test, IpBad::Short),
    (0, 0x65, 41, Sums::Test, IpBad::Version),
    (0, 0x44, 41, Sums::Test, IpBad::Header),
    (0, 0x4f, 41, Sums::Test, IpBad::Header),
    (11, 0xc3, 41, Sums::Test, IpBad::HeaderSum),
    (9, 0x06, 41, Sums::Test, IpBad::HeaderSum),
    (0, 0x45, 40, Sums::Test, IpBad::Length),
    (3, 0x13, 41, Sums::Skip, IpBad::Length),
    (6, 0x60, 41, Sums::Skip, IpBad::Fragment),
    (7, 0x01, 41, Sums::Skip, IpBad::Fragment),
    (9, 0x06, 41, Sums::Skip, IpBad::Protocol),
    (3, 0x1b, 41, Sums::Skip, IpBad::UdpShort),
    (25, 0x07, 41, Sums::Test, IpBad::UdpLength),
    (25, 0x16, 41, Sums::Test, IpBad::UdpLength),
    (27, 0xde, 41, Sums::Test, IpBad::UdpSum),
    (40, 0x42, 41, Sums::Test, IpBad::UdpSum),
];

#[test]
fn the_first_test_that_fails_is_named(rt: HostRuntime) -> Result<(), Fail> {
    for (at, octet, len, sums, bad) in &REFUSED {
        let mut octets = WORKED;
        if let Some(place) = octets.get_mut(*at) {
            *place = *octet;
        }
        let read = Ip::read(octets.get(..*len).ok_or("len")?, *sums);
        assert!(rt; read.err() == Some(*bad));
    }
    assert!(rt; format!(in rt.alloc(); "{}", IpBad::HeaderSum)?.as_str() == "ip header sum");
    Ok(())
}

#[test]
fn a_datagram_is_read_field_by_field(rt: HostRuntime) -> Result<(), Fail> {
    // An IPv4 option, three octets behind the UDP datagram, and two behind the IPv4 datagram.
    let read = Ip::read(
        b"\x46\x10\x00\x25\x12\x34\x00\x00\x05\x11\x8d\x2c\xc0\xa8\x00\x01\xc0\xa8\x00\x02\x94\x04\x00\x00\x03\xe8\x07\xd0\x00\x0a\x0a\x65hi\x01\x02\x03\x04\x05",
        Sums::Test,
    )
    .ok()
    .ok_or("options")?;
    assert!(rt; (read.from(), read.to()) == (0xc0a80001, 0xc0a80002));
    assert!(rt; (read.from_port(), read.to_port()) == (1000, 2000));
    assert!(rt; read.payload() == b"hi".as_slice());
    // No checksum of UDP was made.
    let mut octets = WORKED;
    octets[26] = 0;
    octets[27] = 0;
    assert!(rt; Ip::read(&octets, Sums::Test).is_ok());
    Ok(())
}

#[test]
fn a_datagram_is_written_octet_by_octet(rt: HostRuntime) -> Result<(), Fail> {
    let head = IpHead {
        from: 0x0a000001,
        to: 0x0a000002,
        from_port: 1968,
        to_port: 1968,
    };
    let mut out = [0xff; 1588];
    let len = write(&head, &WORKED[28..], &mut out);
    assert!(rt; out.get(..len).ok_or("len")? == WORKED.as_slice());
    // A checksum that is computed as 0 is written with all bits set.
    let zeros = IpHead {
        from: 0,
        to: 0,
        from_port: 0,
        to_port: 0,
    };
    let len = write(&zeros, b"\xff\xda", &mut out);
    assert!(rt; len == 30);
    assert!(rt; (out[26], out[27]) == (0xff, 0xff));
    Ok(())
}
