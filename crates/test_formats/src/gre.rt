use gre_tunnel::{DATAGRAM, FULL, Gre, GreBad, KEEPALIVE, Tunnel, write};
use std::test::Fail;

/// Headers, and the key, the sequence number, the protocol and the length that are read of each.
static READ: [(&[u8], Option<u32>, Option<u32>, u16, usize); 5] = [
    (b"\x00\x00\x88\xb6\x07\xb0", None, None, DATAGRAM, 4),
    (
        b"\x10\x00\x88\xb5\x00\x00\x00\x07",
        None,
        Some(7),
        KEEPALIVE,
        8,
    ),
    (
        b"\x30\x40\x88\xb6\x01\x02\x03\x04\x00\x00\x01\x00a",
        Some(0x01020304),
        Some(256),
        DATAGRAM,
        12,
    ),
    (b"\x00\x00\x08\x00\x45", None, None, FULL, 4),
    // The ignored bits are all set.
    (b"\x03\xf8\x88\xb5", None, None, KEEPALIVE, 4),
];

#[test]
fn a_header_is_read_field_by_field(rt: HostRuntime) {
    for (octets, key, sequence, protocol, rest) in &READ {
        let header = Gre {
            key: *key,
            sequence: *sequence,
            protocol: *protocol,
            rest: *rest,
        };
        assert!(rt; Gre::read(octets) == Ok(header));
    }
}

/// Octets that are no header, and the first test that fails.
static REFUSED: [(&[u8], GreBad); 12] = [
    (b"\x00\x00\x88", GreBad::Short),
    (b"\x80\x01\x88\xb6", GreBad::Version),
    (b"\x80\x00\x88\xb6", GreBad::Checksum),
    (b"\xc0\x00\x88\xb6", GreBad::Checksum),
    (b"\x60\x00\x88\xb6", GreBad::Reserved),
    (b"\x08\x00\x88\xb6", GreBad::Reserved),
    (b"\x04\x00\x88\xb6", GreBad::Reserved),
    (b"\x20\x00\x88\xb6\x00\x00\x00\x00", GreBad::KeyedNoSequence),
    (b"\x10\x00\x88\xb7\x00\x00\x00", GreBad::Short),
    (
        b"\x30\x00\x88\xb6\x00\x00\x00\x00\x00\x00\x00",
        GreBad::Short,
    ),
    (b"\x00\x00\x88\xb7", GreBad::Protocol),
    (b"\x00\x00\x86\xdd", GreBad::Protocol),
];

#[test]
fn the_first_test_that_fails_is_named(rt: HostRuntime) {
    for (octets, bad) in &REFUSED {
        assert!(rt; Gre::read(octets).err() == Some(*bad));
    }
}

#[test]
fn a_header_is_written_octet_by_octet(rt: HostRuntime) -> Result<(), Fail> {
    let mut out = [0xff; 12];
    let len = write(Tunnel::Own, None, None, false, KEEPALIVE, &mut out);
    assert!(rt; out.get(..len).ok_or("len")? == b"\x00\x00\x88\xb5".as_slice());
    let key = Some(0x01020304);
    let len = write(Tunnel::Own, key, Some(256), true, DATAGRAM, &mut out);
    assert!(rt;
        out.get(..len).ok_or("len")?
            == b"\x30\x40\x88\xb6\x01\x02\x03\x04\x00\x00\x01\x00".as_slice()
    );
    Ok(())
}

#[test]
fn in_librists_tunnel_a_header_with_a_key_has_version_1(rt: HostRuntime) -> Result<(), Fail> {
    let mut out = [0xff; 12];
    let len = write(Tunnel::Librist, None, None, false, DATAGRAM, &mut out);
    assert!(rt; out.get(..len).ok_or("len")? == b"\x00\x00\x88\xb6".as_slice());
    for (long, first) in [(false, 0x08), (true, 0x48)] {
        let len = write(Tunnel::Librist, Some(7), Some(0), long, DATAGRAM, &mut out);
        assert!(rt; len == 12 && out[..2] == [0x30, first]);
    }
    Ok(())
}

#[test]
fn a_refusal_is_printed_by_its_name(rt: HostRuntime) -> Result<(), Fail> {
    let shown = format!(in rt.alloc(); "{}", GreBad::KeyedNoSequence)?;
    assert!(rt; shown.as_str() == "gre key without sequence");
    Ok(())
}
