use keepalive_msg::{KeepBad, Keepalive, read, write};
use std::test::Fail;

/// Octets and what is read of them.
static READ: [(&[u8], Result<Keepalive, KeepBad>); 4] = [
    (
        b"\x02\x00\x10\x20\x30\x40\x00\x00",
        Ok(Keepalive {
            mac: [2, 0, 16, 32, 48, 64],
            capabilities: 0,
            text: 0,
        }),
    ),
    (
        b"\x02\x00\x10\x20\x30\x40\x80\x01text",
        Ok(Keepalive {
            mac: [2, 0, 16, 32, 48, 64],
            capabilities: 32769,
            text: 4,
        }),
    ),
    (b"\x02\x00\x10\x20\x30\x40\x00", Err(KeepBad::Short)),
    (b"\x02\x00\x10", Err(KeepBad::Short)),
];

#[test]
fn a_message_is_read_field_by_field(rt: HostRuntime) {
    for (octets, answer) in &READ {
        assert!(rt; read(octets) == *answer);
    }
}

#[test]
fn an_end_writes_its_ssrc_as_an_address(rt: HostRuntime) -> Result<(), Fail> {
    let mut out = [0xff; 8];
    write(0x10203040, &mut out);
    assert!(rt; out == *b"\x02\x00\x10\x20\x30\x40\x00\x00");
    assert!(rt; format!(in rt.alloc(); "{}", KeepBad::Short)?.as_str() == "keepalive short");
    Ok(())
}
