//! Words that write an address of UDP, words that begin as one and are none, and names of files.
use media_address::{AddressBad, Form, MediaAddress, Settings, address_of};
use std::net::IpAddr;
use std::test::Fail;

/// Words, and the form, the address, the port, the time to live and the local address that each has.
static TAKEN: [(&str, Form, [u8; 4], u16, Option<u8>, Option<[u8; 4]>); 10] = [
    (
        "udp://127.0.0.1:5000",
        Form::Udp,
        [127, 0, 0, 1],
        5000,
        None,
        None,
    ),
    (
        "rtp://239.1.1.1:5004",
        Form::Rtp,
        [239, 1, 1, 1],
        5004,
        None,
        None,
    ),
    ("udp://0.0.0.0:1", Form::Udp, [0, 0, 0, 0], 1, None, None),
    (
        "rtp://255.255.255.255:65535",
        Form::Rtp,
        [255, 255, 255, 255],
        65_535,
        None,
        None,
    ),
    // Leading zeros, as a link's address may have them.
    (
        "udp://010.0.0.09:0080",
        Form::Udp,
        [10, 0, 0, 9],
        80,
        None,
        None,
    ),
    (
        "udp://239.1.1.1:5004?ttl=1",
        Form::Udp,
        [239, 1, 1, 1],
        5004,
        Some(1),
        None,
    ),
    (
        "udp://239.1.1.1:5004?ttl=255",
        Form::Udp,
        [239, 1, 1, 1],
        5004,
        Some(255),
        None,
    ),
    (
        "rtp://239.1.1.1:5004?from=10.0.0.7",
        Form::Rtp,
        [239, 1, 1, 1],
        5004,
        None,
        Some([10, 0, 0, 7]),
    ),
    (
        "rtp://239.1.1.1:5004?from=10.0.0.7&ttl=16",
        Form::Rtp,
        [239, 1, 1, 1],
        5004,
        Some(16),
        Some([10, 0, 0, 7]),
    ),
    (
        "rtp://239.1.1.1:5004?ttl=16&from=10.0.0.7",
        Form::Rtp,
        [239, 1, 1, 1],
        5004,
        Some(16),
        Some([10, 0, 0, 7]),
    ),
];

#[test]
fn an_address_is_read_part_by_part(rt: HostRuntime) {
    for (word, form, host, port, ttl, from) in &TAKEN {
        let want = MediaAddress {
            form: *form,
            host: IpAddr::from(*host),
            port: *port,
            settings: Settings {
                ttl: *ttl,
                from: from.map(|from| IpAddr::from(from)),
            },
        };
        assert!(rt; address_of(word) == Ok(Some(want)), "{word}");
    }
}

/// Words, and the pieces of the address of IPv6, the port and the pieces of the local address that each has.
static OF_IPV6: [(&str, [u16; 8], u16, Option<[u16; 8]>); 6] = [
    ("udp://[::1]:5000", [0, 0, 0, 0, 0, 0, 0, 1], 5000, None),
    ("udp://[::]:1", [0; 8], 1, None),
    (
        "udp://[ff3e::8000:1]:5004?from=2001:db8::7",
        [0xff3e, 0, 0, 0, 0, 0, 0x8000, 1],
        5004,
        Some([0x2001, 0xdb8, 0, 0, 0, 0, 0, 7]),
    ),
    (
        "udp://[2001:0DB8:0:0:8:800:200C:417A]:80",
        [0x2001, 0xdb8, 0, 0, 8, 0x800, 0x200c, 0x417a],
        80,
        None,
    ),
    (
        "udp://[::13.1.68.3]:80",
        [0, 0, 0, 0, 0, 0, 0x0d01, 0x4403],
        80,
        None,
    ),
    (
        "udp://[1:2:3:4:5:6:7::]:80",
        [1, 2, 3, 4, 5, 6, 7, 0],
        80,
        None,
    ),
];

#[test]
fn an_address_of_ipv6_is_read_piece_by_piece(rt: HostRuntime) {
    for (word, host, port, from) in &OF_IPV6 {
        let want = MediaAddress {
            form: Form::Udp,
            host: IpAddr::from(*host),
            port: *port,
            settings: Settings {
                ttl: None,
                from: from.map(|from| IpAddr::from(from)),
            },
        };
        assert!(rt; address_of(word) == Ok(Some(want)), "{word}");
    }
}

static REFUSED: [(&str, AddressBad); 41] = [
    ("udp://", AddressBad::NoAddress),
    ("rtp://", AddressBad::NoAddress),
    ("udp://127.0.0.1", AddressBad::NoAddress),
    ("udp://127.0.0.1:", AddressBad::NoAddress),
    ("udp://127.0.0.1:0", AddressBad::NoAddress),
    ("udp://127.0.0.1:65536", AddressBad::NoAddress),
    ("udp://127.0.0.1:+80", AddressBad::NoAddress),
    ("udp://127.0.0.1:80/", AddressBad::NoAddress),
    ("udp://127.0.0.1:80:81", AddressBad::NoAddress),
    ("udp://127.0.0:80", AddressBad::NoAddress),
    ("udp://127.0.0.1.1:80", AddressBad::NoAddress),
    ("udp://127.0.0.256:80", AddressBad::NoAddress),
    ("udp://127.0..1:80", AddressBad::NoAddress),
    ("udp://localhost:80", AddressBad::NoAddress),
    ("udp://@239.1.1.1:80", AddressBad::NoAddress),
    ("udp://::1:80", AddressBad::NoAddress),
    ("udp://[::1]", AddressBad::NoAddress),
    ("udp://[::1]80", AddressBad::NoAddress),
    ("udp://[::1:80", AddressBad::NoAddress),
    ("udp://[127.0.0.1]:80", AddressBad::NoAddress),
    ("udp://[1::2::3]:80", AddressBad::NoAddress),
    ("udp://[1:2:3:4:5:6:7]:80", AddressBad::NoAddress),
    ("udp://[1:2:3:4:5:6:7:8::]:80", AddressBad::NoAddress),
    ("udp://[::12345]:80", AddressBad::NoAddress),
    ("udp://[fe80::1%eth0]:80", AddressBad::NoAddress),
    ("rtp://udp://127.0.0.1:80", AddressBad::NoAddress),
    ("udp://127.0.0.1?ttl=0", AddressBad::NoAddress),
    ("udp://127.0.0.1:80?", AddressBad::NoSetting),
    ("udp://127.0.0.1:80?ttl", AddressBad::NoSetting),
    ("udp://127.0.0.1:80?ttl=", AddressBad::NoSetting),
    ("udp://127.0.0.1:80?ttl=0", AddressBad::NoSetting),
    ("udp://127.0.0.1:80?ttl=256", AddressBad::NoSetting),
    ("udp://127.0.0.1:80?TTL=3", AddressBad::NoSetting),
    ("udp://127.0.0.1:80?from=eth0", AddressBad::NoSetting),
    ("udp://127.0.0.1:80?from=::1", AddressBad::NoSetting),
    ("udp://[::1]:80?from=127.0.0.1", AddressBad::NoSetting),
    ("udp://[::1]:80?ttl=3", AddressBad::NoSetting),
    ("udp://127.0.0.1:80?pkt_size=1316", AddressBad::NoSetting),
    ("udp://127.0.0.1:80?ttl=3&ttl=3", AddressBad::NoSetting),
    ("udp://127.0.0.1:80?ttl=3&", AddressBad::NoSetting),
    (
        "udp://127.0.0.1:80?ttl=3&from=10.0.0.7&ttl=3",
        AddressBad::NoSetting,
    ),
];

#[test]
fn a_word_that_begins_as_an_address_is_one_or_is_refused(rt: HostRuntime) {
    for (word, bad) in &REFUSED {
        assert!(rt; address_of(word) == Err(*bad), "{word}");
    }
}

#[test]
fn any_other_word_is_the_name_of_a_file(rt: HostRuntime) {
    for name in [
        "",
        "-",
        "udp",
        "udp:/127.0.0.1:80",
        "UDP://127.0.0.1:80",
        "Rtp://127.0.0.1:80",
        " udp://127.0.0.1:80",
        "./udp://127.0.0.1:80",
        "rist://127.0.0.1:80",
        "srt://127.0.0.1:80",
    ] {
        assert!(rt; address_of(name) == Ok(None), "{name}");
    }
}

#[test]
fn each_refusal_has_its_text(rt: HostRuntime) -> Result<(), Fail> {
    let shown = format!(in rt.alloc(); "{}; {}", AddressBad::NoAddress, AddressBad::NoSetting)?;
    assert!(rt;
        shown.as_str()
            == "no address a.b.c.d:port or [IPv6]:port; behind ? stands neither from= with an address of the same kind \
                nor ttl=1..255 for IPv4, or one twice"
    );
    Ok(())
}
