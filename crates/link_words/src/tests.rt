//! Words of lines, and what they become.
use super::*;
use std::alloc::Global;
use std::fmt::Write;
use std::net::{IpAddr, Ipv4Addr, Ipv6Addr};
use std::test::Fail;

/// Names and their addresses: one of IPv4, one of each kind, and two of IPv6.
fn names() -> [(&'static str, IpAddr); 5] {
    [
        ("studio.example.net", IpAddr::V4(Ipv4Addr::new(10, 9, 2, 1))),
        (
            "encoder-2",
            IpAddr::V6(Ipv6Addr::new(0x2001, 0xdb8, 0, 0, 0, 0, 0, 9)),
        ),
        ("encoder-2", IpAddr::V4(Ipv4Addr::new(192, 0, 2, 7))),
        (
            "far.example.net",
            IpAddr::V6(Ipv6Addr::new(0x2001, 0xdb8, 0, 0, 0, 0, 0, 7)),
        ),
        (
            "far.example.net",
            IpAddr::V6(Ipv6Addr::new(0x2001, 0xdb8, 0, 0, 0, 0, 0, 8)),
        ),
    ]
}

/// Lines, and what they become, or why a link has no address.
static LINES: [(&str, Result<&str, &str>); 56] = [
    // Words with neither a name nor a URL are left as they are.
    ("rist send a 1.2.3.4:5000", Ok("rist send a 1.2.3.4:5000")),
    (
        "rist send a 01.2.3.4:05000",
        Ok("rist send a 01.2.3.4:05000"),
    ),
    ("rist send a 0x7f.1:5000", Ok("rist send a 0x7f.1:5000")),
    ("rist send a 1.2.3:5000", Ok("rist send a 1.2.3:5000")),
    ("rist send a encoder-2", Ok("rist send a encoder-2")),
    ("rist send a encoder-2:x", Ok("rist send a encoder-2:x")),
    (
        "rist send a udp://1.2.3.4:5",
        Ok("rist send a udp://1.2.3.4:5"),
    ),
    ("rist recv", Ok("rist recv")),
    ("rist", Ok("rist")),
    ("rist recv --help", Ok("rist recv --help")),
    // A name.
    (
        "rist send a encoder-2:5000",
        Ok("rist send a 192.0.2.7:5000"),
    ),
    (
        "rist recv a 1.2.3.4:5000 studio.example.net:5002",
        Ok("rist recv a 1.2.3.4:5000 10.9.2.1:5002"),
    ),
    (
        "rist gate encoder-2:5000 encoder-2:6000",
        Ok("rist gate 192.0.2.7:5000 192.0.2.7:6000"),
    ),
    (
        "rist fan 1000=a encoder-2:5000",
        Ok("rist fan 1000=a 192.0.2.7:5000"),
    ),
    (
        "rist send a elsewhere:1 encoder-2:2",
        Err("no address: elsewhere"),
    ),
    // Other positions, values of options, and other commands.
    (
        "rist recv encoder-2:1 encoder-2:2",
        Ok("rist recv encoder-2:1 192.0.2.7:2"),
    ),
    (
        "rist send --stats-file encoder-2:1 a encoder-2:2",
        Ok("rist send --stats-file encoder-2:1 a 192.0.2.7:2"),
    ),
    (
        "rist send --pass=encoder-2:1 a encoder-2:2",
        Ok("rist send --pass=encoder-2:1 a 192.0.2.7:2"),
    ),
    (
        "rist send a --wide encoder-2:2 --echo",
        Ok("rist send a --wide 192.0.2.7:2 --echo"),
    ),
    (
        "rist recv --call a encoder-2:2",
        Ok("rist recv --call a 192.0.2.7:2"),
    ),
    (
        "rist recv a --call encoder-2:2",
        Ok("rist recv a --call 192.0.2.7:2"),
    ),
    (
        "rist send a --listen rist://1.2.3.4:2",
        Ok("rist send a --listen 1.2.3.4:2"),
    ),
    (
        "rist send - -- encoder-2:2",
        Ok("rist send - -- 192.0.2.7:2"),
    ),
    (
        "rist send -- --a encoder-2:2",
        Ok("rist send -- --a 192.0.2.7:2"),
    ),
    ("rist split a encoder-2:1", Ok("rist split a encoder-2:1")),
    // A URL.
    (
        "rist send a rist://1.2.3.4:5000",
        Ok("rist send a 1.2.3.4:5000"),
    ),
    (
        "rist send a rist://encoder-2:5000",
        Ok("rist send a 192.0.2.7:5000"),
    ),
    (
        "rist recv a rist://@0.0.0.0:5000",
        Ok("rist recv a 0.0.0.0:5000"),
    ),
    (
        "rist send a rist://@1.2.3.4:5000",
        Err("cannot take @ in rist://@1.2.3.4:5000"),
    ),
    (
        "rist send a rist://1.2.3.4",
        Err("no HOST:PORT in rist://1.2.3.4"),
    ),
    // An address of IPv6 in brackets.
    (
        "rist send a rist://[::1]:5000",
        Ok("rist send a [::1]:5000"),
    ),
    (
        "rist recv a rist://@[2001:DB8::10.9.2.1]:5000?buffer=500",
        Ok("rist recv --delay=500 a [2001:DB8::10.9.2.1]:5000"),
    ),
    ("rist send a [::1]:5000", Ok("rist send a [::1]:5000")),
    (
        "rist send a rist://::1:5000",
        Err("no HOST:PORT in rist://::1:5000"),
    ),
    (
        "rist send a rist://[::1]5000",
        Err("no HOST:PORT in rist://[::1]5000"),
    ),
    (
        "rist send a rist://[1::2::3]:5000",
        Err("no HOST:PORT in rist://[1::2::3]:5000"),
    ),
    (
        "rist send a rist://[10.9.2.1]:5000",
        Err("no HOST:PORT in rist://[10.9.2.1]:5000"),
    ),
    // A name of IPv6 alone: its first address.
    (
        "rist send a far.example.net:5000",
        Ok("rist send a [2001:db8::7]:5000"),
    ),
    // What stays with its link.
    (
        "rist send a rist://1.2.3.4:5000?from=10.9.2.1 rist://1.2.3.4:5000?ttl=8&from=10.9.3.1",
        Ok("rist send a 1.2.3.4:5000?from=10.9.2.1 1.2.3.4:5000?ttl=8&from=10.9.3.1"),
    ),
    (
        "rist send a rist://encoder-2:5000?from=10.9.2.1&secret=b",
        Ok("rist send --pass=b a 192.0.2.7:5000?from=10.9.2.1"),
    ),
    (
        "rist send a encoder-2:5000?from=10.9.2.1",
        Ok("rist send a 192.0.2.7:5000?from=10.9.2.1"),
    ),
    (
        "rist send a 1.2.3.4:5000?from=10.9.2.1",
        Ok("rist send a 1.2.3.4:5000?from=10.9.2.1"),
    ),
    (
        "rist gate 1.2.3.4:5000 rist://far.example.net:5000?from=2001:db8::1",
        Ok("rist gate 1.2.3.4:5000 [2001:db8::7]:5000?from=2001:db8::1"),
    ),
    (
        "rist send a encoder-2:5000?fro=10.9.2.1",
        Err("cannot take fro= in encoder-2:5000"),
    ),
    (
        "rist send a rist://u:p@1.2.3.4:5000",
        Err("no HOST:PORT in rist://u:p@1.2.3.4:5000"),
    ),
    (
        "rist send a rist://1.2.3.4:5000/x?secret=b",
        Err("no HOST:PORT in rist://1.2.3.4:5000/x"),
    ),
    // Its parameters.
    (
        "rist recv a rist://1.2.3.4:5000?buffer=500&secret=b=c",
        Ok("rist recv --delay=500 --pass=b=c a 1.2.3.4:5000"),
    ),
    (
        "rist recv -- a rist://1.2.3.4:5000?reorder-buffer=30&rtt-min=60&max-retries=9",
        Ok("rist recv --reorder=30 --least=60 --tries=9 -- a 1.2.3.4:5000"),
    ),
    (
        "rist recv a rist://1.2.3.4:5000?buffer=500 rist://1.2.3.4:5002?buffer=500",
        Ok("rist recv --delay=500 a 1.2.3.4:5000 1.2.3.4:5002"),
    ),
    (
        "rist recv a rist://1.2.3.4:5000?buffer=500 rist://1.2.3.4:5002?buffer=600",
        Ok("rist recv --delay=500 --delay=600 a 1.2.3.4:5000 1.2.3.4:5002"),
    ),
    (
        "rist send a rist://1.2.3.4:5000?secret=b&aes-type=256",
        Ok("rist send --pass=b --bits=256 a 1.2.3.4:5000"),
    ),
    (
        "rist send a rist://1.2.3.4:5000?buffer=500",
        Err("cannot take buffer= in rist://1.2.3.4:5000"),
    ),
    (
        "rist gate rist://1.2.3.4:5000?buffer=500 1.2.3.4:6000",
        Err("cannot take buffer= in rist://1.2.3.4:5000"),
    ),
    (
        "rist recv a elsewhere:2 rist://1.2.3.4:5000?secret=b&cname=c",
        Err("cannot take cname= in rist://1.2.3.4:5000"),
    ),
    (
        "rist recv a rist://1.2.3.4:5000?secret",
        Err("cannot take secret= in rist://1.2.3.4:5000"),
    ),
    (
        "rist recv a rist://1.2.3.4:5000?",
        Err("cannot take = in rist://1.2.3.4:5000"),
    ),
];

fn words(alloc: Global, line: &str) -> Result<Vec<String>, Fail> {
    let mut words = Vec::new(alloc);
    for word in line.split(' ') {
        words.push(String::from_str(alloc, word)?)?;
    }
    Ok(words)
}

/// Whether a line becomes these words, or is refused by this text.
fn becomes(alloc: Global, line: &str, wanted: &Result<&str, &str>) -> Result<bool, Fail> {
    let rows = names();
    let mut names = Hosts(&rows);
    match (
        with_addresses(alloc, &mut names, words(alloc, line)?),
        wanted,
    ) {
        (Ok(found), Ok(wanted)) => Ok(found.as_slice() == words(alloc, wanted)?.as_slice()),
        (Err(refused), Err(wanted)) => {
            let mut text = String::new(alloc);
            write!(text, "{refused}")?;
            Ok(text.as_str() == *wanted)
        }
        _ => Ok(false),
    }
}

#[test]
fn each_line_has_an_address_for_a_name_or_is_refused(rt: HostRuntime) -> Result<(), Fail> {
    for (line, wanted) in &LINES {
        assert!(rt; becomes(rt.alloc(), line, wanted)?, "{line}");
    }
    Ok(())
}

#[test]
fn a_url_of_seventeen_parameters_is_refused(rt: HostRuntime) -> Result<(), Fail> {
    let mut line = String::from_str(rt.alloc(), "rist recv a rist://1.2.3.4:5000?buffer=1")?;
    for _ in 0..16 {
        line.push_str("&buffer=1")?;
    }
    let wanted = Err("more than 16 parameters in rist://1.2.3.4:5000");
    assert!(rt; becomes(rt.alloc(), line.as_str(), &wanted)?);
    Ok(())
}

#[test]
fn the_systems_own_name_has_an_address(rt: HostRuntime) -> Result<(), Fail> {
    let mut names = SystemNames(&rt);
    assert_eq!(rt;
        names.address("localhost"),
        Some(IpAddr::V4(Ipv4Addr::LOCALHOST))
    );
    Ok(())
}
