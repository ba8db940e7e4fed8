//! Lines of a split that are taken and refused.
use crate::words::{PLAIN, none_of, reads};
use gre_tunnel::Tunnel;
use link_channels::Profile;
use rist_words::{Line, SessionWords, SplitLine};
use std::alloc::Global;
use std::test::Fail;

/// What a line of a split sets beside its outputs.
#[derive(Clone, Copy)]
struct SplitWords {
    session: SessionWords<'static>,
    delay: u64,
    span: u64,
    restart: u64,
    drift: bool,
    pcap: Option<u16>,
}

/// A session of the Main Profile without options.
const MAIN: SessionWords<'static> = SessionWords {
    profile: Profile::Main,
    ..PLAIN
};

/// The same in librist's tunnel.
const LIBRIST: SessionWords<'static> = SessionWords {
    profile: Profile::Main,
    tunnel: Tunnel::Librist,
    echo: true,
    ..PLAIN
};

/// Nothing beside the outputs.
const UNSET: SplitWords = SplitWords {
    session: MAIN,
    delay: 1000,
    span: 2048,
    restart: 0,
    drift: false,
    pcap: None,
};

/// All options, at their least.
const LEAST: SplitWords = SplitWords {
    session: SessionWords {
        pass: Some("p"),
        ..LIBRIST
    },
    delay: 1,
    span: 1,
    restart: 0,
    drift: true,
    pcap: Some(1),
};

/// All options, at their greatest.
const GREATEST: SplitWords = SplitWords {
    session: SessionWords {
        pass: Some("-x"),
        bits: 256,
        ..MAIN
    },
    delay: 30_000,
    span: 16_384,
    restart: 60_000,
    drift: false,
    pcap: Some(65_535),
};

/// Lines that split `-`, with the ports and the names of their outputs and what else they set.
static SPLITS: [(&str, &[u16], &[&str], SplitWords); 14] = [
    ("rist split - 1968=a", &[1968], &["a"], UNSET),
    (
        "rist split - 1968=a,1970=b",
        &[1968, 1970],
        &["a", "b"],
        UNSET,
    ),
    (
        "rist split - 1970=b,1968=a",
        &[1970, 1968],
        &["b", "a"],
        UNSET,
    ),
    ("rist split - 2=a,65534=b", &[2, 65_534], &["a", "b"], UNSET),
    ("rist split - 0001968=a", &[1968], &["a"], UNSET),
    ("rist split - 1968=a=b", &[1968], &["a=b"], UNSET),
    ("rist split - 1968==", &[1968], &["="], UNSET),
    (
        "rist split - 1968=1970=b,1970=-",
        &[1968, 1970],
        &["1970=b", "-"],
        UNSET,
    ),
    (
        "rist split - 2=a,4=b,6=c,8=d,10=e,12=f,14=g,16=h",
        &[2, 4, 6, 8, 10, 12, 14, 16],
        &["a", "b", "c", "d", "e", "f", "g", "h"],
        UNSET,
    ),
    (
        "rist split - 1968=a --tunnel librist",
        &[1968],
        &["a"],
        SplitWords {
            session: LIBRIST,
            ..UNSET
        },
    ),
    (
        "rist split - 1968=a --udp 5001 --pcap",
        &[1968],
        &["a"],
        SplitWords {
            pcap: Some(5001),
            ..UNSET
        },
    ),
    (
        "rist split --drift - --tunnel librist 1968=a --pass p --bits 128 --delay 1 --span=1 --restart 0 --pcap --udp 1",
        &[1968],
        &["a"],
        LEAST,
    ),
    (
        "rist split - 1968=a --tunnel own --pass=-x --bits 256 --delay 30000 --span 16384 --restart 60000 --udp 65535 --pcap",
        &[1968],
        &["a"],
        GREATEST,
    ),
    ("rist split -- - 1968=a", &[1968], &["a"], UNSET),
];

static NO_SPLITS: [&str; 46] = [
    "rist split",
    "rist split -",
    "rist split - ",
    "rist split  1968=a",
    "rist split - 1968=a 1970=b",
    "rist split - 1968=a,1968=b",
    "rist split - 1968=a,1970=b,1968=c",
    "rist split - 1968=a,01968=b",
    "rist split - 1968=a,1970=a",
    "rist split - 1968=a,1970=b,1972=b",
    "rist split - 1969=a",
    "rist split - 1968=a,1971=b",
    "rist split - 0=a",
    "rist split - 1=a",
    "rist split - 65535=a",
    "rist split - 65536=a",
    "rist split - +1968=a",
    "rist split - =a",
    "rist split - x=a",
    "rist split - 1968=",
    "rist split - 1968=,1970=b",
    "rist split - 1968",
    "rist split - a",
    "rist split - ,",
    "rist split - 1968=a,",
    "rist split - ,1968=a",
    "rist split - 1968=a,,1970=b",
    "rist split - 1968=a,b",
    "rist split - 1968=a;1970=b,",
    "rist split - 2=a,4=b,6=c,8=d,10=e,12=f,14=g,16=h,18=i",
    "rist split - 1968=a --profile main",
    "rist split - 1968=a --profile=simple",
    "rist split - 1968=a --port 1968",
    "rist split - 1968=a --full",
    "rist split - 1968=a --echo",
    "rist split - 1968=a --pcap",
    "rist split - 1968=a --udp 5000",
    "rist split - 1968=a --pcap --udp 0",
    "rist split - 1968=a --pcap --udp 65536",
    "rist split - 1968=a --pass=",
    "rist split - 1968=a --bits 192",
    "rist split - 1968=a --tunnel gre",
    "rist split - 1968=a --delay 0",
    "rist split - 1968=a --span 16385",
    "rist split - 1968=a --restart 60001",
    "rist split --help",
];

fn is_split(
    alloc: Global,
    text: &str,
    ports: &[u16],
    names: &[&'static str],
    words: SplitWords,
) -> Result<bool, Fail> {
    let line = SplitLine {
        capture: "-",
        ports: Vec::from_slice(alloc, ports)?,
        names: Vec::from_slice(alloc, names)?,
        session: SessionWords {
            port: first_of(ports),
            ..words.session
        },
        delay: words.delay,
        span: words.span,
        restart: words.restart,
        drift: words.drift,
        pcap: words.pcap,
    };
    reads(alloc, text, Ok(Line::Split(line)))
}

/// The first port.
fn first_of(ports: &[u16]) -> u16 {
    match ports {
        [port, ..] => *port,
        [] => 0,
    }
}

fn all_splits(alloc: Global) -> Result<bool, Fail> {
    for (text, ports, names, words) in &SPLITS {
        if !is_split(alloc, text, ports, names, *words)? {
            return Ok(false);
        }
    }
    Ok(true)
}

#[test]
fn words_of_a_split_are_a_line_or_refused(rt: HostRuntime) -> Result<(), Fail> {
    let alloc = rt.alloc();
    assert!(rt; all_splits(alloc)?);
    assert!(rt; none_of(alloc, &NO_SPLITS)?);
    Ok(())
}
