//! Command lines that are taken and refused.
use gre_tunnel::Tunnel;
use link_channels::Profile;
use outside_net::LinkSpec;
use rist_words::{
    CountLine, DrillLine, Line, PackLine, Refused, ReplayLine, SendLine, SessionWords, ShowLine,
    StreamWords, WatchingWords, line,
};
use std::alloc::Global;
use std::net::{IpAddr, Ipv4Addr};
use std::test::Fail;

pub const PLAIN: SessionWords<'static> = SessionWords {
    profile: Profile::Simple,
    port: 1968,
    pass: None,
    bits: 128,
    full: false,
    tunnel: Tunnel::Own,
    echo: false,
};

pub const STREAM: StreamWords = StreamWords {
    nulls: false,
    wide: false,
    flow: 270_544_960,
    first: 0,
};

/// Nothing is kept or told of a run.
pub const UNWATCHED: WatchingWords<'static> = WatchingWords {
    capture: None,
    stats: None,
    stats_file: None,
};

/// The words between blanks.
pub fn words_of(alloc: Global, text: &str) -> Result<Vec<String>, Fail> {
    let mut words = Vec::new(alloc);
    for word in text.split(' ') {
        words.push(String::from_str(alloc, word)?)?;
    }
    Ok(words)
}

/// Whether the words between blanks are this line, or are refused.
pub fn reads(
    alloc: Global,
    text: &str,
    line_or_refused: Result<Line<'_>, Refused>,
) -> Result<bool, Fail> {
    let words = words_of(alloc, text)?;
    match line(alloc, words.as_slice()) {
        Err(Refused::Memory) => Err(Fail::new("out of memory")),
        read => Ok(read == line_or_refused),
    }
}

/// Lines with the names, the delay and the span that they give.
static REPLAYS: [(&str, &str, &str, u64, u64); 14] = [
    ("rist replay - -", "-", "-", 1000, 2048),
    ("rist replay a b", "a", "b", 1000, 2048),
    ("rist replay --delay 5 a b", "a", "b", 5, 2048),
    ("rist replay a --span=7 b", "a", "b", 1000, 7),
    (
        "rist replay a b --delay 30000 --span 16384",
        "a",
        "b",
        30_000,
        16_384,
    ),
    ("rist replay a b --span 1 --delay=1", "a", "b", 1, 1),
    ("rist replay a b --delay 0100", "a", "b", 100, 2048),
    (
        "rist replay a b --delay 00000000000000000009",
        "a",
        "b",
        9,
        2048,
    ),
    ("rist replay -- -a --delay", "-a", "--delay", 1000, 2048),
    ("rist replay --span 9 -- -a -b", "-a", "-b", 1000, 9),
    ("rist replay 3:1 a=b", "3:1", "a=b", 1000, 2048),
    ("rist replay replay show", "replay", "show", 1000, 2048),
    ("other replay a help", "a", "help", 1000, 2048),
    (" replay a b", "a", "b", 1000, 2048),
];

/// Lines of a simulated run with their numbers.
static DRILLS: [(&str, u64, u32, u8, u16); 5] = [
    ("rist drill 7 200 2 100", 7, 200, 2, 100),
    ("rist drill 0 0 1 0", 0, 0, 1, 0),
    (
        "rist drill 18446744073709551615 5000 4 1000",
        18_446_744_073_709_551_615,
        5000,
        4,
        1000,
    ),
    (
        "rist drill 00000000000000000009 0010 01 01000",
        9,
        10,
        1,
        1000,
    ),
    ("rist drill -- 1 2 3 4", 1, 2, 3, 4),
];

static REFUSED: [&str; 102] = [
    "",
    "rist",
    "rist play a b",
    "rist replay",
    "rist replay a",
    "rist replay a b c",
    "rist replay a ",
    "rist replay  b",
    "rist replay a b --span 0",
    "rist replay a b --span 16385",
    "rist replay a b --delay 0",
    "rist replay a b --restart 60001",
    "rist replay a b --drift 1",
    "rist replay a b --drift --drift",
    "rist replay a b --delay 30001",
    "rist replay a b --delay +5",
    "rist replay a b --delay -5",
    "rist replay a b --delay=-5",
    "rist replay a b --delay 000000000000000000009",
    "rist replay a b --delay 99999999999999999999",
    "rist replay a b --delay=",
    "rist replay a b --delay 5x",
    "rist replay a b --delay",
    "rist replay a b --delay --span 5",
    "rist replay a b --delay 5 --delay 5",
    "rist replay a b --del 5",
    "rist replay a -b",
    "rist replay a b --flow 2",
    "rist --delay 5 replay a b",
    "rist show",
    "rist show a b",
    "rist show a --delay 5",
    "rist pack a b --flow 3",
    "rist pack a b --flow 4294967296",
    "rist pack a b --first 65536",
    "rist pack a b --profile main --wide --first 4294967296",
    "rist pack a b --profile main --wide=1",
    "rist pack a b --profile main --wide --wide",
    "rist pack a b --wide",
    "rist pack a b --nulls",
    "rist pack a b --full",
    "rist show a --nulls",
    "rist show a --profile main --full",
    "rist replay a b --profile main --full",
    "rist show a --profile Main",
    "rist show a --port 3",
    "rist show a --port 0",
    "rist show a --port 65536",
    "rist show a --bits 192",
    "rist show a --pass x",
    "rist show a --profile main --pass=",
    "rist send a",
    "rist send a 127.0.0.1",
    "rist send a 127.0.0.1:",
    "rist replay a b --pcap",
    "rist replay a b --udp 1968",
    "rist replay a b --pcap --udp 0",
    "rist replay a b --pcap --udp 1969",
    "rist replay a b --pcap --udp 65536",
    "rist pack a b --pcap --udp 1968",
    "rist send a 127.0.0.1:0",
    "rist send a 127.0.0.1:65536",
    "rist send a 127.0.0.1:5001",
    "rist send a 127.0.0:5000",
    "rist send a 127.0.0.1.1:5000",
    "rist send a 127.0.0.256:5000",
    "rist send a 127.0..1:5000",
    "rist send a 127.0.0.+1:5000",
    "rist send a 127.0.0.1:5000:1",
    "rist send a 127.0.0.1:5000 --share 1:1",
    "rist send a 127.0.0.1:5000 127.0.0.1:5002 --share 1",
    "rist send a 127.0.0.1:5000 127.0.0.1:5002 --share 1:101",
    "rist send a 127.0.0.1:5000 127.0.0.1:5002 --share 0:1",
    "rist send a 127.0.0.1:5000 --linger 60001",
    "rist send a 127.0.0.1:5000 --turns 1099511627777",
    "rist send a 127.0.0.1:5000 --store 0",
    "rist send a 127.0.0.1:5000 --lead 1001",
    "rist send a 127.0.0.1:5000 --tunnel librist",
    "rist send a 127.0.0.1:5000 --tunnel own",
    "rist send a 127.0.0.1:5000 --profile main --tunnel gre",
    "rist recv a 127.0.0.1:5000 --echo",
    "rist send a 1.1.1.1:2 1.1.1.1:2 1.1.1.1:2 1.1.1.1:2 1.1.1.1:2 1.1.1.1:2 1.1.1.1:2 1.1.1.1:2 1.1.1.1:2 1.1.1.1:2 1.1.1.1:2 1.1.1.1:2 1.1.1.1:2 1.1.1.1:2 1.1.1.1:2 1.1.1.1:2 1.1.1.1:2",
    "rist drill",
    "rist drill 7 200 2",
    "rist drill 7 200 2 100 1",
    "rist drill 18446744073709551616 200 2 100",
    "rist drill 7 5001 2 100",
    "rist drill 7 200 0 100",
    "rist drill 7 200 5 100",
    "rist drill 7 200 2 1001",
    "rist drill +7 200 2 100",
    "rist drill 7 -200 2 100",
    "rist drill 7 200 2 100%",
    "rist drill 000000000000000000007 200 2 100",
    "rist drill 7 200 2 ",
    "rist drill 7 200 2 100 --port 1968",
    "rist drill 7 200 2 100 --profile=main",
    "rist drill --count 200 7 2 100",
    "rist --help",
    "rist replay --help",
    "rist help",
    "rist --version",
];

fn is_replay<'a>(
    alloc: Global,
    text: &str,
    capture: &'a str,
    out: &'a str,
    delay: u64,
    span: u64,
) -> Result<bool, Fail> {
    let line = ReplayLine {
        capture,
        out,
        session: PLAIN,
        delay,
        span,
        restart: 0,
        drift: false,
        pcap: None,
    };
    reads(alloc, text, Ok(Line::Replay(line)))
}

fn all_replays(alloc: Global) -> Result<bool, Fail> {
    for (text, capture, out, delay, span) in &REPLAYS {
        if !is_replay(alloc, text, capture, out, *delay, *span)? {
            return Ok(false);
        }
    }
    Ok(true)
}

/// Whether each of these is refused.
pub fn none_of(alloc: Global, texts: &[&str]) -> Result<bool, Fail> {
    for text in texts {
        if !reads(alloc, text, Err(Refused::Usage))? {
            return Ok(false);
        }
    }
    Ok(true)
}

fn shown(session: SessionWords<'_>, pcap: Option<u16>) -> Result<Line<'_>, Refused> {
    Ok(Line::Show(ShowLine {
        capture: "a",
        session,
        pcap,
    }))
}

fn all_shown(alloc: Global) -> Result<bool, Fail> {
    let sealed = SessionWords {
        profile: Profile::Main,
        port: 65_534,
        pass: Some("-x"),
        bits: 256,
        full: false,
        tunnel: Tunnel::Librist,
        echo: true,
    };
    let text = "rist show --profile main a --port 65534 --pass=-x --bits=256 --tunnel librist";
    Ok(
        reads(
            alloc,
            "rist show a --bits 128 --profile simple",
            shown(PLAIN, None),
        )? && reads(alloc, text, shown(sealed, None))?
            && reads(
                alloc,
                "rist show --udp 65534 a --pcap",
                shown(PLAIN, Some(65_534)),
            )?,
    )
}

fn all_reported(alloc: Global) -> Result<bool, Fail> {
    let plain = ReplayLine {
        capture: "a",
        out: "b.html",
        session: PLAIN,
        delay: 1000,
        span: 2048,
        restart: 0,
        drift: false,
        pcap: None,
    };
    let set = ReplayLine {
        delay: 30_000,
        span: 8,
        restart: 60_000,
        drift: true,
        pcap: Some(2),
        ..plain
    };
    let text = "rist report --pcap --drift a --udp 2 b.html --restart 60000 --span=8 --delay 30000";
    Ok(
        reads(alloc, "rist report a b.html", Ok(Line::Report(plain)))?
            && reads(alloc, text, Ok(Line::Report(set)))?
            && reads(alloc, "rist report a", Err(Refused::Usage))?,
    )
}

fn all_counted(alloc: Global) -> Result<bool, Fail> {
    let plain = CountLine {
        capture: "a",
        session: PLAIN,
        delay: 1000,
        span: 2048,
        restart: 0,
        drift: false,
        pcap: None,
    };
    let set = CountLine {
        delay: 30_000,
        span: 8,
        restart: 60_000,
        drift: true,
        pcap: Some(2),
        ..plain
    };
    let text = "rist count --pcap --drift a --udp 2 --restart 60000 --span=8 --delay 30000";
    Ok(
        reads(alloc, "rist count a", Ok(Line::Count(plain)))?
            && reads(alloc, text, Ok(Line::Count(set)))?
            && reads(alloc, "rist count a b", Err(Refused::Usage))?,
    )
}

fn all_drills(alloc: Global) -> Result<bool, Fail> {
    for (text, number, count, links, loss) in &DRILLS {
        let line = DrillLine {
            number: *number,
            count: *count,
            links: *links,
            loss: *loss,
        };
        if !reads(alloc, text, Ok(Line::Drill(line)))? {
            return Ok(false);
        }
    }
    Ok(true)
}

fn all_packed(alloc: Global) -> Result<bool, Fail> {
    let plain = PackLine {
        source: "a",
        capture: "b",
        session: PLAIN,
        stream: STREAM,
        gap: 1000,
    };
    let full = PackLine {
        session: SessionWords {
            profile: Profile::Main,
            full: true,
            ..PLAIN
        },
        stream: StreamWords {
            nulls: true,
            wide: true,
            flow: 2,
            first: 4_294_967_295,
        },
        gap: 1_000_000,
        ..plain
    };
    let text =
        "rist pack a b --first 4294967295 --flow=2 --full --gap 1000000 --nulls --profile=main --wide";
    Ok(
        reads(alloc, "rist pack a b", Ok(Line::Pack(plain)))?
            && reads(alloc, text, Ok(Line::Pack(full)))?,
    )
}

/// Links of this machine, by their ports.
pub fn specs(alloc: Global, ports: &[u16]) -> Result<Vec<LinkSpec>, Fail> {
    let mut links = Vec::new(alloc);
    for port in ports {
        links.push(LinkSpec::at(IpAddr::V4(Ipv4Addr::LOCALHOST), *port))?;
    }
    Ok(links)
}

pub fn weights(alloc: Global, share: Option<&[u8]>) -> Result<Option<Vec<u8>>, Fail> {
    match share {
        Some(weights) => Ok(Some(Vec::from_slice(alloc, weights)?)),
        None => Ok(None),
    }
}

/// The line of these links, and of these weights.
fn send_line(
    alloc: Global,
    session: SessionWords<'static>,
    ports: &[u16],
    share: Option<&[u8]>,
) -> Result<SendLine<'static>, Fail> {
    Ok(SendLine {
        source: "a",
        links: specs(alloc, ports)?,
        listens: false,
        session,
        stream: STREAM,
        gap: 1000,
        lead: 0,
        store: 4096,
        hold: 20,
        share: weights(alloc, share)?,
        linger: 1000,
        turns: 1 << 40,
        watching: UNWATCHED,
    })
}

fn all_sent(alloc: Global) -> Result<bool, Fail> {
    let main = SessionWords {
        profile: Profile::Main,
        echo: true,
        ..PLAIN
    };
    let plain = send_line(alloc, PLAIN, &[2, 65_534], Some(&[100, 1]))?;
    let full = SendLine {
        listens: true,
        gap: 1,
        lead: 1000,
        store: 65_536,
        hold: 1000,
        linger: 0,
        turns: 1,
        ..send_line(alloc, main, &[65_535], None)?
    };
    let shared = "rist send a 127.0.0.1:2 127.000.0.1:65534 --share 100:1";
    let text =
        "rist send a --profile main --gap 1 --lead 1000 --echo --tunnel own --listen --store 65536 \
                --hold 1000 --linger 0 --turns 1 127.0.0.1:65535";
    Ok(reads(alloc, shared, Ok(Line::Send(plain)))? && reads(alloc, text, Ok(Line::Send(full)))?)
}

#[test]
fn words_are_a_line_or_refused(rt: HostRuntime) -> Result<(), Fail> {
    let alloc = rt.alloc();
    assert!(rt; all_replays(alloc)?);
    assert!(rt; all_shown(alloc)?);
    assert!(rt; all_counted(alloc)?);
    assert!(rt; all_reported(alloc)?);
    assert!(rt; all_packed(alloc)?);
    assert!(rt; all_sent(alloc)?);
    assert!(rt; all_drills(alloc)?);
    assert!(rt; none_of(alloc, &REFUSED)?);
    assert!(rt; is_no_word_refused(alloc));
    Ok(())
}

/// Whether the line of no word is refused.
fn is_no_word_refused(alloc: Global) -> bool {
    line(alloc, &[]) == Err(Refused::Usage)
}

#[test]
fn each_refusal_has_its_text(rt: HostRuntime) -> Result<(), Fail> {
    for (refused, text) in [
        (Refused::Memory, "out of memory"),
        (Refused::Usage, "usage"),
    ] {
        let written = format!(in rt.alloc(); "{refused}")?;
        assert!(rt; written.as_str() == text);
    }
    Ok(())
}
