//! Command lines of a receiving of several flows that are taken and refused.
use crate::live_words::{HIGH_RECEIVER, RECEIVER, SERVING};
use crate::words::{PLAIN, UNWATCHED, none_of, reads, specs};
use gre_tunnel::Tunnel;
use link_channels::Profile;
use rist_words::{FanLine, Line, ReceiverWords, ServingWords, SessionWords};
use std::alloc::Global;
use std::test::Fail;

/// What a line sets beside its outputs and its links.
#[derive(Clone, Copy)]
struct FanWords {
    calls: bool,
    session: SessionWords<'static>,
    receiver: ReceiverWords,
    serving: ServingWords,
}

const UNSET: FanWords = FanWords {
    calls: false,
    session: SessionWords {
        profile: Profile::Main,
        ..PLAIN
    },
    receiver: RECEIVER,
    serving: SERVING,
};

const GREATEST: FanWords = FanWords {
    calls: true,
    session: SessionWords {
        profile: Profile::Main,
        port: 65_534,
        pass: Some("p"),
        bits: 256,
        full: true,
        tunnel: Tunnel::Librist,
        echo: true,
    },
    receiver: HIGH_RECEIVER,
    serving: ServingWords {
        turns: 1 << 40,
        idle: 86_400_000,
        keep: 0,
    },
};

/// Lines with two outputs on two links, with the ports, the names and what they set.
static FANS: [(&str, [u16; 2], [&str; 2], FanWords); 3] = [
    (
        "rist fan 1968=a,1970=- 127.0.0.1:2 127.0.0.1:65535",
        [1968, 1970],
        ["a", "-"],
        UNSET,
    ),
    (
        "rist fan --idle=0 1968=a=b,2=c 127.0.0.1:2 --tunnel own 127.0.0.1:65535",
        [1968, 2],
        ["a=b", "c"],
        UNSET,
    ),
    (
        "rist fan --full --pass p --bits 256 --tunnel=librist --drift --delay 30000 --span=16384 \
         --restart 60000 --reorder 1000 --least 1000 --tries 32 --nack=mask --own 4294967295 65534=a,2=b \
         127.0.0.1:2 --turns 1099511627776 --call --idle 86400000 127.0.0.1:65535",
        [65_534, 2],
        ["a", "b"],
        GREATEST,
    ),
];

/// Words that are no line of a receiving of several flows: outputs and links, options one past their range, and those of
/// other commands.
static NO_FANS: [&str; 24] = [
    "rist fan",
    "rist fan 1968=a",
    "rist fan 127.0.0.1:2",
    "rist fan a 127.0.0.1:2",
    "rist fan 1967=a 127.0.0.1:2",
    "rist fan 0=a 127.0.0.1:2",
    "rist fan 1968= 127.0.0.1:2",
    "rist fan 1968=a, 127.0.0.1:2",
    "rist fan 1968=a,1968=b 127.0.0.1:2",
    "rist fan 1968=a,1970=a 127.0.0.1:2",
    "rist fan 2=a,4=b,6=c,8=d,10=e,12=f,14=g,16=h,18=i 127.0.0.1:2",
    "rist fan 1968=a 127.0.0.1:0",
    "rist fan 1968=a 127.0.0.1:65536",
    "rist fan 1968=a 127.0.0.1:2 --profile main",
    "rist fan 1968=a 127.0.0.1:2 --port 1968",
    "rist fan 1968=a 127.0.0.1:2 --keep 1",
    "rist fan 1968=a 127.0.0.1:2 --pass=",
    "rist fan 1968=a 127.0.0.1:2 --bits 192",
    "rist fan 1968=a 127.0.0.1:2 --tunnel gre",
    "rist fan 1968=a 127.0.0.1:2 --delay 0",
    "rist fan 1968=a 127.0.0.1:2 --echo",
    "rist fan 1968=a 127.0.0.1:2 --in 1",
    "rist fan 1968=a 1.1.1.1:2 1.1.1.1:2 1.1.1.1:2 1.1.1.1:2 1.1.1.1:2 1.1.1.1:2 1.1.1.1:2 1.1.1.1:2 1.1.1.1:2 1.1.1.1:2 1.1.1.1:2 1.1.1.1:2 1.1.1.1:2 1.1.1.1:2 1.1.1.1:2 1.1.1.1:2 1.1.1.1:2",
    "rist fan --help",
];

fn is_fan(
    alloc: Global,
    text: &str,
    ports: [u16; 2],
    names: [&'static str; 2],
    words: FanWords,
) -> Result<bool, Fail> {
    let line = FanLine {
        ports: Vec::from_slice(alloc, &ports)?,
        names: Vec::from_slice(alloc, &names)?,
        links: specs(alloc, &[2, 65_535])?,
        calls: words.calls,
        session: SessionWords {
            port: ports[0],
            ..words.session
        },
        receiver: words.receiver,
        serving: words.serving,
        watching: UNWATCHED,
    };
    reads(alloc, text, Ok(Line::Fan(line)))
}

fn all_fans(alloc: Global) -> Result<bool, Fail> {
    for (text, ports, names, words) in &FANS {
        if !is_fan(alloc, text, *ports, *names, *words)? {
            return Ok(false);
        }
    }
    Ok(true)
}

#[test]
fn words_of_several_flows_are_a_line_or_refused(rt: HostRuntime) -> Result<(), Fail> {
    let alloc = rt.alloc();
    assert!(rt; all_fans(alloc)?);
    assert!(rt; none_of(alloc, &NO_FANS)?);
    Ok(())
}
