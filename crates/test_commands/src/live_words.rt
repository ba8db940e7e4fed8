//! Command lines of a receiving and of a gateway that are taken and refused.
use crate::words::{PLAIN, STREAM, UNWATCHED, none_of, reads, specs, weights};
use gre_tunnel::Tunnel;
use link_channels::Profile;
use request_rules::NackKind;
use rist_words::{
    GateLine, Line, ReceiverWords, RecvLine, ServingWords, SessionWords, StreamWords, WatchingWords,
};
use std::alloc::Global;
use std::test::Fail;

pub const RECEIVER: ReceiverWords = ReceiverWords {
    delay: 1000,
    span: 2048,
    restart: 0,
    drift: false,
    reorder: 25,
    least: 50,
    tries: 8,
    nack: NackKind::Range,
    own: 7,
};

pub const SERVING: ServingWords = ServingWords {
    turns: 1 << 40,
    idle: 0,
    keep: 0,
};

/// Each option at its least.
const LOW: (ReceiverWords, ServingWords) = (
    ReceiverWords {
        delay: 1,
        span: 1,
        restart: 0,
        drift: false,
        reorder: 0,
        least: 5,
        tries: 0,
        nack: NackKind::Range,
        own: 0,
    },
    ServingWords {
        turns: 1,
        idle: 0,
        keep: 0,
    },
);

/// Each option of a receiver at its greatest.
pub const HIGH_RECEIVER: ReceiverWords = ReceiverWords {
    delay: 30_000,
    span: 16_384,
    restart: 60_000,
    drift: true,
    reorder: 1000,
    least: 1000,
    tries: 32,
    nack: NackKind::Mask,
    own: 4_294_967_295,
};

/// Each option at its greatest.
const HIGH: (ReceiverWords, ServingWords) = (
    HIGH_RECEIVER,
    ServingWords {
        turns: 1 << 40,
        idle: 86_400_000,
        keep: 65_536,
    },
);

/// Lines of a receiving in the Simple Profile with what they set.
static RECEIVED: [(&str, (ReceiverWords, ServingWords)); 3] = [
    (
        "rist recv - 127.0.0.1:2 127.0.0.1:65534",
        (RECEIVER, SERVING),
    ),
    (
        "rist recv - 127.0.0.1:2 127.0.0.1:65534 --delay 1 --span 1 --reorder 0 --least 5 --tries 0 \
         --nack range --own 0 --turns 1 --idle 0 --keep 0",
        LOW,
    ),
    (
        "rist recv --drift --delay 30000 --span=16384 --restart 60000 --reorder 1000 --least 1000 \
         --tries 32 --nack=mask --own 4294967295 - \
         127.0.0.1:2 --turns 1099511627776 --idle 86400000 127.0.0.1:65534 --keep=65536",
        HIGH,
    ),
];

/// Words that are no line of a receiving: an option one past its least or its greatest, or one of another command; and
/// links.
static NOT_RECEIVED: [&str; 34] = [
    "rist recv",
    "rist recv -",
    "rist recv  127.0.0.1:2",
    "rist recv - 127.0.0.1:3",
    "rist recv - 127.0.0.1:0",
    "rist recv - 127.0.0.1:2 --delay 0",
    "rist recv - 127.0.0.1:2 --delay 30001",
    "rist recv - 127.0.0.1:2 --restart 60001",
    "rist recv - 127.0.0.1:2 --span 0",
    "rist recv - 127.0.0.1:2 --span 16385",
    "rist recv - 127.0.0.1:2 --reorder 1001",
    "rist recv - 127.0.0.1:2 --reorder=-1",
    "rist recv - 127.0.0.1:2 --least 4",
    "rist recv - 127.0.0.1:2 --least 1001",
    "rist recv - 127.0.0.1:2 --tries 33",
    "rist recv - 127.0.0.1:2 --nack ranges",
    "rist recv - 127.0.0.1:2 --nack=",
    "rist recv - 127.0.0.1:2 --own 4294967296",
    "rist recv - 127.0.0.1:2 --turns 0",
    "rist recv - 127.0.0.1:2 --turns 1099511627777",
    "rist recv - 127.0.0.1:2 --idle 86400001",
    "rist recv - 127.0.0.1:2 --keep 65537",
    "rist recv - 127.0.0.1:2 --keep 1 --keep 1",
    "rist recv - 127.0.0.1:2 --port 1967",
    "rist recv - 127.0.0.1:2 --pass x",
    "rist recv - 127.0.0.1:2 --in 1",
    "rist recv - 127.0.0.1:2 --nulls",
    "rist recv - 127.0.0.1:2 --full",
    "rist recv - 127.0.0.1:2 --call",
    "rist recv - 127.0.0.1:2 --profile main --listen",
    "rist recv - 127.0.0.1:2 --linger 1",
    "rist recv - 127.0.0.1:2 --store 1",
    "rist recv - 1.1.1.1:2 1.1.1.1:2 1.1.1.1:2 1.1.1.1:2 1.1.1.1:2 1.1.1.1:2 1.1.1.1:2 1.1.1.1:2 1.1.1.1:2 1.1.1.1:2 1.1.1.1:2 1.1.1.1:2 1.1.1.1:2 1.1.1.1:2 1.1.1.1:2 1.1.1.1:2 1.1.1.1:2",
    "rist recv --help",
];

/// Words that are no line of a gateway.
static NOT_GATES: [&str; 38] = [
    "rist gate",
    "rist gate 127.0.0.1:2",
    "rist gate 127.0.0.1:2 --in 1",
    "rist gate 127.0.0.1:2 127.0.0.1:4 --in 0",
    "rist gate 127.0.0.1:2 127.0.0.1:4 --in 2",
    "rist gate 127.0.0.1:2 127.0.0.1:4 127.0.0.1:6 --in 3",
    "rist gate 127.0.0.1:2 127.0.0.1:4 --share 1:1",
    "rist gate 127.0.0.1:2 127.0.0.1:4 127.0.0.1:6 --share 1",
    "rist gate 127.0.0.1:2 127.0.0.1:4 127.0.0.1:6 --share 1:1:1",
    "rist gate 127.0.0.1:2 127.0.0.1:4 127.0.0.1:6 --in 2 --share 1:1",
    "rist gate 127.0.0.1:2 127.0.0.1:4 --share 0",
    "rist gate 127.0.0.1:2 127.0.0.1:4 --share 101",
    "rist gate 127.0.0.1:2 127.0.0.1:5",
    "rist gate 127.0.0.1:2 127.0.0.1:4 --pass x",
    "rist gate 127.0.0.1:2 127.0.0.1:4 --nulls",
    "rist gate 127.0.0.1:2 127.0.0.1:4 --wide",
    "rist gate 127.0.0.1:2 127.0.0.1:4 --full",
    "rist gate 127.0.0.1:2 127.0.0.1:4 --flow 1",
    "rist gate 127.0.0.1:2 127.0.0.1:4 --first 65536",
    "rist gate 127.0.0.1:2 127.0.0.1:4 --store 65537",
    "rist gate 127.0.0.1:2 127.0.0.1:4 --hold 1001",
    "rist gate 127.0.0.1:2 127.0.0.1:4 --gap 1",
    "rist gate 127.0.0.1:2 127.0.0.1:4 --linger 1",
    "rist gate 127.0.0.1:3 127.0.0.1:4 --in-profile simple --profile main",
    "rist gate 127.0.0.1:2 127.0.0.1:5 --in-profile main",
    "rist gate 127.0.0.1:2 127.0.0.1:5 127.0.0.1:7 --in-profile simple --profile main --in 2",
    "rist gate 127.0.0.1:2 127.0.0.1:4 --in-profile simple --in-pass p",
    "rist gate 127.0.0.1:2 127.0.0.1:4 --in-profile simple --in-full --profile main",
    "rist gate 127.0.0.1:2 127.0.0.1:4 --in-profile simple --in-tunnel own --profile main",
    "rist gate 127.0.0.1:2 127.0.0.1:4 --in-profile main --in-tunnel gre",
    "rist gate 127.0.0.1:2 127.0.0.1:4 --in-profile main --in-bits 192",
    "rist gate 127.0.0.1:2 127.0.0.1:4 --in-profile main --in-port 1969",
    "rist gate 127.0.0.1:2 127.0.0.1:4 --in-profile Main",
    "rist gate 127.0.0.1:2 127.0.0.1:4 --in-port 1970",
    "rist gate 127.0.0.1:2 127.0.0.1:4 --profile main --in-full",
    "rist gate 127.0.0.1:2 127.0.0.1:4 --profile main --in-pass p",
    "rist gate 127.0.0.1:2 127.0.0.1:4 --profile main --in-tunnel own",
    "rist gate 1.1.1.1:2 1.1.1.1:2 1.1.1.1:2 1.1.1.1:2 1.1.1.1:2 1.1.1.1:2 1.1.1.1:2 1.1.1.1:2 1.1.1.1:2 1.1.1.1:2 1.1.1.1:2 1.1.1.1:2 1.1.1.1:2 1.1.1.1:2 1.1.1.1:2 1.1.1.1:2 1.1.1.1:2",
];

fn is_received(
    alloc: Global,
    text: &str,
    receiver: ReceiverWords,
    serving: ServingWords,
) -> Result<bool, Fail> {
    let line = RecvLine {
        out: "-",
        links: specs(alloc, &[2, 65_534])?,
        calls: false,
        session: PLAIN,
        receiver,
        serving,
        watching: UNWATCHED,
    };
    reads(alloc, text, Ok(Line::Recv(line)))
}

/// What is kept and told of a run, with statistics at their least and at their greatest.
static WATCHED: [(&str, WatchingWords<'static>); 3] = [
    (
        "rist recv - 127.0.0.1:2 127.0.0.1:65534 --record a",
        WatchingWords {
            capture: Some("a"),
            ..UNWATCHED
        },
    ),
    (
        "rist recv - 127.0.0.1:2 127.0.0.1:65534 --stats 100 --stats-file=b",
        WatchingWords {
            stats: Some(100),
            stats_file: Some("b"),
            ..UNWATCHED
        },
    ),
    (
        "rist recv - 127.0.0.1:2 127.0.0.1:65534 --stats=3600000 --record=a",
        WatchingWords {
            capture: Some("a"),
            stats: Some(3_600_000),
            ..UNWATCHED
        },
    ),
];

/// Lines of a receiving that are none for what is to be kept or told.
static NOT_WATCHED: [&str; 6] = [
    "rist recv - 127.0.0.1:2 --record=",
    "rist recv - 127.0.0.1:2 --record a --record a",
    "rist recv - 127.0.0.1:2 --stats 99",
    "rist recv - 127.0.0.1:2 --stats 3600001",
    "rist recv - 127.0.0.1:2 --stats-file b",
    "rist send a 127.0.0.1:2 --record a",
];

fn all_watched(alloc: Global) -> Result<bool, Fail> {
    for (text, watching) in &WATCHED {
        let line = RecvLine {
            out: "-",
            links: specs(alloc, &[2, 65_534])?,
            calls: false,
            session: PLAIN,
            receiver: RECEIVER,
            serving: SERVING,
            watching: *watching,
        };
        if !reads(alloc, text, Ok(Line::Recv(line)))? {
            return Ok(false);
        }
    }
    Ok(true)
}

fn all_received(alloc: Global) -> Result<bool, Fail> {
    for (text, (receiver, serving)) in &RECEIVED {
        if !is_received(alloc, text, *receiver, *serving)? {
            return Ok(false);
        }
    }
    Ok(true)
}

/// What a line of a gateway sets beside its links and their weights.
#[derive(Clone, Copy)]
struct GateWords {
    incoming: SessionWords<'static>,
    session: SessionWords<'static>,
    stream: StreamWords,
    store: u64,
    hold: u64,
}

const UNSET: GateWords = GateWords {
    incoming: PLAIN,
    session: PLAIN,
    stream: STREAM,
    store: 4096,
    hold: 20,
};

/// One session for all links, with all that the Main Profile has.
const MAIN: SessionWords<'static> = SessionWords {
    profile: Profile::Main,
    pass: Some("x"),
    full: true,
    echo: true,
    ..PLAIN
};

/// The Simple Profile before, and librist's tunnel behind.
const INTO_A_TUNNEL: GateWords = GateWords {
    session: SessionWords {
        profile: Profile::Main,
        pass: Some("p"),
        bits: 256,
        tunnel: Tunnel::Librist,
        echo: true,
        ..PLAIN
    },
    ..UNSET
};

/// A tunnel before, and the Simple Profile behind, with a sender that asks for the round-trip time.
const OUT_OF_A_TUNNEL: GateWords = GateWords {
    incoming: SessionWords {
        profile: Profile::Main,
        port: 1970,
        pass: Some("p"),
        bits: 256,
        full: true,
        tunnel: Tunnel::Own,
        echo: false,
    },
    session: SessionWords {
        echo: true,
        ..PLAIN
    },
    ..UNSET
};

/// A tunnel of librist's before, and another port behind.
const OUT_OF_LIBRISTS: GateWords = GateWords {
    incoming: SessionWords {
        profile: Profile::Main,
        tunnel: Tunnel::Librist,
        echo: true,
        ..PLAIN
    },
    session: SessionWords {
        port: 1970,
        ..PLAIN
    },
    ..UNSET
};

const SET: GateWords = GateWords {
    incoming: MAIN,
    session: MAIN,
    stream: StreamWords {
        nulls: true,
        wide: true,
        flow: 4_294_967_294,
        first: 65_536,
    },
    store: 1,
    hold: 1,
};

/// Lines of a gateway with the ports of their inputs and outputs, the weights and what else they set.
static GATES: [(&str, &[u16], &[u16], Option<&[u8]>, GateWords); 7] = [
    (
        "rist gate 127.0.0.1:2 127.0.0.1:4 127.0.0.1:6",
        &[2],
        &[4, 6],
        None,
        UNSET,
    ),
    (
        "rist gate --share=100:1 127.0.0.1:2 127.0.0.1:4 127.0.0.1:6 --in=1",
        &[2],
        &[4, 6],
        Some(&[100, 1]),
        UNSET,
    ),
    (
        "rist gate 127.0.0.1:2 127.0.0.1:4 127.0.0.1:65535 --in 2 --share 7 --profile main --pass x --nulls --wide --full --echo \
         --flow 4294967294 --first 65536 --store 1 --hold 1",
        &[2, 4],
        &[65_535],
        Some(&[7]),
        SET,
    ),
    (
        "rist gate 127.0.0.1:2 127.0.0.1:5 --in-profile simple --profile main --tunnel librist --pass p --bits 256",
        &[2],
        &[5],
        None,
        INTO_A_TUNNEL,
    ),
    (
        "rist gate 127.0.0.1:3 127.0.0.1:5 127.0.0.1:4 --in 2 --in-profile main --in-port 1970 --in-pass p --in-bits 256 --in-full --echo \
         --in-tunnel own",
        &[3, 5],
        &[4],
        None,
        OUT_OF_A_TUNNEL,
    ),
    (
        "rist gate --port 1970 127.0.0.1:3 --in-tunnel=librist 127.0.0.1:4 --in-profile=main",
        &[3],
        &[4],
        None,
        OUT_OF_LIBRISTS,
    ),
    (
        "rist gate 127.0.0.1:2 127.0.0.1:4 --in-profile simple --in-bits 128 --in-port 1968",
        &[2],
        &[4],
        None,
        UNSET,
    ),
];

fn is_gate(
    alloc: Global,
    text: &str,
    inputs: &[u16],
    outputs: &[u16],
    share: Option<&[u8]>,
    words: GateWords,
) -> Result<bool, Fail> {
    let line = GateLine {
        inputs: specs(alloc, inputs)?,
        outputs: specs(alloc, outputs)?,
        incoming: words.incoming,
        session: words.session,
        receiver: RECEIVER,
        serving: SERVING,
        stream: words.stream,
        store: words.store,
        hold: words.hold,
        share: weights(alloc, share)?,
        watching: UNWATCHED,
    };
    reads(alloc, text, Ok(Line::Gate(line)))
}

fn all_gates(alloc: Global) -> Result<bool, Fail> {
    for (text, inputs, outputs, share, words) in &GATES {
        if !is_gate(alloc, text, inputs, outputs, *share, *words)? {
            return Ok(false);
        }
    }
    Ok(true)
}

#[test]
fn words_over_links_are_a_line_or_refused(rt: HostRuntime) -> Result<(), Fail> {
    let alloc = rt.alloc();
    assert!(rt; all_received(alloc)?);
    assert!(rt; none_of(alloc, &NOT_RECEIVED)?);
    assert!(rt; all_watched(alloc)?);
    assert!(rt; none_of(alloc, &NOT_WATCHED)?);
    assert!(rt; all_gates(alloc)?);
    assert!(rt; none_of(alloc, &NOT_GATES)?);
    Ok(())
}
