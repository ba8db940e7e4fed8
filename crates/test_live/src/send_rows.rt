//! What sendings are told to do, and what has to come of them.

/// A command line, how many octets its source has, the moments of its clock, whether its links know their peers, and which
/// writes of each fail; its exit status; and of a link the number, modulo 256, and the length of each media datagram that it took.
#[derive(Clone, Copy)]
pub struct Row<'a> {
    pub line: &'a str,
    pub octets: usize,
    pub moments: &'a [u64],
    pub knows: bool,
    pub failing: &'a [u64],
    pub exit: u8,
    pub link: u8,
    pub taken: &'a [(u8, usize)],
}

/// A millisecond passes from turn to turn.
const PASSING: &[u64] = &[7, 1007, 2007, 3007, 4007, 5007, 6007, 7007];

/// No time passes.
const STANDING: &[u64] = &[7];

/// Two whole pieces on one link.
const PLAIN: Row<'static> = Row {
    line: "rist send - 127.0.0.1:5000 --linger 0",
    octets: 2632,
    moments: PASSING,
    knows: true,
    failing: &[],
    exit: 0,
    link: 0,
    taken: &[(0, 1328), (1, 1328)],
};

/// Five pieces on two links that share them.
const SHARED: Row<'static> = Row {
    line: "rist send - 127.0.0.1:5000 127.0.0.1:5002 --linger 0 --share 3:1",
    octets: 6580,
    ..PLAIN
};

/// Two packets of a transport stream in a tunnel.
const TUNNELLED: Row<'static> = Row {
    octets: 376,
    ..PLAIN
};

/// A source of no piece, of one, and of one and an octet; numbers that wrap; and the greatest store.
pub const LENGTHS: &[Row<'static>] = &[
    Row {
        octets: 0,
        taken: &[],
        ..PLAIN
    },
    Row {
        octets: 1316,
        taken: &[(0, 1328)],
        ..PLAIN
    },
    Row {
        octets: 1317,
        taken: &[(0, 1328), (1, 13)],
        ..PLAIN
    },
    Row {
        line: "rist send --first 65535 - 127.0.0.1:5000 --linger 0",
        octets: 2633,
        taken: &[(255, 1328), (0, 1328), (1, 13)],
        ..PLAIN
    },
    Row {
        line: "rist send - 127.0.0.1:5000 --linger 0 --store 65536 --hold 1000",
        ..PLAIN
    },
];

/// A clock that stands still, turns that end before the second piece's time, and a first write that fails.
pub const BREAKS: &[Row<'static>] = &[
    Row {
        line: "rist send - 127.0.0.1:5000 --turns 5",
        moments: STANDING,
        exit: 13,
        taken: &[(0, 1328)],
        ..PLAIN
    },
    Row {
        line: "rist send - 127.0.0.1:5000 --turns 2 --gap 2000",
        exit: 13,
        taken: &[(0, 1328)],
        ..PLAIN
    },
    Row {
        failing: &[0],
        exit: 6,
        taken: &[],
        ..PLAIN
    },
];

/// What can't be opened, and what is no line.
pub const REFUSALS: &[Row<'static>] = &[
    Row {
        line: "rist send other 127.0.0.1:5000",
        exit: 3,
        taken: &[],
        ..PLAIN
    },
    Row {
        line: "rist send - 127.0.0.1:5000 127.0.0.1:5002 127.0.0.1:5004",
        exit: 3,
        taken: &[],
        ..PLAIN
    },
    Row {
        line: "rist send - 127.0.0.1:5001",
        exit: 2,
        taken: &[],
        ..PLAIN
    },
];

/// Of four pieces three go on the first link and one on the second.
pub const SHARES: &[Row<'static>] = &[
    Row {
        taken: &[(0, 1328), (1, 1328), (2, 1328), (4, 1328)],
        ..SHARED
    },
    Row {
        link: 1,
        taken: &[(3, 1328)],
        ..SHARED
    },
];

/// In a tunnel: in clear, in full datagrams, with numbers of 32 bits, without the null packet, and enciphered.
pub const TUNNELS: &[Row<'static>] = &[
    Row {
        line: "rist send - 127.0.0.1:5000 --linger 0 --profile main",
        taken: &[(0, 396)],
        ..TUNNELLED
    },
    Row {
        line: "rist send - 127.0.0.1:5000 --linger 0 --profile main --full",
        taken: &[(0, 420)],
        ..TUNNELLED
    },
    Row {
        line: "rist send - 127.0.0.1:5000 --linger 0 --profile main --wide",
        taken: &[(0, 404)],
        ..TUNNELLED
    },
    Row {
        line: "rist send - 127.0.0.1:5000 --linger 0 --profile main --nulls",
        taken: &[(0, 216)],
        ..TUNNELLED
    },
    Row {
        line: "rist send - 127.0.0.1:5000 --linger 0 --profile main --pass secret",
        taken: &[(0, 404)],
        ..TUNNELLED
    },
];

/// A sender that listens sends to nobody before it was called, and one that calls opens no link without a peer.
pub const LISTENING: &[Row<'static>] = &[
    Row {
        line: "rist send - 127.0.0.1:5000 --linger 0 --profile main --listen",
        knows: false,
        taken: &[],
        ..TUNNELLED
    },
    Row {
        line: "rist send - 127.0.0.1:5000 --linger 0 --profile main --listen",
        taken: &[(0, 396)],
        ..TUNNELLED
    },
    Row {
        line: "rist send - 127.0.0.1:5000 --linger 0 --profile main",
        knows: false,
        exit: 3,
        taken: &[],
        ..TUNNELLED
    },
];
