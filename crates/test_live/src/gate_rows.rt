//! What gateways are told to do, and what has to come of them.

/// A command line; the letters of the packets that each link brings which is received on, and the moments of its clock;
/// which writes fail of each link that is sent on; after how many packets those give a request for number 1, or none
/// with 0; whether the second reads of the first two links wait for one another; which draws of random words fail; the
/// exit status; and of a link, by its place, what stands before each packet that it took, the letters of these packets,
/// numbered from 0, and the letter of number 1 where it was sent again.
#[derive(Clone, Copy)]
pub struct Row<'a> {
    pub line: &'a str,
    pub inputs: &'a [&'a [u8]],
    pub moments: &'a [u64],
    pub outputs: &'a [&'a [u64]],
    pub asks_after: usize,
    pub meet: bool,
    pub draws: &'a [u64],
    pub exit: u8,
    pub place: u8,
    pub head: &'a [u8],
    pub taken: &'a [u8],
    pub again: Option<u8>,
}

/// Three packets on one link, which go on over another.
const SINGLE: Row<'static> = Row {
    line: "rist gate 127.0.0.1:5000 127.0.0.1:5002",
    inputs: &[b"ABC"],
    moments: &[],
    outputs: &[&[]],
    asks_after: 0,
    meet: false,
    draws: &[],
    exit: 0,
    place: 1,
    head: b"",
    taken: b"ABC",
    again: None,
};

/// Two links that are sent on.
const PAIR: Row<'static> = Row {
    line: "rist gate 127.0.0.1:5000 127.0.0.1:5002 127.0.0.1:5004",
    outputs: &[&[], &[]],
    ..SINGLE
};

/// A passphrase, for which thirty-two random words are drawn.
const SEALED: Row<'static> = Row {
    line: "rist gate 127.0.0.1:5000 127.0.0.1:5002 --profile main --pass x",
    exit: 11,
    taken: b"",
    ..SINGLE
};

/// Packets that come in the Simple Profile and go on in the tunnel, in clear: the GRE header of a reduced datagram, and
/// the port of media twice.
const INTO_A_TUNNEL: Row<'static> = Row {
    line: "rist gate 127.0.0.1:5000 127.0.0.1:5003 --in-profile simple --profile main",
    head: b"\x00\x00\x88\xb6\x07\xb0\x07\xb0",
    ..SINGLE
};

/// The same under a passphrase: none of them is in clear.
const INTO_A_SEALED_TUNNEL: Row<'static> = Row {
    line: "rist gate 127.0.0.1:5000 127.0.0.1:5003 --in-profile simple --profile main --pass x",
    taken: b"",
    ..INTO_A_TUNNEL
};

/// Media of the Simple Profile where a tunnel is to come in: refused.
const NO_TUNNEL: Row<'static> = Row {
    line: "rist gate 127.0.0.1:5001 127.0.0.1:5002 --in-profile main --in-pass x",
    taken: b"",
    ..SINGLE
};

/// What is no line.
const NO_LINE: Row<'static> = Row {
    exit: 2,
    taken: b"",
    ..SINGLE
};

/// Two links that share three packets, one of them on both.
const SHARED: Row<'static> = Row {
    line: "rist gate 127.0.0.1:5000 127.0.0.1:5002 127.0.0.1:5004 --in 2",
    inputs: &[b"AC", b"BC"],
    place: 2,
    ..SINGLE
};

/// Packets that are played out 2 s later, before their link ends, and a request for the second, which is answered, where
/// no steps are kept and where some are; and two links that share packets, in turns and behind a lock, and where each
/// has to be read while the other is; and the greatest that options may be.
pub const ENDS: &[Row<'static>] = &[
    Row {
        moments: &[0, 0, 0, 2_000_000],
        asks_after: 3,
        again: Some(b'B'),
        ..SINGLE
    },
    Row {
        line: "rist gate 127.0.0.1:5000 127.0.0.1:5002 --keep 64",
        moments: &[0, 0, 0, 2_000_000],
        asks_after: 3,
        again: Some(b'B'),
        ..SINGLE
    },
    SHARED,
    Row {
        meet: true,
        ..SHARED
    },
    Row {
        line: "rist gate 127.0.0.1:5000 127.0.0.1:5002 127.0.0.1:5004 --in 2 --keep 64",
        ..SHARED
    },
    Row {
        line: "rist gate 127.0.0.1:5000 127.0.0.1:5002 127.0.0.1:5004 --in 2 --keep 64",
        meet: true,
        ..SHARED
    },
    PAIR,
    Row {
        line: "rist gate 127.0.0.1:5000 127.0.0.1:5002 --delay 30000 --span 16384 --restart 60000 --drift \
               --store 65536 --hold 1000",
        ..SINGLE
    },
    INTO_A_TUNNEL,
    Row {
        line: "rist gate 127.0.0.1:5000 127.0.0.1:5003 --in-profile simple --profile main --keep 64",
        ..INTO_A_TUNNEL
    },
    INTO_A_SEALED_TUNNEL,
    NO_TUNNEL,
];

/// Receivings on two links that share three packets, where each has to be read while the other is, in turns and behind a
/// lock. What is taken is what their sink then holds.
pub const RECEIVINGS: &[Row<'static>] = &[
    Row {
        line: "rist recv out 127.0.0.1:5000 127.0.0.1:5002",
        outputs: &[],
        meet: true,
        ..SHARED
    },
    Row {
        line: "rist recv out 127.0.0.1:5000 127.0.0.1:5002 --keep 64",
        outputs: &[],
        meet: true,
        ..SHARED
    },
];

/// A first write that fails, where no other link is there to send on, and where one is.
pub const BREAKS: &[Row<'static>] = &[
    Row {
        outputs: &[&[0]],
        exit: 6,
        taken: b"",
        ..SINGLE
    },
    Row {
        outputs: &[&[0], &[]],
        place: 2,
        ..PAIR
    },
];

/// The first random word of the receiver, and the first and the last of the sender, that can't be had; and of an end that
/// alone has a passphrase the last, and one behind it, which isn't drawn.
pub const DRAWS: &[Row<'static>] = &[
    Row {
        draws: &[0],
        ..SEALED
    },
    Row {
        draws: &[16],
        ..SEALED
    },
    Row {
        draws: &[31],
        ..SEALED
    },
    Row {
        draws: &[15],
        exit: 11,
        ..INTO_A_SEALED_TUNNEL
    },
    Row {
        draws: &[16],
        ..INTO_A_SEALED_TUNNEL
    },
    Row {
        draws: &[15],
        exit: 11,
        ..NO_TUNNEL
    },
    Row {
        draws: &[16],
        ..NO_TUNNEL
    },
];

/// One link of three that can't be opened; and what is no line.
pub const REFUSALS: &[Row<'static>] = &[
    Row {
        outputs: &[],
        exit: 3,
        taken: b"",
        ..SINGLE
    },
    Row {
        line: "rist gate --in 1 127.0.0.1:5000",
        ..NO_LINE
    },
    Row {
        line: "rist gate 127.0.0.1:5000 127.0.0.1:5002 --in 2",
        ..NO_LINE
    },
    Row {
        line: "rist gate 127.0.0.1:5001 127.0.0.1:5003 --in-profile simple --profile main",
        ..NO_LINE
    },
];
