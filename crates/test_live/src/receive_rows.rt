//! What receivings are told to do, and what has to come of them.

/// The letters of the packets that a link brings, and which of its reads fail.
#[derive(Clone, Copy)]
pub struct Brings<'a> {
    pub letters: &'a [u8],
    pub failing: &'a [u64],
}

/// A command line, the links of its host, and which puts of the sink and draws of random words fail; its exit status;
/// what the sink holds that came back, or nothing where it still stands to be handed out; and, where it is told, the text
/// of what the receiver counted. Links come back where the sink does.
#[derive(Clone, Copy)]
pub struct Row<'a> {
    pub line: &'a str,
    pub links: &'a [Brings<'a>],
    pub puts: &'a [u64],
    pub draws: &'a [u64],
    pub exit: u8,
    pub written: Option<&'a [u8]>,
    pub counted: Option<&'a str>,
}

/// A link of three packets that never fails.
const WHOLE: Brings<'static> = Brings {
    letters: b"ABC",
    failing: &[],
};

/// A link whose first read fails.
const FAILED: Brings<'static> = Brings {
    failing: &[0],
    ..WHOLE
};

/// A link of the first and the last packet.
const AROUND: Brings<'static> = Brings {
    letters: b"AC",
    ..WHOLE
};

/// A link of the last two packets.
const LAST: Brings<'static> = Brings {
    letters: b"BC",
    ..WHOLE
};

/// A link of the first two packets.
const FIRST: Brings<'static> = Brings {
    letters: b"AB",
    ..WHOLE
};

/// A link that brings one packet twice.
const REPEATED: Brings<'static> = Brings {
    letters: b"AA",
    ..WHOLE
};

/// Two links that share three packets, one of them on both.
const SHARED: Row<'static> = Row {
    line: "rist recv out 127.0.0.1:5000 127.0.0.1:5002",
    links: &[AROUND, LAST],
    puts: &[],
    draws: &[],
    exit: 0,
    written: Some(b"ABC"),
    counted: Some(
        "kept 3, late 0, behind 0, early 0, twice 1, span 0, stranger 0, exhausted 0, refused 0",
    ),
};

/// Two packets on one link.
const SINGLE: Row<'static> = Row {
    line: "rist recv out 127.0.0.1:5000",
    links: &[FIRST],
    written: Some(b"AB"),
    counted: None,
    ..SHARED
};

/// A passphrase, for which sixteen random words are drawn.
const SEALED: Row<'static> = Row {
    line: "rist recv out 127.0.0.1:5000 --profile main --pass x",
    exit: 11,
    written: Some(b""),
    ..SINGLE
};

/// What is no line.
const NO_LINE: Row<'static> = Row {
    exit: 2,
    written: None,
    ..SINGLE
};

/// Two links whose steps are kept or not, or of which one fails; one link to its end, for one turn, and with a packet that
/// comes twice; and two links and one at the greatest that options may be.
pub const ENDS: &[Row<'static>] = &[
    Row {
        line: "rist recv out 127.0.0.1:5000 127.0.0.1:5002 --keep 64",
        ..SHARED
    },
    SHARED,
    Row {
        links: &[FAILED, WHOLE],
        counted: None,
        ..SHARED
    },
    SINGLE,
    Row {
        line: "rist recv out 127.0.0.1:5000 --turns 1",
        written: Some(b"A"),
        ..SINGLE
    },
    Row {
        links: &[REPEATED],
        written: Some(b"A"),
        counted: Some(
            "kept 1, late 0, behind 0, early 0, twice 1, span 0, stranger 0, exhausted 0, refused 0",
        ),
        ..SINGLE
    },
    Row {
        line: "rist recv out 127.0.0.1:5000 127.0.0.1:5002 --delay 30000 --span 16384 --restart 60000 --drift",
        ..SHARED
    },
    Row {
        line: "rist recv out 127.0.0.1:5000 --delay 30000 --span 16384 --restart 60000 --drift \
               --reorder 1000 --least 1000 --tries 32 --keep 65536",
        ..SINGLE
    },
];

/// A link that is down, a trace with too little room, and a second put that fails.
pub const BREAKS: &[Row<'static>] = &[
    Row {
        links: &[FAILED],
        exit: 6,
        written: Some(b""),
        ..SINGLE
    },
    Row {
        line: "rist recv out 127.0.0.1:5000 --keep 1",
        exit: 8,
        written: Some(b""),
        counted: Some(
            "kept 1, late 0, behind 0, early 0, twice 0, span 0, stranger 0, exhausted 0, refused 0",
        ),
        ..SINGLE
    },
    Row {
        puts: &[1],
        exit: 5,
        written: Some(b"A"),
        counted: Some(
            "kept 2, late 0, behind 0, early 0, twice 0, span 0, stranger 0, exhausted 0, refused 0",
        ),
        ..SINGLE
    },
];

/// The first, the eighth and the last random word that can't be had.
pub const DRAWS: &[Row<'static>] = &[
    Row {
        draws: &[0],
        ..SEALED
    },
    Row {
        draws: &[7],
        ..SEALED
    },
    Row {
        draws: &[15],
        ..SEALED
    },
];

/// One link of two, or of sixteen, that can be opened; and what is no line.
pub const REFUSALS: &[Row<'static>] = &[
    Row {
        line: "rist recv out 127.0.0.1:5000 127.0.0.1:5002",
        exit: 3,
        written: Some(b""),
        ..SINGLE
    },
    Row {
        line: "rist recv out 0.0.0.0:2 0.0.0.0:4 0.0.0.0:6 0.0.0.0:8 0.0.0.0:10 0.0.0.0:12 0.0.0.0:14 \
               0.0.0.0:16 0.0.0.0:18 0.0.0.0:20 0.0.0.0:22 0.0.0.0:24 0.0.0.0:26 0.0.0.0:28 0.0.0.0:30 \
               0.0.0.0:32",
        exit: 3,
        written: Some(b""),
        ..SINGLE
    },
    Row {
        line: "rist recv out 0.0.0.0:2 0.0.0.0:4 0.0.0.0:6 0.0.0.0:8 0.0.0.0:10 0.0.0.0:12 0.0.0.0:14 \
               0.0.0.0:16 0.0.0.0:18 0.0.0.0:20 0.0.0.0:22 0.0.0.0:24 0.0.0.0:26 0.0.0.0:28 0.0.0.0:30 \
               0.0.0.0:32 0.0.0.0:34",
        ..NO_LINE
    },
    Row {
        line: "rist recv out",
        ..NO_LINE
    },
    Row {
        line: "rist recv out 127.0.0.1:5001",
        ..NO_LINE
    },
    Row {
        line: "rist recv out 127.0.0.1:5000 --keep 65537",
        ..NO_LINE
    },
    Row {
        line: "rist gate 127.0.0.1:5000",
        ..NO_LINE
    },
];
