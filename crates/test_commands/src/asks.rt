//! What words ask for, and what is said of words that are no line.
use crate::words::words_of;
use rist_help::{Ask, Topic, complaint, pieces, what_is_asked};
use std::alloc::Global;
use std::test::Fail;

/// Words, and what they ask for.
static ASKS: [(&str, Option<Ask>); 27] = [
    ("rist --help", Some(Ask::Help)),
    ("other --help", Some(Ask::Help)),
    ("rist --version", Some(Ask::Version)),
    ("rist replay --help", Some(Ask::HelpOf(Topic::Replay))),
    ("rist show --help", Some(Ask::HelpOf(Topic::Show))),
    ("rist count --help", Some(Ask::HelpOf(Topic::Count))),
    ("rist report --help", Some(Ask::HelpOf(Topic::Report))),
    ("rist pack --help", Some(Ask::HelpOf(Topic::Pack))),
    ("rist split --help", Some(Ask::HelpOf(Topic::Split))),
    ("rist send --help", Some(Ask::HelpOf(Topic::Send))),
    ("rist recv --help", Some(Ask::HelpOf(Topic::Recv))),
    ("rist fan --help", Some(Ask::HelpOf(Topic::Fan))),
    ("rist gate --help", Some(Ask::HelpOf(Topic::Gate))),
    ("rist drill --help", Some(Ask::HelpOf(Topic::Drill))),
    ("rist", None),
    ("rist help", None),
    ("rist -h", None),
    ("rist -V", None),
    ("rist play --help", None),
    ("rist recv --version", None),
    ("rist --help recv", None),
    ("rist --help --version", None),
    ("rist --help=recv", None),
    ("rist -- --help", None),
    ("rist recv - 127.0.0.1:5000 --help", None),
    ("rist recv --help --help", None),
    ("rist replay a b", None),
];

fn all_asked(alloc: Global) -> Result<bool, Fail> {
    for (text, asked) in &ASKS {
        if what_is_asked(words_of(alloc, text)?.as_slice()) != *asked {
            return Ok(false);
        }
    }
    Ok(true)
}

/// Words that are no line, and what is said of them.
static COMPLAINTS: [(&str, &str); 68] = [
    ("rist", "a command is missing (rist --help)"),
    (
        "rist play a b",
        "unrecognized subcommand 'play' (rist --help)",
    ),
    (
        "rist recv",
        "the following required arguments were not provided: <out> <link>... (rist recv --help)",
    ),
    (
        "rist recv out 127.0.0.1:5001",
        "LINK 127.0.0.1:5001: in the Simple Profile a port is even, from 2 to 65534 (rist recv --help)",
    ),
    (
        "rist recv out localhost:5000",
        "LINK localhost:5000: an address and a port, as 127.0.0.1:5000 or [::1]:5000 (rist recv --help)",
    ),
    (
        "rist recv out [::1]:5001",
        "LINK [::1]:5001: in the Simple Profile a port is even, from 2 to 65534 (rist recv --help)",
    ),
    (
        "rist recv out [1::2::3]:5000",
        "LINK [1::2::3]:5000: an address and a port, as 127.0.0.1:5000 or [::1]:5000 (rist recv --help)",
    ),
    (
        "rist recv out ::1:5000",
        "LINK ::1:5000: an address and a port, as 127.0.0.1:5000 or [::1]:5000 (rist recv --help)",
    ),
    (
        "rist recv out 127.0.0.1:2?from=127.0.0.1",
        "LINK 127.0.0.1:2?from=127.0.0.1: a link that listens is bound to its address, and takes nothing behind it \
         (rist recv --help)",
    ),
    (
        "rist gate 127.0.0.1:2?ttl=3 127.0.0.1:4?ttl=3",
        "LINK 127.0.0.1:2?ttl=3: a link that listens is bound to its address, and takes nothing behind it \
         (rist gate --help)",
    ),
    (
        "rist send a 127.0.0.1:2?from=::1",
        "LINK 127.0.0.1:2?from=::1: behind ? stand from= with an address of the same kind, ttl=1..255 for IPv4, or \
         both by & (rist send --help)",
    ),
    (
        "rist send a [::1]:2?ttl=3",
        "LINK [::1]:2?ttl=3: behind ? stand from= with an address of the same kind, ttl=1..255 for IPv4, or both by & \
         (rist send --help)",
    ),
    (
        "rist send a 127.0.0.1:2?",
        "LINK 127.0.0.1:2?: behind ? stand from= with an address of the same kind, ttl=1..255 for IPv4, or both by & \
         (rist send --help)",
    ),
    (
        "rist recv out 127.0.0.1:2 127.0.0.1:0",
        "LINK 127.0.0.1:0: an address and a port, as 127.0.0.1:5000 or [::1]:5000 (rist recv --help)",
    ),
    (
        "rist recv out 127.0.0.1:2 --delay 0",
        "--delay 0: a number from 1 to 30000 (rist recv --help)",
    ),
    (
        "rist recv out 127.0.0.1:2 --dela 4",
        "unexpected argument '--dela' found (rist recv --help)",
    ),
    (
        "rist recv out 127.0.0.1:2 --delay",
        "a value is required for '--delay <delay>' but none was supplied (rist recv --help)",
    ),
    (
        "rist recv out 127.0.0.1:2 --span 5 --span 5",
        "the argument '--span <span>' cannot be used multiple times (rist recv --help)",
    ),
    (
        "rist recv out 127.0.0.1:2 --pass x",
        "--pass: only with --profile main (rist recv --help)",
    ),
    (
        "rist recv out 127.0.0.1:2 --profile main --pass=",
        "--pass: 1 to 128 octets (rist recv --help)",
    ),
    (
        "rist recv out 127.0.0.1:2 --full",
        "--full: only with --profile main (rist recv --help)",
    ),
    (
        "rist recv out 127.0.0.1:2 --call",
        "--call: only with --profile main (rist recv --help)",
    ),
    (
        "rist send a 127.0.0.1:2?from=127.0.0.1 --listen --profile main",
        "LINK 127.0.0.1:2?from=127.0.0.1: a link that listens is bound to its address, and takes nothing behind it \
         (rist send --help)",
    ),
    (
        "rist recv out 127.0.0.1:2 --profile mein",
        "--profile mein: simple or main (rist recv --help)",
    ),
    (
        "rist recv out 127.0.0.1:2 --port 1967",
        "--port 1967: an even number from 2 to 65534 (rist recv --help)",
    ),
    (
        "rist recv out 127.0.0.1:2 --bits 192",
        "--bits 192: 128 or 256 (rist recv --help)",
    ),
    (
        "rist recv out 127.0.0.1:2 --nack x",
        "--nack x: range or mask (rist recv --help)",
    ),
    (
        "rist recv out 127.0.0.1:2 --help",
        "help is asked for by --help alone, or right behind a command (rist recv --help)",
    ),
    (
        "rist send a 127.0.0.1:2 --share 1:1",
        "--share 1:1: a weight of 1 to 100 for each link that sends, as 3:1 (rist send --help)",
    ),
    (
        "rist send a 127.0.0.1:2 --first 65536",
        "--first 65536: a number from 0 to 65535 (rist send --help)",
    ),
    (
        "rist gate 127.0.0.1:2",
        "LINK: a gateway has at least two (rist gate --help)",
    ),
    (
        "rist gate 127.0.0.1:2 127.0.0.1:4 --in 2",
        "--in 2: a number from 1 to 1 (rist gate --help)",
    ),
    (
        "rist gate 127.0.0.1:2 127.0.0.1:4 --share 1:2",
        "--share 1:2: a weight of 1 to 100 for each link that sends, as 3:1 (rist gate --help)",
    ),
    (
        "rist gate 127.0.0.1:2 127.0.0.1:5",
        "LINK 127.0.0.1:5: in the Simple Profile a port is even, from 2 to 65534 (rist gate --help)",
    ),
    (
        "rist gate 127.0.0.1:2 127.0.0.1",
        "LINK 127.0.0.1: an address and a port, as 127.0.0.1:5000 or [::1]:5000 (rist gate --help)",
    ),
    (
        "rist gate 127.0.0.1:3 127.0.0.1:5 --profile main --in-profile simple",
        "LINK 127.0.0.1:3: in the Simple Profile a port is even, from 2 to 65534 (rist gate --help)",
    ),
    (
        "rist gate 127.0.0.1:3 127.0.0.1:5 --in-profile main",
        "LINK 127.0.0.1:5: in the Simple Profile a port is even, from 2 to 65534 (rist gate --help)",
    ),
    (
        "rist gate 127.0.0.1:2 127.0.0.1:4 --in-profile simple --in-pass p",
        "--in-pass: only with --in-profile main (rist gate --help)",
    ),
    (
        "rist gate 127.0.0.1:2 127.0.0.1:4 --in-profile simple --in-full",
        "--in-full: only with --in-profile main (rist gate --help)",
    ),
    (
        "rist gate 127.0.0.1:2 127.0.0.1:4 --in-port 1970",
        "--in-port: only with --in-profile (rist gate --help)",
    ),
    (
        "rist gate 127.0.0.1:2 127.0.0.1:4 --profile main --in-full",
        "--in-full: only with --in-profile (rist gate --help)",
    ),
    (
        "rist gate 127.0.0.1:2 127.0.0.1:4 --in-profile mein",
        "--in-profile mein: simple or main (rist gate --help)",
    ),
    (
        "rist gate 127.0.0.1:2 127.0.0.1:4 --in-profile main --in-tunnel gre",
        "--in-tunnel gre: own or librist (rist gate --help)",
    ),
    (
        "rist recv out 127.0.0.1:2 --in-profile main",
        "unexpected argument '--in-profile' found (rist recv --help)",
    ),
    (
        "rist replay a b --pcap",
        "--pcap, --udp: both are given, or neither (rist replay --help)",
    ),
    (
        "rist replay a b --pcap --udp 1967",
        "--udp 1967: an even number from 2 to 65534 (rist replay --help)",
    ),
    (
        "rist replay a b --delay 0 --span 0",
        "--delay 0: a number from 1 to 30000 (rist replay --help)",
    ),
    (
        "rist replay a b --span 0 --pcap",
        "--span 0: a number from 1 to 16384 (rist replay --help)",
    ),
    (
        "rist pack  b",
        "SOURCE: a name isn't empty (rist pack --help)",
    ),
    (
        "rist split - 1969=a",
        "OUTS 1969=a: an even port from 2 to 65534 and a name, as 1968=a (rist split --help)",
    ),
    (
        "rist split - 1968=a,1970",
        "OUTS 1968=a,1970: an even port from 2 to 65534 and a name, as 1968=a (rist split --help)",
    ),
    (
        "rist split - 1968=a,1968=b",
        "OUTS 1968=a,1968=b: a port is given twice (rist split --help)",
    ),
    (
        "rist split - 1968=a,1970=a",
        "OUTS 1968=a,1970=a: a name is given twice (rist split --help)",
    ),
    (
        "rist split - 2=a,4=b,6=c,8=d,10=e,12=f,14=g,16=h,18=i",
        "OUTS 2=a,4=b,6=c,8=d,10=e,12=f,14=g,16=h,18=i: at most eight (rist split --help)",
    ),
    (
        "rist split  1968=a",
        "CAPTURE: a name isn't empty (rist split --help)",
    ),
    (
        "rist fan 1969=a 127.0.0.1:5000",
        "OUTS 1969=a: an even port from 2 to 65534 and a name, as 1968=a (rist fan --help)",
    ),
    (
        "rist fan 1968=a 127.0.0.1",
        "LINK 127.0.0.1: an address and a port, as 127.0.0.1:5000 or [::1]:5000 (rist fan --help)",
    ),
    (
        "rist fan 1968=a 127.0.0.1:5000 --keep 1",
        "unexpected argument '--keep' found (rist fan --help)",
    ),
    (
        "rist report a  --delay 5",
        "OUT: a name isn't empty (rist report --help)",
    ),
    (
        "rist split - 1968=a --profile main",
        "unexpected argument '--profile' found (rist split --help)",
    ),
    (
        "rist split - 1968=a --port 1968",
        "unexpected argument '--port' found (rist split --help)",
    ),
    (
        "rist split - 1968=a --pass=",
        "--pass: 1 to 128 octets (rist split --help)",
    ),
    (
        "rist split - 1968=a --tunnel gre",
        "--tunnel gre: own or librist (rist split --help)",
    ),
    (
        "rist split - 1968=a --pcap",
        "--pcap, --udp: both are given, or neither (rist split --help)",
    ),
    (
        "rist split - 1968=a --pcap --udp 0",
        "--udp 0: a number from 1 to 65535 (rist split --help)",
    ),
    (
        "rist split -",
        "the following required arguments were not provided: <outs> (rist split --help)",
    ),
    (
        "rist drill 7 5001 1 1",
        "COUNT 5001: a number from 0 to 5000 (rist drill --help)",
    ),
    (
        "rist drill 7 1 5 1001",
        "LINKS 5: a number from 1 to 4 (rist drill --help)",
    ),
];

fn all_complaints(alloc: Global) -> Result<bool, Fail> {
    for (text, said) in &COMPLAINTS {
        if !says(alloc, text, said)? {
            return Ok(false);
        }
    }
    Ok(true)
}

fn says(alloc: Global, text: &str, said: &str) -> Result<bool, Fail> {
    let words = words_of(alloc, text)?;
    match complaint(alloc, words.as_slice()) {
        Ok(complaint) => Ok(complaint.as_str() == said),
        Err(_) => Err(Fail::new("out of memory")),
    }
}

/// Words with a number that an option doesn't take, how the help of which command shows that option, the range that both
/// name, and the default.
static RANGES: [(&str, Topic, &str, &str, &str); 26] = [
    (
        "replay a b --port 1",
        Topic::Replay,
        "  --port ",
        "2 to 65534",
        "1968",
    ),
    (
        "replay a b --bits 1",
        Topic::Replay,
        "  --bits ",
        "128 or 256",
        "128",
    ),
    (
        "replay a b --delay 0",
        Topic::Replay,
        "  --delay ",
        "1 to 30000",
        "1000",
    ),
    (
        "count a --span 0",
        Topic::Count,
        "  --span ",
        "1 to 16384",
        "2048",
    ),
    (
        "count a --restart 60001",
        Topic::Count,
        "  --restart ",
        "0 to 60000",
        "0",
    ),
    (
        "pack a b --flow 1",
        Topic::Pack,
        "  --flow ",
        "0 to 4294967295",
        "270544960",
    ),
    (
        "pack a b --first 65536",
        Topic::Pack,
        "  --first ",
        "0 to 65535",
        "0",
    ),
    (
        "pack a b --profile main --wide --first 4294967296",
        Topic::Pack,
        "  --first ",
        "0 to 4294967295",
        "0",
    ),
    (
        "pack a b --gap 0",
        Topic::Pack,
        "  --gap ",
        "1 to 1000000",
        "1000",
    ),
    (
        "split a 1968=b --bits 1",
        Topic::Split,
        "  --bits ",
        "128 or 256",
        "128",
    ),
    (
        "send a 1.1.1.1:2 --store 0",
        Topic::Send,
        "  --store ",
        "1 to 65536",
        "4096",
    ),
    (
        "send a 1.1.1.1:2 --hold 0",
        Topic::Send,
        "  --hold ",
        "1 to 1000",
        "20",
    ),
    (
        "send a 1.1.1.1:2 --linger 60001",
        Topic::Send,
        "  --linger ",
        "0 to 60000",
        "1000",
    ),
    (
        "send a 1.1.1.1:2 --turns 0",
        Topic::Send,
        "  --turns ",
        "1 to 1099511627776",
        "1099511627776",
    ),
    (
        "recv - 1.1.1.1:2 --reorder 1001",
        Topic::Recv,
        "  --reorder ",
        "0 to 1000",
        "25",
    ),
    (
        "recv - 1.1.1.1:2 --least 0",
        Topic::Recv,
        "  --least ",
        "5 to 1000",
        "50",
    ),
    (
        "recv - 1.1.1.1:2 --tries 33",
        Topic::Recv,
        "  --tries ",
        "0 to 32",
        "8",
    ),
    (
        "recv - 1.1.1.1:2 --nack x",
        Topic::Recv,
        "  --nack ",
        "range or mask",
        "range",
    ),
    (
        "recv - 1.1.1.1:2 --own 4294967296",
        Topic::Recv,
        "  --own ",
        "0 to 4294967295",
        "7",
    ),
    (
        "recv - 1.1.1.1:2 --idle 86400001",
        Topic::Recv,
        "  --idle ",
        "0 to 86400000",
        "0",
    ),
    (
        "recv - 1.1.1.1:2 --keep 65537",
        Topic::Recv,
        "  --keep ",
        "0 to 65536",
        "0",
    ),
    (
        "gate 1.1.1.1:2 1.1.1.1:4 --hold 0",
        Topic::Gate,
        "  --hold ",
        "1 to 1000",
        "20",
    ),
    (
        "gate 1.1.1.1:2 1.1.1.1:4 --least 0",
        Topic::Gate,
        "  --least ",
        "5 to 1000",
        "50",
    ),
    (
        "gate 1.1.1.1:2 1.1.1.1:4 --profile x",
        Topic::Gate,
        "  --profile ",
        "simple or main",
        "simple",
    ),
    (
        "gate 1.1.1.1:2 1.1.1.1:4 --in-profile main --in-port 1",
        Topic::Gate,
        "  --in-port ",
        "2 to 65534",
        "1968",
    ),
    (
        "show a --port 1",
        Topic::Show,
        "  --port ",
        "2 to 65534",
        "1968",
    ),
];

/// Whether the range of each stands in what is said of the words and in the help of its command, there with the default.
fn all_ranges(alloc: Global) -> Result<bool, Fail> {
    for (text, topic, option, range, default) in &RANGES {
        let words = format!(in alloc; "rist {text}")?;
        let default = format!(in alloc; "(default {default})")?;
        if !complains_of(alloc, words.as_str(), range)?
            || !shows(*topic, option, range, default.as_str())
        {
            return Ok(false);
        }
    }
    Ok(true)
}

fn complains_of(alloc: Global, text: &str, range: &str) -> Result<bool, Fail> {
    let words = words_of(alloc, text)?;
    match complaint(alloc, words.as_slice()) {
        Ok(complaint) => Ok(complaint.as_str().contains(range)),
        Err(_) => Err(Fail::new("out of memory")),
    }
}

fn shows(topic: Topic, option: &str, range: &str, default: &str) -> bool {
    for piece in pieces(Ask::HelpOf(topic)) {
        if piece.starts_with(option) {
            return piece.contains(range) && piece.contains(default);
        }
    }
    false
}

#[test]
fn words_ask_for_help_or_the_version(rt: HostRuntime) -> Result<(), Fail> {
    assert!(rt; all_asked(rt.alloc())?);
    Ok(())
}

#[test]
fn the_first_word_that_is_wrong_is_named(rt: HostRuntime) -> Result<(), Fail> {
    assert!(rt; all_complaints(rt.alloc())?);
    Ok(())
}

#[test]
fn the_help_names_the_ranges_of_the_parse(rt: HostRuntime) -> Result<(), Fail> {
    assert!(rt; all_ranges(rt.alloc())?);
    Ok(())
}
