//! Reports of captures, by the program's top call.
use crate::captures::{A, B, C, Ending, NAME, NOTHING, joined, written};
use capture_file::CapKind;
use std::alloc::Global;
use std::str;
use std::test::Fail;

/// What the page says of three packets that came in order within 20 ms.
const THREE: &[&str] = &[
    "<tr><th>Sent</th><td>3</td><td>packets</td>",
    "<tr><th>First time</th><td>3</td><td>packets</td>",
    "<tr><th>Recovered</th><td>0</td><td>packets</td>",
    "<tr><th>Never written</th><td>0</td><td>packets</td>",
    "<tr><th>Written</th><td>3</td><td>octets</td>",
];

/// Those packets, also at the greatest that options may be, and what the page says; and the first two of them before a record
/// that is cut.
static PAGES: [(&str, &[&[u8]], Ending, &[&str]); 3] = [
    ("report - -", &[NAME, A, B, C], Ending::Done, THREE),
    (
        "report - - --delay 30000 --span 16384 --restart 60000 --drift",
        &[NAME, A, B, C],
        Ending::Done,
        THREE,
    ),
    (
        "report - -",
        &[NAME, A, B, b"\0\x02\0"],
        Ending::BadCapture(CapKind::Truncated, 58),
        &[
            "<tr><th>Sent</th><td>2</td><td>packets</td>",
            "</body></html>",
        ],
    ),
];

fn says_all(page: &[u8], texts: &[&str]) -> bool {
    match str::from_utf8(page) {
        Ok(page) => texts.iter().all(|text| page.contains(*text)),
        Err(_) => false,
    }
}

fn reports(
    alloc: Global,
    line: &str,
    parts: &[&[u8]],
    ending: Ending,
    texts: &[&str],
) -> Result<bool, Fail> {
    let capture = joined(alloc, parts)?;
    let page = written(alloc, line, capture.as_slice(), &NOTHING, ending)?;
    Ok(says_all(page.as_slice(), texts))
}

#[test]
fn a_page_says_what_a_receiver_would_make_of_a_capture(rt: HostRuntime) -> Result<(), Fail> {
    for (line, parts, ending, texts) in &PAGES {
        assert!(rt; reports(rt.alloc(), line, parts, *ending, texts)?);
    }
    Ok(())
}
