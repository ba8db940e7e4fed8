//! What words name, what a file's first line is, and a passphrase in the place of its file.
ghost use Rattle.std.specs.Io.{WritesAtMost};

use super::*;
use crate::resolving::by_variable;
use outside_io::{Bytes, NoMemory, Source};
use std::alloc::{Alloc, Global};
use std::env::{Env, FillError};
use std::fmt::Write;
use std::test::Fail;

/// Words, and what names their file: its name and the index of the option; nothing; or why they name none.
static NAMED: [(&str, Result<Option<(&str, usize)>, PassFault>); 15] = [
    ("rist recv a 1.2.3.4:5", Ok(None)),
    (
        "rist recv a 1.2.3.4:5 --pass-file key",
        Ok(Some(("key", 4))),
    ),
    (
        "rist fan 1968=a 1.2.3.4:5 --pass-file key",
        Ok(Some(("key", 4))),
    ),
    (
        "rist recv --pass-file=key a 1.2.3.4:5",
        Ok(Some(("key", 2))),
    ),
    (
        "rist recv --pass-file=a=b a 1.2.3.4:5",
        Ok(Some(("a=b", 2))),
    ),
    ("rist split --pass-file - a b", Ok(Some(("-", 2)))),
    ("rist recv --pass secret a", Ok(None)),
    ("rist drill --pass-file key 1 2 3 4", Ok(None)),
    ("rist recv -- --pass-file key", Ok(None)),
    (
        "rist recv --pass secret --pass-file key",
        Err(PassFault::Twice(PassOption::Own)),
    ),
    (
        "rist recv --pass-file a --pass=secret",
        Err(PassFault::Twice(PassOption::Own)),
    ),
    (
        "rist recv --pass-file a --pass-file=b",
        Err(PassFault::Twice(PassOption::Own)),
    ),
    (
        "rist recv --pass-file",
        Err(PassFault::NoName(PassOption::Own)),
    ),
    (
        "rist recv --pass-file --delay 5",
        Err(PassFault::NoName(PassOption::Own)),
    ),
    (
        "rist recv --pass-file=",
        Err(PassFault::NoName(PassOption::Own)),
    ),
];

/// Words, and whether a variable stands for a passphrase.
static OPEN: [(&str, bool); 7] = [
    ("rist recv a 1.2.3.4:5", true),
    ("rist gate a --in-pass secret", true),
    ("rist recv a --pass secret", false),
    ("rist recv a --pass-file=key", false),
    ("rist recv --help", false),
    ("rist drill 1 2 3 4", false),
    ("rist --help", false),
];

/// Contents of a file, and the passphrase in their first line, or why there is none.
static LINES: [(&[u8], Result<&str, LineFault>); 7] = [
    (b"secret\nmore\n", Ok("secret")),
    (b"secret\r\nmore", Ok("secret")),
    (b" two words ", Ok(" two words ")),
    (b"\nsecret\n", Err(LineFault::Empty)),
    (b"", Err(LineFault::Empty)),
    (b"\r\n", Err(LineFault::Empty)),
    (b"\xff\n", Err(LineFault::NotText)),
];

fn words(alloc: Global, line: &str) -> Result<Vec<String>, Fail> {
    let mut words = Vec::new(alloc);
    for word in line.split(' ') {
        words.push(String::from_str(alloc, word)?)?;
    }
    Ok(words)
}

fn all_named(alloc: Global) -> Result<bool, Fail> {
    for (line, named) in &NAMED {
        let words = words(alloc, line)?;
        let found = match pass_file(PassOption::Own, words.as_slice()) {
            Ok(Some(file)) => Ok(Some((file.name, file.at))),
            Ok(None) => Ok(None),
            Err(fault) => Err(fault),
        };
        if found != *named {
            return Ok(false);
        }
    }
    Ok(true)
}

fn all_open(alloc: Global) -> Result<bool, Fail> {
    for (line, is_open) in &OPEN {
        let words = words(alloc, line)?;
        if takes_variable(words.as_slice()) != *is_open {
            return Ok(false);
        }
    }
    Ok(true)
}

fn all_lines(alloc: Global) -> Result<bool, Fail> {
    for (octets, phrase) in &LINES {
        let mut source = Bytes::with(alloc, octets, &[])?;
        let mut block = [0; 129];
        if read_phrase(&mut source, &mut block) != *phrase {
            return Ok(false);
        }
    }
    Ok(true)
}

#[test]
fn a_file_is_named_once_or_refused(rt: HostRuntime) -> Result<(), Fail> {
    assert!(rt; all_named(rt.alloc())?);
    let words = words(rt.alloc(), "rist gate a --pass x --in-pass-file key")?;
    let file = pass_file(PassOption::Incoming, words.as_slice());
    assert_eq!(rt;
        file,
        Ok(Some(PassFile {
            name: "key",
            at: 5,
            is_apart: true
        }))
    );
    Ok(())
}

#[test]
fn a_variable_stands_for_a_passphrase_that_is_not_given(rt: HostRuntime) -> Result<(), Fail> {
    assert!(rt; all_open(rt.alloc())?);
    Ok(())
}

#[test]
fn the_first_line_is_the_passphrase(rt: HostRuntime) -> Result<(), Fail> {
    assert!(rt; all_lines(rt.alloc())?);
    let mut block = [0; 129];
    let mut long = Bytes::with(rt.alloc(), &[b'a'; 130], &[])?;
    assert_eq!(rt; first_line(&mut long, &mut block), Err(LineFault::TooLong));
    let mut failing = Bytes::with(rt.alloc(), b"secret\n", &[3])?;
    assert_eq!(rt;
        first_line(&mut failing, &mut block),
        Err(LineFault::ReadFault)
    );
    let mut source = Bytes::with(rt.alloc(), b"secret\nmore", &[])?;
    assert_eq!(rt; first_line(&mut source, &mut block), Ok(6));
    assert_eq!(rt; source.read(&mut block), Ok(4));
    assert!(rt; &block[..4] == b"more".as_slice());
    Ok(())
}

/// The words of a line with a passphrase in place of its file.
fn with_phrase(
    alloc: Global,
    option: PassOption,
    line: &str,
    phrase: &str,
) -> Result<Vec<String>, Fail> {
    let words = words(alloc, line)?;
    let (at, is_apart) = match pass_file(option, words.as_slice()) {
        Ok(Some(file)) => (file.at, file.is_apart),
        _ => return Ok(words),
    };
    let word = phrase_word(alloc, option, phrase)?;
    Ok(with_word(words, at, is_apart, word)?)
}

#[test]
fn the_passphrase_stands_in_place_of_its_file(rt: HostRuntime) -> Result<(), Fail> {
    let alloc = rt.alloc();
    let placed = with_phrase(
        alloc,
        PassOption::Own,
        "rist recv --pass-file key a",
        "-secret",
    )?;
    assert!(rt; placed.as_slice() == words(alloc, "rist recv --pass=-secret a")?.as_slice());
    let placed = with_phrase(
        alloc,
        PassOption::Incoming,
        "rist gate a --in-pass-file=key",
        "x",
    )?;
    assert!(rt; placed.as_slice() == words(alloc, "rist gate a --in-pass=x")?.as_slice());
    Ok(())
}

/// An environment in which `RIST_PASS` alone is there, with these octets, or nothing is.
#[derive(Drop)]
struct Variable<'a>(Global, Option<&'a [u8]>);

impl<'a> Alloc for Variable<'a> {
    type A = Global;

    fn alloc(&self) -> Global {
        self.0
    }
}

impl<'a> Env for Variable<'a> {
    fn arg(&self, _: usize, _: &mut [u8]) -> Result<usize, FillError> {
        Err(FillError::NotPresent)
    }

    fn var(&self, name: &str, buf: &mut [u8]) -> Result<usize, FillError> {
        match self.1 {
            Some(octets) if name == "RIST_PASS" => filled(octets, buf),
            _ => Err(FillError::NotPresent),
        }
    }

    fn var_at(&self, _: usize, _: &mut [u8]) -> Result<usize, FillError> {
        Err(FillError::NotPresent)
    }
}

/// Writes octets to the front of a buffer, and says how many.
fn filled(octets: &[u8], buf: &mut [u8]) -> Result<usize, FillError>
    ensures bound { WritesAtMost result buf.new }
{
    if octets.len() > buf.len() {
        return Err(FillError::TooLong);
    }
    buf[..octets.len()].copy_from_slice(octets);
    Ok(octets.len())
}

/// Words, what the variable holds, and the words with it; none where it isn't UTF-8.
static BY_VARIABLE: [(&str, Option<&[u8]>, Option<&str>); 5] = [
    (
        "rist recv a",
        Some(b"secret"),
        Some("rist recv --pass=secret a"),
    ),
    (
        "rist gate a --in-pass x",
        Some(b"y"),
        Some("rist gate --pass=y a --in-pass x"),
    ),
    ("rist recv a", None, Some("rist recv a")),
    ("rist recv a", Some(b"\xff"), None),
    (
        "rist recv a --pass x",
        Some(b"secret"),
        Some("rist recv a --pass x"),
    ),
];

#[test]
fn the_passphrase_of_a_variable_stands_behind_the_command(rt: HostRuntime) -> Result<(), Fail> {
    let alloc = rt.alloc();
    for (line, held, wanted) in &BY_VARIABLE {
        let found = by_variable(&Variable(alloc, *held), alloc, words(alloc, line)?);
        match (found, wanted) {
            (Ok(found), Some(wanted)) => {
                assert!(rt;
                    found.as_slice() == words(alloc, wanted)?.as_slice(),
                    "{line}"
                );
            }
            (Err(NoPass::Variable), None) => {}
            _ => assert!(rt; false, "{line}"),
        }
    }
    Ok(())
}

#[test]
fn a_fault_says_what_is_wrong(rt: HostRuntime) -> Result<(), Fail> {
    let mut text = String::new(rt.alloc());
    write!(
        text,
        "{}; {}",
        PassFault::Twice(PassOption::Own),
        LineFault::TooLong
    )?;
    assert_eq!(rt;
        text.as_str(),
        "--pass, --pass-file: one of them, once; its first line is above 128 octets"
    );
    Ok(())
}
