//! Lists of steps, each step a letter.
use outside_io::NoMemory;
use rist_compare::{OwnSteps, Tear, compare};
use rist_desk::{AskedWords, Event, Mark, Step};
use std::alloc::Global;
use std::test::Fail;

/// The steps of a worker.
#[derive(Clone, Copy)]
struct Own<'a>(&'a [Step]);

impl OwnSteps for Own<'_> {
    ghost own = { λ own. own.0.now };

    fn own(&self) -> &[Step] {
        self.0
    }
}

/// Keepalives of link 0 are a, b, c; of link 1 p, q. A write failed in B and in P. e is an end, x and y are of links
/// that have no worker.
fn step_of(letter: u8) -> Step {
    let (link, at) = match letter {
        b'a' => (0, 1),
        b'b' | b'B' => (0, 2),
        b'c' => (0, 3),
        b'p' | b'P' => (1, 1),
        b'q' => (1, 2),
        b'x' => (2, 1),
        b'y' => (9, 1),
        _ => (0, 9),
    };
    Step {
        link,
        at,
        what: if letter == b'e' {
            Event::End
        } else {
            Event::Keepalive
        },
        mark: if letter.is_ascii_uppercase() {
            Mark::WriteFault
        } else {
            Mark::Plain
        },
        made: 0,
        asked: AskedWords::none(),
    }
}

fn steps_of(alloc: Global, letters: &[u8]) -> Result<Vec<Step>, NoMemory> {
    let mut steps = Vec::with_capacity(alloc, letters.len())?;
    for letter in letters {
        let _ = steps.push(step_of(*letter));
    }
    Ok(steps)
}

/// The step of a letter, or none at b'-'.
fn there(letter: u8) -> Option<Step> {
    match letter {
        b'-' => None,
        _ => Some(step_of(letter)),
    }
}

/// A link, a place there, and the letters of the desk's and the own list at it; b'-' where one has ended.
type At = (u8, usize, u8, u8);

fn tear_at(at: Option<At>) -> Option<Tear> {
    let (link, place, desk, own) = at?;
    Some(Tear {
        link,
        place,
        desk: there(desk),
        own: there(own),
    })
}

/// The desk's list, those of links 0 and 1, and where they differ.
static LISTS: [(&str, &str, &str, Option<At>); 14] = [
    ("", "", "", None),
    ("apbq", "ab", "pq", None),
    ("pqab", "ab", "pq", None),
    // One list has a step more.
    ("apbq", "a", "pq", Some((0, 1, b'b', b'-'))),
    ("apq", "ab", "pq", Some((0, 1, b'-', b'b'))),
    ("apbq", "ab", "p", Some((1, 1, b'q', b'-'))),
    ("apb", "ab", "pq", Some((1, 1, b'-', b'q'))),
    ("", "", "p", Some((1, 0, b'-', b'p'))),
    // Another mark, and another order.
    ("aBc", "abc", "", Some((0, 1, b'B', b'b'))),
    ("acb", "abc", "", Some((0, 1, b'c', b'b'))),
    // The lowest link, and the first place there.
    ("apBcq", "abP", "Pq", Some((0, 1, b'B', b'b'))),
    // An end, and steps of links that have no worker.
    ("abe", "ab", "", Some((0, 2, b'e', b'-'))),
    ("aypxb", "ab", "p", Some((2, 0, b'x', b'-'))),
    ("ayPb", "ab", "p", Some((1, 0, b'P', b'p'))),
];

#[test]
fn the_first_difference_is_found(rt: HostRuntime) -> Result<(), Fail> {
    let alloc = rt.alloc();
    for (kept, first, second, want) in &LISTS {
        let steps = steps_of(alloc, kept.as_bytes())?;
        let first = steps_of(alloc, first.as_bytes())?;
        let second = steps_of(alloc, second.as_bytes())?;
        let tear = compare(&steps, &[Own(&first), Own(&second)]);
        assert!(rt; tear == tear_at(*want), "{kept}");
    }
    Ok(())
}

#[test]
fn without_workers_each_step_differs(rt: HostRuntime) -> Result<(), Fail> {
    let workers: [Own<'_>; 0] = [];
    assert!(rt; compare(&[], &workers) == None);
    let tear = compare(&[step_of(b'y'), step_of(b'p')], &workers);
    assert!(rt; tear == tear_at(Some((1, 0, b'p', b'-'))));
    Ok(())
}
