//! What is printed of a tear.
ghost use Rattle.std.specs.Prelude.{◌≡◌};
ghost use Rattle.rist_compare.specs.Text.{kind_text, word_in, mark_number};

use crate::tear::Tear;
use receiver_rules::Verdict;
use rist_desk::{Event, Mark, Step};
use std::fmt::{self, Display, Formatter, Write};

fn kind_of(what: &Event) -> &'static str
    ensures value { result.now ≡ kind_text what.now }
{
    match what {
        Event::Media(_) => "media",
        Event::Control(_) => "control",
        Event::Keepalive => "keepalive",
        Event::Refused => "refused",
        Event::Tick(_) => "tick",
        Event::End => "end",
    }
}

fn word_in(what: &Event) -> u32
    ensures value { result ≡ word_in what.now }
{
    match what {
        Event::Media(packet) => packet.word,
        Event::Control(_) | Event::Keepalive | Event::Refused | Event::Tick(_) | Event::End => 0,
    }
}

fn mark_number(mark: Mark) -> u8
    ensures value { result ≡ mark_number mark }
{
    match mark {
        Mark::Verdict(Verdict::Stranger) => 1,
        Mark::Verdict(Verdict::Exhausted) => 2,
        Mark::Verdict(Verdict::Late) => 3,
        Mark::Verdict(Verdict::Behind) => 4,
        Mark::Verdict(Verdict::Early) => 5,
        Mark::Verdict(Verdict::Twice) => 6,
        Mark::Verdict(Verdict::Span) => 7,
        Mark::Verdict(Verdict::Kept) | Mark::Plain | Mark::Spent | Mark::WriteFault => 0,
    }
}

/// What stands at a place of a list.
#[derive(Drop)]
struct There<'a>(&'a Option<Step>);

impl<'a> Display for There<'a> {
    ghost use Rattle.std.specs.Prelude.{Some};
    ghost use Rattle.rist_compare.specs.Text.{there_text};

    ghost output = { λ there. Some (there_text there.0.now) };

    fn fmt<W: Write>(&self, f: &mut Formatter<W>) -> fmt::Result {
        match self.0 {
            Some(step) => {
                let kind = kind_of(&step.what);
                let word = word_in(&step.what);
                let mark = mark_number(step.mark);
                write!(f, "{} {} {} {}", kind, step.at, word, mark)
            }
            None => f.write_str("none"),
        }
    }
}

/// What is printed of a tear.
#[derive(Drop)]
pub struct TearText<'a>(pub &'a Tear);

impl<'a> Display for TearText<'a> {
    ghost use Rattle.std.specs.Prelude.{Some};
    ghost use Rattle.rist_compare.specs.Text.{tear_text};

    ghost output = { λ text. Some (tear_text text.0.now) };

    fn fmt<W: Write>(&self, f: &mut Formatter<W>) -> fmt::Result {
        let TearText(tear) = self;
        let desk = There(&tear.desk);
        let own = There(&tear.own);
        write!(
            f,
            "torn: link {} step {}: desk {}, own {}",
            tear.link, tear.place, desk, own
        )
    }
}
