//! Counts by their names: what a host is given to print of a run.
use std::fmt::{self, Display, Formatter, Write};

/// How many counts a host that tells keeps at most.
pub const MAX_COUNTS: usize = 16;

/// A count and its name.
#[derive(Clone, Copy, Debug, PartialEq, Eq)]
pub struct Count {
    /// What was counted.
    pub name: &'static str,
    /// How often.
    pub count: u64,
}

/// Counts as they are printed: each behind its name.
#[derive(Clone, Copy)]
pub struct CountsText<'a>(pub &'a [Count]);

impl<'a> Display for CountsText<'a> {
    ghost use Rattle.std.specs.Prelude.{Some};
    ghost use Rattle.outside_host.specs.Text.{counts_text};

    ghost output = { λ text. Some (counts_text text.0.now) };

    fn fmt<W: Write>(&self, f: &mut Formatter<W>) -> fmt::Result {
        if let [first, rest @ ..] = self.0 {
            write!(f, "{} {}", first.name, first.count)?;
            for row in rest {
                write!(f, ", {} {}", row.name, row.count)?;
            }
        }
        Ok(())
    }
}

/// The line of the error output that reports counts.
#[derive(Clone, Copy)]
pub struct ReportText<'a>(pub &'a [Count]);

impl<'a> Display for ReportText<'a> {
    ghost use Rattle.std.specs.Prelude.{Some};
    ghost use Rattle.outside_host.specs.Text.{report_text};

    ghost output = { λ text. Some (report_text text.0.now) };

    fn fmt<W: Write>(&self, f: &mut Formatter<W>) -> fmt::Result {
        write!(f, "rist: {}", CountsText(self.0))
    }
}
