//! The line of a simulated run.
ghost use Rattle.std.specs.Prelude.{◌≡◌, option_map};
ghost use Rattle.clap.specs.Words.{found_of, rows_of};
ghost use Rattle.rist_words.specs.CommandLine.{drill_of};
ghost use Rattle.rist_words.specs.Shown.{shown_drill};

use crate::lines::DrillLine;
use crate::values::{Numbers, number_at};
use clap::ArgMatches;

pub const NUMBER: Numbers = Numbers {
    default: 0,
    least: 0,
    most: 18_446_744_073_709_551_615,
    multiple_of: 1,
};

pub const COUNT: Numbers = Numbers {
    default: 0,
    least: 0,
    most: 5000,
    multiple_of: 1,
};

pub const LINKS: Numbers = Numbers {
    default: 1,
    least: 1,
    most: 4,
    multiple_of: 1,
};

/// In parts of a thousand.
pub const LOSS: Numbers = Numbers {
    default: 0,
    least: 0,
    most: 1000,
    multiple_of: 1,
};

/// The simulated run that a command's values give.
pub fn drill_line(values: &ArgMatches<'_>) -> Option<DrillLine>
    ensures { option_map shown_drill result ≡ drill_of (rows_of (found_of values.now)) }
{
    Some(DrillLine {
        number: number_at(values, "number", NUMBER)?,
        count: number_at(values, "count", COUNT)? as u32,
        links: number_at(values, "links", LINKS)? as u8,
        loss: number_at(values, "loss", LOSS)? as u16,
    })
}
