//! What is kept and told of a run beside its own output.
ghost use Rattle.std.specs.Prelude.{◌≡◌, ◌<◌, option_map};
ghost use Rattle.clap.specs.Words.{first_of, found_of, rows_of};
ghost use Rattle.rist_words.specs.CommandLine.{watching_of};
ghost use Rattle.rist_words.specs.Shown.{shown_watching};
ghost use Rattle.rist_words.specs.Values.{name_if, number_if};

use crate::lines::WatchingWords;
use crate::values::{Numbers, given, number_in};
use clap::ArgMatches;

/// An hour at most.
pub const STATS: Numbers = Numbers {
    default: 1000,
    least: 100,
    most: 3_600_000,
    multiple_of: 1,
};

/// What a command's values keep and tell of a run.
pub fn watching<'a>(values: &ArgMatches<'a>) -> Option<WatchingWords<'a>>
    ensures { option_map shown_watching result ≡ watching_of (rows_of (found_of values.now)) }
{
    let capture = name_if(values, "record")?;
    let stats = number_if(values, "stats", STATS)?;
    let stats_file = name_if(values, "stats-file")?;
    match (stats, stats_file) {
        (None, Some(_)) => None,
        _ => Some(WatchingWords {
            capture,
            stats,
            stats_file,
        }),
    }
}

/// A name that may be left out, and isn't empty where it is given.
pub fn name_if<'a>(values: &ArgMatches<'a>, option: &str) -> Option<Option<&'a str>>
    ensures { option_map (option_map (λ s. s.now)) result
        ≡ name_if (first_of option.now (rows_of (found_of values.now))) }
{
    match given(values, option) {
        None => Some(None),
        Some(text) if text.is_empty() => None,
        Some(text) => Some(Some(text)),
    }
}

/// A number that may be left out, and is one that the option takes where it is given.
pub fn number_if(values: &ArgMatches<'_>, option: &str, numbers: Numbers) -> Option<Option<u64>>
    requires step { 0 < numbers.multiple_of }
    ensures { result ≡ number_if numbers (first_of option.now (rows_of (found_of values.now))) }
{
    match given(values, option) {
        None => Some(None),
        Some(text) => Some(Some(number_in(text, numbers)?)),
    }
}
