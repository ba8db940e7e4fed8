//! What a receiver and its run are set to.
ghost use Rattle.std.specs.Prelude.{◌≡◌, option_map};
ghost use Rattle.clap.specs.Words.{found_of, rows_of};
ghost use Rattle.rist_words.specs.CommandLine.{receiver_of, serving_of};
ghost use Rattle.rist_words.specs.Shown.{shown_receiver, shown_serving};

use crate::lines::{ReceiverWords, ServingWords};
use crate::values::{Numbers, is_set, nack, number};
use clap::ArgMatches;

pub const DELAY: Numbers = Numbers {
    default: 1000,
    least: 1,
    most: 30_000,
    multiple_of: 1,
};

pub const SPAN: Numbers = Numbers {
    default: 2048,
    least: 1,
    most: 16_384,
    multiple_of: 1,
};

pub const REORDER: Numbers = Numbers {
    default: 25,
    least: 0,
    most: 1000,
    multiple_of: 1,
};

pub const LEAST: Numbers = Numbers {
    default: 50,
    least: 5,
    most: 1000,
    multiple_of: 1,
};

pub const TRIES: Numbers = Numbers {
    default: 8,
    least: 0,
    most: 32,
    multiple_of: 1,
};

pub const OWN: Numbers = Numbers {
    default: 7,
    least: 0,
    most: 4_294_967_295,
    multiple_of: 1,
};

pub const TURNS: Numbers = Numbers {
    default: 1 << 40,
    least: 1,
    most: 1 << 40,
    multiple_of: 1,
};

/// A day at most.
pub const IDLE: Numbers = Numbers {
    default: 0,
    least: 0,
    most: 86_400_000,
    multiple_of: 1,
};

pub const RESTART: Numbers = Numbers {
    default: 0,
    least: 0,
    most: 60_000,
    multiple_of: 1,
};

pub const KEEP: Numbers = Numbers {
    default: 0,
    least: 0,
    most: 65_536,
    multiple_of: 1,
};

/// What a command's values set a receiver to.
pub fn receiver(values: &ArgMatches<'_>) -> Option<ReceiverWords>
    ensures { option_map shown_receiver result ≡ receiver_of (rows_of (found_of values.now)) }
{
    Some(ReceiverWords {
        delay: number(values, "delay", DELAY)?,
        span: number(values, "span", SPAN)?,
        restart: number(values, "restart", RESTART)?,
        drift: is_set(values, "drift"),
        reorder: number(values, "reorder", REORDER)?,
        least: number(values, "least", LEAST)?,
        tries: number(values, "tries", TRIES)?,
        nack: nack(values, "nack")?,
        own: number(values, "own", OWN)? as u32,
    })
}

/// The run of a receiver that a command's values give.
pub fn serving(values: &ArgMatches<'_>) -> Option<ServingWords>
    ensures { option_map shown_serving result ≡ serving_of (rows_of (found_of values.now)) }
{
    Some(ServingWords {
        turns: number(values, "turns", TURNS)?,
        idle: number(values, "idle", IDLE)?,
        keep: number(values, "keep", KEEP)?,
    })
}
