//! How far a source was read, and its text.
ghost use Rattle.std.specs.Prelude.{◌≡◌, ◌≤◌};
ghost use Rattle.progress_source.specs.Extents.{rate_of, seconds_left, share_of};

use std::fmt::{self, Display, Formatter, Write};

/// The greatest rate that is told, in tenths of a megabyte a second.
const MOST_RATE: u128 = 9_999_999;

/// The longest time that is told, in seconds.
const MOST_SECONDS: u128 = 599_999;

/// How far a source was read at a moment.
#[derive(Clone, Copy, Debug, PartialEq, Eq)]
pub struct Extent {
    /// How many octets were read.
    pub octets: u64,
    /// How many it has in all, where that is known.
    pub total: Option<u64>,
    /// How many microseconds passed.
    pub us: u64,
}

/// The hundredths of a source that were read, rounded down.
fn share_of(octets: u64, total: u64) -> u64
    ensures value { result ≡ share_of octets total }
{
    let hundredths = u128::from(octets) * 100 / u128::from(total.max(1));
    hundredths.min(100) as u64
}

/// Tenths of a megabyte a second, rounded down.
fn rate_of(octets: u64, us: u64) -> u64
    ensures value { result ≡ rate_of octets us }
{
    let rate = u128::from(octets) * 10 / u128::from(us.max(1));
    rate.min(MOST_RATE) as u64
}

/// The seconds that the rest takes where it goes on as fast as before, rounded down.
fn seconds_left(octets: u64, total: u64, us: u64) -> u64
    ensures value { result ≡ seconds_left octets total us }
{
    let rest = u128::from(total.saturating_sub(octets));
    let seconds = rest * u128::from(us) / (u128::from(octets.max(1)) * 1_000_000);
    seconds.min(MOST_SECONDS) as u64
}

/// A number of tenths.
#[derive(Clone, Copy)]
struct Tenths(u64);

impl Display for Tenths {
    ghost use Rattle.std.specs.Prelude.{Some};
    ghost use Rattle.progress_source.specs.Extents.{tenths_text};

    ghost output = { λ n. Some (tenths_text n.0) };

    fn fmt<W: Write>(&self, f: &mut Formatter<W>) -> fmt::Result {
        write!(f, "{}.{}", self.0 / 10, self.0 % 10)
    }
}

/// A time in seconds.
#[derive(Clone, Copy)]
struct Seconds(u64);

impl Display for Seconds {
    ghost use Rattle.std.specs.Prelude.{Some};
    ghost use Rattle.progress_source.specs.Extents.{time_text};

    ghost output = { λ n. Some (time_text n.0) };

    fn fmt<W: Write>(&self, f: &mut Formatter<W>) -> fmt::Result {
        let seconds = self.0 % 60;
        write!(f, "{}:{}{}", self.0 / 60, seconds / 10, seconds % 10)
    }
}

impl Display for Extent {
    ghost use Rattle.std.specs.Prelude.{Some};
    ghost use Rattle.progress_source.specs.Extents.{extent_text};

    ghost output = { λ extent. Some (extent_text extent) };

    fn fmt<W: Write>(&self, f: &mut Formatter<W>) -> fmt::Result {
        let rate = Tenths(rate_of(self.octets, self.us));
        match self.total {
            Some(total) => {
                let share = share_of(self.octets, total);
                let whole = Tenths(total / 100_000);
                let left = Seconds(seconds_left(self.octets, total, self.us));
                write!(f, "rist: {share} % of {whole} MB, {rate} MB/s, {left} left")
            }
            None => {
                let amount = Tenths(self.octets / 100_000);
                write!(f, "rist: {amount} MB, {rate} MB/s")
            }
        }
    }
}
