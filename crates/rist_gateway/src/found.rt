//! What a side worker keeps between its turns.
ghost use Rattle.std.specs.Prelude.{◌≡◌, if◌then◌else◌, None, Some, IfNone, false};
ghost use Rattle.rist_gateway.specs.Sides.{found_with, found_after, is_quiet, end_by, pause_micros, still_after};

use crate::side_worker::SideEnded;
use rist_desk::Side;

/// For how many turns since the sink was put to a side worker looks often.
const OFTEN: u64 = 2_000;

/// How often the sink was put to, and the moment of the turn that found it so, in microseconds.
#[derive(Clone, Copy)]
pub struct Found {
    pub puts: u64,
    pub since: u64,
}

/// What is found at a moment, where the sink was put to so often.
fn found_with(found: Option<Found>, us: u64, puts: u64) -> Option<Found>
    ensures value { result ≡ found_with found us puts }
{
    match found {
        None => Some(Found { puts, since: us }),
        Some(found) => if found.puts < puts {
            Some(Found { puts, since: us })
        } else {
            Some(found)
        },
    }
}

/// What is found after a turn.
pub(crate) fn found_after(found: Option<Found>, us: u64, side: Side) -> Option<Found>
    ensures value { result ≡ found_after found us side }
{
    match side {
        Side::Took(puts) => found_with(found, us, puts),
        Side::Quiet(puts) => found_with(found, us, puts),
        Side::End | Side::Failed | Side::Bad(_) => found,
    }
}

/// Whether nothing was put for so long.
pub(crate) fn is_quiet(idle: u64, found: Option<Found>, us: u64) -> bool
    ensures value { result ≡ is_quiet idle found us }
{
    match found {
        None => false,
        Some(found) => idle > 0 && us.saturating_sub(found.since) >= idle,
    }
}

/// How many turns there were since the sink was put to, after one more, by what was found before it and after it.
pub(crate) fn still_after(still: u64, before: Option<Found>, found: Option<Found>) -> u64
    ensures value { result ≡ still_after still before found }
{
    match (before, found) {
        (Some(before), Some(found)) if before.puts == found.puts => still.saturating_add(1),
        _ => 0,
    }
}

/// How long a side worker waits before its next turn, in microseconds: half a millisecond, and longer where nothing was put for
/// so many turns, as who gets the stream asks for nothing then.
pub(crate) fn pause_micros(still: u64) -> u64
    ensures value { result ≡ pause_micros still }
{
    if still < OFTEN { 500 } else { 5_000 }
}

/// Why a turn is the last, if it is.
fn end_going(last: bool, quiet: bool) -> Option<SideEnded>
    ensures value { result ≡ (if last then Some SideEnded.Turns else if quiet then Some SideEnded.Idle else None) }
    ensures more { IfNone result (last ≡ false) }
{
    if last {
        return Some(SideEnded::Turns);
    }
    if quiet { Some(SideEnded::Idle) } else { None }
}

/// The same, by what its aside came to.
pub(crate) fn end_by(side: Side, last: bool, quiet: bool) -> Option<SideEnded>
    ensures value { result ≡ end_by side last quiet }
    ensures more { IfNone result (last ≡ false) }
{
    match side {
        Side::Took(_) => end_going(last, quiet),
        Side::Quiet(_) => end_going(last, quiet),
        Side::End => Some(SideEnded::End),
        Side::Failed => Some(SideEnded::Failed),
        Side::Bad(bad) => Some(SideEnded::Bad(bad)),
    }
}
