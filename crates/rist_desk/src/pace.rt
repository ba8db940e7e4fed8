//! When a turn is made, and what a worker keeps from one turn to the next.
ghost use Rattle.std.specs.Prelude.{◌≡◌, ◌<◌};
ghost use Rattle.outside_net.specs.Links.{answer_of};
ghost use Rattle.rist_desk.specs.Turns.{is_tick_due, quiet_since, is_idle, rest_after, rest_in_quiet};
ghost use Rattle.rist_desk.specs.Turns.{since_tick, tick_interval, rest_after_datagram};

use outside_net::Got;

/// How long after a tick the next one is due, in microseconds (this profile).
const TICK_INTERVAL: u64 = 5_000;

/// How long nothing has come of a link on which a worker rests longer, in microseconds.
const SILENCE: u64 = 1_000_000;

/// How long it rests then, in milliseconds.
const LONG_REST: u8 = 20;

/// A turn of a worker.
#[derive(Clone, Copy)]
pub struct Turn {
    /// The worker's place, below 16.
    pub place: u8,
    /// Its moment in microseconds.
    pub us: u64,
    /// Whether it is the last that the worker may make.
    pub last: bool,
}

/// What a worker keeps from one turn to the next.
#[derive(Clone, Copy)]
pub struct Pace {
    /// The moment of its last tick, in microseconds.
    pub ticked: Option<u64>,
    /// The moment from which quiet counts, in microseconds.
    pub since: Option<u64>,
    /// How long it rests on its link before the next turn, in milliseconds, unless a datagram comes.
    pub rest: u8,
}

/// The interval passed since the last tick, or there was none.
pub fn is_due(ticked: Option<u64>, us: u64) -> bool
    ensures value { result ≡ is_tick_due ticked us }
{
    match ticked {
        None => true,
        Some(last) => us.saturating_sub(last) >= TICK_INTERVAL,
    }
}

/// The moment from which quiet counts, after a read.
pub fn since_then(since: Option<u64>, us: u64, got: &Got) -> u64
    ensures value { (buf : _) → result ≡ quiet_since since us (answer_of got.now buf) }
{
    match since {
        None => us,
        Some(since) => match got {
            Got::Datagram(..) => us,
            Got::Quiet | Got::End | Got::Failed => since,
        },
    }
}

/// How long a worker rests before its next turn, in milliseconds, unless a datagram is there or comes. After a datagram it
/// rests as long as no tick is due; after a read that gave nothing until the next tick is due, and longer on a link on which
/// nothing came for a second.
pub fn rest_after(ticked: Option<u64>, since: u64, us: u64, got: &Got) -> u8
    ensures value { (buf : _) → result ≡ rest_after ticked since us (answer_of got.now buf) }
{
    match got {
        Got::Datagram(..) => rest_after_datagram(ticked, us),
        Got::End | Got::Failed => 0,
        Got::Quiet => rest_in_quiet(ticked, since, us),
    }
}

/// How long ago the last tick is after a turn at this moment, in microseconds: less than the interval of ticks.
fn since_tick(ticked: Option<u64>, us: u64) -> u64
    ensures value { result ≡ since_tick ticked us }
    ensures less { result < tick_interval }
{
    match ticked {
        None => 0,
        Some(last) => {
            let passed = us.saturating_sub(last);
            if passed < TICK_INTERVAL { passed } else { 0 }
        }
    }
}

/// The same after a datagram, in whole milliseconds: none of them ends after the next tick is due.
fn rest_after_datagram(ticked: Option<u64>, us: u64) -> u8
    ensures value { result ≡ rest_after_datagram ticked us }
{
    ((TICK_INTERVAL - since_tick(ticked, us)) / 1_000) as u8
}

/// The same where nothing was there.
fn rest_in_quiet(ticked: Option<u64>, since: u64, us: u64) -> u8
    ensures value { result ≡ rest_in_quiet ticked since us }
{
    if us.saturating_sub(since) >= SILENCE {
        return LONG_REST;
    }
    ((TICK_INTERVAL - since_tick(ticked, us) + 999) / 1_000) as u8
}

/// Whether nothing came for so long.
pub fn is_idle(idle: u64, since: u64, us: u64) -> bool
    ensures value { result ≡ is_idle idle since us }
{
    idle > 0 && us.saturating_sub(since) >= idle
}
