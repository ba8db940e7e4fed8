ghost use Rattle.std.specs.Prelude.{◌≡◌, ◌<◌, ◌≤◌, ◌+◌, ◌^◌, ℕ, IsTrue, if◌then◌else◌};
ghost use Rattle.receiver_rules.specs.Clock.{transit_of, base_towards};
ghost use Rattle.std.specs.Option.{ForSome};
ghost use Rattle.receiver_rules.specs.Seen.{least_after, begun_clock, counted_clock, start_of};
ghost use Rattle.receiver_rules.specs.Bounds.{IsMidTick, IsEarlyAnchor, IsNearTime, IsClockWithin};

use crate::anchor::Anchor;
use crate::bounds::{DRIFT_STEP, DRIFT_WINDOW};
use crate::limits::Limits;

/// What an epoch's deadlines count from, and the window of originals by which that moves (this profile).
#[derive(Clone, Copy, Debug, PartialEq, Eq)]
pub struct Clock {
    /// What the deadlines of the next packets count from, in ticks of the receiver's clock. It may be negative.
    pub base: i64,
    /// How many originals were kept in the epoch.
    pub originals: u64,
    /// The least transit of those in the window that is not full yet, in ticks, and 0 where there are none.
    pub least: i64,
}

impl Clock {
    ghost use Rattle.std.specs.Prelude.{◌≡◌, ◌<◌, ◌≤◌, ◌+◌, ◌^◌, ◌∷◌, ℕ, ℤ, List};
    ghost use Rattle.receiver_rules.specs.Clock.{clock_of, starting_clock};
    ghost use Rattle.receiver_rules.specs.Seen.{clock_after};
    ghost use Rattle.receiver_rules.specs.Bounds.{IsMidTick, IsClockWithin};

    /// The clock of an epoch that opens at a tick.
    pub fn starting(at: u64) -> Clock
        requires clock { at < 2 ^ 61 }
        ensures value { result ≡ starting_clock at }
        ensures within { IsClockWithin at 0 result }
    {
        Clock {
            base: at as i64,
            originals: 0,
            least: 0,
        }
    }

    /// The clock after one more original was kept.
    pub fn after(&self, limits: &Limits, transit: i64) -> Clock
        requires base { IsMidTick self.now.base }
        requires least { IsMidTick self.now.least }
        requires transit { IsMidTick transit }
        requires originals { self.now.originals + 1 < 2 ^ 64 }
        ensures value { result ≡ clock_after limits.now self.now transit }
        ensures follows { (start : ℕ) (transits : List ℤ) → self.now ≡ clock_of limits.now start transits
            → result ≡ clock_of limits.now start (transit ∷ transits) }
        ensures within { (time originals : ℕ) → IsClockWithin time originals self.now
            → IsClockWithin time (originals + 1) result }
    {
        self.counting(limits, transit)
    }

    /// One more original, which may fill the window.
    fn counting(&self, limits: &Limits, transit: i64) -> Clock
        requires base { IsMidTick self.now.base }
        requires least { IsMidTick self.now.least }
        requires transit { IsMidTick transit }
        requires originals { self.now.originals + 1 < 2 ^ 64 }
        ensures { result ≡ clock_after limits.now self.now transit }
    {
        let originals = self.originals + 1;
        let least = least_with(self, transit);
        if originals % DRIFT_WINDOW == 0 {
            Clock {
                base: moved_base(limits, self.base, least),
                originals,
                least: 0,
            }
        } else {
            Clock {
                base: self.base,
                originals,
                least,
            }
        }
    }
}

/// The clock of the current epoch, which begins at a tick where nothing has fixed an anchor yet.
pub fn clock_in(first: Option<Anchor>, clock: &Clock, at: u64) -> Clock
    requires clock { at < 2 ^ 61 }
    ensures value { result ≡ begun_clock first clock.now at }
    ensures within { (originals : ℕ) → ForSome first (λ a. IsClockWithin a.time originals clock.now)
        → IsClockWithin (start_of first at) originals result }
{
    match first {
        Some(_) => *clock,
        None => Clock::starting(at),
    }
}

/// The clock after a packet, which counts where it is an original that is kept.
pub fn clock_with(
    limits: &Limits,
    anchor: &Anchor,
    clock: &Clock,
    at: u64,
    timestamp: u64,
    counts: bool,
) -> Clock
    requires clock { at < 2 ^ 61 }
    requires anchor { IsEarlyAnchor at anchor.now }
    requires near { IsNearTime anchor.now.time clock.now }
    requires originals { clock.now.originals + 1 < 2 ^ 64 }
    requires timestamp { IsTrue counts → timestamp < 2 ^ 62 }
    ensures value { result ≡ counted_clock limits.now anchor.now clock.now at timestamp counts }
    ensures within { (originals : ℕ) → IsClockWithin anchor.now.time originals clock.now
        → IsClockWithin anchor.now.time (if counts then originals + 1 else originals) result }
{
    if counts {
        clock.after(limits, transit(anchor, at, timestamp))
    } else {
        *clock
    }
}

/// How long a packet was under way, as its timestamp has it: the time at which it came, less how far its timestamp lies
/// after the anchor's.
fn transit(anchor: &Anchor, at: u64, timestamp: u64) -> i64
    requires clock { at < 2 ^ 61 }
    requires start { (2 ^ 60 ≤ anchor.now.timestamp) × (anchor.now.timestamp < 2 ^ 60 + 2 ^ 32) }
    requires timestamp { timestamp < 2 ^ 62 }
    ensures value { result ≡ transit_of anchor.now at timestamp }
    ensures within { IsMidTick result }
{
    (at + anchor.timestamp) as i64 - timestamp as i64
}

/// The least transit of the window with one more.
fn least_with(clock: &Clock, transit: i64) -> i64
    requires least { IsMidTick clock.now.least }
    requires transit { IsMidTick transit }
    ensures value { result ≡ least_after clock.now transit }
    ensures within { IsMidTick result }
{
    if clock.originals % DRIFT_WINDOW == 0 {
        transit
    } else {
        transit.min(clock.least)
    }
}

/// The base after a window.
fn moved_base(limits: &Limits, base: i64, least: i64) -> i64
    requires base { IsMidTick base }
    requires least { IsMidTick least }
    ensures value { result ≡ (if limits.now.drift then base_towards base least else base) }
{
    if limits.drift {
        towards(base, least)
    } else {
        base
    }
}

/// A base moved towards a transit, by at most 9 ticks.
fn towards(base: i64, transit: i64) -> i64
    requires base { IsMidTick base }
    ensures { result ≡ base_towards base transit }
{
    transit.clamp(base - DRIFT_STEP, base + DRIFT_STEP)
}
