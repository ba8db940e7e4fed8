//! When something is due on a link again.
ghost use Rattle.std.specs.Prelude.{◌≡◌};
ghost use Rattle.link_channels.specs.Intervals.{has_passed_since as passed_since};

/// From one report of a link to its next: 100 ms, in ticks of 1/90,000 s.
pub const REPORT_INTERVAL: u64 = 9_000;

/// From one keepalive of a link to its next: a second, in ticks of 1/90,000 s.
pub const KEEPALIVE_INTERVAL: u64 = 90_000;

/// Whether so many ticks have passed since a time. Where there is none yet, they have.
pub fn has_passed_since(interval: u64, at: u64, last: Option<u64>) -> bool
    ensures value { result ≡ passed_since interval at last }
{
    match last {
        None => true,
        Some(last) => last <= at && interval <= at - last,
    }
}
