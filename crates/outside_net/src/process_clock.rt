//! The process clock. What it gives is not told: the trusted edge of the system.
ghost use Rattle.std.specs.Prelude.{◌≡◌};
ghost use Rattle.outside_net.specs.Sockets.{micros_of};

use crate::Clock;
use outside_io::Failed;
use std::time;
use std::time::Duration;

/// Microseconds since it was made. Where the system's clock can't be read, the last moment again.
#[derive(Drop)]
pub struct ProcessClock<'a, R> {
    rt: &'a R,
    start: Duration,
    last: u64,
}

impl<'a, R: time::Clock> ProcessClock<'a, R> {
    /// A clock at 0.
    pub fn start(rt: &'a R) -> Result<ProcessClock<'a, R>, Failed> {
        match rt.monotonic() {
            Ok(start) => Ok(ProcessClock { rt, start, last: 0 }),
            Err(_) => Err(Failed),
        }
    }
}

impl<'a, R> ProcessClock<'a, R> {
    /// Another clock that was made when this one was.
    pub fn with_same_start(&self) -> ProcessClock<'a, R>
        ensures same { (result.start ≡ self.now.start) × (result.last ≡ self.now.last) }
    {
        ProcessClock {
            rt: self.rt,
            start: self.start,
            last: self.last,
        }
    }
}

impl<'a, R: time::Clock> Clock for ProcessClock<'a, R> {
    ghost use Rattle.std.specs.Prelude.{None};

    ghost moments = { λ _. None };

    fn now(&mut self) -> u64 {
        if let Ok(now) = self.rt.monotonic() {
            self.last = micros_between(self.start, now);
        }
        self.last
    }
}

/// The microseconds between two moments, 0 where the second is the earlier one.
fn micros_between(start: Duration, now: Duration) -> u64
    ensures value { result ≡ micros_of start now }
{
    let passed = now.saturating_sub(start);
    u64::try_from(passed.as_micros()).unwrap_or(u64::MAX)
}
