//! The sign of the system: a signal that waits for the process. What it gives is not told: the trusted edge of the system.
ghost use Rattle.std.specs.Prelude.{◌≡◌, true, false};

use crate::EndSign;
use crate::status::is_end_asked;
use std::fs::{self, Files};
use std::io::Read;
use std::time::{Clock, Duration};

/// Where Linux tells of the process (proc(5)).
const STATUS: &str = "/proc/self/status";

/// How many octets of it are read. The groups of the user stand before the signals, up to eleven octets each.
const STATUS_LEN: usize = 16384;

/// For how long a look counts, in milliseconds.
const EVERY_MS: u128 = 100;

/// Whether SIGINT or SIGTERM waits for the process. Neither can wait unless the process was started with it blocked, as by
/// `env --block-signal=INT,TERM`: else the signal ends the process. The status file is looked at every 100 ms at most. Where it
/// can't be read the answer is no; after a yes it is yes for ever.
#[derive(Drop)]
pub struct ProcessSign<'a, R> {
    rt: &'a R,
    /// Whether it looks at all.
    looks: bool,
    looked: Option<Duration>,
    asked: bool,
}

impl<'a, R> ProcessSign<'a, R> {
    /// A sign that has not looked yet.
    pub fn new(rt: &'a R) -> ProcessSign<'a, R>
        ensures looks { result.looks ≡ true }
    {
        ProcessSign {
            rt,
            looks: true,
            looked: None,
            asked: false,
        }
    }

    /// A sign that never says yes.
    pub fn never(rt: &'a R) -> ProcessSign<'a, R>
        ensures looks { result.looks ≡ false }
    {
        ProcessSign {
            rt,
            looks: false,
            looked: None,
            asked: false,
        }
    }
}

/// Whether the last look counts no more.
fn is_due(looked: Option<Duration>, now: Duration) -> bool {
    match looked {
        None => true,
        Some(looked) => now.saturating_sub(looked).as_millis() >= EVERY_MS,
    }
}

/// Looks at the status file.
fn look<R: Files>(rt: &R) -> bool {
    let Ok(mut file) = fs::open(rt, STATUS) else {
        return false;
    };
    let mut text = [0; STATUS_LEN];
    match file.read(&mut text) {
        Ok(count) => is_end_asked(&text[..count]),
        Err(_) => false,
    }
}

impl<'a, R: Files + Clock> ProcessSign<'a, R> {
    /// Looks, where the last look counts no more. Whether a look has found a signal.
    fn has_found(&mut self) -> bool
        ensures looks { self.new.looks ≡ self.old.looks }
    {
        if self.asked {
            return true;
        }
        if let Ok(now) = self.rt.monotonic() {
            if is_due(self.looked, now) {
                self.looked = Some(now);
                self.asked = look(self.rt);
            }
        }
        self.asked
    }
}

impl<'a, R: Files + Clock> EndSign for ProcessSign<'a, R> {
    ghost use Rattle.end_sign.specs.Status.{answers_of};

    ghost answers = { λ sign. answers_of sign.looks };

    fn asked(&mut self) -> bool {
        self.looks && self.has_found()
    }
}
