//! A link's smoothed round-trip time, in microseconds (this profile).
ghost use Rattle.std.specs.Prelude.{◌≡◌, ◌↔◌, Option, None};
ghost use Rattle.rist_rtt.specs.Smoothed.{IsStale, sample_of, smoothed};

use crate::echo::Echo;
use std::marker::Model;

/// An answer is stale where its stamp is more than this before now, in microseconds.
pub const STALE_AFTER: u64 = 10_000_000;

/// Whether an answer counts.
#[derive(Clone, Copy, Debug, PartialEq, Eq)]
pub enum Sample {
    /// It changed the smoothed value.
    Taken,
    /// Its stamp lies ahead of now, or more than 10 s before it; it changed nothing.
    Stale,
}

/// The smoothed round-trip time: the first sample, and then an eighth of each further one.
#[derive(Clone, Copy, Debug, PartialEq, Eq)]
pub struct Rtt {
    micros: Option<u64>,
}

impl Model for Rtt {
    ghost use Rattle.std.specs.Prelude.{ℕ, ◌≤◌, Option, IfSome};

    ghost Value = { Option ℕ };

    ghost view = { λ r. r.micros };

    ghost invariant = { λ r. IfSome r.micros (λ n. n ≤ 10000000) };

    ghost inverse = { λ o. record { micros = o } };
}

impl Rtt {
    /// No sample was taken yet.
    pub fn new() -> Rtt
        ensures { result ≡ None }
    {
        Rtt { micros: None }
    }

    /// Takes an answer that came at this moment of the requester's clock, in microseconds.
    pub fn sample(&mut self, now: u64, echo: &Echo<'_>) -> Sample
        // Exactly an answer of the future, or of more than 10 s ago, is stale.
        ensures stale { (result ≡ Sample.Stale) ↔ IsStale now echo.now.stamp }
        ensures taken { result ≡ Sample.Taken
            → self.new ≡ smoothed self.old (sample_of now echo.now.stamp echo.now.delay) }
        ensures same { result ≡ Sample.Stale → self.new ≡ self.old }
    {
        if echo.stamp > now || now - echo.stamp > STALE_AFTER {
            return Sample::Stale;
        }
        let sample = (now - echo.stamp).saturating_sub(echo.delay as u64);
        self.micros = Some(match self.micros {
            None => sample,
            Some(rtt) => (7 * rtt + sample) / 8,
        });
        Sample::Taken
    }

    /// The smoothed value in microseconds, if a sample was taken.
    pub fn value(&self) -> Option<u64>
        ensures { result ≡ self.now }
    {
        self.micros
    }
}
