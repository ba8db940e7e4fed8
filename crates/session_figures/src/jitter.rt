//! The jitter of packets that were received first time (RFC 3550, section 6.4.1 and appendix A.8).
ghost use Rattle.std.specs.Prelude.{◌≡◌, ◌++◌, ℕ, List, [], ◌==◌, if◌then◌else◌, Option, None, Some, IfOk};
ghost use Rattle.session_figures.specs.Spreads.{jitter_of, jitters_by, transit_before, transit_difference, transit_word};
ghost use Rattle.session_figures.specs.Counting.{AreJittersOf};

use std::alloc::{AllocError, Global};
use value_histogram::Histogram;

/// Timestamps are of 32 bits.
const CYCLE: u64 = 1 << 32;

/// The transit that the next packet's is held against, and how often each jitter came.
#[derive(Drop)]
pub struct Jitter {
    /// When the packet before came, in ticks of 1/90,000 s, less its timestamp, around the cycle of both.
    pub last: Option<u32>,
    /// The jitters so far, in tenths of a millisecond.
    pub values: Histogram,
}

impl Jitter {
    /// That of no packet.
    pub(crate) fn new(alloc: Global) -> Result<Jitter, AllocError>
        ensures state { IfOk result (λ j. AreJittersOf j None []) }
    {
        Ok(Jitter {
            last: None,
            values: Histogram::new(alloc)?,
        })
    }

    /// Takes a step: how often the flow restarted in it, how many packets were received first time, and the tick and
    /// the timestamp of such a one.
    pub(crate) fn take(&mut self, restarts: u64, first: u64, tick: u64, stamp: u32)
        ensures state { (last : Option ℕ) (values : List ℕ) → AreJittersOf self.old last values
            → AreJittersOf self.new
            (if first == 0 then transit_before restarts last else Some (transit_word tick stamp))
            ((if first == 0 then [] else jitters_by (transit_before restarts last) (transit_word tick stamp))
            ++ values) }
    {
        self.last = transit_before(restarts, self.last);
        if first > 0 {
            self.hold(transit(tick, stamp));
        }
    }

    // Holds a packet's transit against that of the one before.
    fn hold(&mut self, transit: u32)
        ensures state { (last : Option ℕ) (values : List ℕ) → AreJittersOf self.old last values
            → AreJittersOf self.new (Some transit) (jitters_by last transit ++ values) }
    {
        if let Some(last) = self.last {
            self.values.add(u64::from(difference(last, transit) / 9));
        }
        self.last = Some(transit);
    }
}

// The transit of the packet before, and none where the flow restarts in between.
fn transit_before(restarts: u64, last: Option<u32>) -> Option<u32>
    ensures value { result ≡ transit_before restarts last }
{
    if restarts > 0 { None } else { last }
}

// When a packet came, less its timestamp.
fn transit(tick: u64, stamp: u32) -> u32
    ensures value { result ≡ transit_word tick stamp }
{
    ((tick % CYCLE) as u32).wrapping_sub(stamp)
}

// How far two transits differ.
fn difference(a: u32, b: u32) -> u32
    ensures value { result ≡ transit_difference a b }
{
    a.wrapping_sub(b).min(b.wrapping_sub(a))
}
