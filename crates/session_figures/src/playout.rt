//! How the playout stands before a step and after it.
ghost use Rattle.std.specs.Prelude.{◌≡◌, ◌≢◌, List};
ghost use Rattle.session_figures.specs.Playout.{base_after, moved_later, playout_between, unless_restarted, used_of};

use reorder_buffer::Buffer;

/// How full a buffer is, and where the base of its deadlines lies.
#[derive(Clone, Copy, Debug, PartialEq, Eq)]
pub struct Standing {
    /// How far ahead the packet with the highest number is due, in ticks of 1/90,000 s, and 0 where nothing waits.
    pub fill: u64,
    /// What deadlines count from, in ticks, once an epoch is open.
    pub base: Option<i64>,
}

/// What a step tells of the playout.
#[derive(Clone, Copy, Debug, PartialEq, Eq)]
pub struct Playout {
    /// How full the buffer is after it, in milliseconds.
    pub fill: u64,
    /// How much of the playout delay was used up as it came, in milliseconds.
    pub used: u64,
    /// By how many ticks the base moved to later.
    pub later: u64,
    /// By how many ticks it moved to earlier.
    pub earlier: u64,
}

impl Standing {
    ghost use Rattle.receiver_rules.specs.Steps.{Step};
    ghost use Rattle.reorder_buffer.specs.StateAfter.{IsStateAfter};
    ghost use Rattle.reorder_buffer.specs.declared.phase.Phase.TheVariants.{Failed};
    ghost use Rattle.session_figures.specs.Playout.{standing_of};

    /// That of a buffer.
    pub(crate) fn of(buffer: &Buffer) -> Standing
        requires live { buffer.now.phase ≢ Failed }
        ensures value { (history : List Step) → IsStateAfter buffer.now history
            → result ≡ standing_of buffer.now.limits history }
    {
        Standing {
            fill: buffer.fill(),
            base: buffer.base(),
        }
    }

    /// What the step tells that led from here to another standing: by the playout delay and by how far the step moved
    /// the time, in ticks, and by how often the flow restarted.
    pub(crate) fn to(&self, after: &Standing, delay: u64, waited: u64, restarts: u64) -> Playout
        ensures value { result ≡ playout_between self.now after.now delay waited restarts }
    {
        let left = self.fill.saturating_sub(waited);
        Playout {
            fill: after.fill / 90,
            used: used(self.base, delay, left) / 90,
            later: unless_restarted(restarts, moved_later(self.base, after.base)),
            earlier: unless_restarted(restarts, moved_later(after.base, self.base)),
        }
    }
}

// How much of the playout delay was used up, where so much of it was left.
fn used(base: Option<i64>, delay: u64, left: u64) -> u64
    ensures value { result ≡ used_of base delay left }
{
    match base {
        Some(_) => delay.saturating_sub(left),
        None => 0,
    }
}

// By how many ticks a base moved to later.
fn moved_later(old: Option<i64>, new: Option<i64>) -> u64
    ensures value { result ≡ moved_later old new }
{
    match (old, new) {
        (Some(old), Some(new)) => base_after(old, new),
        _ => 0,
    }
}

// How far one base lies behind another.
fn base_after(old: i64, new: i64) -> u64
    ensures value { result ≡ base_after old new }
{
    if old < new { new.abs_diff(old) } else { 0 }
}

// An amount, unless the flow restarts.
fn unless_restarted(restarts: u64, amount: u64) -> u64
    ensures value { result ≡ unless_restarted restarts amount }
{
    if restarts == 0 { amount } else { 0 }
}
