//! The least ticks of groups of places, with levels of least ticks above them.
ghost use Rattle.std.specs.Prelude.{◌≡◌, ◌+◌, ◌<◌, ◌≤◌, replicate, length, slice_index, slice_set, IfOk, IfSome, IfNone};
ghost use Rattle.deadline_index.specs.Inside.Levels.{IsNoneIn, IsFirstIn, IsLeastIn};

use crate::index::NEVER;
use crate::levels::{first_by, least_of, set_entry};
use std::alloc::{AllocError, Global};
use std::marker::Model;

/// A fixed number of ticks. With up to 64,000 a change of one looks at eight entries a level at most, and a search at
/// sixteen.
#[derive(Drop)]
pub struct Groups {
    count: usize,
    /// How many levels of least ticks stand above the entries.
    levels: usize,
    /// The entries, and behind them the levels of least ticks.
    all: Vec<u64>,
}

impl Model for Groups {
    ghost use Rattle.std.specs.Prelude.{List, ℕ, take};

    ghost Value = { List ℕ };

    ghost view = { λ groups. take groups.count groups.all.items };

    ghost use Rattle.deadline_index.specs.Inside.Levels.{AreLevels};

    ghost invariant = { λ groups. AreLevels groups.levels 0 groups.count groups.all.items };
}

impl Groups {
    /// So many entries that never fall due.
    pub fn with_count(alloc: Global, count: usize) -> Result<Groups, AllocError>
        ensures value { IfOk result (λ groups. groups ≡ replicate count NEVER) }
    {
        // Room for the entries and for four levels above them, each an eighth of the one below and an entry more.
        let Some(total) = count.checked_add(count / 6 + 8) else {
            return Err(AllocError);
        };
        let mut all = Vec::with_capacity(alloc, total)?;
        all.resize(total, NEVER)?;
        Ok(Groups {
            count,
            levels: level_count(count),
            all,
        })
    }

    /// An entry's tick.
    pub fn get(&self, entry: usize) -> u64
        requires { entry < length self.now }
        ensures { result ≡ slice_index self.now entry }
    {
        self.all[entry]
    }

    /// Gives an entry another tick, or `NEVER`.
    pub fn set(&mut self, entry: usize, tick: u64)
        requires { entry < length self.old }
        ensures value { self.new ≡ slice_set self.old entry tick }
    {
        set_entry(&mut self.all, self.levels, 0, self.count, entry, tick);
    }

    /// A tick that no entry is below.
    pub fn least(&self) -> u64
        ensures { IsLeastIn self.now 0 0 (length self.now) result }
    {
        least_of(&self.all, self.levels, 0, self.count)
    }

    /// The first entry from `start` on that is at most the tick.
    pub fn first_by(&self, start: usize, tick: u64) -> Option<usize>
        ensures some { IfSome result (IsFirstIn self.now 0 start (length self.now) tick) }
        ensures none { IfNone result (IsNoneIn self.now 0 start (length self.now) tick) }
    {
        first_by(&self.all, self.levels, 0, self.count, start, tick)
    }
}

/// How many levels stand above so many entries. The highest has two entries at most, below 4,096 entries.
fn level_count(count: usize) -> usize
    ensures { result ≤ 4 }
{
    if count < 64 {
        2
    } else if count < 512 {
        3
    } else {
        4
    }
}
