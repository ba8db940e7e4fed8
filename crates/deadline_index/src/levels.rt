//! Levels of least ticks over entries, one behind another in one list: each entry is the least of eight in the level
//! before it.
ghost use Rattle.std.specs.Prelude.{◌≡◌, ◌+◌, ◌*◌, ◌/◌, ◌<◌, ◌≤◌, ℕ, min, length, slice_index, slice_set, IsTrue, IfSome, IfNone};
ghost use Rattle.deadline_index.specs.Inside.Levels.{group_count, AreLevels, IsNoneIn, IsFirstIn, IsLeastIn, IsLeastBut};

use crate::index::NEVER;

/// How many entries a group has.
pub const GROUP: usize = 8;

/// How many groups a level has room for above so many entries.
pub fn group_count(len: usize) -> usize
    ensures { result ≡ group_count len }
{
    len / GROUP + 1
}

/// Where the group of an entry ends, or the level.
pub fn group_end(entry: usize, len: usize) -> usize
    requires { entry < len }
    ensures { result ≡ min (8 * (entry / 8) + 8) len }
{
    let group = entry / GROUP;
    if group < len / GROUP {
        GROUP * group + GROUP
    } else {
        len
    }
}

/// The first entry between two that is at most the tick.
pub fn first_in(all: &[u64], at: usize, start: usize, end: usize, tick: u64) -> Option<usize>
    requires within { at + end ≤ length all.now }
    ensures some { IfSome result (IsFirstIn all.now at start end tick) }
    ensures none { IfNone result (IsNoneIn all.now at start end tick) }
{
    let mut next = start;
    while next < end {
        if all[at + next] <= tick {
            return Some(next);
        }
        next += 1;
    }
    None
}

/// The least entry between two.
fn least_in(all: &[u64], at: usize, from: usize, end: usize) -> u64
    requires within { at + end ≤ length all.now }
    ensures { IsLeastIn all.now at from end result }
{
    let mut least = NEVER;
    let mut next = from;
    while next < end {
        least = least.min(all[at + next]);
        next += 1;
    }
    least
}

/// The first entry from `start` on of a level that is at most the tick.
pub fn first_by(
    all: &[u64],
    levels: usize,
    at: usize,
    len: usize,
    start: usize,
    tick: u64,
) -> Option<usize>
    requires levels { AreLevels levels at len all.now }
    ensures some { IfSome result (IsFirstIn all.now at start len tick) }
    ensures none { IfNone result (IsNoneIn all.now at start len tick) }
{
    let mut next = start;
    while next < len {
        let end = group_end(next, len);
        if let Some(entry) = first_in(all, at, next, end, tick) {
            return Some(entry);
        }
        if levels == 0 || end == len {
            next = end;
        } else {
            match first_by(
                all,
                levels - 1,
                at + len,
                group_count(len),
                end / GROUP,
                tick,
            ) {
                Some(group) => next = GROUP * group,
                None => return None,
            }
        }
    }
    None
}

/// The least of all entries of a level, by the highest of the levels above it.
pub fn least_of(all: &[u64], levels: usize, at: usize, len: usize) -> u64
    requires { AreLevels levels at len all.now }
    ensures { IsLeastIn all.now at 0 len result }
{
    if levels == 0 {
        least_in(all, at, 0, len)
    } else {
        least_of(all, levels - 1, at + len, group_count(len))
    }
}

/// The least of eight entries.
fn least_of_eight(all: &[u64], from: usize) -> u64
    requires { from + 8 ≤ length all.now }
    ensures { IsLeastIn all.now from 0 8 result }
{
    let front = all[from]
        .min(all[from + 1])
        .min(all[from + 2])
        .min(all[from + 3]);
    let back = all[from + 4]
        .min(all[from + 5])
        .min(all[from + 6])
        .min(all[from + 7]);
    front.min(back)
}

/// Whether none of eight entries is below the tick.
fn is_least_of_eight(all: &[u64], from: usize, tick: u64) -> bool
    requires { from + 8 ≤ length all.now }
    ensures { IsTrue result → IsLeastIn all.now from 0 8 tick }
{
    tick <= all[from]
        && tick <= all[from + 1]
        && tick <= all[from + 2]
        && tick <= all[from + 3]
        && tick <= all[from + 4]
        && tick <= all[from + 5]
        && tick <= all[from + 6]
        && tick <= all[from + 7]
}

/// The least of an entry's group. All groups but a level's last are whole. In one of these the entry that was the least
/// mostly still is.
pub fn least_of_group(all: &[u64], at: usize, len: usize, entry: usize) -> u64
    requires entry { entry < len }
    requires within { at + len ≤ length all.now }
    ensures { IsLeastIn all.now at (8 * (entry / 8)) (min (8 * (entry / 8) + 8) len) result }
{
    let group = entry / GROUP;
    if group < len / GROUP {
        let from = at + GROUP * group;
        let tick = all[at + entry];
        if tick != NEVER && is_least_of_eight(all, from, tick) {
            tick
        } else {
            least_of_eight(all, from)
        }
    } else {
        least_in(all, at, GROUP * group, len)
    }
}

/// The least of an entry's group, where none but the entry itself is below `least`.
fn least_now(all: &[u64], at: usize, len: usize, entry: usize, least: u64) -> u64
    requires entry { entry < len }
    requires within { at + len ≤ length all.now }
    requires others { IsLeastBut all.now at len entry least }
    ensures { IsLeastIn all.now at (8 * (entry / 8)) (min (8 * (entry / 8) + 8) len) result }
{
    let tick = all[at + entry];
    if tick < least {
        tick
    } else {
        least_of_group(all, at, len, entry)
    }
}

/// Gives an entry another tick, and the entries above it the least of their groups, as far as they change. Where another
/// entry has been the least of its group and still is, none does.
pub fn set_entry(all: &mut [u64], levels: usize, at: usize, len: usize, entry: usize, tick: u64)
    requires entry { entry < len }
    requires before { AreLevels levels at len all.old }
    ensures levels { AreLevels levels at len all.new }
    ensures value { (i : ℕ) → i < at + len
        → slice_index all.new i ≡ slice_index (slice_set all.old (at + entry) tick) i }
{
    let before = all[at + entry];
    all[at + entry] = tick;
    if levels == 0 {
        return;
    }
    let group = entry / GROUP;
    let above = at + len;
    let least = all[above + group];
    if least <= tick && least < before {
        return;
    }
    let now = least_now(all, at, len, entry, least);
    if now == least {
        return;
    }
    set_entry(all, levels - 1, above, group_count(len), group, now);
}
