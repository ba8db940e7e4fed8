ghost use Rattle.std.specs.Prelude.{◌≡◌, ◌<◌, ◌≤◌, ◌/◌, nat_le, length, replicate, slice_index, slice_set, IfOk, IfSome, IfNone};
ghost use Rattle.std.specs.List.{list_any};
ghost use Rattle.deadline_index.specs.Places.{IsFirstBy, IsNoneFrom};
ghost use Rattle.deadline_index.specs.Inside.Near.{IsFirstGroup, IsNoGroup};

use crate::groups::Groups;
use crate::levels::{GROUP, first_in, group_count, group_end, least_of_group};
use std::alloc::{AllocError, Global};
use std::marker::Model;

/// The tick of a place that never falls due.
pub const NEVER: u64 = u64::MAX;

/// A fixed number of places, each with the tick at which it falls due. Eight neighbours are near, those around the place
/// whose tick rose last: a change of one of them looks at these eight alone. Any other change, and each search, look at
/// sixteen entries a level at most, on six levels at most, for up to 32,000 places.
#[derive(Drop)]
pub struct DeadlineIndex {
    /// The tick of each place.
    ticks: Vec<u64>,
    /// Of each eight places a tick that none is below, but of the near ones `NEVER`.
    groups: Groups,
    /// Which eight places are near.
    near: usize,
    /// A tick that no near place is below.
    near_least: u64,
    /// A tick that no other place is below.
    far_least: u64,
}

impl Model for DeadlineIndex {
    ghost use Rattle.std.specs.Prelude.{List, ℕ};

    ghost Value = { List ℕ };

    ghost view = { λ index. index.ticks.items };

    ghost use Rattle.deadline_index.specs.Inside.Near.{IsNearAt};

    ghost invariant = { λ index. IsNearAt index.ticks.items index.groups index.near index.near_least index.far_least };
}

impl DeadlineIndex {
    /// As many places, none of which ever falls due.
    pub fn with_places(alloc: Global, places: usize) -> Result<DeadlineIndex, AllocError>
        ensures value { IfOk result (λ index. index ≡ replicate places NEVER) }
    {
        let mut ticks = Vec::with_capacity(alloc, places)?;
        ticks.resize(places, NEVER)?;
        Ok(DeadlineIndex {
            ticks,
            groups: Groups::with_count(alloc, group_count(places))?,
            near: 0,
            near_least: NEVER,
            far_least: NEVER,
        })
    }

    /// Gives a place another tick, or `NEVER`.
    #[inline(always)]
    pub fn set(&mut self, place: usize, tick: u64)
        requires { place < length self.old }
        ensures value { self.new ≡ slice_set self.old place tick }
    {
        let group = place / GROUP;
        let before = self.ticks[place];
        self.ticks[place] = tick;
        if before < tick {
            if group != self.near {
                self.groups.set(self.near, self.near_least);
                self.groups.set(group, NEVER);
                self.near = group;
                self.far_least = self.groups.least();
            }
            self.near_least = least_of_group(&self.ticks, 0, self.ticks.len(), place);
        } else if group == self.near {
            self.near_least = self.near_least.min(tick);
        } else if tick < self.groups.get(group) {
            self.groups.set(group, tick);
            self.far_least = self.far_least.min(tick);
        }
    }

    /// Whether any place is due by the tick. Where none is, this looks at no place.
    pub fn is_any_by(&self, tick: u64) -> bool
        ensures { result ≡ list_any (λ due. nat_le due tick) self.now }
    {
        (self.near_least <= tick || self.far_least <= tick) && self.first_by(0, tick).is_some()
    }

    /// The first place from `start` on that is due by the tick.
    pub fn first_by(&self, start: usize, tick: u64) -> Option<usize>
        ensures some { IfSome result (λ place. IsFirstBy self.now start tick place) }
        ensures none { IfNone result (IsNoneFrom self.now start tick) }
    {
        let places = self.ticks.len();
        let mut next = start;
        while next < places {
            let end = group_end(next, places);
            if let Some(place) = first_in(&self.ticks, 0, next, end, tick) {
                return Some(place);
            }
            if end == places {
                return None;
            }
            match self.first_group(end / GROUP, tick) {
                Some(group) => next = GROUP * group,
                None => return None,
            }
        }
        None
    }

    /// The first eight places from these on of which one may be due by the tick.
    fn first_group(&self, start: usize, tick: u64) -> Option<usize>
        ensures some { IfSome result (IsFirstGroup self.now start tick) }
        ensures none { IfNone result (IsNoGroup self.now start tick) }
    {
        let far = self.groups.first_by(start, tick);
        if self.near < start || tick < self.near_least {
            return far;
        }
        match far {
            Some(group) if group < self.near => far,
            _ => Some(self.near),
        }
    }
}
