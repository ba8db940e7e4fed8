//! Which links a host in memory handed out.
ghost use Rattle.std.specs.Prelude.{◌≡◌, ◌<◌, ◌++◌, ◌∷◌, [], length, slice_get, IfOk, vec_capacity};

use crate::Opened;
use outside_io::NoMemory;
use std::alloc::Global;
use std::marker::Model;

// How many links are handed out at most: a place has 8 bits.
pub const MAX_PLACES: usize = 256;

// How each link was opened, the oldest first. It takes its room when it is made.
#[derive(Drop)]
pub struct Openings {
    list: Vec<Opened>,
}

impl Model for Openings {
    ghost use Rattle.std.specs.Prelude.{◌≤◌, List, vec_capacity};
    ghost use Rattle.outside_host.specs.declared.host.Opened.{Opened as OpenedValue};

    ghost Value = { List OpenedValue };

    ghost view = { λ o. o.list.items };

    ghost invariant = { λ o. 256 ≤ vec_capacity o.list };
}

impl Openings {
    pub fn with(alloc: Global) -> Result<Openings, NoMemory>
        ensures value { IfOk result (λ openings. openings ≡ []) }
    {
        Ok(Openings {
            list: Vec::with_capacity(alloc, MAX_PLACES)?,
        })
    }

    pub fn len(&self) -> usize
        ensures value { result ≡ length self.now }
    {
        self.list.len()
    }

    pub fn add(&mut self, opened: Opened)
        requires room { length self.old < 256 }
        ensures value { self.new ≡ self.old ++ opened ∷ [] }
    {
        let _ = self.list.push(opened);
    }

    pub fn get(&self, place: usize) -> Option<Opened>
        ensures value { result ≡ slice_get self.now place }
    {
        self.list.get(place).copied()
    }
}
