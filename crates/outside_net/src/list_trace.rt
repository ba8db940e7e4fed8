//! A trace in memory.
ghost use Rattle.std.specs.Prelude.{◌≡◌, [], IfOk};

use crate::{Full, Trace};
use outside_io::NoMemory;
use std::alloc::Global;
use std::marker::Model;

/// Keeps what it is told, up to its limit. It takes its room when it is made.
#[derive(Drop)]
pub struct ListTrace<E> {
    items: Vec<E>,
    limit: usize,
}

impl<E> Model for ListTrace<E> {
    ghost use Rattle.std.specs.Prelude.{◌≤◌, length, vec_capacity};
    ghost use Rattle.outside_net.specs.Traces.{KeptList};

    ghost Value = { KeptList E };

    ghost view = { λ k. record { items = k.items.items; limit = k.limit } };

    ghost invariant = { λ k. (k.limit ≤ vec_capacity k.items) × (length k.items.items ≤ k.limit) };
}

impl<E> ListTrace<E> {
    /// Nothing yet, and room for `limit` items.
    pub fn with(alloc: Global, limit: usize) -> Result<ListTrace<E>, NoMemory>
        ensures value { IfOk result (λ kept. kept ≡ record { items = []; limit = limit }) }
    {
        Ok(ListTrace {
            items: Vec::with_capacity(alloc, limit)?,
            limit,
        })
    }
}

impl<E: Drop> Trace<E> for ListTrace<E> {
    ghost use Rattle.std.specs.Prelude.{Some};

    ghost list = { λ kept. Some kept.items };

    ghost limit = { λ kept. Some kept.limit };

    fn room(&self) -> Result<(), Full> {
        if self.items.len() >= self.limit {
            return Err(Full);
        }
        Ok(())
    }

    fn add(&mut self, item: E) {
        let _ = self.items.push(item);
    }

    fn kept(&self) -> &[E] {
        &self.items
    }
}
