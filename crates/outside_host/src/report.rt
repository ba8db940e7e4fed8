//! The counts that a host in memory was given last.
ghost use Rattle.std.specs.Prelude.{◌≡◌, take};
ghost use Rattle.outside_host.specs.Counts.{named};
ghost use Rattle.outside_host.specs.declared.counts.TheConstants.{MAX_COUNTS as max_counts};

use crate::counts::{Count, MAX_COUNTS};
use std::marker::Model;

// The first of them, with their names.
#[derive(Drop)]
pub struct Report {
    rows: [Count; MAX_COUNTS],
    length: usize,
}

impl Model for Report {
    ghost use Rattle.std.specs.Prelude.{◌≤◌, List, take};
    ghost use Rattle.outside_host.specs.Counts.{NamedCount, named};
    ghost use Rattle.outside_host.specs.declared.counts.TheConstants.{MAX_COUNTS as max_counts};

    ghost Value = { List NamedCount };

    ghost view = { λ r. named (take r.length r.rows) };

    ghost invariant = { λ r. r.length ≤ max_counts };
}

impl Report {
    pub fn of(counts: &[Count]) -> Report
        ensures value { result ≡ named (take max_counts counts.now) }
    {
        let none = Count { name: "", count: 0 };
        let mut rows = [none; MAX_COUNTS];
        let length = counts.len().min(MAX_COUNTS);
        rows[..length].copy_from_slice(&counts[..length]);
        Report { rows, length }
    }

    pub fn rows(&self) -> &[Count]
        ensures value { named result.now ≡ self.now }
    {
        &self.rows[..self.length]
    }
}
