//! The receiving end of a run, before it begins.
ghost use Rattle.std.specs.Prelude.{◌≡◌, ◌≤◌, ◌+◌, IfOk, length};
ghost use Rattle.link_channels.specs.declared.bounds.TheConstants.{MAX_LINKS};
ghost use Rattle.desk_run.specs.Setup.{IsMade};
ghost use Rattle.rist_gateway.specs.Setup.{IsKeptEnd};

use crate::either_worker::EitherWorker;
use desk_run::{MadeInTurns, MadeTrace, Memory};
use outside_io::NoMemory;
use std::alloc::Global;

/// A receiving end whose steps are kept: what was made for it, room for the parts of both ends, and what each side worker
/// has of its own, which is nothing.
#[derive(Drop)]
pub struct KeptEnd<T, L, C> {
    pub made: Memory<T, L, C>,
    pub parts: Vec<EitherWorker<L, C, T, C, ()>>,
    pub passes: Vec<()>,
}

/// What a run's receiving end takes memory for.
#[derive(Drop)]
pub enum ReceivingEnd<T, L, C> {
    /// One whose steps are kept, behind a lock.
    Kept(KeptEnd<T, L, C>),
    /// One in turns.
    InTurns(MadeInTurns),
}

/// So many rights of side workers that are none.
fn nothings(alloc: Global, count: usize) -> Result<Vec<()>, NoMemory>
    ensures count { IfOk result (λ all. length all.items ≡ count) }
{
    let mut all = Vec::new(alloc);
    while all.len() < count {
        if all.push(()).is_err() {
            return Err(NoMemory);
        }
    }
    Ok(all)
}

/// Takes the memory beside what was made for a receiving end of so many links whose steps are kept.
pub(crate) fn kept_end<T: MadeTrace + Drop, L: Drop, C: Drop>(
    alloc: Global,
    made: Memory<T, L, C>,
    inputs: usize,
    outputs: usize,
) -> Result<KeptEnd<T, L, C>, NoMemory>
    requires made { IsMade T.list T.limit inputs made }
    requires few { inputs + outputs ≤ MAX_LINKS }
    ensures made { IfOk result (λ end. end.made ≡ made) }
    ensures end { IfOk result (λ end. IsKeptEnd T.list T.limit inputs outputs end) }
{
    Ok(KeptEnd {
        made,
        parts: Vec::with_capacity(alloc, inputs + outputs)?,
        passes: nothings(alloc, outputs)?,
    })
}
