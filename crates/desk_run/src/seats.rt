//! What a run of receiving takes memory for, before it begins.
ghost use Rattle.std.specs.Prelude.{◌≡◌, [], Some, None, Bool, IfOk, if◌then◌else◌, length};
ghost use Rattle.std.specs.List.{All};
ghost use Rattle.rist_wire.specs.Session.{IsSession};
ghost use Rattle.rist_reporter.specs.Reporter.{IsPaired};
ghost use Rattle.rist_ends.specs.Settings.{IsInRange};
ghost use Rattle.desk_run.specs.Setup.{IsSeat, IsMade, setup_kept, setup_of};

use outside_io::NoMemory;
use outside_net::ListTrace;
use psk_seal::Sealer;
use rist_desk::{Step, StepTrace, Worker};
use rist_ends::{Receiver, Settings};
use rist_wire::{Opener, Session};
use std::alloc::Global;

/// A kind of trace that can be made.
pub trait MadeTrace: StepTrace {
    /// Whether its traces tell what they keep.
    ghost told: { Bool };

    /// One that was told nothing, with room for so many steps if it keeps any.
    fn with_room(alloc: Global, room: usize) -> Result<Self, NoMemory>
        ensures list { IfOk result (λ trace. Self.list trace ≡ (if told then Some [] else None)) }
        ensures limit { IfOk result (λ trace. Self.limit trace ≡ (if told then Some room else None)) };
}

impl MadeTrace for ListTrace<Step> {
    ghost use Rattle.std.specs.Prelude.{true};

    ghost told = { true };

    fn with_room(alloc: Global, room: usize) -> Result<ListTrace<Step>, NoMemory> {
        ListTrace::with(alloc, room)
    }
}

/// What a worker has beside its link and its clock.
#[derive(Drop)]
pub struct Seat<U> {
    pub opener: Opener,
    pub trace: U,
}

/// What a run takes memory for: its receiver, the trace of its steps, a seat for each worker, and room for the workers.
#[derive(Drop)]
pub struct Memory<T, L, C> {
    pub receiver: Receiver,
    pub trace: T,
    pub seats: Vec<Seat<T>>,
    pub workers: Vec<Worker<L, C, T>>,
}

/// A seat of a session.
fn seat_with<U: MadeTrace + Drop>(
    alloc: Global,
    session: &Session,
    room: usize,
) -> Result<Seat<U>, NoMemory>
    requires session { IsSession session.now }
    ensures seat { IfOk result (λ seat. IsSeat U.list U.limit session.now (if U.told then Some room else None) seat) }
{
    Ok(Seat {
        opener: Opener::with(alloc, session)?,
        trace: U::with_room(alloc, room)?,
    })
}

/// So many of them.
fn seats<U: MadeTrace + Drop>(
    alloc: Global,
    session: &Session,
    count: usize,
    room: usize,
) -> Result<Vec<Seat<U>>, NoMemory>
    requires session { IsSession session.now }
    ensures each { IfOk result (λ seats.
        All (IsSeat U.list U.limit session.now (if U.told then Some room else None)) seats.items) }
    ensures count { IfOk result (λ seats. length seats.items ≡ count) }
{
    let mut seats = Vec::new(alloc);
    while seats.len() < count {
        let seat = seat_with(alloc, session, room)?;
        if seats.push(seat).is_err() {
            return Err(NoMemory);
        }
    }
    Ok(seats)
}

/// Takes the memory for a run of so many links, whose traces keep so many steps if they keep any.
pub fn make<T: MadeTrace + Drop, L: Drop, C: Drop>(
    alloc: Global,
    settings: &Settings,
    session: &Session,
    sealer: Option<Sealer>,
    count: usize,
    keep: usize,
) -> Result<Memory<T, L, C>, NoMemory>
    requires settings { IsInRange settings.now }
    requires session { IsSession session.now }
    requires paired { IsPaired settings.now.muted (record { session = session.now; sealer = sealer }) }
    ensures setup { IfOk result (λ made. setup_of T.limit made
        ≡ setup_kept settings.now session.now sealer (if T.told then Some keep else None)) }
    ensures made { IfOk result (λ made. IsMade T.list T.limit count made) }
{
    Ok(Memory {
        receiver: Receiver::with(alloc, settings, session, sealer)?,
        trace: T::with_room(alloc, keep)?,
        seats: seats(alloc, session, count, keep)?,
        workers: Vec::with_capacity(alloc, count)?,
    })
}
