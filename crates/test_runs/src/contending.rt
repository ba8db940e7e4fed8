//! A lock that threads contend for.
ghost use Rattle.std.specs.Prelude.{◌<◌, ℕ, length, slice_index_or};
ghost use Rattle.turn_lock.specs.Passes.{AreFresh, IsPassOf};

use std::alloc::Global;
use std::hint::spin_loop;
use std::sync::atomic::{AtomicU64, Ordering};
use std::sync::{Arc, Wait};
use std::test::Fail;
use std::thread::{self, Threads};
use turn_lock::{Acts, Pass, TurnLock, Turned};

/// How many turns are taken with each pass.
const TURNS: u64 = 300;

/// How often a step looks, so that a thread that waits for its turn falls asleep.
const SPINS: u64 = 10_000;

/// Counts its steps, and shows how many there were. A step takes long.
#[derive(Drop)]
struct SlowCount {
    steps: u64,
    shown: Arc<AtomicU64, Global>,
}

impl Turned<u64> for SlowCount {
    ghost stands = { λ _ _. Unit {0} };
}

impl Acts<u64, u64, (), ()> for SlowCount {
    ghost use Rattle.std.specs.Prelude.{Some};

    ghost asks = { λ _ _. Unit {0} };

    ghost adds = { λ ask _ _. Some ask };

    ghost answers = { λ _ _ _ _ _. Unit {0} };

    fn act(&mut self, ask: &u64, room: &mut ()) {
        for _ in 0..SPINS {
            spin_loop();
        }
        self.steps = self.steps.wrapping_add(1);
        self.shown.store(self.steps, Ordering::SeqCst);
    }
}

/// Takes one turn, where fewer were taken with the pass.
fn take_turn<R: Wait>(rt: &R, lock: &TurnLock<u64, SlowCount>, pass: &mut Pass<u64, SlowCount>)
    requires own { IsPassOf lock.now pass.old }
    ensures own { IsPassOf lock.now pass.new }
{
    if pass.calls() < TURNS {
        lock.step(rt, pass, &1, &mut ());
    }
}

/// Takes all turns of a pass.
fn take_turns<R: Wait>(rt: &R, lock: &TurnLock<u64, SlowCount>, pass: &mut Pass<u64, SlowCount>)
    requires own { IsPassOf lock.now pass.old }
{
    for turn in 0..TURNS {
        take_turn(rt, lock, pass);
    }
}

/// Takes all turns of each pass, in a thread of its own.
fn contend<R: Threads + Wait + Sync>(
    rt: &R,
    lock: &TurnLock<u64, SlowCount>,
    passes: &mut [Pass<u64, SlowCount>],
)
    requires own { (i : ℕ) (d : _) → i < length passes.old → IsPassOf lock.now (slice_index_or passes.old i d) }
{
    thread::for_each_mut(rt, passes, 4, &|_, pass| { take_turns(rt, lock, pass) });
}

/// The same of fresh passes, and then how many turns were taken with each.
fn all_taken<R: Threads + Wait + Sync>(
    rt: &R,
    alloc: Global,
    lock: TurnLock<u64, SlowCount>,
    mut passes: Vec<Pass<u64, SlowCount>>,
) -> Result<Vec<u64>, Fail>
    requires fresh { AreFresh lock passes.items }
{
    contend(rt, &lock, &mut passes);
    let mut calls = Vec::new(alloc);
    for pass in &passes {
        calls.push(pass.calls())?;
    }
    Ok(calls)
}

/// The same of four passes over this value.
fn taken<R: Threads + Wait + Sync>(
    rt: &R,
    alloc: Global,
    count: SlowCount,
) -> Result<Vec<u64>, Fail> {
    match TurnLock::open(alloc, count, 4) {
        Ok((lock, passes)) => all_taken(rt, alloc, lock, passes),
        Err(_) => Err(Fail::new("out of memory")),
    }
}

#[test]
fn each_turn_that_four_threads_wait_for_is_taken_once(rt: HostRuntime) -> Result<(), Fail> {
    let alloc = rt.alloc();
    let shown = Arc::new(alloc, AtomicU64::new(0))?;
    let count = SlowCount {
        steps: 0,
        shown: Arc::try_clone(&shown)?,
    };
    let calls = taken(&rt, alloc, count)?;
    assert!(rt; calls.as_slice() == [TURNS; 4].as_slice());
    assert!(rt; shown.load(Ordering::SeqCst) == 4 * TURNS);
    Ok(())
}
