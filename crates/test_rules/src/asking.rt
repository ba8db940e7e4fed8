//! A worked run, by the plain program.
ghost use Rattle.std.specs.Prelude.{◌≤◌, ◌<◌, ◌^◌};
ghost use Rattle.plain_rules.specs.Requests.Told.{IsFit, IsSmallPolicy};

use plain_rules::requests::{Input, Step, asked};
use receiver_rules::{Arrival, Limits};
use request_rules::{AskWord, Asked, NackKind, Policy};
use seq_unwrap::Width;
use std::alloc::{AllocError, Global};
use std::process::Abort;

/// A delay of one second, and a span of 8.
const LIMITS: Limits = Limits {
    playout_delay: 90_000,
    capacity: 8,
    restart_time: 180_000,
    drift: false,
};

/// A tolerance of 25 ms, and at least 50 ms between two requests.
fn policy(kind: NackKind) -> Policy
    ensures { IsSmallPolicy result }
{
    Policy {
        reorder_tolerance: 2_250,
        retry_interval: 4_500,
        retry_limit: 8,
        kind,
    }
}

fn packet(tick: u64, word: u32, stamp: u32) -> Step<'static>
    requires tick { tick < 2 ^ 61 }
    requires word { word < 2 ^ 16 }
    ensures { IsFit result }
{
    let arrival = Arrival {
        flow: 0x1020_3040,
        again: false,
        width: Width::W16,
        word,
        stamp,
        payload: &[],
    };
    Step {
        link: 0,
        tick,
        input: Input::Media(arrival),
    }
}

fn clock(tick: u64) -> Step<'static>
    requires { tick < 2 ^ 61 }
    ensures { IsFit result }
{
    Step {
        link: 0,
        tick,
        input: Input::Tick,
    }
}

/// The words that are asked for at a tick after the first so many steps of the run.
fn asked_after(alloc: Global, kind: NackKind, count: usize, tick: u64) -> Result<Asked, AllocError>
    requires count { count ≤ 4 }
    requires tick { tick < 2 ^ 61 }
{
    let steps = [
        packet(0, 10, 0),
        packet(100, 15, 4_500),
        clock(2_349),
        clock(2_350),
    ];
    asked(alloc, &LIMITS, &policy(kind), &steps[..count], tick)
}

fn assert_nothing(rt: &impl Abort, alloc: Global, kind: NackKind, count: usize, tick: u64)
    requires count { count ≤ 4 }
    requires tick { tick < 2 ^ 61 }
{
    let told = asked_after(alloc, kind, count, tick);
    assert!(rt; matches!(told, Ok(asked) if asked.is_empty()));
}

fn assert_asked(
    rt: &impl Abort,
    alloc: Global,
    kind: NackKind,
    count: usize,
    tick: u64,
    second: u16,
)
    requires count { count ≤ 4 }
    requires tick { tick < 2 ^ 61 }
{
    let first = (1 << 40) + 11;
    let told = asked_after(alloc, kind, count, tick);
    assert!(rt;
        matches!(told, Ok(asked) if asked.words() == [AskWord { first, second }].as_slice())
    );
}

#[test]
fn a_gap_is_asked_for_after_the_tolerance_and_again_after_the_interval(rt: HostRuntime) {
    let alloc = rt.alloc();
    for (kind, second) in [(NackKind::Range, 3), (NackKind::Mask, 7)] {
        assert_nothing(&rt, alloc, kind, 3, 2_349);
        assert_asked(&rt, alloc, kind, 3, 2_350, second);
        assert_nothing(&rt, alloc, kind, 4, 6_849);
        assert_asked(&rt, alloc, kind, 4, 6_850, second);
    }
}
