//! Clocks are handed out in order, and given back.
ghost use Rattle.std.specs.Prelude.{◌≡◌, ◌≤◌, ◌<◌, ◌+◌, IsTrue, IfOk, OnOk, OnErr, length};
ghost use Rattle.outside_host.specs.Shelf.{ChangesClocks, ChangesTiming, HasHostCause};
ghost use Rattle.outside_host.specs.Links.{AreAsTheyWere, AreBack, AreOut, HasStartedNone};
ghost use Rattle.outside_host.specs.Inside.Links.{IsNextOut, StayFirst};

use crate::{Host, HostBad};
use std::alloc::Global;

// Has the next clock. One for which there is no room is given back.
fn start_next<H: Host>(host: &mut H, clocks: &mut Vec<H::Time>) -> Result<(), HostBad>
    requires few { length clocks.old.items < 17 }
    ensures ok { IsTrue H.tells → (H.shelf host.old).next_clock ≡ length clocks.old.items → OnOk result
        (IsNextOut (H.shelf host.old).clocks (H.shelf host.new).clocks clocks.old.items clocks.new.items
        × ((H.shelf host.new).next_clock ≡ length clocks.old.items + 1)) }
    ensures err { IsTrue H.tells → (H.shelf host.old).next_clock ≡ length clocks.old.items → OnErr result
        (AreAsTheyWere (H.shelf host.old).clocks (H.shelf host.new).clocks
        × StayFirst (length clocks.old.items) (H.shelf host.old).clocks (H.shelf host.new).clocks) }
    ensures more { OnOk result (length clocks.new.items ≡ length clocks.old.items + 1) }
    ensures kept { OnErr result (clocks.new.items ≡ clocks.old.items) }
    ensures same { IsTrue H.tells → ChangesTiming (H.shelf host.old) (H.shelf host.new) }
    ensures cause { HasHostCause (H.faults host.old) (H.faults host.new) result }
{
    let clock = match host.clock() {
        Ok(clock) => clock,
        Err(bad) => return Err(bad),
    };
    match clocks.push(clock) {
        Ok(()) => Ok(()),
        Err(refused) => {
            host.back_clock(clocks.len() as u8, refused.value);
            Err(HostBad::NoMemory)
        }
    }
}

/// Has so many clocks, all of them or none: where one can't be had, those before it are given back.
pub fn open_clocks<H: Host>(
    alloc: Global,
    host: &mut H,
    count: usize,
) -> Result<Vec<H::Time>, HostBad>
    requires few { count ≤ 17 }
    ensures ok { HasStartedNone H.tells (H.shelf host.old)
        → IfOk result (λ clocks. AreOut (H.shelf host.old).clocks (H.shelf host.new).clocks clocks.items) }
    ensures count { IfOk result (λ clocks. length clocks.items ≡ count) }
    ensures err { HasStartedNone H.tells (H.shelf host.old)
        → OnErr result (AreAsTheyWere (H.shelf host.old).clocks (H.shelf host.new).clocks) }
    ensures same { IsTrue H.tells → ChangesTiming (H.shelf host.old) (H.shelf host.new) }
    ensures cause { HasHostCause (H.faults host.old) (H.faults host.new) result }
{
    let mut clocks = match Vec::with_capacity(alloc, count) {
        Ok(clocks) => clocks,
        Err(_) => return Err(HostBad::NoMemory),
    };
    while clocks.len() < count {
        match start_next(host, &mut clocks) {
            Ok(()) => {}
            Err(bad) => {
                back_clocks(host, clocks);
                return Err(bad);
            }
        }
    }
    Ok(clocks)
}

/// Gives clocks back to the first places of a host, in this order.
pub fn back_clocks<H: Host>(host: &mut H, mut clocks: Vec<H::Time>)
    requires few { length clocks.items ≤ 17 }
    ensures state { IsTrue H.tells → AreBack (H.shelf host.old).clocks (H.shelf host.new).clocks clocks.items }
    ensures same { IsTrue H.tells → ChangesClocks (H.shelf host.old) (H.shelf host.new) }
    ensures cause { H.faults host.new ≡ H.faults host.old }
{
    while let Some(clock) = clocks.pop() {
        host.back_clock(clocks.len() as u8, clock);
    }
}
