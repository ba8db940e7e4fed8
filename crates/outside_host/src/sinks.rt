//! Sinks are opened in order, and given back.
ghost use Rattle.std.specs.Prelude.{◌≡◌, ◌+◌, IsTrue, IfOk, OnOk, OnErr, All, length, map};
ghost use Rattle.outside_io.specs.Told.{IsEmpty};
ghost use Rattle.outside_host.specs.Shelf.{ChangesSinks, HasHostCause};
ghost use Rattle.outside_host.specs.Sinks.{AreAsTheyWere, AreBack, AreDifferent, AreOpenedInOrder, AreOut, StayOthers};
ghost use Rattle.outside_host.specs.Inside.Sinks.{IsNextOut, StaysClosed};

use crate::{Host, HostBad};
use std::alloc::Global;

// Opens the sink of this name, behind those that are open. One for which there is no room is given back.
fn open_next<H: Host>(host: &mut H, name: &str, sinks: &mut Vec<H::Output>) -> Result<(), HostBad>
    ensures ok { IsTrue H.tells → OnOk result
        (IsNextOut (H.shelf host.old).sinks (H.shelf host.new).sinks name.now sinks.old.items sinks.new.items) }
    ensures fresh { All (λ sink. IsEmpty (H.Output.contents sink)) sinks.old.items
        → OnOk result (All (λ sink. IsEmpty (H.Output.contents sink)) sinks.new.items) }
    ensures more { OnOk result (length sinks.new.items ≡ length sinks.old.items + 1) }
    ensures err { IsTrue H.tells
        → OnErr result (StaysClosed (H.shelf host.old).sinks (H.shelf host.new).sinks name.now) }
    ensures kept { OnErr result (sinks.new.items ≡ sinks.old.items) }
    ensures same { IsTrue H.tells → ChangesSinks (H.shelf host.old) (H.shelf host.new) }
    ensures cause { HasHostCause (H.faults host.old) (H.faults host.new) result }
{
    let sink = match host.sink(name) {
        Ok(sink) => sink,
        Err(bad) => return Err(bad),
    };
    match sinks.push(sink) {
        Ok(()) => Ok(()),
        Err(refused) => {
            host.back_sink(name, refused.value);
            Err(HostBad::NoMemory)
        }
    }
}

/// Opens the sinks of these names in this order, all of them or none: where one can't be opened, those before it are
/// given back. Where a host opens files, what the opened ones held is gone then, whatever the answer.
pub fn open_sinks<H: Host>(
    alloc: Global,
    host: &mut H,
    names: &[&str],
) -> Result<Vec<H::Output>, HostBad>
    requires different { AreDifferent (map (λ name. name.now) names.now) }
    ensures ok { IsTrue H.tells → IfOk result (λ sinks. AreOut (H.shelf host.old).sinks (H.shelf host.new).sinks
        (map (λ name. name.now) names.now) sinks.items) }
    ensures fresh { IfOk result (λ sinks. All (λ sink. IsEmpty (H.Output.contents sink)) sinks.items) }
    ensures count { IfOk result (λ sinks. length sinks.items ≡ length names.now) }
    ensures err { IsTrue H.tells
        → OnErr result (AreAsTheyWere (H.shelf host.old).sinks (H.shelf host.new).sinks) }
    ensures others { IsTrue H.tells
        → StayOthers (H.shelf host.old).sinks (H.shelf host.new).sinks (map (λ name. name.now) names.now) }
    ensures order { IsTrue H.tells
        → AreOpenedInOrder (H.shelf host.old).sinks (H.shelf host.new).sinks (map (λ name. name.now) names.now) }
    ensures same { IsTrue H.tells → ChangesSinks (H.shelf host.old) (H.shelf host.new) }
    ensures cause { HasHostCause (H.faults host.old) (H.faults host.new) result }
{
    let mut sinks = match Vec::with_capacity(alloc, names.len()) {
        Ok(sinks) => sinks,
        Err(_) => return Err(HostBad::NoMemory),
    };
    for name in names {
        match open_next(host, name, &mut sinks) {
            Ok(()) => {}
            Err(bad) => {
                let opened = &names[..sinks.len()];
                back_sinks(host, opened, sinks);
                return Err(bad);
            }
        }
    }
    Ok(sinks)
}

/// Gives sinks back to a host, each under its name.
pub fn back_sinks<H: Host>(host: &mut H, names: &[&str], mut sinks: Vec<H::Output>)
    requires different { AreDifferent (map (λ name. name.now) names.now) }
    requires count { length sinks.items ≡ length names.now }
    ensures state { IsTrue H.tells → AreBack (H.shelf host.old).sinks (H.shelf host.new).sinks
        (map (λ name. name.now) names.now) sinks.items }
    ensures same { IsTrue H.tells → ChangesSinks (H.shelf host.old) (H.shelf host.new) }
    ensures cause { H.faults host.new ≡ H.faults host.old }
{
    while let Some(sink) = sinks.pop() {
        host.back_sink(names[sinks.len()], sink);
    }
}
