//! What a run in turns takes memory for before its sink is there.
ghost use Rattle.std.specs.Prelude.{◌≡◌, IfOk, length, None, true};
ghost use Rattle.std.specs.List.{All};
ghost use Rattle.rist_wire.specs.Session.{IsSession};
ghost use Rattle.rist_reporter.specs.Reporter.{IsPaired};
ghost use Rattle.rist_ends.specs.Settings.{IsInRange};
ghost use Rattle.desk_run.specs.Setup.{IsMadeInTurns, setup_in_turns, setup_made};

use outside_io::NoMemory;
use psk_seal::Sealer;
use rist_ends::{Receiver, Settings};
use rist_wire::{Opener, Session};
use std::alloc::Global;

/// A receiver, and an opener for each link.
#[derive(Drop)]
pub struct MadeInTurns {
    pub receiver: Receiver,
    pub openers: Vec<Opener>,
}

/// So many openers of a session.
fn openers(alloc: Global, session: &Session, count: usize) -> Result<Vec<Opener>, NoMemory>
    requires session { IsSession session.now }
    ensures each { IfOk result (λ openers. All (λ opener. opener ≡ session.now) openers.items) }
    ensures count { IfOk result (λ openers. length openers.items ≡ count) }
{
    let mut openers = Vec::new(alloc);
    while openers.len() < count {
        let opener = Opener::with(alloc, session)?;
        if openers.push(opener).is_err() {
            return Err(NoMemory);
        }
    }
    Ok(openers)
}

/// Takes the memory for a run in turns on so many links.
pub fn make_in_turns(
    alloc: Global,
    settings: &Settings,
    session: &Session,
    sealer: Option<Sealer>,
    count: usize,
) -> Result<MadeInTurns, NoMemory>
    requires settings { IsInRange settings.now }
    requires session { IsSession session.now }
    requires paired { IsPaired settings.now.muted (record { session = session.now; sealer = sealer }) }
    ensures setup { IfOk result (λ made.
        setup_in_turns made ≡ setup_made settings.now session.now sealer None true) }
    ensures made { IfOk result (λ made. IsMadeInTurns count made) }
{
    Ok(MadeInTurns {
        receiver: Receiver::with(alloc, settings, session, sealer)?,
        openers: openers(alloc, session, count)?,
    })
}
