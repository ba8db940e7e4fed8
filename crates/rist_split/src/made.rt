//! What a split takes memory for.
ghost use Rattle.std.specs.Prelude.{◌≡◌, IfOk, vec_len};
ghost use Rattle.rist_wire.specs.Session.{IsSession};
ghost use Rattle.rist_ends.specs.Settings.{limits_of};
ghost use Rattle.rist_replay.specs.Replay.{AreSettings};
ghost use Rattle.rist_split.specs.Outputs.{IsMade};
ghost use Rattle.rist_split.specs.Split.{IsFresh};
ghost use Rattle.rist_split.specs.Inside.Making.{AreReceivers};

use outside_io::NoMemory;
use rist_ends::{Receiver, Settings};
use rist_fan::{Came, Flow};
use rist_wire::{Opener, Session};
use std::alloc::Global;

/// What a split takes memory for: an opener, a receiver for each output, and room for what comes of a step and for the flows.
#[derive(Drop)]
pub struct SplitMemory<K> {
    /// Opens the tunnel's datagrams.
    pub opener: Opener,
    /// The receiver of each output.
    pub receivers: Vec<Receiver>,
    /// Memory for what a step comes to at each output.
    pub came: Vec<Came>,
    /// Room for a receiver with its sink, for each output.
    pub flows: Vec<Flow<K>>,
}

/// A receiver that sends nothing back.
fn receiver(alloc: Global, session: &Session, settings: &Settings) -> Result<Receiver, NoMemory>
    requires session { IsSession session.now }
    requires settings { AreSettings settings.now }
    ensures fresh { IfOk result (λ receiver. IsFresh (limits_of settings.now) receiver) }
{
    Receiver::with(alloc, settings, session, None)
}

/// So many of them.
fn receivers(
    alloc: Global,
    session: &Session,
    settings: &Settings,
    count: usize,
) -> Result<Vec<Receiver>, NoMemory>
    requires session { IsSession session.now }
    requires settings { AreSettings settings.now }
    ensures each { IfOk result (λ receivers. AreReceivers (limits_of settings.now) count receivers.items) }
{
    let mut receivers = Vec::new(alloc);
    while receivers.len() < count {
        let receiver = receiver(alloc, session, settings)?;
        if receivers.push(receiver).is_err() {
            return Err(NoMemory);
        }
    }
    Ok(receivers)
}

/// Memory for what a step comes to at so many outputs.
fn room(alloc: Global, count: usize) -> Result<Vec<Came>, NoMemory>
    ensures count { IfOk result (λ came. vec_len came ≡ count) }
{
    let mut came = Vec::new(alloc);
    while came.len() < count {
        if came.push(Came::none()).is_err() {
            return Err(NoMemory);
        }
    }
    Ok(came)
}

/// Takes the memory for a split into so many outputs: for datagrams of a session, whatever its port, and for receivers with
/// these settings.
pub fn make<K: Drop>(
    alloc: Global,
    session: &Session,
    settings: &Settings,
    count: usize,
) -> Result<SplitMemory<K>, NoMemory>
    requires session { IsSession session.now }
    requires settings { AreSettings settings.now }
    ensures made { IfOk result (λ made. IsMade (limits_of settings.now) count made) }
    ensures session { IfOk result (λ made. made.opener ≡ session.now) }
{
    let opener = Opener::with(alloc, session)?;
    let receivers = receivers(alloc, session, settings, count)?;
    let came = room(alloc, count)?;
    match Vec::with_capacity(alloc, count) {
        Ok(flows) => Ok(SplitMemory {
            opener,
            receivers,
            came,
            flows,
        }),
        Err(_) => Err(NoMemory),
    }
}
