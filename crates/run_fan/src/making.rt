//! What a run over several flows takes memory for, before anything is read or written.
ghost use Rattle.std.specs.Prelude.{◌≡◌, ◌<◌, length, map, slice_index, IfOk, is_some};
ghost use Rattle.std.specs.List.{All};
ghost use Rattle.rist_wire.specs.Session.{IsSession};
ghost use Rattle.rist_words.specs.Shown.{shown_fan};
ghost use Rattle.rist_words.specs.Ranges.{IsInFan};
ghost use Rattle.run_parts.specs.Sealing.{IsFreshFor};
ghost use Rattle.run_fan.specs.Inside.Making.{AreNewFor, IsMade, IsNewWith, IsPort, sealer_of, sealers_in};

use outside_io::NoMemory;
use psk_seal::Sealer;
use rist_ends::{Counts, Receiver};
use rist_fan::Flow;
use rist_wire::{Opener, Session};
use rist_words::FanLine;
use run_links::settings_of;
use run_parts::session_of;
use std::alloc::Global;

/// What a run takes memory for.
#[derive(Drop)]
pub(crate) struct FanMemory<K> {
    /// The receiver of each output.
    pub(crate) receivers: Vec<Receiver>,
    /// Room for a receiver with its sink, for each output.
    pub(crate) flows: Vec<Flow<K>>,
    /// The port of each output.
    pub(crate) ports: Vec<u16>,
    /// An opener for each link.
    pub(crate) openers: Vec<Opener>,
    /// Room for what each receiver counted.
    pub(crate) counts: Vec<Counts>,
}

/// The receiver of the output at this port, under its sealer where there is one.
fn receiver(
    alloc: Global,
    line: &FanLine<'_>,
    port: u16,
    sealer: Option<Sealer>,
) -> Result<Receiver, NoMemory>
    requires range { IsInFan (shown_fan line.now) }
    requires port { IsPort port }
    requires paired { is_some sealer ≡ is_some (shown_fan line.now).session.pass }
    ensures new { IfOk result (λ receiver. IsNewWith (shown_fan line.now) port sealer receiver) }
{
    let mut session = session_of(&line.session, false, false);
    session.port = port;
    Receiver::with(alloc, &settings_of(&line.receiver), &session, sealer)
}

/// The receiver of the output at this place.
fn receiver_at(
    alloc: Global,
    line: &FanLine<'_>,
    place: usize,
    sealer: Option<Sealer>,
) -> Result<Receiver, NoMemory>
    requires range { IsInFan (shown_fan line.now) }
    requires place { place < length line.now.ports.items }
    requires paired { is_some sealer ≡ is_some (shown_fan line.now).session.pass }
    ensures new { IfOk result (λ receiver.
        IsNewWith (shown_fan line.now) (slice_index line.now.ports.items place) sealer receiver) }
{
    receiver(alloc, line, line.ports[place], sealer)
}

/// The receivers of all outputs, each under its own sealer where there is one.
fn receivers(
    alloc: Global,
    line: &FanLine<'_>,
    mut sealers: Vec<Option<Sealer>>,
) -> Result<Vec<Receiver>, NoMemory>
    requires range { IsInFan (shown_fan line.now) }
    requires count { length sealers.items ≡ length line.now.ports.items }
    requires fresh { All (IsFreshFor (shown_fan line.now).session) sealers.items }
    ensures new { IfOk result (λ receivers. AreNewFor (shown_fan line.now) receivers.items) }
    ensures sealers { IfOk result (λ receivers. map sealer_of receivers.items ≡ sealers.items) }
{
    let mut receivers = Vec::with_capacity(alloc, sealers.len())?;
    while let Some(sealer) = sealers.pop() {
        let place = sealers.len();
        let receiver = receiver_at(alloc, line, place, sealer)?;
        let _ = receivers.insert(0, receiver);
    }
    Ok(receivers)
}

/// So many openers of a session.
fn openers(alloc: Global, session: &Session, count: usize) -> Result<Vec<Opener>, NoMemory>
    requires session { IsSession session.now }
    ensures each { IfOk result (λ openers. All (λ opener. opener ≡ session.now) openers.items) }
    ensures count { IfOk result (λ openers. length openers.items ≡ count) }
{
    let mut openers = Vec::new(alloc);
    while openers.len() < count {
        let opener = Opener::with(alloc, session)?;
        if openers.push(opener).is_err() {
            return Err(NoMemory);
        }
    }
    Ok(openers)
}

/// Takes the memory for the run of a line on so many links, under these sealers.
pub(crate) fn make<K: Drop>(
    alloc: Global,
    line: &FanLine<'_>,
    sealers: Vec<Option<Sealer>>,
    links: usize,
) -> Result<FanMemory<K>, NoMemory>
    requires range { IsInFan (shown_fan line.now) }
    requires count { length sealers.items ≡ length line.now.ports.items }
    requires fresh { All (IsFreshFor (shown_fan line.now).session) sealers.items }
    ensures made { IfOk result (λ made. IsMade (shown_fan line.now) links made) }
    ensures sealers { IfOk result (λ made. sealers_in made ≡ sealers.items) }
{
    let session = session_of(&line.session, false, false);
    let places = sealers.len();
    Ok(FanMemory {
        receivers: receivers(alloc, line, sealers)?,
        flows: Vec::with_capacity(alloc, places)?,
        ports: Vec::from_slice(alloc, &line.ports)?,
        openers: openers(alloc, &session, links)?,
        counts: Vec::with_capacity(alloc, places)?,
    })
}
