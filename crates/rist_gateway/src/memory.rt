//! What a run of a gateway takes memory for, before it begins.
ghost use Rattle.std.specs.Prelude.{◌≡◌, ◌%◌, ◌≤◌, ◌+◌, IfOk, is_some};
ghost use Rattle.link_channels.specs.declared.bounds.TheConstants.{MAX_LINKS};
ghost use Rattle.sender_rules.specs.Bonding.{link_count};
ghost use Rattle.rist_wire.specs.Session.{IsSession};
ghost use Rattle.desk_run.specs.Setup.{IsMade, IsMadeInTurns, setup_in_turns, setup_of};
ghost use Rattle.rist_gateway.specs.Setup.{IsGateMade, IsReceivingEnd, gate_setup_of, received_setup_of, rules_with};

use crate::receiving_end::{ReceivingEnd, kept_end};
use desk_run::{MadeInTurns, MadeTrace};
use outside_io::NoMemory;
use psk_seal::Sealer;
use rist_sender::{Sender, Settings};
use rist_wire::{Opener, Session};
use std::alloc::Global;

/// What a run takes memory for: its receiving end, its sender with an opener for what comes back, and room for the links
/// that are sent on and for their clocks.
#[derive(Drop)]
pub struct GateMemory<T, L, C> {
    pub receiving: ReceivingEnd<T, L, C>,
    pub sender: Sender,
    pub opener: Opener,
    pub links: Vec<L>,
    pub clocks: Vec<C>,
}

/// Takes the memory for the sending end, beside a receiving end that was made for its links.
fn made_with<T: MadeTrace + Drop, L: Drop, C: Drop>(
    alloc: Global,
    receiving: ReceivingEnd<T, L, C>,
    inputs: usize,
    settings: Settings,
    session: &Session,
    sealer: Option<Sealer>,
    outputs: usize,
) -> Result<GateMemory<T, L, C>, NoMemory>
    requires receiving { IsReceivingEnd T.list T.limit inputs outputs receiving }
    requires flow { settings.flow % 2 ≡ 0 }
    requires store { (1 ≤ settings.store) × (settings.store ≤ 65536) }
    requires hold { (1 ≤ settings.hold) × (settings.hold ≤ 1000) }
    requires session { IsSession session.now }
    requires paired { is_some sealer ≡ is_some session.now.pass }
    requires bonded { link_count settings.bond ≡ outputs }
    ensures setup { IfOk result (λ made. gate_setup_of T.limit made ≡ record {
      receiving = received_setup_of T.limit receiving;
      rules = rules_with settings session.now;
      session = session.now;
      sealer = sealer;
    }) }
    ensures made { IfOk result (λ made. IsGateMade T.list T.limit inputs outputs made) }
{
    Ok(GateMemory {
        receiving,
        sender: Sender::with(alloc, settings, session, sealer)?,
        opener: Opener::with(alloc, session)?,
        links: Vec::with_capacity(alloc, outputs)?,
        clocks: Vec::with_capacity(alloc, outputs)?,
    })
}

/// Takes the memory for a run over so many links of each end, with a receiving end that was made for its links. A
/// sealer is handed in exactly where the session has a passphrase.
pub fn make<T: MadeTrace + Drop, L: Drop, C: Drop>(
    alloc: Global,
    receiving: desk_run::Memory<T, L, C>,
    inputs: usize,
    settings: Settings,
    session: &Session,
    sealer: Option<Sealer>,
    outputs: usize,
) -> Result<GateMemory<T, L, C>, NoMemory>
    requires receiving { IsMade T.list T.limit inputs receiving }
    requires few { inputs + outputs ≤ MAX_LINKS }
    requires flow { settings.flow % 2 ≡ 0 }
    requires store { (1 ≤ settings.store) × (settings.store ≤ 65536) }
    requires hold { (1 ≤ settings.hold) × (settings.hold ≤ 1000) }
    requires session { IsSession session.now }
    requires paired { is_some sealer ≡ is_some session.now.pass }
    requires bonded { link_count settings.bond ≡ outputs }
    ensures setup { IfOk result (λ made. gate_setup_of T.limit made ≡ record {
      receiving = setup_of T.limit receiving;
      rules = rules_with settings session.now;
      session = session.now;
      sealer = sealer;
    }) }
    ensures made { IfOk result (λ made. IsGateMade T.list T.limit inputs outputs made) }
{
    let end = match kept_end(alloc, receiving, inputs, outputs) {
        Ok(end) => end,
        Err(refused) => return Err(refused),
    };
    made_with(
        alloc,
        ReceivingEnd::Kept(end),
        inputs,
        settings,
        session,
        sealer,
        outputs,
    )
}

/// Takes the memory for a run in turns over so many links of each end, with a receiving end that was made for its links.
pub fn make_in_turns<T: MadeTrace + Drop, L: Drop, C: Drop>(
    alloc: Global,
    receiving: MadeInTurns,
    inputs: usize,
    settings: Settings,
    session: &Session,
    sealer: Option<Sealer>,
    outputs: usize,
) -> Result<GateMemory<T, L, C>, NoMemory>
    requires receiving { IsMadeInTurns inputs receiving }
    requires flow { settings.flow % 2 ≡ 0 }
    requires store { (1 ≤ settings.store) × (settings.store ≤ 65536) }
    requires hold { (1 ≤ settings.hold) × (settings.hold ≤ 1000) }
    requires session { IsSession session.now }
    requires paired { is_some sealer ≡ is_some session.now.pass }
    requires bonded { link_count settings.bond ≡ outputs }
    ensures setup { IfOk result (λ made. gate_setup_of T.limit made ≡ record {
      receiving = setup_in_turns receiving;
      rules = rules_with settings session.now;
      session = session.now;
      sealer = sealer;
    }) }
    ensures made { IfOk result (λ made. IsGateMade T.list T.limit inputs outputs made) }
{
    made_with(
        alloc,
        ReceivingEnd::InTurns(receiving),
        inputs,
        settings,
        session,
        sealer,
        outputs,
    )
}
