//! A run of a script.
ghost use Rattle.std.specs.Prelude.{◌≡◌, ◌≤◌, ◌%◌, is_some, IfOk};
ghost use Rattle.link_channels.specs.declared.bounds.TheConstants.{MAX_LINKS};
ghost use Rattle.sender_rules.specs.declared.bounds.TheConstants.{MAX_STORED};
ghost use Rattle.sender_rules.specs.Bonding.{link_count};
ghost use Rattle.rist_wire.specs.Session.{IsSession};
ghost use Rattle.rist_ends.specs.Settings.{IsInRange};
ghost use Rattle.sha2.specs.Sha256.{sha256};
ghost use Rattle.rist_world.specs.World.{GoesOn, setup_of};
ghost use Rattle.rist_world.specs.Mover.{HasGivenNone, MakesScript};
ghost use Rattle.rist_world.specs.Drill.{Drilled};
ghost use Rattle.rist_world.specs.Made.{counts_in};

use crate::counts::counts_of;
use crate::mover::Mover;
use crate::world::World;
use outside_io::NoMemory;
use psk_seal::Sealer;
use rist_ends::Settings as ReceiverSettings;
use rist_sender::Settings as SenderSettings;
use rist_wire::Session;
use sha2::{Digest, Sha256};
use std::alloc::Global;
use world_rules::Move;

/// A script of so many moves or more is not run: memory is wanting for it.
const MOST_MOVES: u32 = 1 << 27;

/// What came of a script.
#[derive(Drop)]
pub struct Report {
    /// The moves that were made, in their order.
    pub moves: Vec<Move>,
    /// How many payloads were sent.
    pub sent: u64,
    /// How often media came to the receiver.
    pub carried: u64,
    /// How many media datagrams never came to the receiver.
    pub lost: u64,
    /// How many numbers were asked for, each time counted.
    pub asked: u64,
    /// How many retransmissions were put on links.
    pub resent: u64,
    /// How many packets the receiver kept: after an end all of them were released.
    pub released: u64,
    /// The SHA-256 of all octets that the receiver wrote.
    pub digest: [u8; 32],
}

// Makes the moves of a script, all of them, where they are fewer than 2^27 and memory lasts.
fn run<M: Mover>(alloc: Global, world: &mut World, mover: &mut M) -> Result<Vec<Move>, NoMemory>
    requires none { HasGivenNone (M.given mover.old) }
    ensures made { IfOk result (λ moves. GoesOn world.old world.new
        (λ setup from to. MakesScript (M.script mover.old) setup from moves.items to)) }
{
    let mut moves = Vec::new(alloc);
    for made in 0..MOST_MOVES {
        let Some(next) = mover.next(alloc, world)? else {
            return Ok(moves);
        };
        world.make(&next)?;
        if moves.push(next).is_err() {
            return Err(NoMemory);
        }
    }
    Err(NoMemory)
}

// The SHA-256 of octets.
fn digest_of(octets: &[u8]) -> [u8; 32]
    ensures value { result ≡ sha256 octets.now }
{
    let mut hasher = Sha256::new();
    hasher.update(octets);
    hasher.finalize()
}

/// Both ends in a session, and all moves that a mover gives: what came of them. Where there are 2^27 or more, memory is
/// wanting. The mover has given none before. A sealer for each end is handed in exactly where the session has a
/// passphrase.
pub fn drill<M: Mover>(
    alloc: Global,
    session: &Session,
    near: SenderSettings,
    far: &ReceiverSettings,
    near_sealer: Option<Sealer>,
    far_sealer: Option<Sealer>,
    links: u8,
    mover: &mut M,
) -> Result<Report, NoMemory>
    requires session { IsSession session.now }
    requires flow { near.flow % 2 ≡ 0 }
    requires store { (1 ≤ near.store) × (near.store ≤ MAX_STORED) }
    requires hold { (1 ≤ near.hold) × (near.hold ≤ 1000) }
    requires links { (1 ≤ links) × (links ≤ MAX_LINKS) × (link_count near.bond ≡ links) }
    requires settings { IsInRange far.now }
    requires near { is_some near_sealer ≡ is_some session.now.pass }
    requires far { is_some far_sealer ≡ is_some session.now.pass }
    requires none { HasGivenNone (M.given mover.old) }
    ensures run { IfOk result (λ report. Drilled (setup_of session.now near far.now) near_sealer far_sealer
        (M.script mover.old) report.moves.items (counts_in report) report.digest) }
{
    let mut world = World::with(alloc, session, near, far, near_sealer, far_sealer, links)?;
    let moves = run(alloc, &mut world, mover)?;
    let counts = counts_of(&world);
    Ok(Report {
        moves,
        sent: counts.sent,
        carried: counts.carried,
        lost: counts.lost,
        asked: counts.asked,
        resent: counts.resent,
        released: counts.released,
        digest: digest_of(world.written()),
    })
}
