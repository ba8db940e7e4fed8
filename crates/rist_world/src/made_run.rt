//! The run of a made script.
ghost use Rattle.std.specs.Prelude.{◌≡◌, ◌≤◌, ◌+◌, IfOk};
ghost use Rattle.made_script.specs.declared.draws.TheConstants.{MAX_LINKS, MAX_COUNT};
ghost use Rattle.made_script.specs.Words.{words_left};
ghost use Rattle.rist_world.specs.Made.{GivesSealer, IsMadeRun, made_session, made_sender, made_receiver};

use crate::made::Made;
use crate::running::{Report, drill};
use bond_links::Bond;
use link_channels::Profile;
use made_script::Drawn;
use outside_io::NoMemory;
use psk_keys::Phrase;
use psk_seal::Sealer;
use request_rules::NackKind;
use rist_ends::Settings as ReceiverSettings;
use rist_sender::Settings as SenderSettings;
use rist_wire::{Session, Tunnel};
use seq_unwrap::Width;
use std::alloc::Global;

/// The session of a made script.
fn made_session() -> Session
    ensures value { result ≡ made_session }
{
    Session {
        profile: Profile::Main,
        port: 1968,
        pass: Some(Phrase::of(b"drill")),
        bits: 128,
        nulls: true,
        width: Width::W32,
        full: false,
        tunnel: Tunnel::Own,
        echo: false,
    }
}

/// The sender of a made script, over so many links.
fn made_sender(links: u8) -> SenderSettings
    requires links { (1 ≤ links) × (links ≤ MAX_LINKS) }
    ensures value { result ≡ made_sender links }
{
    SenderSettings {
        flow: 0x1020_3040,
        first: 0,
        store: 2048,
        hold: 20,
        bond: Bond::duplicate(links),
    }
}

/// The receiver of a made script.
fn made_receiver() -> ReceiverSettings
    ensures value { result ≡ made_receiver }
{
    ReceiverSettings {
        delay: 1000,
        span: 2048,
        restart: 0,
        drift: false,
        reorder: 10,
        least: 20,
        tries: 8,
        nack: NackKind::Range,
        own: 7,
        muted: false,
    }
}

// The next sealer whose nonces come from these words, of which sixteen are left.
fn drawn_sealer(words: &mut Drawn) -> Option<Sealer>
    requires left { 16 ≤ words.old.left }
    requires faults { words.old.faults ≡ 0 }
    ensures sealer { GivesSealer (words_left words.old) (words_left words.new) result }
    ensures left { words.new.left + 16 ≡ words.old.left }
    ensures faults { words.new.faults ≡ 0 }
{
    match Sealer::with(words) {
        Ok(sealer) => Some(sealer),
        Err(_) => unreachable!(),
    }
}

/// What came of the made script of a number: so many payloads over so many links, with so many datagrams in a thousand
/// lost. The nonces are drawn from a generator of their own, those of the sender first.
pub fn drill_made(
    alloc: Global,
    number: u64,
    count: u32,
    links: u8,
    loss: u16,
) -> Result<Report, NoMemory>
    requires links { (1 ≤ links) × (links ≤ MAX_LINKS) }
    requires count { count ≤ MAX_COUNT }
    ensures run { IfOk result (λ report. IsMadeRun
        (record { number = number; count = count; links = links; loss = loss }) report) }
{
    let mut words = Drawn::with(number, 1, 32);
    let near = drawn_sealer(&mut words);
    let far = drawn_sealer(&mut words);
    let mut mover = Made::with(alloc, number, count, links, loss)?;
    let session = made_session();
    drill(
        alloc,
        &session,
        made_sender(links),
        &made_receiver(),
        near,
        far,
        links,
        &mut mover,
    )
}
