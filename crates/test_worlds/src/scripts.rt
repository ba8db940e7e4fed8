//! Worked scripts.
ghost use Rattle.std.specs.Prelude.{◌≡◌, ◌≤◌, None};
ghost use Rattle.rist_wire.specs.Session.{IsSession};

use bond_links::Bond;
use link_channels::Profile;
use outside_net::Octets;
use request_rules::NackKind;
use rist_ends::Settings as ReceiverSettings;
use rist_sender::Settings as SenderSettings;
use rist_wire::{Session, Tunnel};
use rist_world::{Listed, Move, Report, SUMMARY_LEN, drill, drill_made, put_summary};
use seq_unwrap::Width;
use sha2::{Digest, Sha256};
use std::alloc::Global;
use std::test::Fail;

/// What comes of a list of moves in a session in clear over one link, where a flow takes over after half a second.
fn drilled(alloc: Global, session: &Session, moves: &[Move]) -> Result<Report, Fail>
    requires session { IsSession session.now }
    requires clear { session.now.pass ≡ None }
{
    let near = SenderSettings {
        flow: 2,
        first: 65_535,
        store: 16,
        hold: 20,
        bond: Bond::duplicate(1),
    };
    let far = ReceiverSettings {
        delay: 1000,
        span: 16,
        restart: 500,
        drift: false,
        reorder: 10,
        least: 20,
        tries: 8,
        nack: NackKind::Range,
        own: 7,
        muted: false,
    };
    Ok(drill(
        alloc,
        session,
        near,
        &far,
        None,
        None,
        1,
        &mut Listed::over(moves),
    )?)
}

/// In the Simple Profile.
fn played(alloc: Global, moves: &[Move]) -> Result<Report, Fail> {
    let session = Session {
        profile: Profile::Simple,
        port: 1968,
        pass: None,
        bits: 128,
        nulls: false,
        width: Width::W16,
        full: false,
        tunnel: Tunnel::Own,
        echo: false,
    };
    drilled(alloc, &session, moves)
}

/// In the Main Profile, in full datagrams or in reduced ones.
fn played_in_tunnel(alloc: Global, full: bool, moves: &[Move]) -> Result<Report, Fail> {
    let session = Session {
        profile: Profile::Main,
        port: 1968,
        pass: None,
        bits: 128,
        nulls: false,
        width: Width::W16,
        full,
        tunnel: Tunnel::Own,
        echo: false,
    };
    drilled(alloc, &session, moves)
}

/// A payload of one letter is sent at a millisecond.
fn send(alloc: Global, ms: u32, letter: u8) -> Result<Move, Fail> {
    Ok(Move::Send(1000 * u64::from(ms), Octets::of(alloc, &[letter])?))
}

/// The SHA-256 of a text.
fn digest_of(text: &[u8]) -> [u8; 32] {
    Sha256::digest(text)
}

#[test]
fn copies_that_come_again_change_nothing(rt: HostRuntime) -> Result<(), Fail> {
    let alloc = rt.alloc();
    let moves = vec![in alloc;
        send(alloc, 0, b'A')?,
        send(alloc, 1, b'B')?,
        send(alloc, 2, b'C')?,
        Move::Carry(0, 1, 3000),
        Move::Carry(0, 2, 3000),
        Move::Carry(0, 0, 4000),
        Move::Carry(0, 0, 5000),
        Move::Carry(0, 2, 6000),
        Move::Carry(0, 1, 2_000_000),
        Move::End(2_000_000),
    ]?;
    let report = played(alloc, &moves)?;
    assert_eq!(rt; report.digest, digest_of(b"ABC"));
    assert_eq!(rt;
        (report.sent, report.carried, report.lost, report.released),
        (3, 6, 0, 3)
    );
    Ok(())
}

#[test]
fn what_is_asked_for_again_is_released_once(rt: HostRuntime) -> Result<(), Fail> {
    let alloc = rt.alloc();
    let mut moves = vec![in alloc;
        send(alloc, 0, b'A')?,
        send(alloc, 1, b'B')?,
        send(alloc, 2, b'C')?,
        Move::Carry(0, 0, 3000),
        Move::Carry(0, 2, 4000),
        Move::Tick(0, 30_000),
        Move::CarryBack(0, 0, 40_000),
        Move::CarryBack(0, 0, 41_000),
        Move::CarryBack(0, 0, 90_000),
    ]?;
    for place in [3, 4, 5, 6, 7, 3, 4, 5, 6, 7, 3, 4, 5, 6, 7] {
        moves.push(Move::Carry(0, place, 100_000))?;
    }
    moves.push(Move::End(100_000))?;
    let report = played(alloc, &moves)?;
    assert_eq!(rt; report.digest, digest_of(b"ABC"));
    assert_eq!(rt; (report.asked, report.resent, report.released), (1, 2, 3));
    Ok(())
}

#[test]
fn full_datagrams_are_played_as_reduced_ones(rt: HostRuntime) -> Result<(), Fail> {
    let alloc = rt.alloc();
    let mut moves = vec![in alloc;
        send(alloc, 0, b'A')?,
        send(alloc, 1, b'B')?,
        send(alloc, 2, b'C')?,
        Move::SenderTick(2000),
        Move::Carry(0, 0, 3000),
        Move::Carry(0, 2, 4000),
        Move::Carry(0, 0, 5000),
        Move::Tick(0, 30_000),
    ]?;
    // Beside the requests a keepalive comes back.
    for at in [40_000, 41_000, 90_000] {
        moves.push(Move::CarryBack(0, 0, at))?;
        moves.push(Move::CarryBack(0, 1, at))?;
    }
    for place in [3, 4, 5, 6, 7, 8] {
        moves.push(Move::Carry(0, place, 100_000))?;
    }
    moves.push(Move::End(100_000))?;
    for full in [false, true] {
        let report = played_in_tunnel(alloc, full, &moves)?;
        assert_eq!(rt; report.digest, digest_of(b"ABC"));
        assert_eq!(rt; (report.asked, report.resent, report.released), (1, 2, 3));
    }
    Ok(())
}

#[test]
fn each_number_of_a_range_is_counted(rt: HostRuntime) -> Result<(), Fail> {
    let alloc = rt.alloc();
    let moves = vec![in alloc;
        send(alloc, 0, b'A')?,
        send(alloc, 1, b'B')?,
        send(alloc, 2, b'C')?,
        send(alloc, 3, b'D')?,
        Move::Carry(0, 0, 3000),
        Move::Carry(0, 3, 4000),
        Move::Carry(0, 3, 5000),
        Move::Tick(0, 30_000),
    ]?;
    let report = played(alloc, &moves)?;
    assert_eq!(rt; (report.sent, report.carried, report.lost), (4, 3, 2));
    assert_eq!(rt; (report.asked, report.resent), (2, 0));
    Ok(())
}

#[test]
fn flows_follow_one_another(rt: HostRuntime) -> Result<(), Fail> {
    let alloc = rt.alloc();
    let moves = vec![in alloc;
        send(alloc, 0, b'A')?,
        Move::Renew(4, 0),
        Move::Renew(2, 0),
        send(alloc, 1, b'B')?,
        Move::Renew(6, 9),
        send(alloc, 2, b'C')?,
        Move::Carry(0, 0, 10_000),
        Move::Carry(0, 1, 20_000),
        Move::Carry(0, 1, 2_000_000),
        Move::Carry(0, 2, 4_000_000),
        Move::End(4_000_000),
    ]?;
    let report = played(alloc, &moves)?;
    assert_eq!(rt; report.digest, digest_of(b"ABC"));
    assert_eq!(rt;
        (report.sent, report.carried, report.lost, report.released),
        (3, 4, 0, 3)
    );
    Ok(())
}

/// Whether a made script's summary is this text.
fn says(
    alloc: Global,
    number: u64,
    count: u32,
    links: u8,
    loss: u16,
    text: &str,
) -> Result<bool, Fail>
    requires links { (1 ≤ links) × (links ≤ 4) }
    requires count { count ≤ 5000 }
{
    let report = drill_made(alloc, number, count, links, loss)?;
    let mut out = [0; SUMMARY_LEN];
    let length = put_summary(&report, &mut out);
    Ok(&out[..length] == text.as_bytes())
}

const NOTHING: &str = "sent 0\ncarried 0\nlost 0\nasked 0\nresent 0\nreleased 0\n\
    sha256 e3b0c44298fc1c149afbf4c8996fb92427ae41e4649b934ca495991b7852b855\n";

const ALL_LOST: &str = "sent 10\ncarried 0\nlost 10\nasked 0\nresent 0\nreleased 0\n\
    sha256 e3b0c44298fc1c149afbf4c8996fb92427ae41e4649b934ca495991b7852b855\n";

/// The digest is that of the first twenty payloads, by another program.
const NONE_LOST: &str = "sent 20\ncarried 40\nlost 0\nasked 0\nresent 0\nreleased 20\n\
    sha256 c0f6f6130bcb55aa83eeb53203c19a157a2a619758ffa18d6eda564c2a8b09bc\n";

#[test]
fn made_scripts_have_their_summaries(rt: HostRuntime) -> Result<(), Fail> {
    let alloc = rt.alloc();
    assert!(rt; says(alloc, 1, 0, 1, 0, NOTHING)?);
    assert!(rt; says(alloc, 9, 10, 1, 1000, ALL_LOST)?);
    assert!(rt; says(alloc, 1, 20, 2, 0, NONE_LOST)?);
    Ok(())
}

/// The digests of the first thousand payloads and of all that a run may have, by another program.
const THOUSAND: &str = "451a0928f9aa4466b99e950f2dff4ca84b02c5ff9b525d57e92b1cbf4fc28956";

const FIVE_THOUSAND: &str = "f64d65677e700b4fc12e30a6d494a87ecb52a5d0b62b6c0c8fdeb2ebf9a9c4b5";

/// Whether all payloads of a made script were played out, and each datagram of media came or was lost.
fn brings_all(
    alloc: Global,
    number: u64,
    count: u32,
    links: u8,
    loss: u16,
    digest: &str,
) -> Result<bool, Fail>
    requires links { (1 ≤ links) × (links ≤ 4) }
    requires count { count ≤ 5000 }
{
    let report = drill_made(alloc, number, count, links, loss)?;
    let told = hex::encode(alloc, report.digest)?;
    let put = report
        .resent
        .saturating_add(u64::from(count) * u64::from(links));
    Ok(
        told.as_str() == digest
            && report.sent == u64::from(count)
            && report.released == u64::from(count)
            && report.carried.saturating_add(report.lost) == put,
    )
}

#[test]
fn a_thousand_payloads_come_over(rt: HostRuntime) -> Result<(), Fail> {
    let alloc = rt.alloc();
    let whole = format!(in alloc;
        "sent 1000\ncarried 2000\nlost 0\nasked 0\nresent 0\nreleased 1000\nsha256 {THOUSAND}\n"
    )?;
    assert!(rt; says(alloc, 1, 1000, 2, 0, whole.as_str())?);
    assert!(rt; brings_all(alloc, 1, 1000, 2, 100, THOUSAND)?);
    assert!(rt; brings_all(alloc, 2, 1000, 3, 300, THOUSAND)?);
    assert!(rt; brings_all(alloc, 3, 1000, 1, 20, THOUSAND)?);
    assert!(rt; brings_all(alloc, 1, 5000, 4, 100, FIVE_THOUSAND)?);
    Ok(())
}
