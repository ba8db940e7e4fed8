//! Worked runs over a source, links and a clock in memory.
ghost use Rattle.std.specs.Prelude.{◌≡◌, ◌≤◌, vec_len, IfOk, is_some};
ghost use Rattle.sender_rules.specs.Bonding.{link_count};
ghost use Rattle.rist_wire.specs.Session.{IsSession};

use crate::asked::AskedSource;
use crate::desk::simple;
use bond_links::Bond;
use link_channels::Channel;
use live_source::{LiveSource, PausingSource, PayloadSource};
use outside_io::{Pieces, Words};
use outside_net::{Octets, ScriptClock, ScriptLink, ScriptRead};
use psk_keys::Phrase;
use psk_seal::Sealer;
use rist_send::{SendFault, SendSettings, send};
use rist_sender::{Sender, Settings};
use rist_wire::{Item, Opener, Profile, Session, Tunnel};
use seq_unwrap::Width;
use std::alloc::Global;
use std::process::Abort;
use std::test::Fail;

/// A session of the Main Profile.
fn tunnel(pass: Option<Phrase>, nulls: bool, width: Width) -> Session
    ensures session { IsSession result }
    ensures pass { result.pass ≡ pass }
{
    Session {
        profile: Profile::Main,
        port: 1968,
        pass,
        bits: 128,
        nulls,
        width,
        full: false,
        tunnel: Tunnel::Own,
        echo: false,
    }
}

/// A link that takes up to 64 datagrams, but for the writes of these places, which fail. No datagram comes back.
fn link(alloc: Global, failing: &[u64]) -> Result<ScriptLink, Fail> {
    Ok(ScriptLink::with(alloc, Vec::new(alloc), true, 64, &[], failing)?)
}

/// Links of which these writes fail.
fn two_links(alloc: Global, one: &[u64], other: &[u64]) -> Result<Vec<ScriptLink>, Fail>
    ensures two { IfOk result (λ links. vec_len links ≡ 2) }
{
    let mut links = Vec::new(alloc);
    links.push(link(alloc, one)?)?;
    links.push(link(alloc, other)?)?;
    Ok(links)
}

/// What became of a run: its answer, and its links.
#[derive(Drop)]
struct Ran {
    answer: Result<(), SendFault>,
    links: Vec<ScriptLink>,
}

impl Ran {
    /// The channel and the length of the datagram at a place of those that the first link took.
    fn took(&self, place: usize) -> Option<(Channel, usize)> {
        let (channel, octets) = self.links.get(0)?.taken(place)?;
        Some((channel, octets.len()))
    }

    /// The timestamp of the media datagram at a place of those that the first link took (RFC 3550, section 5.1).
    fn timestamp(&self, place: usize) -> Option<&[u8]> {
        let (_, octets) = self.links.get(0)?.taken(place)?;
        octets.get(4..8)
    }

    /// The payload of the media datagram at a place of those that a link took.
    fn payload(&self, link: usize, place: usize) -> Option<&[u8]> {
        let (_, octets) = self.links.get(link)?.taken(place)?;
        octets.get(12..)
    }
}

/// Sends a source at a piece a millisecond over these links in a session, with a clock of these moments.
fn sent_over<S: LiveSource>(
    alloc: Global,
    session: &Session,
    sealer: Option<Sealer>,
    bond: Bond,
    source: &mut S,
    moments: &[u64],
    linger: u64,
    turns: u64,
    mut links: Vec<ScriptLink>,
) -> Result<Ran, Fail>
    requires session { IsSession session.now }
    requires paired { is_some sealer ≡ is_some session.now.pass }
    requires fits { vec_len links ≡ link_count bond }
    requires few { vec_len links ≤ 16 }
{
    let settings = Settings {
        flow: 0x1020_3040,
        first: 0,
        store: 32,
        hold: 20,
        bond,
    };
    let mut sender = Sender::with(alloc, settings, session, sealer)?;
    let mut opener = Opener::with(alloc, session)?;
    let mut clock = ScriptClock::with(alloc, moments)?;
    let pace = SendSettings {
        lead: 0,
        gap: 1000,
        linger,
        turns,
    };
    let answer = send(
        &pace,
        &mut sender,
        &mut opener,
        source,
        &mut links,
        &mut clock,
    );
    Ok(Ran { answer, links })
}

/// The same in clear, over one link.
fn sent_from<S: LiveSource>(
    alloc: Global,
    source: &mut S,
    moments: &[u64],
    linger: u64,
    turns: u64,
    link: ScriptLink,
) -> Result<Ran, Fail> {
    let mut links = Vec::new(alloc);
    links.push(link)?;
    sent_over(
        alloc,
        &simple(),
        None,
        Bond::duplicate(1),
        source,
        moments,
        linger,
        turns,
        links,
    )
}

/// The same of octets.
fn sent(
    alloc: Global,
    octets: &[u8],
    moments: &[u64],
    linger: u64,
    turns: u64,
    link: ScriptLink,
) -> Result<Ran, Fail> {
    let mut source = Pieces::with(alloc, octets, &[], &[])?;
    sent_from(alloc, &mut source, moments, linger, turns, link)
}

/// A datagram by its channel and its length.
type Datagram = (Channel, usize);

// A whole piece, one of an octet, and a report.
const WHOLE: Datagram = (Channel::Media, 1328);

const ONE: Datagram = (Channel::Media, 13);

const REPORT: Datagram = (Channel::Control, 44);

/// A run gave this answer, and the first link took these datagrams and no more.
fn expect_ran(rt: &impl Abort, ran: &Ran, answer: Result<(), SendFault>, took: &[Datagram]) {
    assert!(rt; ran.answer == answer);
    for (place, datagram) in took.iter().enumerate() {
        assert!(rt; ran.took(place) == Some(*datagram));
    }
    assert!(rt; ran.took(took.len()) == None);
}

/// The source's octets, the clock's moments, how long it lingers and its turns, and then the answer and what the link
/// takes.
type Row = (
    &'static [u8],
    &'static [u64],
    u64,
    u64,
    Result<(), SendFault>,
    &'static [Datagram],
);

fn expect_rows(rt: &impl Abort, alloc: Global, rows: &[Row]) -> Result<(), Fail> {
    for (octets, moments, linger, turns, answer, took) in rows {
        let ran = sent(alloc, octets, moments, *linger, *turns, link(alloc, &[])?)?;
        expect_ran(rt, &ran, *answer, took);
    }
    Ok(())
}

static WAITING: [Row; 2] = [
    // The clock stands still: the first piece and one report are all that is sent.
    (
        &[0x47; 2632],
        &[7],
        0,
        5,
        Err(SendFault::TurnsSpent),
        &[WHOLE, REPORT],
    ),
    // The second piece goes in the turn of its time, counted from the start, and the third read finds the end.
    (
        &[0x47; 2632],
        &[7, 1006, 2007, 2008, 3007],
        0,
        5,
        Ok(()),
        &[WHOLE, REPORT, WHOLE],
    ),
];

#[test]
fn a_piece_waits_for_its_time(rt: HostRuntime) -> Result<(), Fail> {
    expect_rows(&rt, rt.alloc(), &WAITING)
}

const THREE: &[u64] = &[0, 1000, 2000];

static ENDING: [Row; 5] = [
    // Turns are one fewer than a further read would take.
    (b"", THREE, 0, 1, Ok(()), &[REPORT]),
    (&[0x47], THREE, 0, 1, Ok(()), &[ONE, REPORT]),
    (&[0x47; 1316], THREE, 0, 2, Ok(()), &[WHOLE, REPORT]),
    (&[0x47; 1317], THREE, 0, 2, Ok(()), &[WHOLE, REPORT, ONE]),
    // One turn fewer still.
    (
        &[0x47; 1316],
        THREE,
        0,
        1,
        Err(SendFault::TurnsSpent),
        &[WHOLE, REPORT],
    ),
];

/// Of a piece and the octet 9 the third datagram has that octet.
fn expect_nine(rt: &impl Abort, alloc: Global) -> Result<(), Fail> {
    let mut octets = [0x47; 1317];
    octets[1316] = 9;
    let ran = sent(alloc, &octets, THREE, 0, 2, link(alloc, &[])?)?;
    assert!(rt; ran.payload(0, 2) == Some([9].as_slice()));
    Ok(())
}

#[test]
fn the_last_piece_may_be_short(rt: HostRuntime) -> Result<(), Fail> {
    expect_rows(&rt, rt.alloc(), &ENDING)?;
    expect_nine(&rt, rt.alloc())
}

// A report each 100 ms: at 0, at 100 ms and, in the last turn, at 200 ms.
const HUNDREDS: &[u64] = &[0, 100_000, 199_999, 200_000, 300_000];

static LINGERING: [Row; 2] = [
    (
        b"A",
        HUNDREDS,
        200_000,
        5,
        Ok(()),
        &[ONE, REPORT, REPORT, REPORT],
    ),
    // Turns that end while it lingers are no fault.
    (b"A", HUNDREDS, 200_000, 2, Ok(()), &[ONE, REPORT, REPORT]),
];

#[test]
fn it_lingers_after_the_end(rt: HostRuntime) -> Result<(), Fail> {
    expect_rows(&rt, rt.alloc(), &LINGERING)
}

#[test]
fn a_link_whose_write_fails_is_down(rt: HostRuntime) -> Result<(), Fail> {
    let alloc = rt.alloc();
    let ran = sent(alloc, b"A", &[0], 0, 5, link(alloc, &[0])?)?;
    expect_ran(&rt, &ran, Err(SendFault::LinksDown), &[]);
    Ok(())
}

// A receiver's report and description, and then a generic NACK of 0.
const ASKS_FOR_THE_FIRST: [u8; 40] = [
    0x80, 0xC9, 0, 1, 0, 0, 0, 7, 0x81, 0xCA, 0, 3, 0, 0, 0, 7, 1, 4, 0x72, 0x69, 0x73, 0x74, 0, 0,
    0x81, 0xCD, 0, 3, 0, 0, 0, 7, 0x10, 0x20, 0x30, 0x40, 0, 0, 0, 0,
];

/// A link on which that request comes.
fn asking(alloc: Global) -> Result<ScriptLink, Fail> {
    let mut reads = Vec::new(alloc);
    let compound = Octets::of(alloc, &ASKS_FOR_THE_FIRST)?;
    reads.push(ScriptRead::Datagram(Channel::Control, compound))?;
    Ok(ScriptLink::with(alloc, reads, true, 64, &[], &[])?)
}

#[test]
fn a_request_is_answered_in_the_turn_that_reads_it(rt: HostRuntime) -> Result<(), Fail> {
    let alloc = rt.alloc();
    let ran = sent(alloc, b"A", &[0], 0, 1, asking(alloc)?)?;
    expect_ran(&rt, &ran, Ok(()), &[ONE, ONE, REPORT]);
    Ok(())
}

/// A link on which that request comes in the second turn.
fn asking_later(alloc: Global) -> Result<ScriptLink, Fail> {
    let mut reads = Vec::new(alloc);
    let compound = Octets::of(alloc, &ASKS_FOR_THE_FIRST)?;
    reads.push(ScriptRead::Quiet)?;
    reads.push(ScriptRead::Datagram(Channel::Control, compound))?;
    Ok(ScriptLink::with(alloc, reads, true, 64, &[], &[])?)
}

/// A source in datagrams with payloads of these lengths, each of one octet again and again.
fn in_datagrams(alloc: Global, payloads: &[(usize, u8)]) -> Result<PayloadSource, Fail> {
    let mut source = PayloadSource::new(alloc);
    for (length, octet) in payloads {
        let octets = [*octet; 1501];
        source.add(&octets[..(*length).min(1501)])?;
    }
    Ok(source)
}

// An empty payload and one of 1,501 octets are dropped.
const GIVEN: &[(usize, u8)] = &[
    (188, 1),
    (1316, 2),
    (1328, 3),
    (0, 4),
    (1501, 5),
    (1500, 6),
    (1, 7),
];

// Each behind an RTP header of 12 octets, one a turn.
const PAYLOADS: &[Datagram] = &[
    (Channel::Media, 200),
    REPORT,
    WHOLE,
    (Channel::Media, 1340),
    (Channel::Media, 1512),
    ONE,
];

const SIX: &[u64] = &[0, 1000, 2000, 3000, 4000, 5000];

#[test]
fn a_payload_of_a_datagram_is_sent_whole(rt: HostRuntime) -> Result<(), Fail> {
    let alloc = rt.alloc();
    let mut source = in_datagrams(alloc, GIVEN)?;
    let ran = sent_from(alloc, &mut source, SIX, 0, 6, link(alloc, &[])?)?;
    expect_ran(&rt, &ran, Ok(()), PAYLOADS);
    assert!(rt; ran.payload(0, 0) == Some([1; 188].as_slice()));
    assert!(rt; ran.payload(0, 4) == Some([6; 1500].as_slice()));
    // The source isn't at its end before a read has told that.
    let mut source = in_datagrams(alloc, GIVEN)?;
    let ran = sent_from(alloc, &mut source, SIX, 0, 5, link(alloc, &[])?)?;
    expect_ran(&rt, &ran, Err(SendFault::TurnsSpent), PAYLOADS);
    // Between two payloads it pauses.
    let mut source = PausingSource::with(
        alloc,
        in_datagrams(alloc, &[(188, 1), (188, 2)])?,
        &[true, false],
    )?;
    let ran = sent_from(alloc, &mut source, SIX, 0, 4, link(alloc, &[])?)?;
    let two = &[(Channel::Media, 200), REPORT, (Channel::Media, 200)];
    expect_ran(&rt, &ran, Ok(()), two);
    Ok(())
}

/// Sends a piece and an octet, which the source answers to have there or not, a turn a millisecond.
fn sent_with_pauses(
    alloc: Global,
    answers: &[bool],
    turns: u64,
    link: ScriptLink,
) -> Result<Ran, Fail> {
    let octets = Pieces::with(alloc, &[0x47; 1317], &[], &[])?;
    let mut source = PausingSource::with(alloc, octets, answers)?;
    sent_from(alloc, &mut source, &[0, 1000, 2000, 3000], 0, turns, link)
}

#[test]
fn a_source_that_pauses_holds_up_no_answer(rt: HostRuntime) -> Result<(), Fail> {
    let alloc = rt.alloc();
    let ran = sent_with_pauses(alloc, &[true, false, false], 5, asking_later(alloc)?)?;
    expect_ran(&rt, &ran, Ok(()), &[WHOLE, REPORT, WHOLE, ONE]);
    // The last piece is of the turn that finds it: 3 ms are 270 ticks of 90 kHz.
    assert!(rt; ran.timestamp(3) == Some([0, 0, 1, 14].as_slice()));
    Ok(())
}

#[test]
fn a_source_that_never_goes_on_spends_the_turns(rt: HostRuntime) -> Result<(), Fail> {
    let alloc = rt.alloc();
    let ran = sent_with_pauses(alloc, &[false, false, false], 3, link(alloc, &[])?)?;
    expect_ran(&rt, &ran, Err(SendFault::TurnsSpent), &[REPORT]);
    Ok(())
}

#[test]
fn a_source_is_asked_for_a_whole_piece(rt: HostRuntime) -> Result<(), Fail> {
    let alloc = rt.alloc();
    // The last octet isn't there in its turn.
    let octets = Pieces::with(alloc, &[0x47; 1317], &[], &[])?;
    let mut source = AskedSource::over(octets);
    let moments = [0, 1000, 2000, 3000];
    let ran = sent_from(alloc, &mut source, &moments, 0, 5, link(alloc, &[])?)?;
    expect_ran(&rt, &ran, Ok(()), &[WHOLE, REPORT, ONE]);
    assert!(rt; source.asked() == Some([1316; 3].as_slice()));
    Ok(())
}

#[test]
fn a_failed_read_drops_a_part_of_a_piece(rt: HostRuntime) -> Result<(), Fail> {
    let alloc = rt.alloc();
    // The second piece's first read gives four octets, and its second one fails.
    let mut source = Pieces::with(alloc, &[0x47; 2632], &[1320], &[2])?;
    let links = two_links(alloc, &[], &[])?;
    let bond = Bond::duplicate(2);
    let ran = sent_over(
        alloc,
        &simple(),
        None,
        bond,
        &mut source,
        &EACH_MILLISECOND,
        0,
        6,
        links,
    )?;
    expect_ran(&rt, &ran, Err(SendFault::ReadFault), &[WHOLE, REPORT]);
    Ok(())
}

// The moments of six pieces.
const EACH_MILLISECOND: [u64; 6] = [0, 1000, 2000, 3000, 4000, 5000];

// Five pieces, each of whose octets are its place.
fn numbered() -> [u8; 6580] {
    let mut octets = [0; 6580];
    for (at, octet) in octets.iter_mut().enumerate() {
        *octet = (at / 1316) as u8;
    }
    octets
}

/// The places of the pieces that a link took, in the order in which it took them.
fn places(alloc: Global, ran: &Ran, link: usize) -> Result<Vec<u8>, Fail> {
    let mut places = Vec::new(alloc);
    for at in 0..7 {
        if let Some([place, rest @ ..]) = ran.payload(link, at) {
            if rest.len() == 1315 {
                places.push(*place)?;
            }
        }
    }
    Ok(places)
}

/// Each piece goes on both links, or three of four on the first.
fn bond(shared: bool) -> Bond
    ensures two { link_count result ≡ 2 }
{
    if shared {
        Bond::share(&[3, 1])
    } else {
        Bond::duplicate(2)
    }
}

/// Whether pieces are shared, which of the first link's writes fail, and the pieces that each link takes.
static BONDS: [(bool, &[u64], &[u8], &[u8]); 4] = [
    (false, &[], &[0, 1, 2, 3, 4], &[0, 1, 2, 3, 4]),
    (false, &[0], &[], &[0, 1, 2, 3, 4]),
    (true, &[], &[0, 1, 2, 4], &[3]),
    (true, &[0], &[], &[0, 1, 2, 3, 4]),
];

/// Each link took these pieces.
fn expect_places(
    rt: &impl Abort,
    alloc: Global,
    ran: &Ran,
    first: &[u8],
    second: &[u8],
) -> Result<(), Fail> {
    assert!(rt; ran.answer == Ok(()));
    assert!(rt; places(alloc, ran, 0)?.as_slice() == first);
    assert!(rt; places(alloc, ran, 1)?.as_slice() == second);
    Ok(())
}

/// Those pieces over two links, the first of which has these failing writes.
fn bonded(alloc: Global, shared: bool, failing: &[u64]) -> Result<Ran, Fail> {
    let mut source = Pieces::with(alloc, &numbered(), &[], &[])?;
    let links = two_links(alloc, failing, &[])?;
    let bond = bond(shared);
    sent_over(
        alloc,
        &simple(),
        None,
        bond,
        &mut source,
        &EACH_MILLISECOND,
        0,
        6,
        links,
    )
}

#[test]
fn pieces_go_on_the_links_that_are_theirs(rt: HostRuntime) -> Result<(), Fail> {
    for (shared, failing, first, second) in &BONDS {
        let ran = bonded(rt.alloc(), *shared, failing)?;
        expect_places(&rt, rt.alloc(), &ran, first, second)?;
    }
    Ok(())
}

static WORDS: [u32; 16] = [1, 2, 3, 4, 5, 6, 7, 8, 9, 10, 11, 12, 13, 14, 15, 16];

// Seven packets of 188 octets, of which the first, fourth and seventh are null.
fn stream() -> [u8; 1316] {
    let mut stream = [0xAB; 1316];
    for (at, octet) in stream.iter_mut().enumerate() {
        *octet = match (at / 188 % 3, at % 188) {
            (_, 0) => 0x47,
            (0, 1) => 0x1F,
            (_, 1) => 0x41,
            (_, 2) => 0xFF,
            _ => 0xAB,
        };
    }
    stream
}

/// Of a datagram in a session: how many octets of payload there are, and how many once they are restored.
fn lengths(
    alloc: Global,
    session: &Session,
    channel: Channel,
    octets: &[u8],
) -> Result<(usize, usize), Fail>
    requires session { IsSession session.now }
{
    let mut opener = Opener::with(alloc, session)?;
    let mut block = [0; 2048];
    let mut content = [0; 1500];
    if octets.len() > 2048 {
        return Err("a datagram".into());
    }
    block[..octets.len()].copy_from_slice(octets);
    match opener.take(channel, &mut block[..octets.len()]) {
        Ok(Item::Media(media)) => Ok((media.payload().len(), media.content(&mut content))),
        _ => Err("media".into()),
    }
}

/// Of the first datagram of that stream in a session: how many octets of payload were sent, and how many were restored.
fn opened(alloc: Global, session: &Session, sealer: Option<Sealer>) -> Result<(usize, usize), Fail>
    requires session { IsSession session.now }
    requires paired { is_some sealer ≡ is_some session.now.pass }
{
    let mut source = Pieces::with(alloc, &stream(), &[], &[])?;
    let mut links = Vec::new(alloc);
    links.push(link(alloc, &[])?)?;
    let bond = Bond::duplicate(1);
    let ran = sent_over(alloc, session, sealer, bond, &mut source, &[0], 0, 1, links)?;
    let first = ran.links.get(0).ok_or("a link")?;
    let (channel, octets) = first.taken(0).ok_or("a datagram")?;
    lengths(alloc, session, channel, octets)
}

#[test]
fn a_piece_is_sent_as_its_session_has_it(rt: HostRuntime) -> Result<(), Fail> {
    let alloc = rt.alloc();
    for (nulls, width, sent) in [
        (false, Width::W16, 1316),
        (true, Width::W16, 752),
        (false, Width::W32, 1316),
        (true, Width::W32, 752),
    ] {
        let clear = opened(alloc, &tunnel(None, nulls, width), None)?;
        assert!(rt; clear == (sent, 1316));
        let Ok(sealer) = Sealer::with(&mut Words::with(alloc, &WORDS, &[])?) else {
            return Err("no nonces".into());
        };
        let keyed = tunnel(Some(Phrase::of(b"secret")), nulls, width);
        assert!(rt; opened(alloc, &keyed, Some(sealer))? == (sent, 1316));
    }
    Ok(())
}

#[test]
fn each_answer_has_its_text(rt: HostRuntime) -> Result<(), Fail> {
    let alloc = rt.alloc();
    for (fault, want) in [
        (SendFault::ReadFault, "read failed"),
        (SendFault::LinksDown, "all links down"),
        (SendFault::Spent, "keys spent"),
        (SendFault::TooLong, "input too long"),
        (SendFault::TurnsSpent, "turns spent"),
    ] {
        assert!(rt; format!(in alloc; "{fault}")?.as_str() == want);
    }
    Ok(())
}
