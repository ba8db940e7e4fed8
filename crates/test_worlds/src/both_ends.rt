//! What a sender sends comes out at a receiver, though some of it is lost, the rest comes in another order, and one
//! flow follows another.
ghost use Rattle.std.specs.Prelude.{◌≡◌, ◌≤◌, length, is_some, vec_len, IfOk};
ghost use Rattle.sender_rules.specs.Bonding.{link_count};
ghost use Rattle.rist_wire.specs.Session.{IsSession};

use bond_links::Bond;
use link_channels::Channel;
use outside_io::{Store8, Words};
use outside_net::ScriptLink;
use psk_keys::Phrase;
use psk_seal::Sealer;
use request_rules::NackKind;
use rist_ends::{Outcome, Outs, Receiver, Told, What, what_of};
use rist_sender::{Sender, Settings};
use rist_wire::{Item, Opener, Profile, Session, Tunnel};
use seq_unwrap::Width;
use std::alloc::Global;
use std::test::Fail;

const FLOW: u32 = 0x1020_3040;

const NEXT_FLOW: u32 = 0x5060_7080;

/// A sender and its link.
#[derive(Drop)]
struct Near {
    opener: Opener,
    sender: Sender,
    links: Vec<ScriptLink>,
    ghost one: { link_count sender.bonding ≡ 1 },
    ghost fits: { vec_len links ≡ 1 },
}

/// A receiver.
#[derive(Drop)]
struct Far {
    opener: Opener,
    receiver: Receiver,
    sink: Store8,
}

/// How two ends meet.
#[derive(Clone, Copy)]
struct Meeting {
    is_secret: bool,
    width: Width,
    nack: NackKind,
}

/// The passphrase of ends that meet in secret.
fn pass(is_secret: bool) -> Option<Phrase>
    ensures { is_some result ≡ is_secret }
{
    if is_secret {
        Some(Phrase::of(b"secret"))
    } else {
        None
    }
}

fn session(meeting: Meeting) -> Session
    ensures session { IsSession result }
    ensures pass { is_some result.pass ≡ meeting.is_secret }
{
    Session {
        profile: Profile::Main,
        port: 1968,
        pass: pass(meeting.is_secret),
        bits: 128,
        nulls: true,
        width: meeting.width,
        full: false,
        tunnel: Tunnel::Own,
        echo: false,
    }
}

/// A sealer whose nonces begin with this one, where the ends meet in secret.
fn sealer(alloc: Global, meeting: Meeting, first: u32) -> Result<Option<Sealer>, Fail>
    ensures { IfOk result (λ sealer. is_some sealer ≡ meeting.is_secret) }
{
    if !meeting.is_secret {
        return Ok(None);
    }
    match Sealer::with(&mut Words::with(alloc, &[first; 16], &[])?) {
        Ok(sealer) => Ok(Some(sealer)),
        Err(_) => Err(Fail::new("no nonces")),
    }
}

/// Copies a datagram to the front of a block.
fn copied<'a>(block: &'a mut [u8; 2048], octets: &[u8]) -> Result<&'a mut [u8], Fail> {
    let front = block.get_mut(..octets.len()).ok_or("too long")?;
    front.copy_from_slice(octets);
    Ok(front)
}

impl Near {
    /// A sender of numbers from 65,536 on.
    fn with(alloc: Global, meeting: Meeting) -> Result<Near, Fail> {
        let settings = Settings {
            flow: FLOW,
            first: 65_536,
            store: 32,
            hold: 20,
            bond: Bond::duplicate(1),
        };
        let session = session(meeting);
        let sealer = sealer(alloc, meeting, 1)?;
        let sender = Sender::with(alloc, settings, &session, sealer)?;
        let mut links = Vec::new(alloc);
        links.push(ScriptLink::with(alloc, Vec::new(alloc), true, 64, &[], &[])?)?;
        let opener = Opener::with(alloc, &session)?;
        Ok(Near {
            opener,
            sender,
            links,
        })
    }

    fn send(&mut self, us: u64, payload: &[u8]) -> Result<(), Fail>
        requires { length payload.now ≤ 1500 }
    {
        match self.sender.send(us, payload, &mut self.links) {
            Ok(()) => Ok(()),
            Err(_) => Err(Fail::new("not sent")),
        }
    }

    /// Sends each letter, so long after the one before it.
    fn send_each(&mut self, us: u64, apart: u64, letters: &[u8]) -> Result<(), Fail> {
        let mut us = us;
        for letter in letters {
            self.send(us, &[*letter])?;
            us = us.wrapping_add(apart);
        }
        Ok(())
    }

    /// The next flow begins, at number 7.
    fn renew(&mut self) {
        self.sender.renew(NEXT_FLOW, 7);
    }

    /// How many packets are sent again for a datagram that came back.
    fn feedback(&mut self, us: u64, channel: Channel, octets: &[u8]) -> Result<u32, Fail> {
        let mut block = [0; 2048];
        let Ok(Item::Control(compound)) = self.opener.take(channel, copied(&mut block, octets)?)
        else {
            return Err(Fail::new("no compound"));
        };
        match self.sender.feedback(us, 0, &compound, &mut self.links) {
            Ok(count) => Ok(count),
            Err(_) => Err(Fail::new("not answered")),
        }
    }

    /// The datagram at a place of those that its link took.
    fn taken(&self, place: usize) -> Option<(Channel, &[u8])> {
        self.links[0].taken(place)
    }
}

impl Far {
    fn with(alloc: Global, meeting: Meeting) -> Result<Far, Fail> {
        let settings = rist_ends::Settings {
            delay: 1000,
            restart: 500,
            drift: false,
            span: 64,
            reorder: 25,
            least: 50,
            tries: 8,
            nack: meeting.nack,
            own: 7,
            muted: false,
        };
        let session = session(meeting);
        let sealer = sealer(alloc, meeting, 100)?;
        Ok(Far {
            opener: Opener::with(alloc, &session)?,
            receiver: Receiver::with(alloc, &settings, &session, sealer)?,
            sink: Store8::with(alloc, 256, &[])?,
        })
    }

    /// A datagram comes.
    fn take(&mut self, us: u64, channel: Channel, octets: &[u8]) -> Result<(), Fail> {
        let mut datagram = [0; 2048];
        let mut block = [0; 1500];
        let item = self.opener.take(channel, copied(&mut datagram, octets)?);
        let told = Told {
            link: 0,
            us,
            what: what_of(&item, &mut block),
        };
        let _ = self.receiver.step(&told, &mut self.sink);
        Ok(())
    }

    /// What a tick of its clock sends back.
    fn tick(&mut self, us: u64) -> Result<Outs, Fail> {
        let told = Told {
            link: 0,
            us,
            what: What::Tick,
        };
        match self.receiver.step(&told, &mut self.sink) {
            Outcome::Made(outs) => Ok(outs),
            _ => Err(Fail::new("nothing was made")),
        }
    }

    /// All that waits comes out.
    fn end(&mut self) {
        let told = Told {
            link: 0,
            us: 0,
            what: What::End,
        };
        let _ = self.receiver.step(&told, &mut self.sink);
    }
}

/// What happens between two ends. A moment is in microseconds.
#[derive(Clone, Copy)]
enum Row {
    /// From a moment on each letter is sent, so long after the one before it.
    Sends(u64, u64, &'static [u8]),
    /// The next flow begins.
    Renews,
    /// The datagrams at these places come at a moment.
    Come(u64, &'static [usize]),
    /// What a tick at a moment sends back comes at another, and so many packets are sent again for it.
    Asks(u64, u64, u32),
    /// The receiver ends. There were so many datagrams, and these octets come out.
    Ends(usize, &'static [u8]),
}

/// This holds, or else the test fails with a text.
fn expect(holds: bool, text: &str) -> Result<(), Fail> {
    if holds { Ok(()) } else { Err(Fail::new(text)) }
}

/// The datagram at a place comes at a moment.
fn come_one(near: &Near, far: &mut Far, us: u64, place: usize) -> Result<(), Fail> {
    match near.taken(place) {
        Some((channel, octets)) => far.take(us, channel, octets),
        None => Err(Fail::new("no datagram")),
    }
}

fn come(near: &Near, far: &mut Far, us: u64, places: &[usize]) -> Result<(), Fail> {
    for place in places {
        come_one(near, far, us, *place)?;
    }
    Ok(())
}

fn ask(near: &mut Near, far: &mut Far, us: u64, then: u64, want: u32) -> Result<(), Fail> {
    let outs = far.tick(us)?;
    let count = near.feedback(then, outs.first.channel(), outs.first.octets())?;
    expect(count == want, "other retransmissions")
}

fn end(near: &Near, far: &mut Far, count: usize, want: &[u8]) -> Result<(), Fail> {
    far.end();
    expect(near.taken(count).is_none(), "more datagrams")?;
    expect(far.sink.octets() == want, "other octets")
}

fn step(near: &mut Near, far: &mut Far, row: &Row) -> Result<(), Fail> {
    match *row {
        Row::Sends(us, apart, letters) => near.send_each(us, apart, letters),
        Row::Renews => {
            near.renew();
            Ok(())
        }
        Row::Come(us, places) => come(near, far, us, places),
        Row::Asks(us, then, count) => ask(near, far, us, then, count),
        Row::Ends(count, octets) => end(near, far, count, octets),
    }
}

/// All this happens between two ends that meet so.
fn happens(alloc: Global, meeting: Meeting, rows: &[Row]) -> Result<(), Fail> {
    let mut near = Near::with(alloc, meeting)?;
    let mut far = Far::with(alloc, meeting)?;
    for row in rows {
        step(&mut near, &mut far, row)?;
    }
    Ok(())
}

fn clear(width: Width, nack: NackKind) -> Meeting {
    Meeting {
        is_secret: false,
        width,
        nack,
    }
}

fn secret(width: Width, nack: NackKind) -> Meeting {
    Meeting {
        is_secret: true,
        width,
        nack,
    }
}

// Six payloads are sent, the second and the fifth are lost, and the others come in another order. The receiver asks for
// what is missing, and what comes back comes in another order too.
static RECOVERING: [Row; 5] = [
    Row::Sends(0, 1_000, b"ABCDEF"),
    Row::Come(30_000, &[0, 3, 2, 5]),
    Row::Asks(60_000, 70_000, 2),
    // The answer to the receiver's RTT request, and two retransmissions.
    Row::Come(80_000, &[8, 7, 6]),
    Row::Ends(9, b"ABCDEF"),
];

#[test]
fn in_clear_all_payloads_come_out(rt: HostRuntime) -> Result<(), Fail> {
    happens(rt.alloc(), clear(Width::W16, NackKind::Range), &RECOVERING)?;
    happens(rt.alloc(), clear(Width::W32, NackKind::Mask), &RECOVERING)
}

#[test]
fn enciphered_all_payloads_come_out(rt: HostRuntime) -> Result<(), Fail> {
    happens(rt.alloc(), secret(Width::W16, NackKind::Mask), &RECOVERING)?;
    happens(rt.alloc(), secret(Width::W32, NackKind::Range), &RECOVERING)
}

// Two payloads are sent, and two seconds later three of another flow, of which the second is lost and asked for. Those
// of one flow come out behind those of the other.
static RESTARTING: [Row; 8] = [
    Row::Sends(0, 0, b"AB"),
    Row::Renews,
    Row::Sends(2_000_000, 0, b"CDE"),
    Row::Come(30_000, &[0, 1]),
    Row::Come(2_030_000, &[2, 4]),
    Row::Asks(2_060_000, 2_070_000, 1),
    // Behind the answer to the receiver's RTT request.
    Row::Come(2_080_000, &[6]),
    Row::Ends(7, b"ABCDE"),
];

#[test]
fn a_flow_comes_out_behind_the_one_before_it(rt: HostRuntime) -> Result<(), Fail> {
    happens(rt.alloc(), secret(Width::W16, NackKind::Range), &RESTARTING)
}
