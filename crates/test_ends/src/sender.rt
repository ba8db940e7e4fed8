//! Worked runs over links in memory.
ghost use Rattle.std.specs.Prelude.{◌≡◌, ◌≤◌, ◌<◌, length, None, vec_len};
ghost use Rattle.sender_rules.specs.Bonding.{link_count};
ghost use Rattle.rist_wire.specs.Session.{IsSession};

use crate::expecting::expect;
use bond_links::Bond;
use link_channels::Channel;
use outside_net::ScriptLink;
use rist_sender::{Sender, Settings};
use rist_wire::{Profile, Session, Tunnel};
use rtcp_compound::Compound;
use sender_rules::SendBad;
use seq_unwrap::Width;
use std::alloc::Global;
use std::test::Fail;

/// A sender and its links.
#[derive(Drop)]
struct Flow {
    sender: Sender,
    links: Vec<ScriptLink>,
    ghost fits: { vec_len links ≡ link_count sender.bonding },
    ghost few: { vec_len links ≤ 16 },
}

/// What is done with a flow, and what is looked for. A moment is in microseconds.
#[derive(Clone, Copy)]
enum Row {
    /// A payload is sent at a moment.
    Send(u64, &'static [u8]),
    /// Each of some letters is sent at a moment.
    Letters(u64, &'static [u8]),
    /// A tick at a moment.
    Tick(u64),
    /// All links are down for a payload at a moment.
    Down(u64, &'static [u8]),
    /// All links are down for a tick at a moment.
    DownTick(u64),
    /// A compound comes on link 0 at a moment, and so many packets are sent again for it.
    Feedback(u64, &'static [u8], u32),
    /// Another flow begins at a number.
    Renew(u32, u32),
    /// The datagram at a place of those that a link took.
    Took(usize, usize, Channel, &'static [u8]),
    /// A link took so many datagrams.
    Count(usize, usize),
    /// Whether a link is up.
    Up(u8, bool),
}

impl Flow {
    fn send(&mut self, us: u64, payload: &[u8], want: Result<(), SendBad>) -> Result<(), Fail> {
        if payload.len() > 1500 {
            return Err(Fail::new("a long payload"));
        }
        let sent = self.sender.send(us, payload, &mut self.links);
        expect(sent == want, "sent otherwise")
    }

    fn send_each(&mut self, us: u64, letters: &[u8]) -> Result<(), Fail> {
        for letter in letters {
            self.send(us, &[*letter], Ok(()))?;
        }
        Ok(())
    }

    fn tick(&mut self, us: u64, want: Result<(), SendBad>) -> Result<(), Fail> {
        let told = self.sender.tick(us, &mut self.links);
        expect(told == want, "another tick")
    }

    /// The octets of a compound come on link 0.
    fn feedback(&mut self, us: u64, octets: &[u8], want: u32) -> Result<(), Fail> {
        let compound = Compound::read(octets).ok().ok_or("a compound")?;
        if self.links.is_empty() {
            return Err(Fail::new("no link"));
        }
        let sent = self.sender.feedback(us, 0, &compound, &mut self.links);
        expect(sent == Ok(want), "other retransmissions")
    }

    fn renew(&mut self, flow: u32, first: u32) -> Result<(), Fail> {
        if flow % 2 != 0 {
            return Err(Fail::new("an odd flow"));
        }
        self.sender.renew(flow, first);
        Ok(())
    }

    fn is_up(&self, link: u8, want: bool) -> Result<(), Fail> {
        if link >= 16 {
            return Err(Fail::new("too many links"));
        }
        expect(self.sender.up(link) == want, "otherwise up")
    }

    /// The datagram at a place of those that a link took.
    fn at(&self, link: usize, place: usize) -> Option<(Channel, &[u8])> {
        self.links.get(link)?.taken(place)
    }

    fn took(&self, link: usize, place: usize, want: (Channel, &[u8])) -> Result<(), Fail> {
        expect(self.at(link, place) == Some(want), "another datagram")
    }

    /// There is one at each place up to the count, and none behind.
    fn counts(&self, link: usize, count: usize) -> Result<(), Fail> {
        for place in 0..count {
            expect(self.at(link, place).is_some(), "fewer datagrams")?;
        }
        expect(self.at(link, count).is_none(), "more datagrams")
    }

    fn step(&mut self, row: &Row) -> Result<(), Fail> {
        match *row {
            Row::Send(us, payload) => self.send(us, payload, Ok(())),
            Row::Letters(us, letters) => self.send_each(us, letters),
            Row::Tick(us) => self.tick(us, Ok(())),
            Row::Down(us, payload) => self.send(us, payload, Err(SendBad::LinksDown)),
            Row::DownTick(us) => self.tick(us, Err(SendBad::LinksDown)),
            Row::Feedback(us, octets, count) => self.feedback(us, octets, count),
            Row::Renew(flow, first) => self.renew(flow, first),
            Row::Took(link, place, channel, octets) => self.took(link, place, (channel, octets)),
            Row::Count(link, count) => self.counts(link, count),
            Row::Up(link, is_up) => self.is_up(link, is_up),
        }
    }

    fn play(&mut self, rows: &[Row]) -> Result<(), Fail> {
        for row in rows {
            self.step(row)?;
        }
        Ok(())
    }
}

/// A session in clear.
fn session(profile: Profile) -> Session
    ensures session { IsSession result }
    ensures clear { result.pass ≡ None }
{
    Session {
        profile,
        port: 1968,
        pass: None,
        bits: 128,
        nulls: false,
        width: Width::W16,
        full: false,
        tunnel: Tunnel::Own,
        echo: false,
    }
}

/// A link with room for so many datagrams, which takes them but for these writes, which fail.
fn link(alloc: Global, room: usize, failing: &[u64]) -> Result<ScriptLink, Fail> {
    Ok(ScriptLink::with(alloc, Vec::new(alloc), true, room, &[], failing)?)
}

/// A sender of flow 10203040 that stores 512 packets and holds each for 20 ms, over these links.
fn flow_over(
    alloc: Global,
    profile: Profile,
    first: u32,
    bond: Bond,
    links: Vec<ScriptLink>,
) -> Result<Flow, Fail>
    requires fits { vec_len links ≡ link_count bond }
    requires few { vec_len links ≤ 16 }
{
    let settings = Settings {
        flow: 0x1020_3040,
        first,
        store: 512,
        hold: 20,
        bond,
    };
    let sender = Sender::with(alloc, settings, &session(profile), None)?;
    Ok(Flow { sender, links })
}

/// The same over one link with so much room.
fn alone(alloc: Global, profile: Profile, first: u32, room: usize) -> Result<Flow, Fail> {
    let mut links = Vec::new(alloc);
    links.push(link(alloc, room, &[])?)?;
    flow_over(alloc, profile, first, Bond::duplicate(1), links)
}

/// The same from 0 on over two links of which these writes fail.
fn pair(alloc: Global, bond: Bond, one: &[u64], other: &[u64]) -> Result<Flow, Fail>
    requires { link_count bond ≡ 2 }
{
    let mut links = Vec::new(alloc);
    links.push(link(alloc, 64, one)?)?;
    links.push(link(alloc, 64, other)?)?;
    flow_over(alloc, Profile::Simple, 0, bond, links)
}

fn both(alloc: Global, one: &[u64], other: &[u64]) -> Result<Flow, Fail> {
    pair(alloc, Bond::duplicate(2), one, other)
}

/// Three payloads of four go on link 0.
fn shared(alloc: Global, other: &[u64]) -> Result<Flow, Fail> {
    pair(alloc, Bond::share(&[3, 1]), &[], other)
}

// A receiver's report and description, and then a generic NACK of 100, 101 and 116.
const ASKS_FOR_THREE: &[u8] = &[
    0x80, 0xC9, 0, 1, 0, 0, 0, 7, 0x81, 0xCA, 0, 3, 0, 0, 0, 7, 1, 4, 0x72, 0x69, 0x73, 0x74, 0, 0,
    0x81, 0xCD, 0, 3, 0, 0, 0, 7, 0x10, 0x20, 0x30, 0x40, 0, 0x64, 0x80, 1,
];

// The retransmissions of 100 and 101, each with one letter.
const AGAIN_100: &[u8] = &[0x80, 0x21, 0, 100, 0, 0, 0, 0, 0x10, 0x20, 0x30, 0x41, b'A'];

const AGAIN_101: &[u8] = &[0x80, 0x21, 0, 101, 0, 0, 0, 0, 0x10, 0x20, 0x30, 0x41, b'B'];

static HOLDING: [Row; 10] = [
    Row::Letters(0, b"ABCDEFGHIJK"),
    Row::Feedback(0, ASKS_FOR_THREE, 2),
    Row::Took(0, 11, Channel::Media, AGAIN_100),
    Row::Took(0, 12, Channel::Media, AGAIN_101),
    Row::Feedback(5_000, ASKS_FOR_THREE, 0),
    Row::Count(0, 13),
    Row::Feedback(20_000, ASKS_FOR_THREE, 2),
    Row::Took(0, 13, Channel::Media, AGAIN_100),
    Row::Took(0, 14, Channel::Media, AGAIN_101),
    Row::Count(0, 15),
];

#[test]
fn a_compound_gets_what_it_asks_for_once_in_the_hold_time(rt: HostRuntime) -> Result<(), Fail> {
    alone(rt.alloc(), Profile::Simple, 100, 64)?.play(&HOLDING)
}

// A report and a description, and then a range NACK of all 65,536 numbers from 0 on; and one that names 5 twice.
const ASKS_FOR_ALL: &[u8] = &[
    0x80, 0xC9, 0, 1, 0, 0, 0, 7, 0x81, 0xCA, 0, 3, 0, 0, 0, 7, 1, 4, 0x72, 0x69, 0x73, 0x74, 0, 0,
    0x80, 0xCC, 0, 3, 0x10, 0x20, 0x30, 0x40, 0x52, 0x49, 0x53, 0x54, 0, 0, 0xFF, 0xFF,
];

const ASKS_TWICE: &[u8] = &[
    0x80, 0xC9, 0, 1, 0, 0, 0, 7, 0x81, 0xCA, 0, 3, 0, 0, 0, 7, 1, 4, 0x72, 0x69, 0x73, 0x74, 0, 0,
    0x80, 0xCC, 0, 4, 0x10, 0x20, 0x30, 0x40, 0x52, 0x49, 0x53, 0x54, 0, 5, 0, 0, 0, 5, 0, 0,
];

const AGAIN_5: &[u8] = &[0x80, 0x21, 0, 5, 0, 0, 0, 0, 0x10, 0x20, 0x30, 0x41, b'A'];

// Behind 300 payloads of the letter A.
static AT_MOST: [Row; 6] = [
    Row::Feedback(0, ASKS_FOR_ALL, 256),
    Row::Feedback(0, ASKS_FOR_ALL, 44),
    Row::Feedback(0, ASKS_FOR_ALL, 0),
    Row::Feedback(20_000, ASKS_TWICE, 1),
    Row::Took(0, 600, Channel::Media, AGAIN_5),
    Row::Count(0, 601),
];

#[test]
fn one_compound_gets_at_most_256_and_each_number_once(rt: HostRuntime) -> Result<(), Fail> {
    let mut flow = alone(rt.alloc(), Profile::Simple, 0, 620)?;
    for _ in 0..300 {
        flow.send(0, b"A", Ok(()))?;
    }
    flow.play(&AT_MOST)
}

const THIRD: &[u8] = &[0x80, 0x21, 0, 3, 0, 0, 0, 0, 0x10, 0x20, 0x30, 0x40, b'D'];

const FOURTH: &[u8] = &[0x80, 0x21, 0, 4, 0, 0, 0, 0, 0x10, 0x20, 0x30, 0x40, b'E'];

// Payloads 0, 1, 2 and 4 on link 0, 3 on link 1.
static SHARED: [Row; 5] = [
    Row::Letters(0, b"ABCDE"),
    Row::Took(0, 3, Channel::Media, FOURTH),
    Row::Took(1, 0, Channel::Media, THIRD),
    Row::Count(0, 4),
    Row::Count(1, 1),
];

// With link 1 down, 3 goes on link 0.
static ON_ONE: [Row; 4] = [
    Row::Letters(0, b"ABCD"),
    Row::Took(0, 3, Channel::Media, THIRD),
    Row::Up(0, true),
    Row::Up(1, false),
];

#[test]
fn payloads_are_shared_three_to_one(rt: HostRuntime) -> Result<(), Fail> {
    shared(rt.alloc(), &[])?.play(&SHARED)?;
    shared(rt.alloc(), &[0])?.play(&ON_ONE)
}

static FAILING: [Row; 7] = [
    Row::Letters(0, b"AB"),
    Row::Up(0, false),
    Row::Up(1, true),
    Row::Down(0, b"C"),
    Row::DownTick(0),
    Row::Count(0, 1),
    Row::Count(1, 2),
];

#[test]
fn a_link_is_down_after_a_failed_write(rt: HostRuntime) -> Result<(), Fail> {
    both(rt.alloc(), &[1], &[2])?.play(&FAILING)
}

const REPORT: &[u8] = &[
    0x80, 0xC8, 0, 6, 0x10, 0x20, 0x30, 0x40, 0, 0, 0, 1, 0x80, 0, 0, 0, 0, 2, 0x0F, 0x58, 0, 0, 0,
    2, 0, 0, 0, 5, 0x81, 0xCA, 0, 3, 0x10, 0x20, 0x30, 0x40, 1, 4, 0x72, 0x69, 0x73, 0x74, 0, 0,
];

static REPORTING: [Row; 8] = [
    Row::Send(0, b"ABC"),
    Row::Send(0, b"DE"),
    Row::Tick(1_500_000),
    Row::Took(0, 2, Channel::Control, REPORT),
    Row::Tick(1_599_999),
    Row::Count(0, 3),
    Row::Tick(1_600_000),
    Row::Count(0, 4),
];

const KEEPALIVE: &[u8] = &[0, 0, 0x88, 0xB5, 2, 0, 0x10, 0x20, 0x30, 0x40, 0, 0];

static KEEPING: [Row; 3] = [
    Row::Tick(0),
    Row::Took(0, 1, Channel::Tunnel, KEEPALIVE),
    Row::Count(0, 2),
];

#[test]
fn a_tick_reports_and_says_that_it_is_there(rt: HostRuntime) -> Result<(), Fail> {
    alone(rt.alloc(), Profile::Simple, 0, 64)?.play(&REPORTING)?;
    alone(rt.alloc(), Profile::Main, 0, 64)?.play(&KEEPING)
}

// A range NACK of 100, and then an RTT request at one second.
const REQUEST: &[u8] = &[
    0x80, 0xC9, 0, 1, 0, 0, 0, 7, 0x80, 0xCC, 0, 3, 0x10, 0x20, 0x30, 0x40, 0x52, 0x49, 0x53, 0x54,
    0, 100, 0, 0, 0x82, 0xCC, 0, 5, 0x10, 0x20, 0x30, 0x40, 0x52, 0x49, 0x53, 0x54, 0, 0, 0, 0, 0,
    0x0F, 0x42, 0x40, 0, 0, 0, 0,
];

static ANSWERING: [Row; 3] = [
    Row::Letters(0, b"A"),
    Row::Feedback(0, REQUEST, 1),
    Row::Took(0, 2, Channel::Media, AGAIN_100),
];

// The same packet as a response.
const RESPONSE: &[u8] = &[
    0x83, 0xCC, 0, 5, 0x10, 0x20, 0x30, 0x40, 0x52, 0x49, 0x53, 0x54, 0, 0, 0, 0, 0, 0x0F, 0x42,
    0x40, 0, 0, 0, 0,
];

/// The datagram is a compound of 68 octets that ends with the response.
fn expect_answer(datagram: Option<(Channel, &[u8])>) -> Result<(), Fail> {
    let (channel, octets) = datagram.ok_or("an answer")?;
    expect(channel == Channel::Control, "another channel")?;
    expect(octets.len() == 68, "another length")?;
    expect(octets.get(44..) == Some(RESPONSE), "another response")
}

#[test]
fn a_request_for_the_round_trip_time_is_answered_first(rt: HostRuntime) -> Result<(), Fail> {
    let mut flow = alone(rt.alloc(), Profile::Simple, 100, 64)?;
    flow.play(&ANSWERING)?;
    expect_answer(flow.at(0, 1))
}

// The report of the other flow.
const OTHER_REPORT: &[u8] = &[
    0x80, 0xC8, 0, 6, 0x50, 0x60, 0x70, 0x80, 0, 0, 0, 1, 0x80, 0, 0, 0, 0, 2, 0x0F, 0x58, 0, 0, 0,
    1, 0, 0, 0, 2, 0x81, 0xCA, 0, 3, 0x50, 0x60, 0x70, 0x80, 1, 4, 0x72, 0x69, 0x73, 0x74, 0, 0,
];

const OTHER_FIRST: &[u8] = &[
    0x80, 0x21, 0, 7, 0, 0, 0, 0, 0x50, 0x60, 0x70, 0x80, b'D', b'E',
];

static RENEWED: [Row; 7] = [
    Row::Letters(0, b"ABC"),
    Row::Renew(0x5060_7080, 7),
    Row::Feedback(0, ASKS_FOR_THREE, 0),
    Row::Send(0, b"DE"),
    Row::Took(0, 3, Channel::Media, OTHER_FIRST),
    Row::Tick(1_500_000),
    Row::Took(0, 4, Channel::Control, OTHER_REPORT),
];

#[test]
fn a_flow_begins_behind_another_with_nothing_of_it(rt: HostRuntime) -> Result<(), Fail> {
    alone(rt.alloc(), Profile::Simple, 100, 64)?.play(&RENEWED)
}
