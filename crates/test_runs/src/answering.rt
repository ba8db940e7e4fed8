//! To whom the flows of a tunnel are answered, and which figures their link is told.
ghost use Rattle.std.specs.Prelude.{◌≡◌, Some};

use crate::flowing::{LIMITS, link, tunnel, two, two_ports};
use fan_run::receive_flows;
use link_channels::Channel;
use outside_io::{Failed, Store8};
use outside_net::{Got, Link, ReceiverFigures, ScriptClock, ScriptLink};
use rist_wire::Opener;
use std::alloc::Global;
use std::process::Abort;
use std::test::Fail;

/// A link in memory that notes the calls which say whose datagram came and whom one goes to, its writes, and what figures it
/// is told: `A` and `B` where a datagram is assigned to the first and the second flow, `0` and `1` where they are addressed,
/// `w` for a write, and of figures `a` or `b` by their flow, how many packets that kept, and the moment in steps of 5 ms. It
/// wants figures from one moment on.
#[derive(Drop)]
struct NotingLink {
    inner: ScriptLink,
    wants_from: u64,
    notes: [u8; 32],
    count: usize,
}

/// The last digit.
fn digit(number: u64) -> u8 {
    b'0'.saturating_add((number % 10) as u8)
}

impl NotingLink {
    fn over(inner: ScriptLink, wants_from: u64) -> NotingLink {
        NotingLink {
            inner,
            wants_from,
            notes: [b'.'; 32],
            count: 0,
        }
    }

    fn note(&mut self, call: u8)
        ensures inner { self.new.inner ≡ self.old.inner }
    {
        if let Some(place) = self.notes.get_mut(self.count) {
            *place = call;
            self.count = self.count.saturating_add(1);
        }
    }
}

impl Link for NotingLink {
    ghost use Rattle.outside_net.specs.Scripts.{answers_of, knows_in};

    ghost reads = { λ link. Some (answers_of link.inner.reads link.inner.script) };

    ghost taken = { λ link. Some link.inner.taken };

    ghost knows = { λ link. knows_in link.inner.known };

    ghost knew = { λ link. knows_in link.inner.before };

    ghost faults = { λ link. link.inner.faults };

    ghost ends = { λ link. link.inner.ends };

    fn read(&mut self, buf: &mut [u8; 2048]) -> Got {
        self.inner.read(buf)
    }

    fn refuse(&mut self) {
        self.inner.refuse();
    }

    fn assign(&mut self, flow: u8) {
        self.note(b'A'.saturating_add(flow));
    }

    fn address(&mut self, flow: u8) {
        self.note(b'0'.saturating_add(flow));
    }

    fn write(&mut self, channel: Channel, octets: &[u8]) -> Result<bool, Failed> {
        self.note(b'w');
        self.inner.write(channel, octets)
    }

    fn wants(&self, us: u64) -> bool {
        us >= self.wants_from
    }

    fn tell(&mut self, us: u64, flow: u8, figures: &ReceiverFigures) {
        self.note(b'a'.saturating_add(flow));
        self.note(digit(figures.kept));
        self.note(digit(us / 5_000));
    }
}

/// No moment of a row comes to this.
const NEVER: u64 = 1 << 40;

/// What a link brings, the moments of its clock, the moment from which it wants figures, and the calls that are noted: a flow is
/// assigned its media and its compounds, and no keepalive; with the first tick each is addressed and sent a report and a keepalive,
/// and later each that lacks a packet is sent a request. A compound that asks is answered once it is assigned. Figures are told
/// with the ticks alone, of each flow in order, once what the tick made is sent.
static ROWS: [(&[u8], &[u64], u64, &[u8]); 7] = [
    (b"AaCc.", &[0, 0, 0, 0, 25_000], NEVER, b"A0ww1wwBAB0w1w"),
    (b"aAcC.", &[0, 0, 0, 0, 25_000], NEVER, b"B0ww1wwABA0w1w"),
    (b"-A1.", &[0], NEVER, b"0ww1wwA"),
    (b"Aa!?", &[0], NEVER, b"A0ww1wwBA0wB1w"),
    (b"?A", &[0], NEVER, b"B1w0ww1wwA"),
    // The first flow keeps two packets, between which one is missing, and the second flow keeps one.
    (b"AaC.", &[0, 0, 0, 25_000], 0, b"A0ww1wwa10b00BA0wa25b15"),
    (b"AaC.", &[0, 0, 0, 25_000], 25_000, b"A0ww1wwBA0wa25b15"),
];

#[test]
fn each_flow_is_answered_where_it_came_from(rt: HostRuntime) -> Result<(), Fail> {
    let alloc = rt.alloc();
    for (letters, moments, wants_from, calls) in &ROWS {
        let sink = Store8::with(alloc, 64, &[])?;
        let other = Store8::with(alloc, 64, &[])?;
        let fan = two(alloc, true, sink, other)?;
        let ports = Vec::from_slice(alloc, &two_ports())?;
        let mut openers = Vec::new(alloc);
        openers.push(Opener::with(alloc, &tunnel())?)?;
        let mut links = Vec::new(alloc);
        links.push(NotingLink::over(link(alloc, letters)?, *wants_from))?;
        let mut clocks = Vec::new(alloc);
        clocks.push(ScriptClock::with(alloc, moments)?)?;
        match receive_flows(
            &rt,
            alloc,
            fan,
            ports,
            openers,
            &mut links,
            &mut clocks,
            &LIMITS,
        ) {
            Ok(_) => {}
            Err(_) => return Err(Fail::new("out of memory")),
        }
        let link = links.first().ok_or("no link")?;
        assert!(rt; link.notes.get(..link.count) == Some(*calls));
    }
    Ok(())
}
