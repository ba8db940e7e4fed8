//! UDP links. What they give and take is not told: the trusted edge of the system.
ghost use Rattle.std.specs.Prelude.{◌≡◌, ◌≤ℤ◌, pos, true, false, IfOk, IfSome, OnErr};
ghost use Rattle.outside_net.specs.Links.{IsWithin, has_come_to_end};
ghost use Rattle.outside_net.specs.Real.{knows_at, knew_at, LooksOn};
ghost use Rattle.outside_net.specs.Sockets.{IsOn, other_channel};

use crate::port::Port;
use crate::ready::{Known, Ready};
use crate::{Got, Link, LinkSpec, Role};
use libc::net::{POLLIN, poll};
use libc::types::pollfd;
use link_channels::{Channel, MAX_DATAGRAM, Profile};
use outside_io::Failed;
use std::cell::Cell;
use std::net::Net;

/// A link over UDP: in the Simple Profile a socket for media and one for control, in the Main Profile one for the
/// tunnel.
///
/// A link that listens is bound to its address, and sends on each channel to whoever sent the last datagram on it that
/// wasn't refused; in a tunnel of several flows, of each flow to whoever sent its last datagram. A link that calls sends to its
/// address. A read looks at the socket first that gave a datagram least recently.
#[derive(Drop)]
pub struct UdpLink {
    media: Option<Port>,
    control: Option<Port>,
    tunnel: Option<Port>,
    next: Channel,
    known: Cell<Known>,
    faults: u64,
    ends: u64,
}

impl UdpLink {
    ghost use Rattle.std.specs.Prelude.{◌≡◌, false, IfOk, IfSome};
    ghost use Rattle.outside_net.specs.Links.{IsWithin, has_come_to_end};
    ghost use Rattle.link_channels.specs.declared.channel.Channel.{Channel as ChannelValue};
    ghost use Rattle.outside_net.specs.Real.{knows_in_link, knew_in_link, stated_in, IsOpenedAt, IsUnused, KnowsAfterLook};
    ghost use Rattle.outside_net.specs.Sockets.{IsOn, TakesTurns};

    /// Opens a link: it is bound to its address, or sends to it from the address that is stated. Where an address can't be bound or
    /// is none of this machine's, it fails. In the Simple Profile control goes on the next port.
    pub fn open<R: Net>(
        rt: &R,
        spec: &LinkSpec,
        role: Role,
        profile: Profile,
    ) -> Result<UdpLink, Failed>
        ensures peers { IfOk result (λ link. (c : ChannelValue) → knows_in_link link c ≡ stated_in role profile c) }
        ensures before { IfOk result (λ link. (c : ChannelValue) → knew_in_link link c ≡ stated_in role profile c) }
        ensures at { IfOk result (IsOpenedAt role profile spec.now) }
        ensures fresh { IfOk result IsUnused }
    {
        match profile {
            Profile::Simple => {
                let Some(control) = spec.control_port() else {
                    return Err(Failed);
                };
                let media = Port::open(rt, spec, spec.port, role)?;
                let control = Port::open(rt, spec, control, role)?;
                Ok(UdpLink {
                    media: Some(media),
                    control: Some(control),
                    tunnel: None,
                    next: Channel::Media,
                    known: Cell::new(Known::Nothing),
                    faults: 0,
                    ends: 0,
                })
            }
            Profile::Main => {
                let tunnel = Port::open(rt, spec, spec.port, role)?;
                Ok(UdpLink {
                    media: None,
                    control: None,
                    tunnel: Some(tunnel),
                    next: Channel::Tunnel,
                    known: Cell::new(Known::Nothing),
                    faults: 0,
                    ends: 0,
                })
            }
        }
    }

    /// How many octets the system keeps of datagrams of its first channel until they are read, with what it counts for itself;
    /// `None` where it doesn't say. The system may give less than the link asks for.
    pub fn receive_buffer(&self) -> Option<u32> {
        match (&self.media, &self.tunnel) {
            (Some(port), _) | (None, Some(port)) => port.receive_buffer(),
            (None, None) => None,
        }
    }

    /// Begins a read: the peers that are known now are those from before it.
    fn begin(&mut self)
        ensures before { (c : ChannelValue) → knew_in_link self.new c ≡ knows_in_link self.old c }
        ensures peers { (c : ChannelValue) → knows_in_link self.new c ≡ knows_in_link self.old c }
        ensures faults { self.new.faults ≡ self.old.faults }
        ensures ends { self.new.ends ≡ self.old.ends }
    {
        begin(&mut self.media);
        begin(&mut self.control);
        begin(&mut self.tunnel);
    }

    /// Looks at one channel's socket.
    fn look_at(&mut self, channel: Channel, buf: &mut [u8; MAX_DATAGRAM]) -> Option<Got>
        ensures within { IfSome result IsWithin }
        ensures channel { IfSome result (IsOn channel) }
        ensures next { self.new.next ≡ self.old.next }
        ensures going { IfSome result (λ got. has_come_to_end got ≡ false) }
        ensures peer { KnowsAfterLook (knows_in_link self.old) (knows_in_link self.new) result }
        ensures before { (c : ChannelValue) → knew_in_link self.new c ≡ knew_in_link self.old c }
        ensures faults { self.new.faults ≡ self.old.faults }
        ensures ends { self.new.ends ≡ self.old.ends }
    {
        match channel {
            Channel::Media => look(&mut self.media, channel, buf),
            Channel::Control => look(&mut self.control, channel, buf),
            Channel::Tunnel => look(&mut self.tunnel, channel, buf),
        }
    }

    /// Looks at the sockets, or takes the word of the last look that nothing is there.
    fn look_at_all(&mut self, buf: &mut [u8; MAX_DATAGRAM]) -> Option<Got>
        ensures within { IfSome result IsWithin }
        ensures turns { IfSome result (TakesTurns self.new.next) }
        ensures going { IfSome result (λ got. has_come_to_end got ≡ false) }
        ensures peer { KnowsAfterLook (knows_in_link self.old) (knows_in_link self.new) result }
        ensures before { (c : ChannelValue) → knew_in_link self.new c ≡ knew_in_link self.old c }
        ensures faults { self.new.faults ≡ self.old.faults }
        ensures ends { self.new.ends ≡ self.old.ends }
    {
        let known = self.known.get();
        if let Some(left) = known.taken() {
            self.known.set(left);
            return None;
        }
        let got = self.look_at_ready(known, buf);
        self.known.set(Known::after_look(got.is_some()));
        got
    }

    /// Looks at the sockets that have something, the one first that gave least recently.
    fn look_at_ready(&mut self, known: Known, buf: &mut [u8; MAX_DATAGRAM]) -> Option<Got>
        ensures within { IfSome result IsWithin }
        ensures turns { IfSome result (TakesTurns self.new.next) }
        ensures going { IfSome result (λ got. has_come_to_end got ≡ false) }
        ensures peer { KnowsAfterLook (knows_in_link self.old) (knows_in_link self.new) result }
        ensures before { (c : ChannelValue) → knew_in_link self.new c ≡ knew_in_link self.old c }
        ensures faults { self.new.faults ≡ self.old.faults }
        ensures ends { self.new.ends ≡ self.old.ends }
    {
        if matches!(self.next, Channel::Tunnel) {
            // A tunnel has one socket, which a read looks at by itself.
            return self.look_at(Channel::Tunnel, buf);
        }
        let ready = match known {
            Known::Ready(ready) => ready,
            Known::Nothing | Known::Quiet(_) => self.ready_within(0),
        };
        let first = self.next;
        let second = other_channel(first);
        if ready.has(first) {
            if let Some(got) = self.look_at(first, buf) {
                self.next = second;
                return Some(got);
            }
        }
        if ready.has(second) {
            return self.look_at(second, buf);
        }
        None
    }

    /// Which sockets have something, in one call for both, as soon as one has or so many milliseconds have passed.
    fn ready_within(&self, limit: u8) -> Ready {
        let mut ends = [end_of(&self.media), end_of(&self.control)];
        if self.tunnel.is_some() {
            ends[0] = end_of(&self.tunnel);
        }
        let count = poll_within(&mut ends, i32::from(limit));
        Ready::of(count, ends[0].revents, ends[1].revents)
    }
}

/// The channel that takes turns with this one.
fn other_channel(channel: Channel) -> Channel
    ensures value { result ≡ other_channel channel }
{
    match channel {
        Channel::Media => Channel::Control,
        Channel::Control => Channel::Media,
        Channel::Tunnel => Channel::Tunnel,
    }
}

/// Waits until a socket has a datagram, or so many milliseconds have passed, and gives the answer of `poll`, which takes a
/// negative number for no limit.
fn poll_within(ends: &mut [pollfd; 2], limit: i32) -> i32
    requires limited { pos 0 ≤ℤ limit }
{
    poll(ends, limit)
}

/// A socket for `poll`; -1, which it passes over, where there is none.
fn end_of(port: &Option<Port>) -> pollfd {
    pollfd {
        fd: match port {
            Some(port) => port.descriptor(),
            None => -1,
        },
        events: POLLIN,
        revents: 0,
    }
}

/// Begins a read on a socket, if there is one.
fn begin(port: &mut Option<Port>)
    ensures before { knew_at port.new ≡ knows_at port.old }
    ensures peer { knows_at port.new ≡ knows_at port.old }
{
    match port {
        Some(port) => port.begin(),
        None => {}
    }
}

/// Takes back what the last read made of a socket's peer, if there is one.
fn refuse(port: &mut Option<Port>)
    ensures peer { knows_at port.new ≡ knew_at port.old }
    ensures before { knew_at port.new ≡ knew_at port.old }
{
    match port {
        Some(port) => port.refuse(),
        None => {}
    }
}

/// Who sent the last datagram of a socket is the peer of a flow, if there is a socket.
fn assign(port: &mut Option<Port>, flow: u8)
    ensures peer { knows_at port.new ≡ knows_at port.old }
    ensures before { knew_at port.new ≡ knew_at port.old }
{
    match port {
        Some(port) => port.assign(flow),
        None => {}
    }
}

/// What a socket sends from now on goes to the peer of a flow, if there is a socket.
fn address(port: &mut Option<Port>, flow: u8)
    ensures peer { knows_at port.new ≡ knows_at port.old }
    ensures before { knew_at port.new ≡ knew_at port.old }
{
    match port {
        Some(port) => port.address(flow),
        None => {}
    }
}

/// Looks at a socket, if there is one. None where it has nothing.
fn look(port: &mut Option<Port>, channel: Channel, buf: &mut [u8; MAX_DATAGRAM]) -> Option<Got>
    ensures within { IfSome result IsWithin }
    ensures channel { IfSome result (IsOn channel) }
    ensures going { IfSome result (λ got. has_come_to_end got ≡ false) }
    ensures peer { LooksOn channel port.old port.new result }
    ensures before { knew_at port.new ≡ knew_at port.old }
{
    match port {
        Some(port) => port.look(channel, buf),
        None => None,
    }
}

/// Sends on a socket, if there is one with a peer.
fn send(port: &Option<Port>, octets: &[u8]) -> Result<bool, Failed>
    ensures peer { IfOk result (λ went. went ≡ knows_at port.now) }
    ensures known { OnErr result (knows_at port.now ≡ true) }
{
    match port {
        Some(port) => port.send(octets),
        None => Ok(false),
    }
}

impl Link for UdpLink {
    ghost use Rattle.std.specs.Prelude.{None};
    ghost use Rattle.outside_net.specs.Real.{knows_in_link, knew_in_link};

    ghost reads = { λ _. None };

    ghost taken = { λ _. None };

    ghost knows = { knows_in_link };

    ghost knew = { knew_in_link };

    ghost faults = { λ link. link.faults };

    ghost ends = { λ link. link.ends };

    fn read(&mut self, buf: &mut [u8; MAX_DATAGRAM]) -> Got {
        self.begin();
        match self.look_at_all(buf) {
            None => Got::Quiet,
            Some(Got::Failed) => {
                self.faults = self.faults.saturating_add(1);
                Got::Failed
            }
            Some(got) => got,
        }
    }

    fn refuse(&mut self) {
        refuse(&mut self.media);
        refuse(&mut self.control);
        refuse(&mut self.tunnel);
    }

    fn write(&mut self, channel: Channel, octets: &[u8]) -> Result<bool, Failed> {
        let sent = match channel {
            Channel::Media => send(&self.media, octets),
            Channel::Control => send(&self.control, octets),
            Channel::Tunnel => send(&self.tunnel, octets),
        };
        if sent.is_err() {
            self.faults = self.faults.saturating_add(1);
        }
        sent
    }

    fn assign(&mut self, flow: u8) {
        assign(&mut self.tunnel, flow);
    }

    fn address(&mut self, flow: u8) {
        address(&mut self.tunnel, flow);
    }

    fn rest(&self, limit: u8) {
        self.known.set(Known::after_rest(self.ready_within(limit)));
    }
}
