//! One socket of a link, and the peer of its channel.
ghost use Rattle.std.specs.Prelude.{◌≡◌, ◌≤◌, take, true, is_some, IfOk};
ghost use Rattle.outside_io.specs.Causes.{has_failed};
ghost use Rattle.link_channels.specs.declared.bounds.TheConstants.{MAX_DATAGRAM as max_datagram};
ghost use Rattle.outside_net.specs.Real.{is_known, is_caller};
ghost use Rattle.outside_net.specs.Sockets.{IsAt, IsOwn, IsFirstPeer, any_of_kind, source_of, is_no_fault, is_fault, answer_by};
ghost use Rattle.outside_net.specs.Sockets.{assigned, sender_of, target};
ghost use Rattle.outside_net.specs.declared.port.Peer.TheVariants.{Last};

use crate::{Got, LinkSpec, Role};
use libc::net::{SO_RCVBUF, SOL_SOCKET, getsockopt, setsockopt};
use link_channels::{Channel, MAX_DATAGRAM};
use outside_io::Failed;
use std::io::{self, ErrorKind};
use std::net::{IpAddr, Ipv4Addr, Ipv6Addr, Net, SocketAddr, UdpSocket};
use std::os::fd::AsRawFd;

/// How many octets a socket is asked to keep until they are read. The system may give less.
pub const RECEIVE_BUFFER: i32 = 4_194_304;

/// Whom a channel's datagrams go to.
#[derive(Clone, Copy)]
pub enum Peer {
    /// Nobody is known yet.
    Unknown,
    /// Whoever sent the last datagram.
    Last(SocketAddr),
    /// An address that was stated, whoever sends.
    Stated(SocketAddr),
}

/// How many octets a read asks the system for: one more than the longest datagram has, so that a longer one is seen.
const READ_BLOCK: usize = MAX_DATAGRAM + 1;

/// How many flows a tunnel has at most (this profile).
pub const MAX_FLOWS: usize = 8;

/// A socket that never waits, its peer, and its peer before the last read of its link; who sent the last datagram of each
/// flow of a tunnel, and whom the flow that is answered goes to.
#[derive(Drop)]
pub struct Port {
    socket: UdpSocket,
    peer: Peer,
    before: Peer,
    senders: [Option<SocketAddr>; MAX_FLOWS],
    facing: Option<SocketAddr>,
    /// What the system hands over.
    block: [u8; READ_BLOCK],
}

impl Port {
    ghost use Rattle.std.specs.Prelude.{◌≡◌, IfOk, IfSome, OnErr, true, false};
    ghost use Rattle.outside_net.specs.Links.{IsWithin, has_come_to_end};
    ghost use Rattle.outside_net.specs.Sockets.{IsFirstPeer, IsOn, learned, Learns, assigned, sender_of};
    ghost use Rattle.outside_net.specs.Real.{is_known, is_caller, PeerAfter};

    /// Bound to the link's address and this port, or from any port of this machine to them.
    pub fn open<R: Net>(rt: &R, spec: &LinkSpec, port: u16, role: Role) -> Result<Port, Failed>
        ensures at { IfOk result (λ opened. IsFirstPeer role spec.now.address port opened.peer) }
        ensures peer { IfOk result (λ opened. is_known opened.peer ≡ is_caller role) }
        ensures before { IfOk result (λ opened. opened.before ≡ opened.peer) }
    {
        let peer = first_peer(role, spec.address, port);
        match quick_socket(rt, own_address(role, spec, port), spec.ttl) {
            Ok(socket) => Ok(Port {
                socket,
                peer,
                before: peer,
                senders: [None; MAX_FLOWS],
                facing: None,
                block: [0; READ_BLOCK],
            }),
            Err(_) => Err(Failed),
        }
    }

    pub fn descriptor(&self) -> i32 {
        self.socket.as_raw_fd()
    }

    /// How many octets the system keeps until they are read, with what it counts for itself; `None` where it doesn't say.
    pub fn receive_buffer(&self) -> Option<u32> {
        let mut value = [0; 16];
        let mut len = 4;
        let status = unsafe {
            getsockopt(
                self.descriptor(),
                SOL_SOCKET,
                SO_RCVBUF,
                &mut value,
                &mut len,
            )
        };
        if status != 0 || len != 4 {
            return None;
        }
        Some(option_value(&value))
    }

    /// Begins a read: the peer that is known now is the one from before it.
    pub fn begin(&mut self)
        ensures before { self.new.before ≡ self.old.peer }
        ensures peer { self.new.peer ≡ self.old.peer }
    {
        self.before = self.peer;
    }

    /// Takes back what the last read made of the peer.
    pub fn refuse(&mut self)
        ensures peer { self.new.peer ≡ self.old.before }
        ensures before { self.new.before ≡ self.old.before }
    {
        self.peer = self.before;
    }

    /// Who sent the last datagram is the peer of the flow at a place, unless a peer was stated.
    pub fn assign(&mut self, flow: u8)
        ensures senders { self.new.senders ≡ assigned flow self.old.peer self.old.senders }
        ensures facing { self.new.facing ≡ self.old.facing }
        ensures peer { self.new.peer ≡ self.old.peer }
        ensures before { self.new.before ≡ self.old.before }
    {
        match self.peer {
            Peer::Last(from) => keep_sender(&mut self.senders, flow, from),
            Peer::Unknown | Peer::Stated(_) => {}
        }
    }

    /// What is sent from now on goes to the peer of the flow at a place, if a datagram of it came.
    pub fn address(&mut self, flow: u8)
        ensures facing { self.new.facing ≡ sender_of flow self.old.senders }
        ensures senders { self.new.senders ≡ self.old.senders }
        ensures peer { self.new.peer ≡ self.old.peer }
        ensures before { self.new.before ≡ self.old.before }
    {
        self.facing = sender_of(&self.senders, flow);
    }

    /// The next datagram, if one is there: its sender is the peer, unless one was stated. One of more than 2,048 octets
    /// is dropped, which answers Quiet, and its sender isn't.
    pub fn look(&mut self, channel: Channel, buf: &mut [u8; MAX_DATAGRAM]) -> Option<Got>
        ensures within { IfSome result IsWithin }
        ensures going { IfSome result (λ got. has_come_to_end got ≡ false) }
        ensures channel { IfSome result (IsOn channel) }
        ensures learns { Learns self.old.peer self.new.peer result }
        ensures peer { PeerAfter channel (is_known self.old.peer) (is_known self.new.peer) result }
        ensures before { self.new.before ≡ self.old.before }
    {
        match self.socket.recv_from(&mut self.block) {
            Ok((count, from)) => {
                if count > MAX_DATAGRAM {
                    return Some(Got::Quiet);
                }
                give(&self.block, count, buf);
                self.learn(from);
                Some(Got::Datagram(channel, count))
            }
            Err(error) => answer_by(error.kind()),
        }
    }

    /// A datagram came from an address.
    fn learn(&mut self, from: SocketAddr)
        ensures value { self.new.peer ≡ learned self.old.peer from }
        ensures before { self.new.before ≡ self.old.before }
    {
        match self.peer {
            Peer::Stated(_) => {}
            Peer::Unknown | Peer::Last(_) => self.peer = Peer::Last(from),
        }
    }

    /// Sends to the peer, or to that of the flow which is answered. A datagram that the peer's machine refuses, to which no way leads now, or for which the socket has no
    /// room, is lost.
    pub fn send(&self, octets: &[u8]) -> Result<bool, Failed>
        ensures peer { IfOk result (λ went. went ≡ is_known self.now.peer) }
        ensures known { OnErr result (is_known self.now.peer ≡ true) }
    {
        match target(self.peer, self.facing) {
            None => Ok(false),
            Some(to) => outcome(self.socket.send_to(octets, to)),
        }
    }
}

/// Who sent the last datagram of a flow is kept, if a tunnel has such a flow.
fn keep_sender(senders: &mut [Option<SocketAddr>; MAX_FLOWS], flow: u8, from: SocketAddr)
    ensures value { senders.new ≡ assigned flow (Last from) senders.old }
{
    let place = usize::from(flow);
    if place < MAX_FLOWS {
        senders[place] = Some(from);
    }
}

/// Who sent the last datagram of a flow, if one came.
fn sender_of(senders: &[Option<SocketAddr>; MAX_FLOWS], flow: u8) -> Option<SocketAddr>
    ensures value { result ≡ sender_of flow senders.now }
{
    let place = usize::from(flow);
    if place < MAX_FLOWS {
        return senders[place];
    }
    None
}

/// Where a datagram goes: to a stated peer, else to that of the flow which is answered, else to who sent the last one. Nowhere
/// as long as none came.
fn target(peer: Peer, facing: Option<SocketAddr>) -> Option<SocketAddr>
    ensures value { result ≡ target peer facing }
    ensures known { is_some result ≡ is_known peer }
{
    match peer {
        Peer::Unknown => None,
        Peer::Stated(to) => Some(to),
        Peer::Last(last) => Some(facing.unwrap_or(last)),
    }
}

/// What the socket of a link is bound to: the link's address where it listens, and else any port of the address that it sends from.
pub fn own_address(role: Role, spec: &LinkSpec, port: u16) -> SocketAddr
    ensures value { IsOwn role spec.now port result }
{
    match role {
        Role::Receives | Role::SendsListening => SocketAddr::new(spec.address, port),
        Role::ReceivesCalling | Role::Sends | Role::Forwards => {
            SocketAddr::new(source_of(spec.from, spec.address), 0)
        }
    }
}

/// The address that datagrams to another one leave from: the one that is stated, else any of this machine's of the same kind.
pub fn source_of(from: Option<IpAddr>, to: IpAddr) -> IpAddr
    ensures value { result ≡ source_of from to }
{
    match from {
        Some(address) => address,
        None => any_of_kind(to),
    }
}

/// Any address of this machine of the same kind.
fn any_of_kind(address: IpAddr) -> IpAddr
    ensures value { result ≡ any_of_kind address }
{
    match address {
        IpAddr::V4(_) => IpAddr::V4(Ipv4Addr::UNSPECIFIED),
        IpAddr::V6(_) => IpAddr::V6(Ipv6Addr::UNSPECIFIED),
    }
}

/// Whom the socket of a link sends to before a datagram came.
fn first_peer(role: Role, address: IpAddr, port: u16) -> Peer
    ensures value { IsFirstPeer role address port result }
    ensures known { is_known result ≡ is_caller role }
{
    match role {
        Role::Receives | Role::SendsListening => Peer::Unknown,
        Role::ReceivesCalling | Role::Sends | Role::Forwards => {
            Peer::Stated(SocketAddr::new(address, port))
        }
    }
}

/// A socket that never waits and has a large receive buffer, where the system gives one.
fn quick_socket<R: Net>(rt: &R, own: SocketAddr, ttl: Option<u8>) -> io::Result<UdpSocket> {
    let socket = UdpSocket::bind(rt, own)?;
    socket.set_nonblocking(true)?;
    if let Some(ttl) = ttl {
        socket.set_ttl(u32::from(ttl))?;
        socket.set_multicast_ttl_v4(u32::from(ttl))?;
    }
    let mut value = [0; 16];
    value[..4].copy_from_slice(&RECEIVE_BUFFER.to_ne_bytes());
    let _ = unsafe { setsockopt(socket.as_raw_fd(), SOL_SOCKET, SO_RCVBUF, &value, 4) };
    Ok(socket)
}

/// The number that the system put at the front of a socket option's value, in this machine's order of octets.
fn option_value(value: &[u8; 16]) -> u32 {
    let [a, b, c, d, ..] = *value;
    u32::from_ne_bytes([a, b, c, d])
}

/// Copies a datagram of so many octets to the front of the caller's block.
fn give(block: &[u8; READ_BLOCK], count: usize, buf: &mut [u8; MAX_DATAGRAM])
    requires fits { count ≤ max_datagram }
    ensures octets { take count buf.new ≡ take count block.now }
{
    buf[..count].copy_from_slice(&block[..count]);
}

/// What a call that sends came to: a datagram that is lost on its way was taken.
fn outcome(sent: io::Result<usize>) -> Result<bool, Failed>
    ensures value { IfOk result (λ went. went ≡ true) }
    ensures failed { has_failed result ≡ is_fault sent }
{
    match sent {
        Ok(_) => Ok(true),
        Err(error) => {
            if is_no_fault(error.kind()) {
                return Ok(true);
            }
            Err(Failed)
        }
    }
}

/// What a read that gave no datagram answers, by its error.
fn answer_by(kind: ErrorKind) -> Option<Got>
    ensures value { result ≡ answer_by kind }
{
    if is_no_fault(kind) {
        return None;
    }
    Some(Got::Failed)
}

/// Nothing is there, the socket has no room, a call was interrupted, a peer's machine refuses, or no way leads there now: none
/// of these is a fault of the link. So a path that is down for a while is used again when it is up.
fn is_no_fault(kind: ErrorKind) -> bool
    ensures value { result ≡ is_no_fault kind }
{
    matches!(
        kind,
        ErrorKind::WouldBlock
            | ErrorKind::Interrupted
            | ErrorKind::ConnectionRefused
            | ErrorKind::HostUnreachable
            | ErrorKind::NetworkUnreachable
            | ErrorKind::NetworkDown
    )
}
