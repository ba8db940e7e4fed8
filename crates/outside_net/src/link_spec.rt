//! Where a link is, and which end of it this is.

use std::net::IpAddr;

/// An address of IPv4 or of IPv6 and a port of UDP; and how datagrams of a link that sends leave this machine.
#[derive(Clone, Copy, Debug, PartialEq, Eq)]
pub struct LinkSpec {
    /// Where it is bound to as a listener, or sends to as a caller.
    pub address: IpAddr,
    /// The port, that of media in the Simple Profile.
    pub port: u16,
    /// The address of this machine that a link which sends is bound to, of the same kind; any where none is stated.
    pub from: Option<IpAddr>,
    /// How many networks datagrams of a link that sends may pass (RFC 791, section 3.1, "Time to Live"); the system's number where
    /// none is stated. It counts over IPv4 alone.
    pub ttl: Option<u8>,
}

impl LinkSpec {
    ghost use Rattle.std.specs.Prelude.{◌≡◌, ◌+◌, ◌<◌, ◌^◌, SomeIff};
    ghost use Rattle.outside_net.specs.Sockets.{plain_link};

    /// A link at this address and port. Where it sends, it sends from any address of this machine.
    pub const fn at(address: IpAddr, port: u16) -> LinkSpec
        ensures value { result ≡ plain_link address port }
    {
        LinkSpec {
            address,
            port,
            from: None,
            ttl: None,
        }
    }

    /// The port of control in the Simple Profile (VSF TR-06-1): the next one, if there is one.
    pub fn control_port(&self) -> Option<u16>
        ensures value { SomeIff result (self.now.port + 1 < 2 ^ 16) (self.now.port + 1) }
    {
        self.port.checked_add(1)
    }
}

/// Which end of a link this is.
#[derive(Clone, Copy, Debug, PartialEq, Eq)]
pub enum Role {
    /// It receives as a listener: it is bound to the address, and answers whoever sends to it.
    Receives,
    /// It receives as a caller: it sends to the address from the first, and takes what comes.
    ReceivesCalling,
    /// It sends as a caller what a source gives: to the address.
    Sends,
    /// It sends as a listener what a source gives: it is bound to the address, and sends to whoever sent to it.
    SendsListening,
    /// It sends as a caller what others bring: to the address.
    Forwards,
}
