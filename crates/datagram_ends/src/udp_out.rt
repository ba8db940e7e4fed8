//! What sends datagrams over UDP. What the system takes is not told: the trusted edge of the system.
ghost use Rattle.std.specs.Prelude.{◌≡◌, IfOk};
ghost use Rattle.outside_io.specs.Causes.{has_failed};
ghost use Rattle.outside_net.specs.Sockets.{IsAt, is_fault};
ghost use Rattle.datagram_ends.specs.Ends.{goes_to, leaves_from};

use crate::out::DatagramOut;
use crate::sockets::{is_no_fault, quick_socket};
use media_address::MediaAddress;
use outside_io::Failed;
use outside_net::source_of;
use std::io;
use std::net::{Net, SocketAddr, UdpSocket};

/// A socket, and where its datagrams go. One that is refused there, to which no way leads now, or for which the socket has no room,
/// is lost.
#[derive(Drop)]
pub struct UdpOut {
    socket: UdpSocket,
    to: SocketAddr,
    faults: u64,
}

impl UdpOut {
    ghost use Rattle.std.specs.Prelude.{IfOk};
    ghost use Rattle.outside_net.specs.Sockets.{IsAt};
    ghost use Rattle.datagram_ends.specs.Ends.{goes_to};

    /// Sends to the address, from any port of this machine's local address, or of any of its addresses where none is set. A local
    /// address chooses the interface to a multicast group (ip(7)). Without a time to live the system's counts: 1 to a group. Over IPv6 it
    /// can't be set.
    pub fn open<R: Net>(rt: &R, address: &MediaAddress) -> io::Result<UdpOut>
        ensures at { IfOk result (λ opened. IsAt address.now.host address.now.port (goes_to opened)) }
    {
        let socket = quick_socket(rt, leaves_from(address))?;
        if let Some(ttl) = address.settings.ttl {
            socket.set_ttl(u32::from(ttl))?;
            socket.set_multicast_ttl_v4(u32::from(ttl))?;
        }
        Ok(UdpOut {
            socket,
            to: SocketAddr::new(address.host, address.port),
            faults: 0,
        })
    }
}

/// Any port of the local address that is set, or of any of this machine's of the same kind.
fn leaves_from(address: &MediaAddress) -> SocketAddr
    ensures value { IsAt (leaves_from address.now) 0 result }
{
    SocketAddr::new(source_of(address.settings.from, address.host), 0)
}

/// What a call that sends came to: a datagram that is lost on its way was sent.
fn outcome(sent: io::Result<usize>) -> Result<(), Failed>
    ensures failed { has_failed result ≡ is_fault sent }
{
    match sent {
        Ok(_) => Ok(()),
        Err(error) => {
            if is_no_fault(error.kind()) {
                return Ok(());
            }
            Err(Failed)
        }
    }
}

impl DatagramOut for UdpOut {
    ghost use Rattle.std.specs.Prelude.{None};

    ghost sent = { λ _. None };

    ghost faults = { λ out. out.faults };

    fn send(&mut self, octets: &[u8]) -> Result<(), Failed> {
        let sent = outcome(self.socket.send_to(octets, self.to));
        if sent.is_err() {
            self.faults = self.faults.saturating_add(1);
        }
        sent
    }
}
