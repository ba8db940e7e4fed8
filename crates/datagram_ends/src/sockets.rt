//! Sockets of UDP that never wait.
ghost use Rattle.std.specs.Prelude.{◌≡◌};
ghost use Rattle.outside_net.specs.Sockets.{is_no_fault};
ghost use Rattle.datagram_ends.specs.Looks.{missed_by};

use libc::net::{SO_RCVBUF, SO_SNDBUF, SOL_SOCKET, setsockopt};
use outside_net::RECEIVE_BUFFER;
use std::io::{self, ErrorKind};
use std::net::{Net, SocketAddr, UdpSocket};
use std::os::fd::AsRawFd;

/// A socket with large buffers, where the system gives some.
pub fn quick_socket<R: Net>(rt: &R, own: SocketAddr) -> io::Result<UdpSocket> {
    let socket = UdpSocket::bind(rt, own)?;
    socket.set_nonblocking(true)?;
    let mut value = [0; 16];
    value[..4].copy_from_slice(&RECEIVE_BUFFER.to_ne_bytes());
    let _ = unsafe { setsockopt(socket.as_raw_fd(), SOL_SOCKET, SO_RCVBUF, &value, 4) };
    let _ = unsafe { setsockopt(socket.as_raw_fd(), SOL_SOCKET, SO_SNDBUF, &value, 4) };
    Ok(socket)
}

/// Nothing is there, the socket has no room, a call was interrupted, a machine refuses, or no way leads there now: none of these
/// is a fault.
pub fn is_no_fault(kind: ErrorKind) -> bool
    ensures value { result ≡ is_no_fault kind }
{
    matches!(
        kind,
        ErrorKind::WouldBlock
            | ErrorKind::Interrupted
            | ErrorKind::ConnectionRefused
            | ErrorKind::HostUnreachable
            | ErrorKind::NetworkUnreachable
            | ErrorKind::NetworkDown
    )
}

/// What a look at a socket came to.
#[derive(Clone, Copy)]
pub enum Look {
    /// A datagram was taken, or dropped.
    Took,
    /// None is there.
    Nothing,
    /// The call failed.
    Failed,
}

/// What a look that took nothing came to, by its error.
pub fn missed(kind: ErrorKind) -> Look
    ensures value { result ≡ missed_by kind }
{
    if is_no_fault(kind) {
        return Look::Nothing;
    }
    Look::Failed
}
