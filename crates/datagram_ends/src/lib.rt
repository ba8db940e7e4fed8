//! Sources and sinks of a stream that lies in datagrams, as it is or in RTP: over UDP, where what the system gives and takes is not
//! told, and over what tells the datagrams that it sent.
#![tactic(auto)]

mod datagram_sink;
mod media;
mod out;
mod sockets;
mod udp_out;
mod udp_source;

pub use datagram_sink::DatagramSink;
pub use media::{media_of, payload_of};
pub use out::DatagramOut;
pub use udp_out::UdpOut;
pub use udp_source::UdpSource;
