use gre_tunnel::GreBad;
use ipv4_udp::IpBad;
use keepalive_msg::KeepBad;
use rist_ext::ExtBad;
use rtcp_compound::RtcpBad;
use rtp_packet::RtpBad;
use std::fmt;
use std::fmt::{Display, Formatter, Write};
use ts_nulls::NullBad;

/// Why a datagram is no item: the first test that fails.
#[derive(Clone, Copy, Debug, PartialEq, Eq)]
pub enum WireBad {
    /// A channel that the session's profile doesn't have.
    Channel,
    /// No GRE header.
    Gre(GreBad),
    /// Enciphered, in a session without a passphrase.
    Sealed,
    /// Not enciphered, in a session with a passphrase. Keepalives may be so.
    Clear,
    /// No keepalive.
    Keepalive(KeepBad),
    /// No room for the four octets of the ports.
    Stub,
    /// No UDP datagram in IPv4, with its checksums.
    Ip(IpBad),
    /// Neither port of the session.
    Port,
    /// No RTP packet.
    Rtp(RtpBad),
    /// No RTCP compound.
    Rtcp(RtcpBad),
    /// A RIST extension that says that null packets were deleted, and not of how many: its size is 0. In librist's tunnel
    /// only where the payload and the bits don't say it either.
    Ext(ExtBad),
    /// A payload that isn't the packets that were kept.
    Nulls(NullBad),
}

impl WireBad {
    ghost use Rattle.std.specs.Prelude.{◌≡◌};
    ghost use Rattle.rist_wire.specs.Text.{place_of};

    /// Where the test failed: the offset of the RTCP packet in its compound, in octets, and 0 for every other
    /// test.
    pub fn place(&self) -> usize
        ensures value { result ≡ place_of self.now }
    {
        match self {
            WireBad::Rtcp(bad) => bad.place,
            _ => 0,
        }
    }
}

impl Display for WireBad {
    ghost use Rattle.std.specs.Prelude.{Some};
    ghost use Rattle.rist_wire.specs.Text.{text_of};

    ghost output = { λ bad. Some (text_of bad) };

    fn fmt<W: Write>(&self, f: &mut Formatter<W>) -> fmt::Result {
        match self {
            WireBad::Channel => f.write_str("wire channel"),
            WireBad::Gre(bad) => bad.fmt(f),
            WireBad::Sealed => f.write_str("wire sealed"),
            WireBad::Clear => f.write_str("wire clear"),
            WireBad::Keepalive(bad) => bad.fmt(f),
            WireBad::Stub => f.write_str("wire stub"),
            WireBad::Ip(bad) => bad.fmt(f),
            WireBad::Port => f.write_str("wire port"),
            WireBad::Rtp(bad) => bad.fmt(f),
            WireBad::Rtcp(bad) => bad.why.fmt(f),
            WireBad::Ext(bad) => bad.fmt(f),
            WireBad::Nulls(bad) => bad.fmt(f),
        }
    }
}
