//! Why octets are no compound, and where.

use std::error::Error;
use std::fmt;

/// The test that fails, in the order of the tests.
#[derive(Clone, Copy, Debug, PartialEq, Eq)]
pub enum RtcpWhy {
    /// Fewer than the four octets of a header are left.
    Short,
    /// The version isn't 2.
    Version,
    /// The packet type is below 192 or above 223 (this profile).
    Kind,
    /// The first packet is neither a sender's nor a receiver's report.
    First,
    /// The packet passes the end.
    Length,
    /// Padding stands in a packet that isn't the last, or its count isn't that of one or more whole
    /// words of the body.
    Padding,
    /// The body is less than its type and its count say.
    Body,
}

impl fmt::Display for RtcpWhy {
    ghost use Rattle.std.specs.Prelude.{Some};
    ghost use Rattle.rtcp_compound.specs.Text.{text_of};

    ghost output = { λ why. Some (text_of why) };

    fn fmt<W: fmt::Write>(&self, f: &mut fmt::Formatter<W>) -> fmt::Result {
        f.write_str(match self {
            RtcpWhy::Short => "rtcp short",
            RtcpWhy::Version => "rtcp version",
            RtcpWhy::Kind => "rtcp kind",
            RtcpWhy::First => "rtcp first",
            RtcpWhy::Length => "rtcp length",
            RtcpWhy::Padding => "rtcp padding",
            RtcpWhy::Body => "rtcp body",
        })
    }
}

/// Octets that are no compound: the first test that fails, packet by packet.
#[derive(Clone, Copy, Debug, PartialEq, Eq)]
pub struct RtcpBad {
    /// The test.
    pub why: RtcpWhy,
    /// The offset of the packet that fails it, in octets of the compound.
    pub place: usize,
}

impl fmt::Display for RtcpBad {
    ghost use Rattle.std.specs.Prelude.{Some};
    ghost use Rattle.rtcp_compound.specs.Text.{bad_text};

    ghost output = { λ bad. Some (bad_text bad) };

    fn fmt<W: fmt::Write>(&self, f: &mut fmt::Formatter<W>) -> fmt::Result {
        write!(f, "{} at {}", self.why, self.place)
    }
}

impl Error for RtcpBad {}

/// The packet doesn't fit the rest of the compound's block.
#[derive(Clone, Copy, Debug, PartialEq, Eq)]
pub struct Full;

impl fmt::Display for Full {
    ghost use Rattle.std.specs.Prelude.{Some, codes};

    ghost output = { λ _. Some (codes "compound full") };

    fn fmt<W: fmt::Write>(&self, f: &mut fmt::Formatter<W>) -> fmt::Result {
        f.write_str("compound full")
    }
}

impl Error for Full {}
