use std::fmt;
use std::fmt::{Display, Formatter, Write};

/// Why octets are no RTP packet: the first test that fails.
#[derive(Clone, Copy, Debug, PartialEq, Eq)]
pub enum RtpBad {
    /// Fewer than the twelve octets of the fixed header.
    Short,
    /// A version other than 2.
    Version,
    /// The list of contributing sources passes the end.
    Sources,
    /// The extension's four octets or its words pass the end.
    Extension,
    /// The padding flag is set, and no octet is left after the header, or the padding's count is 0 or
    /// more than what is left.
    Padding,
    /// The payload without its padding has more than 1,500 octets.
    Long,
}

impl Display for RtpBad {
    ghost use Rattle.std.specs.Prelude.{Some};
    ghost use Rattle.rtp_packet.specs.Text.{text_of};

    ghost output = { λ bad. Some (text_of bad) };

    fn fmt<W: Write>(&self, f: &mut Formatter<W>) -> fmt::Result {
        f.write_str(match self {
            RtpBad::Short => "rtp short",
            RtpBad::Version => "rtp version",
            RtpBad::Sources => "rtp sources",
            RtpBad::Extension => "rtp extension",
            RtpBad::Padding => "rtp padding",
            RtpBad::Long => "rtp long",
        })
    }
}
