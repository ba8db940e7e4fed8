//! Why a reader gives no frame.
use outside_io::Failed;
use std::fmt::{self, Display, Formatter, Write};

/// The first test that fails of what stands at an offset.
#[derive(Clone, Copy, Debug, PartialEq, Eq)]
pub enum PcapKind {
    /// The first four octets aren't there, or are no magic number.
    Magic,
    /// The header, a record's head or the octets that it says end early.
    Truncated,
    /// A version other than 2.4.
    Version,
    /// A link type other than Ethernet and raw IP.
    LinkType,
    /// A record keeps more than 262,144 octets.
    Long,
    /// The record would end past 2^40 octets.
    TooLong,
}

impl Display for PcapKind {
    ghost use Rattle.std.specs.Prelude.{Some};
    ghost use Rattle.pcap_file.specs.Text.{kind_text};

    ghost output = { λ kind. Some (kind_text kind) };

    fn fmt<W: Write>(&self, f: &mut Formatter<W>) -> fmt::Result {
        f.write_str(match self {
            PcapKind::Magic => "magic",
            PcapKind::Truncated => "truncated",
            PcapKind::Version => "version",
            PcapKind::LinkType => "link type",
            PcapKind::Long => "long",
            PcapKind::TooLong => "too long",
        })
    }
}

/// Why a reader gives no frame: what stands at an offset is none, or the source failed.
#[derive(Clone, Copy, Debug, PartialEq, Eq)]
pub enum PcapBad {
    /// This test fails of what stands at this offset, in octets: the header, at 0, or a record.
    Bad(PcapKind, u64),
    /// A read of the source failed.
    ReadFault,
}

impl Display for PcapBad {
    ghost use Rattle.std.specs.Prelude.{Some};
    ghost use Rattle.pcap_file.specs.Text.{bad_text};

    ghost output = { λ bad. Some (bad_text bad) };

    fn fmt<W: Write>(&self, f: &mut Formatter<W>) -> fmt::Result {
        match self {
            PcapBad::Bad(kind, at) => write!(f, "{kind} at {at}"),
            PcapBad::ReadFault => f.write_str("read failed"),
        }
    }
}
