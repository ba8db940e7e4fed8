//! Why a walk did not end after whole records.
use capture_file::{CapBad, CapKind};
use pcap_file::{PcapBad, PcapKind};
use std::fmt::{self, Display, Formatter, Write};

/// Why a walk did not end after whole records.
#[derive(Clone, Copy, Debug, PartialEq, Eq)]
pub enum WalkBad {
    /// Memory was refused.
    Memory,
    /// A read of the source failed.
    ReadFault,
    /// A write to the sink failed.
    WriteFault,
    /// No record of a capture file stands at this offset, for this kind.
    BadCapture(CapKind, u64),
    /// No header or no record of a pcap file stands at this offset, for this kind.
    BadPcap(PcapKind, u64),
    /// A record ends past 2^40 octets.
    TooLong,
}

impl From<CapBad> for WalkBad {
    ghost use Rattle.std.specs.Prelude.{◌≡◌};
    ghost use Rattle.capture_walk.specs.Leaves.{walk_bad_of};

    ghost from_gives = { λ bad e. e ≡ walk_bad_of bad };

    fn from(bad: CapBad) -> Self {
        match bad {
            CapBad::Bad(CapKind::TooLong, _) => WalkBad::TooLong,
            CapBad::Bad(kind, at) => WalkBad::BadCapture(kind, at),
            CapBad::ReadFault => WalkBad::ReadFault,
        }
    }
}

impl From<PcapBad> for WalkBad {
    ghost use Rattle.std.specs.Prelude.{◌≡◌};
    ghost use Rattle.capture_walk.specs.Leaves.{walk_bad_of_pcap};

    ghost from_gives = { λ bad e. e ≡ walk_bad_of_pcap bad };

    fn from(bad: PcapBad) -> Self {
        match bad {
            PcapBad::Bad(PcapKind::TooLong, _) => WalkBad::TooLong,
            PcapBad::Bad(kind, at) => WalkBad::BadPcap(kind, at),
            PcapBad::ReadFault => WalkBad::ReadFault,
        }
    }
}

impl Display for WalkBad {
    ghost use Rattle.std.specs.Prelude.{Some};
    ghost use Rattle.capture_walk.specs.Text.{walk_text};

    ghost output = { λ bad. Some (walk_text bad) };

    fn fmt<W: Write>(&self, f: &mut Formatter<W>) -> fmt::Result {
        match self {
            WalkBad::Memory => f.write_str("out of memory"),
            WalkBad::ReadFault => f.write_str("read failed"),
            WalkBad::WriteFault => f.write_str("write failed"),
            WalkBad::BadCapture(kind, at) => write!(f, "bad capture: {kind} at {at}"),
            WalkBad::BadPcap(kind, at) => write!(f, "bad pcap: {kind} at {at}"),
            WalkBad::TooLong => f.write_str("input too long"),
        }
    }
}
