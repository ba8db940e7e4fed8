//! Why a source is not packed to its end.
use std::fmt::{self, Display, Formatter, Write};

/// Why a source is not packed to its end.
#[derive(Clone, Copy, Debug, PartialEq, Eq)]
pub enum PackBad {
    /// A read of the source failed.
    ReadFault,
    /// A write of the capture failed.
    WriteFault,
    /// More than 2^40 octets were read of the source.
    TooLong,
}

impl Display for PackBad {
    ghost use Rattle.std.specs.Prelude.{Some};
    ghost use Rattle.rist_pack.specs.Text.{text_of};

    ghost output = { λ bad. Some (text_of bad) };

    fn fmt<W: Write>(&self, f: &mut Formatter<W>) -> fmt::Result {
        f.write_str(match self {
            PackBad::ReadFault => "read failed",
            PackBad::WriteFault => "write failed",
            PackBad::TooLong => "input too long",
        })
    }
}
