use std::fmt;
use std::fmt::{Display, Formatter, Write};
use std::marker::Model;

/// What is told of a payload whose null packets were deleted.
#[derive(Clone, Copy, Debug, PartialEq, Eq)]
pub struct Strip {
    /// How many packets the payload had: 1 to 7.
    pub units: u8,
    /// Whether a packet has 204 octets, not 188.
    pub long: bool,
    /// A bit for each packet that was null: 0x40 for the first, and so on down. The bits past the last
    /// packet are 0.
    pub nulls: u8,
}

impl Model for Strip {
    ghost use Rattle.ts_nulls.specs.Shape.{Shape, IsShape};

    ghost Value = { Shape };

    ghost view = { λ s. record { units = s.units; long = s.long; nulls = s.nulls } };

    ghost invariant = { λ s. IsShape s.units s.nulls };

    ghost inverse = { λ s. record { units = s.units; long = s.long; nulls = s.nulls } };
}

/// Why null packets can't be put back.
#[derive(Clone, Copy, Debug, PartialEq, Eq)]
pub enum NullBad {
    /// The length isn't that of the packets that were kept.
    Shape,
}

impl Display for NullBad {
    ghost use Rattle.std.specs.Prelude.{Some};
    ghost use Rattle.ts_nulls.specs.Text.{text_of};

    ghost output = { λ bad. Some (text_of bad) };

    fn fmt<W: Write>(&self, f: &mut Formatter<W>) -> fmt::Result {
        f.write_str(match self {
            NullBad::Shape => "nulls shape",
        })
    }
}
