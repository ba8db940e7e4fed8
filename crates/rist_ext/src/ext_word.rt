use std::fmt;
use std::fmt::{Display, Formatter, Write};
use ts_nulls::Strip;

/// The profile word of the extension.
pub const RIST_PROFILE: u16 = 0x5249;

/// What the extension says.
#[derive(Clone, Copy, Debug, PartialEq, Eq)]
pub struct ExtWord {
    /// Which null packets were deleted, where some were.
    pub strip: Option<Strip>,
    /// The upper half of the number, where numbers have 32 bits.
    pub upper: Option<u16>,
}

/// Why an extension is no RIST extension: the first test that fails.
#[derive(Clone, Copy, Debug, PartialEq, Eq)]
pub enum ExtBad {
    /// Another profile word.
    Profile,
    /// Not one word.
    Length,
    /// Null packets were deleted, of no packets.
    Size,
}

impl Display for ExtBad {
    ghost use Rattle.std.specs.Prelude.{Some};
    ghost use Rattle.rist_ext.specs.Text.{text_of};

    ghost output = { λ bad. Some (text_of bad) };

    fn fmt<W: Write>(&self, f: &mut Formatter<W>) -> fmt::Result {
        f.write_str(match self {
            ExtBad::Profile => "extension profile",
            ExtBad::Length => "extension length",
            ExtBad::Size => "extension size",
        })
    }
}
