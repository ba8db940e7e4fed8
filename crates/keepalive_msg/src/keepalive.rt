use std::fmt;
use std::fmt::{Display, Formatter, Write};

/// A keepalive message that was read.
#[derive(Clone, Copy, Debug, PartialEq, Eq)]
pub struct Keepalive {
    /// The sending end's address.
    pub mac: [u8; 6],
    /// The capability bits, whose meaning isn't read.
    pub capabilities: u16,
    /// The length of the text, in octets.
    pub text: usize,
}

/// Why octets are no keepalive message.
#[derive(Clone, Copy, Debug, PartialEq, Eq)]
pub enum KeepBad {
    /// Fewer than eight octets.
    Short,
}

impl Display for KeepBad {
    ghost use Rattle.std.specs.Prelude.{Some};
    ghost use Rattle.keepalive_msg.specs.Text.{text_of};

    ghost output = { λ bad. Some (text_of bad) };

    fn fmt<W: Write>(&self, f: &mut Formatter<W>) -> fmt::Result {
        f.write_str(match self {
            KeepBad::Short => "keepalive short",
        })
    }
}
