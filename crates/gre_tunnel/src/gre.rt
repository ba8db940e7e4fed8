use std::fmt;
use std::fmt::{Display, Formatter, Write};

/// A GRE header that was read.
#[derive(Clone, Copy, Debug, PartialEq, Eq)]
pub struct Gre {
    /// The key, where one stands there (RFC 2890, section 2.1).
    pub key: Option<u32>,
    /// The sequence number, where one stands there (RFC 2890, section 2.2).
    pub sequence: Option<u32>,
    /// The EtherType of what follows.
    pub protocol: u16,
    /// The place of what follows the header, in octets.
    pub rest: usize,
}

/// Why octets don't begin with a header that is taken: the first test that fails.
#[derive(Clone, Copy, Debug, PartialEq, Eq)]
pub enum GreBad {
    /// Fewer than four octets, or the key or the sequence number passes the end.
    Short,
    /// A version other than 0.
    Version,
    /// The flag of a checksum is set (this profile).
    Checksum,
    /// A bit that must be 0 is set.
    Reserved,
    /// The flag of a key is set, and that of a sequence number isn't (this profile).
    KeyedNoSequence,
    /// The protocol is none of the tunnel's three.
    Protocol,
}

impl Display for GreBad {
    ghost use Rattle.std.specs.Prelude.{Some};
    ghost use Rattle.gre_tunnel.specs.Text.{text_of};

    ghost output = { λ bad. Some (text_of bad) };

    fn fmt<W: Write>(&self, f: &mut Formatter<W>) -> fmt::Result {
        f.write_str(match self {
            GreBad::Short => "gre short",
            GreBad::Version => "gre version",
            GreBad::Checksum => "gre checksum",
            GreBad::Reserved => "gre reserved",
            GreBad::KeyedNoSequence => "gre key without sequence",
            GreBad::Protocol => "gre protocol",
        })
    }
}
