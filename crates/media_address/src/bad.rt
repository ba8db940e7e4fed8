use std::fmt::{self, Display, Formatter, Write};

/// Why a word that begins as an address is none: the first test that fails.
#[derive(Clone, Copy, Debug, PartialEq, Eq)]
pub enum AddressBad {
    /// No address and port, from 1 on, stand before the question mark or the end.
    NoAddress,
    /// What stands behind the question mark is no setting, two that are the same, or one that doesn't fit the address.
    NoSetting,
}

impl Display for AddressBad {
    ghost use Rattle.std.specs.Prelude.{Some};
    ghost use Rattle.media_address.specs.Text.{text_of};

    ghost output = { λ bad. Some (text_of bad) };

    fn fmt<W: Write>(&self, f: &mut Formatter<W>) -> fmt::Result {
        f.write_str(match self {
            AddressBad::NoAddress => "no address a.b.c.d:port or [IPv6]:port",
            AddressBad::NoSetting =>
                "behind ? stands neither from= with an address of the same kind nor ttl=1..255 for IPv4, or one twice",
        })
    }
}
