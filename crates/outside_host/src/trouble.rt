//! What couldn't be opened, and why.
use media_address::AddressBad;
use std::fmt::{self, Display, Formatter, Write};
use std::io;
use std::net::SocketAddr;

/// What was to be opened.
#[derive(Drop)]
pub enum Thing {
    /// A source or a sink of this name.
    Name(String),
    /// A port of a link.
    Address(SocketAddr),
}

/// Why it couldn't be opened.
#[derive(Drop)]
pub enum Reason {
    /// What the system says.
    System(io::Error),
    /// A sink has the name of the source.
    IsSource,
    /// The name begins as an address, and is none.
    Address(AddressBad),
}

/// What couldn't be opened, and why.
#[derive(Drop)]
pub struct Trouble {
    thing: Thing,
    reason: Reason,
}

impl Trouble {
    pub(crate) fn new(thing: Thing, reason: Reason) -> Trouble {
        Trouble { thing, reason }
    }
}

impl Display for Thing {
    fn fmt<W: Write>(&self, f: &mut Formatter<W>) -> fmt::Result {
        match self {
            Thing::Name(name) => f.write_str(name.as_str()),
            Thing::Address(address) => write!(f, "{address}"),
        }
    }
}

impl Display for Reason {
    fn fmt<W: Write>(&self, f: &mut Formatter<W>) -> fmt::Result {
        match self {
            Reason::System(error) => write!(f, "{error}"),
            Reason::IsSource => f.write_str("it is read as the source"),
            Reason::Address(bad) => write!(f, "{bad}"),
        }
    }
}

impl Display for Trouble {
    fn fmt<W: Write>(&self, f: &mut Formatter<W>) -> fmt::Result {
        let (thing, reason) = (&self.thing, &self.reason);
        write!(f, "{thing}: {reason}")
    }
}
