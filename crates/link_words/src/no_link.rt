//! Why a link has no address.
use std::alloc::AllocError;
use std::fmt::{self, Display, Formatter, Write};

/// Why a link has no address. A URL is told without its parameters.
#[derive(Drop)]
pub enum NoLink {
    /// Memory was refused.
    Memory,
    /// The URL has no host and port.
    NoEndpoint(String),
    /// The URL has an `@` in a command that doesn't receive on all of its links.
    Listens(String),
    /// The parameter of this name, in the URL, stands for no option of the command.
    Parameter(String, String),
    /// The URL has more than 16 parameters.
    TooMany(String),
    /// The host of this name has no address of IPv4 that is known.
    Unknown(String),
}

impl From<AllocError> for NoLink {
    ghost use Rattle.std.specs.Prelude.{◌≡◌};
    ghost use Rattle.link_words.specs.declared.no_link.NoLink.TheVariants.{Memory};

    ghost from_gives = { λ _ refused. refused ≡ Memory };

    fn from(_: AllocError) -> Self {
        NoLink::Memory
    }
}

impl Display for NoLink {
    ghost use Rattle.std.specs.Prelude.{Some};
    ghost use Rattle.link_words.specs.Text.{no_link_text};

    ghost output = { λ refused. Some (no_link_text refused) };

    fn fmt<W: Write>(&self, f: &mut Formatter<W>) -> fmt::Result {
        match self {
            NoLink::Memory => f.write_str("out of memory"),
            NoLink::NoEndpoint(url) => write!(f, "no HOST:PORT in {url}"),
            NoLink::Listens(url) => write!(f, "cannot take @ in {url}"),
            NoLink::Parameter(name, url) => write!(f, "cannot take {name}= in {url}"),
            NoLink::TooMany(url) => write!(f, "more than 16 parameters in {url}"),
            NoLink::Unknown(name) => write!(f, "no address: {name}"),
        }
    }
}
