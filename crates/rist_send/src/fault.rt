//! Why a source is not sent to its end.
ghost use Rattle.std.specs.Prelude.{◌≡◌};
ghost use Rattle.outside_io.specs.Causes.{NoFault};
ghost use Rattle.block_source.specs.Reading.{piece_fault};
ghost use Rattle.rist_send.specs.Run.{fault_of, refusal as refusal_of};
ghost use Rattle.rist_send.specs.Sending.{read_fault};

use block_source::PieceFault;
use sender_rules::SendBad;
use std::fmt::{self, Display, Formatter, Write};

/// Why a source is not sent to its end.
#[derive(Clone, Copy, Debug, PartialEq, Eq)]
pub enum SendFault {
    /// A read of the source failed.
    ReadFault,
    /// Every link is down.
    LinksDown,
    /// The sealer had no pair for the next datagram, or the sequence numbers have ended.
    Spent,
    /// More than 2^40 octets were read of the source.
    TooLong,
    /// The turns were made before the source's end.
    TurnsSpent,
}

impl Display for SendFault {
    ghost use Rattle.std.specs.Prelude.{Some};
    ghost use Rattle.rist_send.specs.Text.{text_of};

    ghost output = { λ fault. Some (text_of fault) };

    fn fmt<W: Write>(&self, f: &mut Formatter<W>) -> fmt::Result {
        f.write_str(match self {
            SendFault::ReadFault => "read failed",
            SendFault::LinksDown => "all links down",
            SendFault::Spent => "keys spent",
            SendFault::TooLong => "input too long",
            SendFault::TurnsSpent => "turns spent",
        })
    }
}

// What a refusal of the sender means here.
pub(crate) fn refusal(bad: SendBad) -> SendFault
    ensures value { result ≡ refusal_of bad }
    ensures source { read_fault result ≡ NoFault }
{
    match bad {
        SendBad::Spent => SendFault::Spent,
        SendBad::LinksDown => SendFault::LinksDown,
    }
}

// What it means here that a piece isn't read.
pub(crate) fn unread(fault: PieceFault) -> SendFault
    ensures value { result ≡ fault_of fault }
    ensures source { read_fault result ≡ piece_fault fault }
    ensures failed { result ≡ SendFault.ReadFault → fault ≡ PieceFault.ReadFault }
{
    match fault {
        PieceFault::ReadFault => SendFault::ReadFault,
        PieceFault::TooLong => SendFault::TooLong,
    }
}
