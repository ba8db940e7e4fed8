//! How a command ended.
use capture_file::CapKind;
use capture_walk::WalkBad;
use outside_host::HostBad;
use pcap_file::PcapKind;
use psk_seal::EntropyFault;
use rist_compare::{Tear, TearText};
use std::fmt::{self, Display, Formatter, Write};

/// How a command ended.
#[derive(Drop, PartialEq, Eq)]
pub enum Status {
    /// The command did its work.
    Done,
    /// Memory was refused.
    Memory,
    /// The words are no line of the program.
    Usage,
    /// A source or a sink could not be opened.
    OpenFault,
    /// A read of the source failed.
    ReadFault,
    /// A write to the sink failed.
    WriteFault,
    /// No record of a capture stands at this offset, for this kind.
    BadCapture(CapKind, u64),
    /// A random word could not be had.
    EntropyFault,
    /// A record ends, or what was read of a source goes, past 2^40 octets.
    TooLong,
    /// Every link is down: a write on each that is sent on has failed, or each that is received on has failed.
    LinksDown,
    /// A trace of steps was at its limit, and one more step came.
    TraceFull,
    /// The kept steps of a receiving or a gateway and those of its links differ there.
    Torn(Tear),
    /// The sealer had no pair for the datagrams that were due, or the sequence numbers have ended.
    Spent,
    /// The turns of a sending were made before its source's end.
    TurnsSpent,
    /// No header or no record of a pcap file stands at this offset, for this kind.
    BadPcap(PcapKind, u64),
}

impl Status {
    ghost use Rattle.std.specs.Prelude.{◌≡◌};
    ghost use Rattle.run_parts.specs.ExitCodes.{exit_code_of};

    /// The exit status of the program.
    pub fn exit_code(&self) -> u8
        ensures { result ≡ exit_code_of self.now }
    {
        match self {
            Status::Done => 0,
            Status::Memory => 1,
            Status::Usage => 2,
            Status::OpenFault => 3,
            Status::ReadFault => 4,
            Status::WriteFault => 5,
            Status::BadCapture(..) => 7,
            Status::EntropyFault => 11,
            Status::TooLong => 12,
            Status::LinksDown => 6,
            Status::TraceFull => 8,
            Status::Torn(_) => 9,
            Status::Spent => 10,
            Status::TurnsSpent => 13,
            Status::BadPcap(..) => 14,
        }
    }
}

impl From<HostBad> for Status {
    ghost use Rattle.std.specs.Prelude.{◌≡◌};
    ghost use Rattle.run_parts.specs.Statuses.{host_status};

    ghost from_gives = { λ bad status. status ≡ host_status bad };

    fn from(bad: HostBad) -> Self {
        match bad {
            HostBad::Failed => Status::OpenFault,
            HostBad::NoMemory => Status::Memory,
        }
    }
}

impl From<EntropyFault> for Status {
    ghost use Rattle.std.specs.Prelude.{◌≡◌};
    ghost use Rattle.run_parts.specs.declared.status.Status.TheVariants as statuses;

    ghost from_gives = { λ _ status. status ≡ statuses.EntropyFault };

    fn from(_: EntropyFault) -> Self {
        Status::EntropyFault
    }
}

impl From<Result<(), WalkBad>> for Status {
    ghost use Rattle.std.specs.Prelude.{◌≡◌};
    ghost use Rattle.run_parts.specs.Statuses.{walk_status};

    ghost from_gives = { λ end status. status ≡ walk_status end };

    fn from(end: Result<(), WalkBad>) -> Self {
        match end {
            Ok(()) => Status::Done,
            Err(WalkBad::Memory) => Status::Memory,
            Err(WalkBad::ReadFault) => Status::ReadFault,
            Err(WalkBad::WriteFault) => Status::WriteFault,
            Err(WalkBad::BadCapture(kind, at)) => Status::BadCapture(kind, at),
            Err(WalkBad::BadPcap(kind, at)) => Status::BadPcap(kind, at),
            Err(WalkBad::TooLong) => Status::TooLong,
        }
    }
}

impl Display for Status {
    ghost use Rattle.std.specs.Prelude.{Some};
    ghost use Rattle.run_parts.specs.Text.{text_of};

    ghost output = { λ status. Some (text_of status) };

    fn fmt<W: Write>(&self, f: &mut Formatter<W>) -> fmt::Result {
        match self {
            Status::Done => f.write_str("done"),
            Status::Memory => f.write_str("out of memory"),
            Status::Usage => f.write_str("usage"),
            Status::OpenFault => f.write_str("cannot open"),
            Status::ReadFault => f.write_str("read failed"),
            Status::WriteFault => f.write_str("write failed"),
            Status::BadCapture(kind, at) => write!(f, "bad capture: {kind} at {at}"),
            Status::EntropyFault => f.write_str("no randomness"),
            Status::TooLong => f.write_str("input too long"),
            Status::LinksDown => f.write_str("all links down"),
            Status::TraceFull => f.write_str("trace full"),
            Status::Torn(tear) => write!(f, "{}", TearText(tear)),
            Status::Spent => f.write_str("keys spent"),
            Status::TurnsSpent => f.write_str("turns spent"),
            Status::BadPcap(kind, at) => write!(f, "bad pcap: {kind} at {at}"),
        }
    }
}
