//! The lines of the program.
use gre_tunnel::Tunnel;
use link_channels::Profile;
use outside_net::LinkSpec;
use request_rules::NackKind;
use std::alloc::AllocError;
use std::fmt::{self, Display, Formatter, Write};

/// What the words of a command line tell the program to do.
#[derive(Debug, PartialEq, Eq, Drop)]
pub enum Line<'a> {
    /// `replay CAPTURE OUT`
    Replay(ReplayLine<'a>),
    /// `show CAPTURE`
    Show(ShowLine<'a>),
    /// `count CAPTURE`
    Count(CountLine<'a>),
    /// `report CAPTURE OUT`, a page about what a replay would play out
    Report(ReplayLine<'a>),
    /// `pack SOURCE CAPTURE`
    Pack(PackLine<'a>),
    /// `split CAPTURE OUTS`
    Split(SplitLine<'a>),
    /// `send SOURCE LINK..`
    Send(SendLine<'a>),
    /// `recv OUT LINK..`
    Recv(RecvLine<'a>),
    /// `fan OUTS LINK..`
    Fan(FanLine<'a>),
    /// `gate LINK..`
    Gate(GateLine<'a>),
    /// `drill NUMBER COUNT LINKS LOSS`
    Drill(DrillLine),
}

/// How the datagrams of a session are made and read.
#[derive(Clone, Copy, Debug, PartialEq, Eq)]
pub struct SessionWords<'a> {
    /// Simple or main.
    pub profile: Profile,
    /// The UDP port of media, an even number from 2 to 65,534; RTCP has the next one.
    pub port: u16,
    /// The pre-shared passphrase, of 1 to 128 octets. It is given in the Main Profile only.
    pub pass: Option<&'a str>,
    /// The key's bits, 128 or 256.
    pub bits: u16,
    /// RTP and RTCP are written as full datagrams. In the Main Profile only, and by commands that make datagrams.
    pub full: bool,
    /// Whose form the tunnel's datagrams have. In the Simple Profile this profile's own.
    pub tunnel: Tunnel,
    /// Whether a sender's reports ask for the round-trip time: always in librist's tunnel.
    pub echo: bool,
}

/// Write the payloads of a capture as a receiver plays them out, or a report of that.
#[derive(Clone, Copy, Debug, PartialEq, Eq)]
pub struct ReplayLine<'a> {
    /// The capture's name.
    pub capture: &'a str,
    /// The name of what is written.
    pub out: &'a str,
    /// How the capture's datagrams are read.
    pub session: SessionWords<'a>,
    /// The playout delay in milliseconds, 1 to 30,000.
    pub delay: u64,
    /// The buffer's capacity in packets, 1 to 16,384.
    pub span: u64,
    /// How long no packet must have been kept before another flow takes over, in milliseconds, 0 to 60,000; 0 is never.
    pub restart: u64,
    /// Whether deadlines follow a sender's clock that drifts.
    pub drift: bool,
    /// The UDP port of the datagrams where the capture is a pcap file: 1 to 65,535, and in the Simple Profile even.
    pub pcap: Option<u16>,
}

/// Write a capture's records as text.
#[derive(Clone, Copy, Debug, PartialEq, Eq)]
pub struct ShowLine<'a> {
    /// The capture's name.
    pub capture: &'a str,
    /// How its datagrams are read.
    pub session: SessionWords<'a>,
    /// The UDP port of the datagrams where the capture is a pcap file: 1 to 65,535, and in the Simple Profile even.
    pub pcap: Option<u16>,
}

/// Count what a receiver would make of a capture's records.
#[derive(Clone, Copy, Debug, PartialEq, Eq)]
pub struct CountLine<'a> {
    /// The capture's name.
    pub capture: &'a str,
    /// How its datagrams are read.
    pub session: SessionWords<'a>,
    /// The playout delay in milliseconds, 1 to 30,000.
    pub delay: u64,
    /// The buffer's capacity in packets, 1 to 16,384.
    pub span: u64,
    /// How long no packet must have been kept before another flow takes over, in milliseconds, 0 to 60,000; 0 is never.
    pub restart: u64,
    /// Whether deadlines follow a sender's clock that drifts.
    pub drift: bool,
    /// The UDP port of the datagrams where the capture is a pcap file: 1 to 65,535, and in the Simple Profile even.
    pub pcap: Option<u16>,
}

/// How the datagrams of a stream are made.
#[derive(Clone, Copy, Debug, PartialEq, Eq)]
pub struct StreamWords {
    /// Null packets are deleted. In the Main Profile only.
    pub nulls: bool,
    /// Sequence numbers have 32 bits. In the Main Profile only.
    pub wide: bool,
    /// The SSRC, an even number.
    pub flow: u32,
    /// The first sequence number, below 65,536 unless they are wide.
    pub first: u32,
}

/// Write a capture of the media datagrams that carry a stream.
#[derive(Clone, Copy, Debug, PartialEq, Eq)]
pub struct PackLine<'a> {
    /// The stream's name.
    pub source: &'a str,
    /// The capture's name.
    pub capture: &'a str,
    /// How its datagrams are made.
    pub session: SessionWords<'a>,
    /// What is in them.
    pub stream: StreamWords,
    /// The time between two datagrams in microseconds, 1 to 1,000,000.
    pub gap: u64,
}

/// Write each flow of a captured tunnel to an output of its own.
#[derive(Debug, PartialEq, Eq, Drop)]
pub struct SplitLine<'a> {
    /// The capture's name.
    pub capture: &'a str,
    /// The port of each output, one to eight different even numbers from 2 to 65,534.
    pub ports: Vec<u16>,
    /// The name of each output, in the order of the ports, and no two the same.
    pub names: Vec<&'a str>,
    /// How the capture's datagrams are read: in the Main Profile, with the port of the first output.
    pub session: SessionWords<'a>,
    /// The playout delay in milliseconds, 1 to 30,000.
    pub delay: u64,
    /// The buffer's capacity in packets, 1 to 16,384.
    pub span: u64,
    /// How long no packet must have been kept before another flow takes over, in milliseconds, 0 to 60,000; 0 is never.
    pub restart: u64,
    /// Whether deadlines follow a sender's clock that drifts.
    pub drift: bool,
    /// The UDP port of the datagrams where the capture is a pcap file, 1 to 65,535.
    pub pcap: Option<u16>,
}

/// What is kept and told of a run beside its own output.
#[derive(Clone, Copy, Debug, PartialEq, Eq)]
pub struct WatchingWords<'a> {
    /// The name of a capture of what comes on its links.
    pub capture: Option<&'a str>,
    /// After how many milliseconds statistics are told, 100 to 3,600,000.
    pub stats: Option<u64>,
    /// The name of a file for these.
    pub stats_file: Option<&'a str>,
}

/// Send a stream on links.
#[derive(Debug, PartialEq, Eq, Drop)]
pub struct SendLine<'a> {
    /// The stream's name.
    pub source: &'a str,
    /// Where its datagrams go, one to sixteen addresses; where it listens, those at which it is called.
    pub links: Vec<LinkSpec>,
    /// Whether it listens: a link sends to whoever called it. In the Main Profile only.
    pub listens: bool,
    /// How they are made.
    pub session: SessionWords<'a>,
    /// What is in them.
    pub stream: StreamWords,
    /// The time between two datagrams in microseconds, 1 to 1,000,000.
    pub gap: u64,
    /// The time before the first datagram of media in milliseconds, 0 to 1,000, while reports go out.
    pub lead: u64,
    /// How many packets are stored for retransmission, 1 to 65,536.
    pub store: u64,
    /// For how long no packet is sent again once it was, in milliseconds, 1 to 1,000.
    pub hold: u64,
    /// The weights by which the links share the stream, 1 to 100 each and one for each link. Without them each datagram
    /// goes on all links.
    pub share: Option<Vec<u8>>,
    /// For how long requests are answered after the source's end, in milliseconds, 0 to 60,000.
    pub linger: u64,
    /// How many turns are made at most, 1 to 2^40.
    pub turns: u64,
    /// What is told of its run. It keeps no capture.
    pub watching: WatchingWords<'a>,
}

/// What a receiver is set to.
#[derive(Clone, Copy, Debug, PartialEq, Eq)]
pub struct ReceiverWords {
    /// The playout delay in milliseconds, 1 to 30,000.
    pub delay: u64,
    /// The buffer's capacity in packets, 1 to 16,384.
    pub span: u64,
    /// How long no packet must have been kept before another flow takes over, in milliseconds, 0 to 60,000; 0 is never.
    pub restart: u64,
    /// Whether deadlines follow a sender's clock that drifts.
    pub drift: bool,
    /// How long a packet may be missing before it is asked for, in milliseconds, 0 to 1,000.
    pub reorder: u64,
    /// The least time between two requests for one packet, in milliseconds, 5 to 1,000.
    pub least: u64,
    /// How often one packet is asked for at most, 0 to 32.
    pub tries: u64,
    /// How requests are written.
    pub nack: NackKind,
    /// The receiver's own SSRC.
    pub own: u32,
}

/// When a run of receiving ends, and how much of it is kept.
#[derive(Clone, Copy, Debug, PartialEq, Eq)]
pub struct ServingWords {
    /// How many turns each link's worker makes at most, 1 to 2^40.
    pub turns: u64,
    /// For how long nothing may come on a link until its worker ends, in milliseconds, 0 to 86,400,000; 0 where that
    /// doesn't matter.
    pub idle: u64,
    /// How many steps are kept, 0 to 65,536; with 0 none is.
    pub keep: u64,
}

/// Receive a stream on links.
#[derive(Debug, PartialEq, Eq, Drop)]
pub struct RecvLine<'a> {
    /// The name of what is written.
    pub out: &'a str,
    /// The addresses at which its datagrams come in, one to sixteen; where it calls, those of the senders.
    pub links: Vec<LinkSpec>,
    /// Whether it calls: each link sends to its address from the first. In the Main Profile only.
    pub calls: bool,
    /// How they are read, and how the answers are made.
    pub session: SessionWords<'a>,
    /// What its receiver is set to.
    pub receiver: ReceiverWords,
    /// When it ends.
    pub serving: ServingWords,
    /// What is kept and told of its run.
    pub watching: WatchingWords<'a>,
}

/// Receive several flows that come in one tunnel, each into an output of its own.
#[derive(Debug, PartialEq, Eq, Drop)]
pub struct FanLine<'a> {
    /// The port of each output, one to eight different even numbers from 2 to 65,534.
    pub ports: Vec<u16>,
    /// The name of each output, in the order of the ports, and no two the same.
    pub names: Vec<&'a str>,
    /// The addresses at which the tunnel's datagrams come in, one to sixteen; where it calls, those of the senders.
    pub links: Vec<LinkSpec>,
    /// Whether it calls: each link sends to its address from the first.
    pub calls: bool,
    /// How they are read, and how the answers are made: in the Main Profile, with the port of the first output.
    pub session: SessionWords<'a>,
    /// What each receiver is set to.
    pub receiver: ReceiverWords,
    /// When the run ends. It keeps no steps.
    pub serving: ServingWords,
    /// What is kept and told of its run.
    pub watching: WatchingWords<'a>,
}

/// Receive a stream on some links, and send it on others.
#[derive(Debug, PartialEq, Eq, Drop)]
pub struct GateLine<'a> {
    /// The addresses at which its datagrams come in, one or more.
    pub inputs: Vec<LinkSpec>,
    /// Where what is received is sent, one or more addresses, and with the inputs at most sixteen.
    pub outputs: Vec<LinkSpec>,
    /// How the datagrams of the inputs are read, and how the answers are made.
    pub incoming: SessionWords<'a>,
    /// How those of the outputs are made and read.
    pub session: SessionWords<'a>,
    /// What its receiver is set to.
    pub receiver: ReceiverWords,
    /// When it ends.
    pub serving: ServingWords,
    /// What is in the datagrams that it sends.
    pub stream: StreamWords,
    /// How many packets are stored for retransmission, 1 to 65,536.
    pub store: u64,
    /// For how long no packet is sent again once it was, in milliseconds, 1 to 1,000.
    pub hold: u64,
    /// The weights by which the outputs share the stream, 1 to 100 each and one for each output. Without them each
    /// datagram goes on all of them.
    pub share: Option<Vec<u8>>,
    /// What is kept and told of its run.
    pub watching: WatchingWords<'a>,
}

/// Simulate a sender and a receiver with a network between them, and write a summary.
#[derive(Clone, Copy, Debug, PartialEq, Eq)]
pub struct DrillLine {
    /// The number from which the words of the network are drawn.
    pub number: u64,
    /// How many payloads are sent, 0 to 5,000.
    pub count: u32,
    /// On how many links, 1 to 4.
    pub links: u8,
    /// In how many of a thousand cases a datagram is lost, 0 to 1,000.
    pub loss: u16,
}

/// Why there is no line.
#[derive(Clone, Copy, Debug, PartialEq, Eq)]
pub enum Refused {
    /// Memory was refused.
    Memory,
    /// The words are no line of the program.
    Usage,
}

impl From<AllocError> for Refused {
    ghost use Rattle.std.specs.Prelude.{◌≡◌};
    ghost use Rattle.rist_words.specs.declared.lines.Refused.TheVariants.{Memory};

    ghost from_gives = { λ _ e. e ≡ Memory };

    fn from(_: AllocError) -> Self {
        Refused::Memory
    }
}

impl Display for Refused {
    ghost use Rattle.std.specs.Prelude.{Some};
    ghost use Rattle.rist_words.specs.Text.{refusal_text};

    ghost output = { λ refused. Some (refusal_text refused) };

    fn fmt<W: Write>(&self, f: &mut Formatter<W>) -> fmt::Result {
        f.write_str(match self {
            Refused::Memory => "out of memory",
            Refused::Usage => "usage",
        })
    }
}
