//! The texts of the help and of the version, in pieces: each option has one, which each command that takes it shows.
ghost use Rattle.std.specs.Prelude.{◌≡◌, map};
ghost use Rattle.rist_help.specs.Help.{pieces_of};

use crate::asking::{Ask, Topic};

const VERSION: &str = "rist 0.9.0\n";

/// What the program takes, as `--help` says it.
const USAGE: &str = "\
usage: rist COMMAND [OPTION..] ARGUMENT..
       rist COMMAND --help | --help | --version

Receives, sends and examines RIST streams (VSF TR-06-1, and a tunnel after VSF TR-06-2).

  rist replay CAPTURE OUT     write the payloads of a capture as a receiver plays them out
  rist show CAPTURE           write the records of a capture to -, each as a line of JSON
  rist count CAPTURE          count what a receiver would make of the records of a capture
  rist report CAPTURE OUT     write a page of what a receiver would make of a capture, over time
  rist pack SOURCE CAPTURE    write a capture of the media datagrams that carry a stream
  rist split CAPTURE OUTS     write each flow of a captured tunnel to an output of its own
  rist send SOURCE LINK..     send a stream on links
  rist recv OUT LINK..        write a stream as it is received on links
  rist fan OUTS LINK..        write each flow of a tunnel, as it is received on links, to an output of its own
  rist gate LINK..            receive on the first links, and send on over the others
  rist drill NUMBER COUNT LINKS LOSS
                              simulate a sender, a network and a receiver, and sum up

rist COMMAND --help lists the options of a command, with their ranges and defaults.

The name - is the standard input or output. A number is 1 to 20 decimal digits. An option is
given at most once, as --name VALUE or --name=VALUE, before, between or after the arguments; a
VALUE that begins with - needs the second form. After -- each word is an argument.

Where the work was done the exit status is 0. Else a line on the error output says why, and the
status is 1: out of memory, 2: usage, 3: cannot open, 4: read failed, 5: write failed, 6: all
links down, 7: bad capture, 8: trace full, 9: torn, 10: keys spent, 11: no randomness, 12: input
too long, 13: turns spent, 14: bad pcap.
";

const REPLAY: &str = "\
usage: rist replay CAPTURE OUT [OPTION..]

Writes the payloads of CAPTURE to OUT, as a receiver plays them out.

";

const SHOW: &str = "\
usage: rist show CAPTURE [OPTION..]

Writes the records of CAPTURE to the standard output, each as a line of JSON.

";

const COUNT: &str = "\
usage: rist count CAPTURE [OPTION..]

Counts what a receiver would make of the records of CAPTURE: the media packets by verdict, and what
is refused. Each count is a line on the standard output.

";

const REPORT: &str = "\
usage: rist report CAPTURE OUT [OPTION..]

Writes a page to OUT that says what a receiver would make of the records of CAPTURE, in all and over time:
sent, received the first time, recovered, missing, and by link. It is HTML that stands alone.

";

const PACK: &str = "\
usage: rist pack SOURCE CAPTURE [OPTION..]

Writes a capture of the media datagrams that carry SOURCE.

";

const SPLIT: &str = "\
usage: rist split CAPTURE OUTS [OPTION..]

Writes the payloads of each flow of CAPTURE, a capture of a tunnel that carries several, to an output of
its own, as a receiver plays them out. The datagrams are of the Main Profile, and the flows differ in
their ports. OUTS is V=NAME,V=NAME.. with one to eight outputs: V is the even port, 2 to 65534, that the
datagrams of the flow name, and each is given once; a NAME has no comma, and no two are the same.

";

const SEND: &str = "\
usage: rist send SOURCE LINK.. [OPTION..]

Sends SOURCE on one to sixteen links. SOURCE is a file, or what comes as UDP or RTP to an address and a
port of this machine, udp://HOST:port or rtp://HOST:port. A HOST is a.b.c.d, or another address in
brackets, as [::a]. A LINK is HOST:port, or rist://HOST:port where HOST may be a name, too; the port is
1 to 65535, in the Simple Profile even: control goes to the next. Behind the port ?from=ADDRESS makes a
link leave from this address of the machine, and ?ttl=N lets it pass so many networks.

";

const RECV: &str = "\
usage: rist recv OUT LINK.. [OPTION..]

Writes a stream to OUT as it is received on one to sixteen links. OUT is a file, or goes as UDP or RTP
to an address and a port, udp://HOST:port or rtp://HOST:port. A HOST is a.b.c.d, or another address in
brackets, as [::a]. A LINK is an address and a port to be bound, HOST:port, or rist://HOST:port where HOST
may be a name, too; the port is 1 to 65535, in the Simple Profile even: control comes to the next.

";

const FAN: &str = "\
usage: rist fan OUTS LINK.. [OPTION..]

Writes each of several flows that come in one tunnel to an output of its own, as they are received on one
to sixteen links. The datagrams are of the Main Profile, and the flows differ in their ports. OUTS is
V=NAME,V=NAME.. with one to eight outputs: V is the even port, 2 to 65534, that the datagrams of the flow
name, and each is given once; a NAME has no comma, and no two are the same. It may be udp://HOST:port or
rtp://HOST:port. A HOST is a.b.c.d, or another address in brackets, as [::a]. A LINK is an address and a
port to be bound, HOST:port, or rist://HOST:port where HOST may be a name, too; the port is 1 to 65535.

";

const GATE: &str = "\
usage: rist gate LINK.. [OPTION..]

Receives on the first links, and sends on over the others, each payload as it is played out. There are
two to sixteen. A LINK is HOST:port, where HOST is a.b.c.d, or another address in brackets, as [::a]; or
rist://HOST:port where HOST may be a name, too. The port is 1 to 65535, in the Simple Profile even: control
is on the next. Behind the port of a link that sends ?from=ADDRESS makes it leave from this address of the
machine, and ?ttl=N lets it pass so many networks. Without --in-profile all links have one profile and one
passphrase; with it those that receive have what the options --in-.. say.

";

const DRILL: &str = "\
usage: rist drill NUMBER COUNT LINKS LOSS

Simulates a sender, a network and a receiver, and writes a summary to the standard output. It takes no
options.

  NUMBER
      losses and delays are drawn from it, 0 to 18446744073709551615
  COUNT
      payloads that are sent, 0 to 5000
  LINKS
      links of the network, 1 to 4
  LOSS
      of 1000 datagrams so many are lost, 0 to 1000
";

const PROFILE_ROW: &str = "  --profile PROFILE
      simple or main (default simple)
";

const PORT_ROW: &str = "  --port PORT
      UDP port of media, even, 2 to 65534 (default 1968); in the tunnel the one that its datagrams name
";

const PASS_ROW: &str = "  --pass PASSPHRASE
      encrypt by a passphrase of 1 to 128 octets (main profile)
  --pass-file NAME
      the passphrase is the first line of this file; without both options it is the variable RIST_PASS
";

const BITS_ROW: &str = "  --bits BITS
      length of the key, 128 or 256 (default 128)
";

const TUNNEL_ROW: &str = "  --tunnel FORM
      form of the tunnel's datagrams, own or librist, which has --echo too (main profile; default own)
";

const ECHO_ROW: &str = "  --echo
      reports ask for the round-trip time
";

const LEAD_ROW: &str = "  --lead MS
      time before the first datagram of media, while reports go out, 0 to 1000 (default 0)
";

const DELAY_ROW: &str = "  --delay MS
      playout delay, 1 to 30000 (default 1000)
";

const SPAN_ROW: &str = "  --span PACKETS
      capacity of the buffer, 1 to 16384 (default 2048)
";

const RESTART_ROW: &str = "  --restart MS
      another flow takes over once nothing waits and no packet was kept for so long, 0 to 60000, where 0 is never (default 0)
";

const DRIFT_ROW: &str = "  --drift
      deadlines follow a sender's clock that drifts
";

const PCAP_ROW: &str = "  --pcap
      CAPTURE is a pcap file, of which the datagrams to the port of --udp count
";

const UDP_ROW: &str = "  --udp PORT
      with --pcap alone, and then always: 1 to 65535, in the Simple Profile even, and RTCP at the next
";

const FLOW_ROW: &str = "  --flow SSRC
      SSRC of the stream, even, 0 to 4294967295 (default 270544960)
";

const FIRST_ROW: &str = "  --first NUMBER
      first sequence number, 0 to 65535, and with --wide 0 to 4294967295 (default 0)
";

const GAP_ROW: &str = "  --gap US
      time between two datagrams, 1 to 1000000 (default 1000)
";

const NULLS_ROW: &str = "  --nulls
      delete null packets (main profile)
";

const WIDE_ROW: &str = "  --wide
      sequence numbers of 32 bits (main profile)
";

const FULL_ROW: &str = "  --full
      write full datagrams, with IPv4 and UDP in the tunnel (main profile)
";

const LISTEN_ROW: &str = "  --listen
      be called: a link is bound to its LINK, and sends to whoever called it (main profile)
";

const CALL_ROW: &str = "  --call
      call: each link sends to its LINK from the first, where a sender listens (main profile)
";

const STORE_ROW: &str = "  --store PACKETS
      packets kept for retransmission, 1 to 65536 (default 4096)
";

const HOLD_ROW: &str = "  --hold MS
      no packet is sent again within this time, 1 to 1000 (default 20)
";

const SHARE_ROW: &str = "  --share W:W..
      weights by which the links that send share the stream, 1 to 100 each and one for each (default: each datagram goes on all)
";

const LINGER_ROW: &str = "  --linger MS
      how long requests are answered after the end, 0 to 60000 (default 1000)
";

const TURNS_ROW: &str = "  --turns TURNS
      looks at the clock and at the links at most, 1 to 1099511627776 (default 1099511627776); receiving, of each link
";

const REORDER_ROW: &str = "  --reorder MS
      a packet is asked for once it is missing so long, 0 to 1000 (default 25)
";

const LEAST_ROW: &str = "  --least MS
      least time between two requests for a packet, 5 to 1000 (default 50)
";

const TRIES_ROW: &str = "  --tries TIMES
      how often a packet is asked for at most, 0 to 32 (default 8)
";

const NACK_ROW: &str = "  --nack KIND
      how requests are written, range or mask (default range)
";

const OWN_ROW: &str = "  --own SSRC
      the receiver's own SSRC, 0 to 4294967295 (default 7)
";

const IDLE_ROW: &str = "  --idle MS
      end where nothing came for so long, 0 to 86400000, where 0 is never (default 0)
";

const KEEP_ROW: &str = "  --keep STEPS
      steps kept to be compared at the end, 0 to 65536, where 0 is none (default 0)
";

const RECORD_ROW: &str = "  --record NAME
      what comes on the links, as a capture
";

const STATS_ROW: &str = "  --stats MS
      a line of JSON on standard error each MS milliseconds, 100 to 3600000, and where a link comes up or goes down
  --stats-file NAME
      these lines to a file
";

const IN_ROW: &str = "  --in LINKS
      how many of the links receive, at least one and not all (default 1)
";

const IN_PROFILE_ROW: &str = "  --in-profile PROFILE
      profile of the links that receive, simple or main (default: that of the others, with all that goes with it)
";

const IN_PORT_ROW: &str = "  --in-port PORT
      as --port, of the links that receive, even, 2 to 65534 (default 1968); with --in-profile alone
";

const IN_PASS_ROW: &str = "  --in-pass PASSPHRASE
      as --pass, of the links that receive (--in-profile main)
  --in-pass-file NAME
      as --pass-file, of the links that receive; no variable stands for it
";

const IN_BITS_ROW: &str = "  --in-bits BITS
      as --bits, of the links that receive, 128 or 256 (default 128); with --in-profile alone
";

const IN_FULL_ROW: &str = "  --in-full
      as --full, of the links that receive (--in-profile main)
";

const IN_TUNNEL_ROW: &str = "  --in-tunnel FORM
      as --tunnel, of the links that receive, own or librist (--in-profile main; default own)
";

static VERSION_PIECES: [&str; 1] = [VERSION];

static PROGRAM_PIECES: [&str; 1] = [USAGE];

static REPLAY_PIECES: [&str; 12] = [
    REPLAY,
    DELAY_ROW,
    SPAN_ROW,
    RESTART_ROW,
    DRIFT_ROW,
    PCAP_ROW,
    UDP_ROW,
    PROFILE_ROW,
    PORT_ROW,
    PASS_ROW,
    BITS_ROW,
    TUNNEL_ROW,
];

static SHOW_PIECES: [&str; 8] = [
    SHOW,
    PCAP_ROW,
    UDP_ROW,
    PROFILE_ROW,
    PORT_ROW,
    PASS_ROW,
    BITS_ROW,
    TUNNEL_ROW,
];

static COUNT_PIECES: [&str; 12] = [
    COUNT,
    DELAY_ROW,
    SPAN_ROW,
    RESTART_ROW,
    DRIFT_ROW,
    PCAP_ROW,
    UDP_ROW,
    PROFILE_ROW,
    PORT_ROW,
    PASS_ROW,
    BITS_ROW,
    TUNNEL_ROW,
];

static REPORT_PIECES: [&str; 12] = [
    REPORT,
    DELAY_ROW,
    SPAN_ROW,
    RESTART_ROW,
    DRIFT_ROW,
    PCAP_ROW,
    UDP_ROW,
    PROFILE_ROW,
    PORT_ROW,
    PASS_ROW,
    BITS_ROW,
    TUNNEL_ROW,
];

static PACK_PIECES: [&str; 12] = [
    PACK,
    FLOW_ROW,
    FIRST_ROW,
    GAP_ROW,
    NULLS_ROW,
    WIDE_ROW,
    FULL_ROW,
    PROFILE_ROW,
    PORT_ROW,
    PASS_ROW,
    BITS_ROW,
    TUNNEL_ROW,
];

static SPLIT_PIECES: [&str; 10] = [
    SPLIT,
    DELAY_ROW,
    SPAN_ROW,
    RESTART_ROW,
    DRIFT_ROW,
    PCAP_ROW,
    UDP_ROW,
    PASS_ROW,
    BITS_ROW,
    TUNNEL_ROW,
];

static SEND_PIECES: [&str; 21] = [
    SEND,
    FLOW_ROW,
    FIRST_ROW,
    GAP_ROW,
    LEAD_ROW,
    NULLS_ROW,
    WIDE_ROW,
    FULL_ROW,
    ECHO_ROW,
    LISTEN_ROW,
    STORE_ROW,
    HOLD_ROW,
    SHARE_ROW,
    LINGER_ROW,
    TURNS_ROW,
    STATS_ROW,
    PROFILE_ROW,
    PORT_ROW,
    PASS_ROW,
    BITS_ROW,
    TUNNEL_ROW,
];

static RECV_PIECES: [&str; 22] = [
    RECV,
    DELAY_ROW,
    SPAN_ROW,
    RESTART_ROW,
    DRIFT_ROW,
    REORDER_ROW,
    LEAST_ROW,
    TRIES_ROW,
    NACK_ROW,
    OWN_ROW,
    TURNS_ROW,
    IDLE_ROW,
    KEEP_ROW,
    RECORD_ROW,
    STATS_ROW,
    FULL_ROW,
    CALL_ROW,
    PROFILE_ROW,
    PORT_ROW,
    PASS_ROW,
    BITS_ROW,
    TUNNEL_ROW,
];

static FAN_PIECES: [&str; 19] = [
    FAN,
    DELAY_ROW,
    SPAN_ROW,
    RESTART_ROW,
    DRIFT_ROW,
    REORDER_ROW,
    LEAST_ROW,
    TRIES_ROW,
    NACK_ROW,
    OWN_ROW,
    TURNS_ROW,
    IDLE_ROW,
    RECORD_ROW,
    STATS_ROW,
    FULL_ROW,
    CALL_ROW,
    PASS_ROW,
    BITS_ROW,
    TUNNEL_ROW,
];

static GATE_PIECES: [&str; 36] = [
    GATE,
    IN_ROW,
    IN_PROFILE_ROW,
    IN_PORT_ROW,
    IN_PASS_ROW,
    IN_BITS_ROW,
    IN_TUNNEL_ROW,
    IN_FULL_ROW,
    DELAY_ROW,
    SPAN_ROW,
    RESTART_ROW,
    DRIFT_ROW,
    REORDER_ROW,
    LEAST_ROW,
    TRIES_ROW,
    NACK_ROW,
    OWN_ROW,
    TURNS_ROW,
    IDLE_ROW,
    KEEP_ROW,
    RECORD_ROW,
    STATS_ROW,
    FLOW_ROW,
    FIRST_ROW,
    NULLS_ROW,
    WIDE_ROW,
    FULL_ROW,
    ECHO_ROW,
    STORE_ROW,
    HOLD_ROW,
    SHARE_ROW,
    PROFILE_ROW,
    PORT_ROW,
    PASS_ROW,
    BITS_ROW,
    TUNNEL_ROW,
];

static DRILL_PIECES: [&str; 1] = [DRILL];

/// The text that is asked for, in pieces: each goes behind the one before it.
pub fn pieces(ask: Ask) -> &'static [&'static str]
    ensures { map (λ piece. piece.now) result.now ≡ pieces_of ask }
{
    match ask {
        Ask::Help => &PROGRAM_PIECES,
        Ask::HelpOf(topic) => pieces_of_topic(topic),
        Ask::Version => &VERSION_PIECES,
    }
}

fn pieces_of_topic(topic: Topic) -> &'static [&'static str]
    ensures { map (λ piece. piece.now) result.now ≡ pieces_of (Ask.HelpOf topic) }
{
    match topic {
        Topic::Replay => &REPLAY_PIECES,
        Topic::Show => &SHOW_PIECES,
        Topic::Count => &COUNT_PIECES,
        Topic::Report => &REPORT_PIECES,
        Topic::Pack => &PACK_PIECES,
        Topic::Split => &SPLIT_PIECES,
        Topic::Send => &SEND_PIECES,
        Topic::Recv => &RECV_PIECES,
        Topic::Fan => &FAN_PIECES,
        Topic::Gate => &GATE_PIECES,
        Topic::Drill => &DRILL_PIECES,
    }
}
