//! The program's commands, as `clap` parses them.
ghost use Rattle.std.specs.Prelude.{◌≡◌, IfOk, false, map};
ghost use Rattle.clap.specs.Words.{app_of, rule_of, with_rule, with_subcommand};
ghost use Rattle.clap.specs.declared.Command.TheViews.{out-Command as fields_of};
ghost use Rattle.rist_words.specs.Commands.{rule_for, with_rules, session_app, with_arguments, replay_app, show_app, count_app, report_app, pack_app, tunnel_app, split_app};
ghost use Rattle.rist_words.specs.Commands.{send_app, recv_app, fan_app, gate_app, drill_app, files_app, rist_app};

use clap::{Arg, ArgAction, Command};
use std::alloc::{AllocError, Global};

/// The options of each command that speaks of a session.
static SESSION: [&str; 5] = ["profile", "port", "pass", "bits", "tunnel"];

static REPLAY: [&str; 2] = ["capture", "out"];

/// The options of a replay, of a counting, of a report, and of a split.
static REPLAY_OPTIONS: [&str; 4] = ["delay", "span", "restart", "udp"];

/// The position of a showing, and of a counting.
static CAPTURE: [&str; 1] = ["capture"];

static SHOW_OPTIONS: [&str; 1] = ["udp"];

/// The flags of a replay, of a counting, of a report, and of a split.
static REPLAY_FLAGS: [&str; 2] = ["pcap", "drift"];

/// The flag of a showing.
static SHOW_FLAGS: [&str; 1] = ["pcap"];

static PACK: [&str; 2] = ["source", "capture"];

static PACK_OPTIONS: [&str; 3] = ["flow", "first", "gap"];

/// The options of a command for a tunnel by which its session is given.
static TUNNEL: [&str; 3] = ["pass", "bits", "tunnel"];

static SPLIT: [&str; 2] = ["capture", "outs"];

static SEND: [&str; 1] = ["source"];

/// The last position of each command over links.
static LINKS: [&str; 1] = ["link"];

static SEND_OPTIONS: [&str; 11] = [
    "flow",
    "first",
    "gap",
    "lead",
    "store",
    "hold",
    "share",
    "linger",
    "turns",
    "stats",
    "stats-file",
];

/// The flags of a sending.
static SEND_FLAGS: [&str; 5] = ["nulls", "wide", "full", "echo", "listen"];

/// The flags of a packing.
static PACK_FLAGS: [&str; 3] = ["nulls", "wide", "full"];

static RECV: [&str; 1] = ["out"];

static FAN: [&str; 1] = ["outs"];

/// The flags of a receiving of one flow or several, which makes datagrams of control.
static RECV_FLAGS: [&str; 3] = ["full", "drift", "call"];

/// The options of each command that receives one flow.
static RECEIVER_OPTIONS: [&str; 14] = [
    "keep",
    "delay",
    "span",
    "restart",
    "reorder",
    "least",
    "tries",
    "nack",
    "own",
    "turns",
    "idle",
    "record",
    "stats",
    "stats-file",
];

/// Those of one that receives several, which keeps no steps.
static FAN_OPTIONS: [&str; 13] = [
    "delay",
    "span",
    "restart",
    "reorder",
    "least",
    "tries",
    "nack",
    "own",
    "turns",
    "idle",
    "record",
    "stats",
    "stats-file",
];

/// The flags of a gateway, the last that of the links that it receives on.
static GATE_FLAGS: [&str; 6] = ["nulls", "wide", "full", "drift", "echo", "in-full"];

/// The options of a gateway, the last those of the session of the links that it receives on.
static GATE_OPTIONS: [&str; 11] = [
    "flow",
    "first",
    "store",
    "hold",
    "share",
    "in",
    "in-profile",
    "in-port",
    "in-pass",
    "in-bits",
    "in-tunnel",
];

static DRILL: [&str; 4] = ["number", "count", "links", "loss"];

/// How an argument is given.
#[derive(Clone, Copy)]
pub enum Kind {
    /// By its place. It has to be given.
    Position,
    /// By its place, once or more.
    Positions,
    /// As `--name value` or `--name=value`.
    Valued,
    /// As `--name`.
    Flag,
}

/// The program with its commands.
pub fn program<'a>(alloc: Global) -> Result<Command<'a>, AllocError>
    ensures app { IfOk result (λ r. app_of r ≡ rist_app) }
{
    let program = over_files(alloc)?;
    let program = below(program, send(alloc)?)?;
    let program = below(program, recv(alloc)?)?;
    let program = below(program, fan(alloc)?)?;
    let program = below(program, gate(alloc)?)?;
    Ok(below(program, drill(alloc)?)?)
}

/// The program with its commands over files.
fn over_files<'a>(alloc: Global) -> Result<Command<'a>, AllocError>
    ensures app { IfOk result (λ r. app_of r ≡ files_app) }
{
    let program = Command::new(alloc, "rist");
    let program = below(program, replay(alloc)?)?;
    let program = below(program, show(alloc)?)?;
    let program = below(program, count(alloc)?)?;
    let program = below(program, report(alloc)?)?;
    let program = below(program, pack(alloc)?)?;
    Ok(below(program, split(alloc)?)?)
}

/// The command of a replay.
fn replay<'a>(alloc: Global) -> Result<Command<'a>, AllocError>
    ensures app { IfOk result (λ r. app_of r ≡ replay_app) }
    ensures local { IfOk result (λ r. (fields_of r).has_globals ≡ false) }
{
    let replay = session(alloc, "replay")?;
    with_arguments(alloc, replay, &REPLAY_OPTIONS, &REPLAY_FLAGS, &REPLAY)
}

/// The command of a showing.
fn show<'a>(alloc: Global) -> Result<Command<'a>, AllocError>
    ensures app { IfOk result (λ r. app_of r ≡ show_app) }
    ensures local { IfOk result (λ r. (fields_of r).has_globals ≡ false) }
{
    let show = session(alloc, "show")?;
    with_arguments(alloc, show, &SHOW_OPTIONS, &SHOW_FLAGS, &CAPTURE)
}

/// The command of a counting.
fn count<'a>(alloc: Global) -> Result<Command<'a>, AllocError>
    ensures app { IfOk result (λ r. app_of r ≡ count_app) }
    ensures local { IfOk result (λ r. (fields_of r).has_globals ≡ false) }
{
    let count = session(alloc, "count")?;
    with_arguments(alloc, count, &REPLAY_OPTIONS, &REPLAY_FLAGS, &CAPTURE)
}

/// The command of a report.
fn report<'a>(alloc: Global) -> Result<Command<'a>, AllocError>
    ensures app { IfOk result (λ r. app_of r ≡ report_app) }
    ensures local { IfOk result (λ r. (fields_of r).has_globals ≡ false) }
{
    let report = session(alloc, "report")?;
    with_arguments(alloc, report, &REPLAY_OPTIONS, &REPLAY_FLAGS, &REPLAY)
}

/// The command of a packing.
fn pack<'a>(alloc: Global) -> Result<Command<'a>, AllocError>
    ensures app { IfOk result (λ r. app_of r ≡ pack_app) }
    ensures local { IfOk result (λ r. (fields_of r).has_globals ≡ false) }
{
    let pack = session(alloc, "pack")?;
    with_arguments(alloc, pack, &PACK_OPTIONS, &PACK_FLAGS, &PACK)
}

/// The command of a split.
fn split<'a>(alloc: Global) -> Result<Command<'a>, AllocError>
    ensures app { IfOk result (λ r. app_of r ≡ split_app) }
    ensures local { IfOk result (λ r. (fields_of r).has_globals ≡ false) }
{
    let split = tunnel(alloc, "split")?;
    with_arguments(alloc, split, &REPLAY_OPTIONS, &REPLAY_FLAGS, &SPLIT)
}

/// The command of a sending, over one link or more.
fn send<'a>(alloc: Global) -> Result<Command<'a>, AllocError>
    ensures app { IfOk result (λ r. app_of r ≡ send_app) }
    ensures local { IfOk result (λ r. (fields_of r).has_globals ≡ false) }
{
    let send = session(alloc, "send")?;
    let send = with_arguments(alloc, send, &SEND_OPTIONS, &SEND_FLAGS, &SEND)?;
    with_all(alloc, send, Kind::Positions, &LINKS)
}

/// The command of a receiving, over one link or more.
fn recv<'a>(alloc: Global) -> Result<Command<'a>, AllocError>
    ensures app { IfOk result (λ r. app_of r ≡ recv_app) }
    ensures local { IfOk result (λ r. (fields_of r).has_globals ≡ false) }
{
    let recv = session(alloc, "recv")?;
    let recv = with_arguments(alloc, recv, &RECEIVER_OPTIONS, &RECV_FLAGS, &RECV)?;
    with_all(alloc, recv, Kind::Positions, &LINKS)
}

/// The command of a receiving of several flows, over one link or more.
fn fan<'a>(alloc: Global) -> Result<Command<'a>, AllocError>
    ensures app { IfOk result (λ r. app_of r ≡ fan_app) }
    ensures local { IfOk result (λ r. (fields_of r).has_globals ≡ false) }
{
    let fan = tunnel(alloc, "fan")?;
    let fan = with_arguments(alloc, fan, &FAN_OPTIONS, &RECV_FLAGS, &FAN)?;
    with_all(alloc, fan, Kind::Positions, &LINKS)
}

/// The command of a gateway: a receiver's options, its own, and its links.
fn gate<'a>(alloc: Global) -> Result<Command<'a>, AllocError>
    ensures app { IfOk result (λ r. app_of r ≡ gate_app) }
    ensures local { IfOk result (λ r. (fields_of r).has_globals ≡ false) }
{
    let gate = session(alloc, "gate")?;
    let gate = with_all(alloc, gate, Kind::Valued, &RECEIVER_OPTIONS)?;
    let gate = with_arguments(alloc, gate, &GATE_OPTIONS, &GATE_FLAGS, &[])?;
    with_all(alloc, gate, Kind::Positions, &LINKS)
}

/// The command of a simulated run, of positions alone.
fn drill<'a>(alloc: Global) -> Result<Command<'a>, AllocError>
    ensures app { IfOk result (λ r. app_of r ≡ drill_app) }
    ensures local { IfOk result (λ r. (fields_of r).has_globals ≡ false) }
{
    with_all(alloc, Command::new(alloc, "drill"), Kind::Position, &DRILL)
}

/// A command that speaks of a session.
fn session<'a>(alloc: Global, name: &'a str) -> Result<Command<'a>, AllocError>
    ensures app { IfOk result (λ r. app_of r ≡ session_app name.entry.now) }
    ensures local { IfOk result (λ r. (fields_of r).has_globals ≡ false) }
{
    with_all(alloc, Command::new(alloc, name), Kind::Valued, &SESSION)
}

/// A command that is always in the Main Profile, and has the ports of its outputs.
fn tunnel<'a>(alloc: Global, name: &'a str) -> Result<Command<'a>, AllocError>
    ensures app { IfOk result (λ r. app_of r ≡ tunnel_app name.entry.now) }
    ensures local { IfOk result (λ r. (fields_of r).has_globals ≡ false) }
{
    with_all(alloc, Command::new(alloc, name), Kind::Valued, &TUNNEL)
}

/// The command with these options, flags and positions.
fn with_arguments<'a>(
    alloc: Global,
    command: Command<'a>,
    options: &[&'a str],
    flags: &[&'a str],
    positions: &[&'a str],
) -> Result<Command<'a>, AllocError>
    ensures app { IfOk result (λ r. app_of r ≡ with_arguments (app_of command.entry)
        (map (λ s. s.now) options.now) (map (λ s. s.now) flags.now) (map (λ s. s.now) positions.now)) }
    ensures local { IfOk result (λ r. (fields_of command.entry).has_globals ≡ false
        → (fields_of r).has_globals ≡ false) }
{
    let command = with_all(alloc, command, Kind::Valued, options)?;
    let command = with_all(alloc, command, Kind::Flag, flags)?;
    Ok(with_all(alloc, command, Kind::Position, positions)?)
}

/// The program with one more command.
fn below<'a>(program: Command<'a>, command: Command<'a>) -> Result<Command<'a>, AllocError>
    requires local { (fields_of command).has_globals ≡ false }
    ensures app { IfOk result (λ r. app_of r ≡ with_subcommand (app_of program.entry) (app_of command.entry).top) }
{
    program.subcommand(command)
}

/// The command with arguments of these names.
fn with_all<'a>(
    alloc: Global,
    mut command: Command<'a>,
    kind: Kind,
    names: &[&'a str],
) -> Result<Command<'a>, AllocError>
    ensures app { IfOk result (λ r. app_of r ≡ with_rules kind (app_of command.entry) (map (λ s. s.now) names.now)) }
    ensures local { IfOk result (λ r. (fields_of command.entry).has_globals ≡ false
        → (fields_of r).has_globals ≡ false) }
{
    for name in names {
        command = with(command, argument(alloc, kind, name))?;
    }
    Ok(command)
}

fn with<'a>(command: Command<'a>, arg: Arg<'a>) -> Result<Command<'a>, AllocError>
    requires local { arg.global ≡ false }
    ensures app { IfOk result (λ r. app_of r ≡ with_rule (app_of command.entry) (rule_of arg.entry)) }
    ensures local { IfOk result (λ r. (fields_of command.entry).has_globals ≡ false
        → (fields_of r).has_globals ≡ false) }
{
    command.arg(arg)
}

fn argument<'a>(alloc: Global, kind: Kind, name: &'a str) -> Arg<'a>
    ensures rule { rule_of result ≡ rule_for kind name.entry.now }
    ensures local { result.global ≡ false }
{
    let argument = Arg::new(alloc, name).action(ArgAction::Set);
    match kind {
        Kind::Position => argument.required(true),
        Kind::Positions => argument.required(true).action(ArgAction::Append),
        Kind::Valued => argument.long(name),
        Kind::Flag => argument.long(name).action(ArgAction::SetTrue),
    }
}
