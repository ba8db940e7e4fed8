//! The line that the words are.
ghost use Rattle.std.specs.Prelude.{◌≡◌, Err, Some, None, IfOk, map, option_map, string_bytes};
ghost use Rattle.clap.specs.Words.{found_of, rows_of};
ghost use Rattle.rist_words.specs.CommandLine.{line_of, command_line, replay_of, show_of, count_of, pack_of, split_of, send_of, recv_of, fan_of, gate_of, drill_of};
ghost use Rattle.rist_words.specs.Shown.{shown, shown_replay, shown_show, shown_count, shown_pack, shown_split, shown_send, shown_recv, shown_fan, shown_gate, shown_drill};

use crate::drilling::drill_line;
use crate::lines::{
    CountLine, FanLine, GateLine, Line, PackLine, RecvLine, Refused, ReplayLine, SendLine,
    ShowLine, SplitLine,
};
use crate::links::{gate_links, links, receiving_role, sending_role, share};
use crate::matching::matched;
use crate::outs::outs;
use crate::pcap::pcap;
use crate::receiving::{DELAY, RESTART, SPAN, TURNS, receiver, serving};
use crate::session::{incoming, session, stream, tunnel_session};
use crate::values::{Numbers, flag, is_set, name, number};
use crate::watching::watching;
use clap::ArgMatches;
use link_channels::Profile;
use std::alloc::Global;

pub const GAP: Numbers = Numbers {
    default: 1000,
    least: 1,
    most: 1_000_000,
    multiple_of: 1,
};

pub const LEAD: Numbers = Numbers {
    default: 0,
    least: 0,
    most: 1000,
    multiple_of: 1,
};

pub const STORE: Numbers = Numbers {
    default: 4096,
    least: 1,
    most: 65_536,
    multiple_of: 1,
};

pub const HOLD: Numbers = Numbers {
    default: 20,
    least: 1,
    most: 1000,
    multiple_of: 1,
};

pub const LINGER: Numbers = Numbers {
    default: 1000,
    least: 0,
    most: 60_000,
    multiple_of: 1,
};

/// The line that the words are, the program's name first.
pub fn line<'a>(alloc: Global, words: &'a [String]) -> Result<Line<'a>, Refused>
    ensures ok { IfOk result (λ l. line_of (map string_bytes words.entry.now) ≡ Some (shown l)) }
    ensures usage { result ≡ Err Refused.Usage → line_of (map string_bytes words.entry.now) ≡ None }
{
    let matches = matched(alloc, words)?;
    match matches.subcommand() {
        Some((command, values)) => command_line(alloc, command, values),
        None => Err(Refused::Usage),
    }
}

/// The line of a command with these values.
fn command_line<'a>(
    alloc: Global,
    command: &str,
    values: &ArgMatches<'a>,
) -> Result<Line<'a>, Refused>
    ensures ok { IfOk result (λ l. command_line command.now (rows_of (found_of values.now)) ≡ Some (shown l)) }
    ensures usage { result ≡ Err Refused.Usage → command_line command.now (rows_of (found_of values.now)) ≡ None }
{
    if command == "replay" {
        Ok(Line::Replay(replay_line(values).ok_or(Refused::Usage)?))
    } else if command == "show" {
        Ok(Line::Show(show_line(values).ok_or(Refused::Usage)?))
    } else if command == "count" {
        Ok(Line::Count(count_line(values).ok_or(Refused::Usage)?))
    } else if command == "report" {
        Ok(Line::Report(replay_line(values).ok_or(Refused::Usage)?))
    } else if command == "pack" {
        Ok(Line::Pack(pack_line(values).ok_or(Refused::Usage)?))
    } else if command == "split" {
        Ok(Line::Split(split_line(alloc, values)?))
    } else if command == "send" {
        Ok(Line::Send(send_line(alloc, values)?))
    } else if command == "recv" {
        Ok(Line::Recv(recv_line(alloc, values)?))
    } else if command == "fan" {
        Ok(Line::Fan(fan_line(alloc, values)?))
    } else if command == "gate" {
        Ok(Line::Gate(gate_line(alloc, values)?))
    } else if command == "drill" {
        Ok(Line::Drill(drill_line(values).ok_or(Refused::Usage)?))
    } else {
        Err(Refused::Usage)
    }
}

/// The values of a replay, or of a report.
fn replay_line<'a>(values: &ArgMatches<'a>) -> Option<ReplayLine<'a>>
    ensures { option_map shown_replay result ≡ replay_of (rows_of (found_of values.now)) }
{
    let capture = name(values, "capture")?;
    let out = name(values, "out")?;
    let session = session(values)?;
    Some(ReplayLine {
        capture,
        out,
        session,
        delay: number(values, "delay", DELAY)?,
        span: number(values, "span", SPAN)?,
        restart: number(values, "restart", RESTART)?,
        drift: is_set(values, "drift"),
        pcap: pcap(values, session.profile)?,
    })
}

fn show_line<'a>(values: &ArgMatches<'a>) -> Option<ShowLine<'a>>
    ensures { option_map shown_show result ≡ show_of (rows_of (found_of values.now)) }
{
    let capture = name(values, "capture")?;
    let session = session(values)?;
    Some(ShowLine {
        capture,
        session,
        pcap: pcap(values, session.profile)?,
    })
}

fn count_line<'a>(values: &ArgMatches<'a>) -> Option<CountLine<'a>>
    ensures { option_map shown_count result ≡ count_of (rows_of (found_of values.now)) }
{
    let capture = name(values, "capture")?;
    let session = session(values)?;
    let delay = number(values, "delay", DELAY)?;
    let span = number(values, "span", SPAN)?;
    let restart = number(values, "restart", RESTART)?;
    Some(CountLine {
        capture,
        session,
        delay,
        span,
        restart,
        drift: is_set(values, "drift"),
        pcap: pcap(values, session.profile)?,
    })
}

fn pack_line<'a>(values: &ArgMatches<'a>) -> Option<PackLine<'a>>
    ensures { option_map shown_pack result ≡ pack_of (rows_of (found_of values.now)) }
{
    let source = name(values, "source")?;
    let capture = name(values, "capture")?;
    let session = session(values)?;
    Some(PackLine {
        source,
        capture,
        session,
        stream: stream(values, session.profile)?,
        gap: number(values, "gap", GAP)?,
    })
}

fn split_line<'a>(alloc: Global, values: &ArgMatches<'a>) -> Result<SplitLine<'a>, Refused>
    ensures ok { IfOk result (λ l. split_of (rows_of (found_of values.now)) ≡ Some (shown_split l)) }
    ensures usage { result ≡ Err Refused.Usage → split_of (rows_of (found_of values.now)) ≡ None }
{
    let capture = name(values, "capture").ok_or(Refused::Usage)?;
    let (ports, names) = match outs(alloc, values) {
        Ok(outs) => outs,
        Err(refused) => return Err(refused),
    };
    let session = tunnel_session(values, ports[0]).ok_or(Refused::Usage)?;
    Ok(SplitLine {
        capture,
        ports,
        names,
        session,
        delay: number(values, "delay", DELAY).ok_or(Refused::Usage)?,
        span: number(values, "span", SPAN).ok_or(Refused::Usage)?,
        restart: number(values, "restart", RESTART).ok_or(Refused::Usage)?,
        drift: is_set(values, "drift"),
        pcap: pcap(values, Profile::Main).ok_or(Refused::Usage)?,
    })
}

fn send_line<'a>(alloc: Global, values: &ArgMatches<'a>) -> Result<SendLine<'a>, Refused>
    ensures ok { IfOk result (λ l. send_of (rows_of (found_of values.now)) ≡ Some (shown_send l)) }
    ensures usage { result ≡ Err Refused.Usage → send_of (rows_of (found_of values.now)) ≡ None }
{
    let source = name(values, "source").ok_or(Refused::Usage)?;
    let session = session(values).ok_or(Refused::Usage)?;
    let listens = flag(values, "listen", session.profile).ok_or(Refused::Usage)?;
    let links = links(alloc, values, sending_role(listens), session.profile)?;
    let stream = stream(values, session.profile).ok_or(Refused::Usage)?;
    let gap = number(values, "gap", GAP).ok_or(Refused::Usage)?;
    let lead = number(values, "lead", LEAD).ok_or(Refused::Usage)?;
    let store = number(values, "store", STORE).ok_or(Refused::Usage)?;
    let hold = number(values, "hold", HOLD).ok_or(Refused::Usage)?;
    let share = share(alloc, values, links.len())?;
    Ok(SendLine {
        source,
        links,
        listens,
        session,
        stream,
        gap,
        lead,
        store,
        hold,
        share,
        linger: number(values, "linger", LINGER).ok_or(Refused::Usage)?,
        turns: number(values, "turns", TURNS).ok_or(Refused::Usage)?,
        watching: watching(values).ok_or(Refused::Usage)?,
    })
}

fn recv_line<'a>(alloc: Global, values: &ArgMatches<'a>) -> Result<RecvLine<'a>, Refused>
    ensures ok { IfOk result (λ l. recv_of (rows_of (found_of values.now)) ≡ Some (shown_recv l)) }
    ensures usage { result ≡ Err Refused.Usage → recv_of (rows_of (found_of values.now)) ≡ None }
{
    let out = name(values, "out").ok_or(Refused::Usage)?;
    let session = session(values).ok_or(Refused::Usage)?;
    let calls = flag(values, "call", session.profile).ok_or(Refused::Usage)?;
    let links = links(alloc, values, receiving_role(calls), session.profile)?;
    Ok(RecvLine {
        out,
        links,
        calls,
        session,
        receiver: receiver(values).ok_or(Refused::Usage)?,
        serving: serving(values).ok_or(Refused::Usage)?,
        watching: watching(values).ok_or(Refused::Usage)?,
    })
}

fn fan_line<'a>(alloc: Global, values: &ArgMatches<'a>) -> Result<FanLine<'a>, Refused>
    ensures ok { IfOk result (λ l. fan_of (rows_of (found_of values.now)) ≡ Some (shown_fan l)) }
    ensures usage { result ≡ Err Refused.Usage → fan_of (rows_of (found_of values.now)) ≡ None }
{
    let (ports, names) = outs(alloc, values)?;
    let first = ports[0];
    let session = tunnel_session(values, first).ok_or(Refused::Usage)?;
    let calls = is_set(values, "call");
    let links = links(alloc, values, receiving_role(calls), Profile::Main)?;
    Ok(FanLine {
        ports,
        names,
        links,
        calls,
        session,
        receiver: receiver(values).ok_or(Refused::Usage)?,
        serving: serving(values).ok_or(Refused::Usage)?,
        watching: watching(values).ok_or(Refused::Usage)?,
    })
}

fn gate_line<'a>(alloc: Global, values: &ArgMatches<'a>) -> Result<GateLine<'a>, Refused>
    ensures ok { IfOk result (λ l. gate_of (rows_of (found_of values.now)) ≡ Some (shown_gate l)) }
    ensures usage { result ≡ Err Refused.Usage → gate_of (rows_of (found_of values.now)) ≡ None }
{
    let session = session(values).ok_or(Refused::Usage)?;
    let incoming = incoming(values, session).ok_or(Refused::Usage)?;
    let (inputs, outputs) = gate_links(alloc, values, incoming.profile, session.profile)?;
    let receiver = receiver(values).ok_or(Refused::Usage)?;
    let serving = serving(values).ok_or(Refused::Usage)?;
    let stream = stream(values, session.profile).ok_or(Refused::Usage)?;
    let store = number(values, "store", STORE).ok_or(Refused::Usage)?;
    let hold = number(values, "hold", HOLD).ok_or(Refused::Usage)?;
    let share = share(alloc, values, outputs.len())?;
    let watching = watching(values).ok_or(Refused::Usage)?;
    Ok(GateLine {
        inputs,
        outputs,
        incoming,
        session,
        receiver,
        serving,
        stream,
        store,
        hold,
        share,
        watching,
    })
}
