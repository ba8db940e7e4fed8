//! What is wrong with words that are no line, as a text.
use crate::asking::topic_named;
use crate::checks::{
    Test, first_failing, incoming_in, profile_by, profile_in, receivers_role, senders_role,
    tests_of,
};
use clap::ArgMatches;
use clap::error::ErrorKind;
use host_text::first_part;
use link_channels::Profile;
use outside_io::NoMemory;
use outside_net::Role;
use rist_words::Refused;
use rist_words::command::program;
use rist_words::links::{all_given, input_counts, inputs_of, link_of, link_texts};
use rist_words::matching::matched;
use rist_words::outs::{MAX_OUTS, are_different, outs_in};
use rist_words::session::firsts;
use rist_words::values::{Numbers, given, is_set};
use std::alloc::Global;

/// The options of the session of a gateway's inputs that take a value, but for its profile.
static INCOMING_OPTIONS: [&str; 4] = ["in-port", "in-pass", "in-bits", "in-tunnel"];

/// What each output is.
const OUTPUT: &str = "an even port from 2 to 65534 and a name, as 1968=a";

/// That there are too many links.
const MOST: &str = "at most sixteen";

/// What is wrong with words that are no line, the program's name first: the first word that is wrong and why, and which
/// help says more.
pub fn complaint(alloc: Global, words: &[String]) -> Result<String, NoMemory> {
    let mut text = String::new(alloc);
    match matched(alloc, words) {
        Ok(matches) => push_first_fault(alloc, &mut text, &matches)?,
        Err(Refused::Usage) => push_refusal(alloc, &mut text, words)?,
        Err(Refused::Memory) => return Err(NoMemory),
    }
    push_help(&mut text, words)?;
    Ok(text)
}

/// The first test that the values of a command fail.
fn push_first_fault(
    alloc: Global,
    text: &mut String,
    matches: &ArgMatches<'_>,
) -> Result<(), NoMemory> {
    match matches.subcommand() {
        Some((command, values)) => match first_failing(alloc, values, tests_of(command))? {
            Some(test) => push_fault(alloc, text, values, test),
            None => Ok(()),
        },
        None => Ok(text.push_str("a command is missing")?),
    }
}

/// Why the parser doesn't take the words: the first paragraph of what it says.
fn push_refusal(alloc: Global, text: &mut String, words: &[String]) -> Result<(), NoMemory> {
    match program(alloc)?.try_get_matches_from(words) {
        Ok(_) => Ok(()),
        Err(error) => match error.kind() {
            ErrorKind::OutOfMemory => Err(NoMemory),
            ErrorKind::DisplayHelp => Ok(text.push_str(
                "help is asked for by --help alone, or right behind a command",
            )?),
            _ => {
                let said = format!(in alloc; "{error}")?;
                push_paragraph(text, said.as_str())
            }
        },
    }
}

/// The first paragraph of a message as one line, without the word that it begins with.
fn push_paragraph(text: &mut String, said: &str) -> Result<(), NoMemory> {
    let said = match said.strip_prefix("error: ") {
        Some(rest) => rest,
        None => said,
    };
    let mut is_first = true;
    for line in said.split('\n') {
        if line.is_empty() {
            return Ok(());
        }
        if !is_first {
            text.push_str(" ")?;
        }
        text.push_str(line.trim())?;
        is_first = false;
    }
    Ok(())
}

/// Which help says more.
fn push_help(text: &mut String, words: &[String]) -> Result<(), NoMemory> {
    match words {
        [_, command, ..] if topic_named(command.as_str()).is_some() => {
            let command = command.as_str();
            Ok(write!(text, " (rist {command} --help)")?)
        }
        _ => Ok(text.push_str(" (rist --help)")?),
    }
}

/// The word that fails a test, and why.
fn push_fault(
    alloc: Global,
    text: &mut String,
    values: &ArgMatches<'_>,
    test: Test,
) -> Result<(), NoMemory> {
    match test {
        Test::Name(position) => push_place(text, position, None, "a name isn't empty"),
        Test::NumberAt(position, numbers) => push_number_at(text, values, position, numbers),
        Test::Number(option, numbers) => push_number(text, option, given(values, option), numbers),
        Test::Profile(option) => push_option(text, option, given(values, option), "simple or main"),
        Test::Pass(by, option) => push_pass_by(text, values, by, option),
        Test::MainFlag(by, flag) => push_main(text, by, flag),
        Test::Tunnel(by, option) => push_tunnel_by(text, values, by, option),
        Test::Incoming => push_incoming(text, values),
        Test::First => push_first(text, values),
        Test::Pcap => push_pcap(text, values, profile_in(values)),
        Test::Nack => push_option(text, "nack", given(values, "nack"), "range or mask"),
        Test::Links => push_links(text, values, receivers_role(values), profile_in(values)),
        Test::SendLinks => push_links(text, values, senders_role(values), profile_in(values)),
        Test::Inputs => push_inputs(text, values),
        Test::GateLinks => push_gate_links(text, values),
        Test::SendShare | Test::GateShare => push_share(text, values),
        Test::Outs => push_outs(alloc, text, values),
        Test::MainPass(option) => push_pass(text, option),
        Test::MainTunnel(option) => push_tunnel(text, values, option),
        Test::MainPcap => push_pcap(text, values, Profile::Main),
        Test::MainLinks => push_links(text, values, receivers_role(values), Profile::Main),
        Test::NameIf(option) => push_option(text, option, None, "a name isn't empty"),
        Test::NumberIf(option, numbers) => {
            push_number(text, option, given(values, option), numbers)
        }
        Test::Watching => push_option(text, "stats-file", None, "only with --stats"),
    }
}

/// A position in capital letters, what is given there, and why it is wrong.
fn push_place(
    text: &mut String,
    position: &str,
    word: Option<&str>,
    why: &str,
) -> Result<(), NoMemory> {
    for letter in position.chars() {
        text.push(letter.to_ascii_uppercase())?;
    }
    push_word(text, word)?;
    Ok(text.push_str(why)?)
}

/// An option, what is given to it, and why it is wrong.
fn push_option(
    text: &mut String,
    option: &str,
    word: Option<&str>,
    why: &str,
) -> Result<(), NoMemory> {
    write!(text, "--{option}")?;
    push_word(text, word)?;
    Ok(text.push_str(why)?)
}

fn push_word(text: &mut String, word: Option<&str>) -> Result<(), NoMemory> {
    match word {
        Some(word) => Ok(write!(text, " {word}: ")?),
        None => Ok(text.push_str(": ")?),
    }
}

fn push_number(
    text: &mut String,
    option: &str,
    word: Option<&str>,
    numbers: Numbers,
) -> Result<(), NoMemory> {
    push_option(text, option, word, "")?;
    push_numbers(text, numbers)
}

/// A position, what is given there, and the numbers that are taken.
fn push_number_at(
    text: &mut String,
    values: &ArgMatches<'_>,
    position: &str,
    numbers: Numbers,
) -> Result<(), NoMemory> {
    push_place(text, position, given(values, position), "")?;
    push_numbers(text, numbers)
}

/// The first number of a flow, by how many bits numbers have.
fn push_first(text: &mut String, values: &ArgMatches<'_>) -> Result<(), NoMemory> {
    let numbers = firsts(is_set(values, "wide"));
    push_number(text, "first", given(values, "first"), numbers)
}

/// The numbers that are taken.
fn push_numbers(text: &mut String, numbers: Numbers) -> Result<(), NoMemory> {
    let (least, most) = (numbers.least, numbers.most);
    match numbers.multiple_of {
        1 => Ok(write!(text, "a number from {least} to {most}")?),
        2 => Ok(write!(text, "an even number from {least} to {most}")?),
        _ => Ok(write!(text, "{least} or {most}")?),
    }
}

/// An option or a flag that only the Main Profile has, and the option that says the profile.
fn push_main(text: &mut String, by: &str, option: &str) -> Result<(), NoMemory> {
    Ok(write!(text, "--{option}: only with --{by} main")?)
}

/// The first option of the session of a gateway's inputs that is given.
fn push_incoming(text: &mut String, values: &ArgMatches<'_>) -> Result<(), NoMemory> {
    for option in &INCOMING_OPTIONS {
        if given(values, *option).is_some() {
            return push_with_profile(text, *option);
        }
    }
    push_with_profile(text, "in-full")
}

fn push_with_profile(text: &mut String, option: &str) -> Result<(), NoMemory> {
    push_option(text, option, None, "only with --in-profile")
}

/// That a passphrase hasn't its length.
fn push_pass(text: &mut String, option: &str) -> Result<(), NoMemory> {
    push_option(text, option, None, "1 to 128 octets")
}

/// That a passphrase is given in the Simple Profile, or hasn't its length.
fn push_pass_by(
    text: &mut String,
    values: &ArgMatches<'_>,
    by: &str,
    option: &str,
) -> Result<(), NoMemory> {
    match profile_by(values, by) {
        Profile::Simple => push_main(text, by, option),
        Profile::Main => push_pass(text, option),
    }
}

/// That the form of the tunnel is none.
fn push_tunnel(text: &mut String, values: &ArgMatches<'_>, option: &str) -> Result<(), NoMemory> {
    push_option(text, option, given(values, option), "own or librist")
}

/// That a form of the tunnel is given in the Simple Profile, or is none.
fn push_tunnel_by(
    text: &mut String,
    values: &ArgMatches<'_>,
    by: &str,
    option: &str,
) -> Result<(), NoMemory> {
    match profile_by(values, by) {
        Profile::Simple => push_main(text, by, option),
        Profile::Main => push_tunnel(text, values, option),
    }
}

fn push_pcap(text: &mut String, values: &ArgMatches<'_>, profile: Profile) -> Result<(), NoMemory> {
    match given(values, "udp") {
        Some(word) if is_set(values, "pcap") => {
            let why = match profile {
                Profile::Simple => "an even number from 2 to 65534",
                Profile::Main => "a number from 1 to 65535",
            };
            push_option(text, "udp", Some(word), why)
        }
        _ => Ok(text.push_str("--pcap, --udp: both are given, or neither")?),
    }
}

/// The first word that is no link, or that there are too many.
fn push_links(
    text: &mut String,
    values: &ArgMatches<'_>,
    role: Role,
    profile: Profile,
) -> Result<(), NoMemory> {
    match all_given(values, "link") {
        Some(words) => match first_wrong(role, profile, words) {
            Some(word) => push_link(text, role, word),
            None => push_place(text, "link", None, MOST),
        },
        None => push_place(text, "link", None, "one to sixteen"),
    }
}

/// The first word that is no link.
fn first_wrong<'a>(role: Role, profile: Profile, words: &[&'a str]) -> Option<&'a str> {
    for word in words {
        if link_of(role, profile, word).is_none() {
            return Some(*word);
        }
    }
    None
}

/// The first word of a gateway that is no link in the profile of its end.
fn push_gate_links(text: &mut String, values: &ArgMatches<'_>) -> Result<(), NoMemory> {
    let Some(words) = link_texts(values) else {
        return Ok(());
    };
    let Some(count) = inputs_of(values, words.len()) else {
        return Ok(());
    };
    let (received, sent) = words.split_at(count);
    if let Some(word) = first_wrong(Role::Receives, incoming_in(values), received) {
        return push_link(text, Role::Receives, word);
    }
    match first_wrong(Role::Forwards, profile_in(values), sent) {
        Some(word) => push_link(text, Role::Forwards, word),
        None => Ok(()),
    }
}

fn push_link(text: &mut String, role: Role, word: &str) -> Result<(), NoMemory> {
    push_place(text, "link", Some(word), why_no_link(role, word))
}

/// Why a word is no link in a role, in the Simple Profile where it is one in the other.
fn why_no_link(role: Role, word: &str) -> &'static str {
    let (place, _) = first_part(word, '?');
    if link_of(role, Profile::Main, word).is_some() {
        return "in the Simple Profile a port is even, from 2 to 65534";
    }
    if link_of(role, Profile::Main, place).is_none() {
        return "an address and a port, as 127.0.0.1:5000 or [::1]:5000";
    }
    match role {
        Role::Receives | Role::SendsListening =>
            "a link that listens is bound to its address, and takes nothing behind it",
        Role::ReceivesCalling | Role::Sends | Role::Forwards =>
            "behind ? stand from= with an address of the same kind, ttl=1..255 for IPv4, or both by &",
    }
}

fn push_inputs(text: &mut String, values: &ArgMatches<'_>) -> Result<(), NoMemory> {
    match all_given(values, "link") {
        Some(words) if words.len() > 16 => push_place(text, "link", None, MOST),
        Some(words) if words.len() >= 2 => {
            push_number(text, "in", given(values, "in"), input_counts(words.len()))
        }
        _ => push_place(text, "link", None, "a gateway has at least two"),
    }
}

/// That the weights are none.
fn push_share(text: &mut String, values: &ArgMatches<'_>) -> Result<(), NoMemory> {
    let why = "a weight of 1 to 100 for each link that sends, as 3:1";
    push_option(text, "share", given(values, "share"), why)
}

fn push_outs(alloc: Global, text: &mut String, values: &ArgMatches<'_>) -> Result<(), NoMemory> {
    match given(values, "outs") {
        Some(word) => push_place(text, "outs", Some(word), fault_of_outs(alloc, word)?),
        None => push_place(text, "outs", None, OUTPUT),
    }
}

/// Why a text is no outputs of a tunnel's flows.
fn fault_of_outs(alloc: Global, word: &str) -> Result<&'static str, NoMemory> {
    let (ports, _names) = match outs_in(alloc, word) {
        Ok(outs) => outs,
        Err(Refused::Usage) => return Ok(fault_of_parts(word)),
        Err(Refused::Memory) => return Err(NoMemory),
    };
    if are_different(&ports) {
        Ok("a name is given twice")
    } else {
        Ok("a port is given twice")
    }
}

/// Why the parts of a text aren't each an output.
fn fault_of_parts(word: &str) -> &'static str {
    if word.split(',').count() > MAX_OUTS {
        "at most eight"
    } else {
        OUTPUT
    }
}
