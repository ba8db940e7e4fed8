//! The tests that a command's values have to pass, in their order.
ghost use Rattle.std.specs.Prelude.{◌≡◌, ◌≤◌, IfOk, IfSome, codes, is_none, length, map, option_map, true};
ghost use Rattle.std.specs.List.{list_all};
ghost use Rattle.clap.specs.Words.{all_of, first_of, found_of, rows_of};
ghost use Rattle.rist_words.specs.Links.{links_of, shares_of};
ghost use Rattle.rist_help.specs.Checks.{checks_of, does_fail, first_failing, gate_links_in, incoming_in, is_sound};
ghost use Rattle.rist_help.specs.Checks.{profile_by, profile_in, receivers_role, senders_role, shown_test};
ghost use Rattle.rist_help.specs.Checks.{First, GateLinks, GateShare, Incoming, Inputs, Outs, SendShare};

use clap::ArgMatches;
use link_channels::Profile;
use outside_io::NoMemory;
use outside_net::{LinkSpec, Role};
use rist_words::Refused;
use rist_words::drilling::{COUNT, LINKS, LOSS, NUMBER};
use rist_words::links::{
    gate_links, inputs_of, link_texts, links, receiving_role, sending_role, share,
};
use rist_words::outs::outs;
use rist_words::pcap::pcap;
use rist_words::reading::{GAP, HOLD, LEAD, LINGER, STORE};
use rist_words::receiving::{DELAY, IDLE, KEEP, LEAST, OWN, REORDER, RESTART, SPAN, TRIES, TURNS};
use rist_words::session::{BITS, FLOW, INCOMING, PORT, are_unset, firsts};
use rist_words::values::{
    Numbers, flag, given, is_set, nack, name, number, number_at, phrase, profile, tunnel,
};
use rist_words::watching::{STATS, name_if, number_if, watching};
use std::alloc::Global;

/// A test of the values of a command.
#[derive(Clone, Copy)]
pub enum Test {
    /// The name at a position isn't empty.
    Name(&'static str),
    /// The number at a position is one that it takes.
    NumberAt(&'static str, Numbers),
    /// The number of an option is one that it takes.
    Number(&'static str, Numbers),
    /// The profile of an option is one of two words.
    Profile(&'static str),
    /// The passphrase of the second option is given in the Main Profile only, which the first says, and has its length.
    Pass(&'static str, &'static str),
    /// A flag is given in the Main Profile only, which the option before it says.
    MainFlag(&'static str, &'static str),
    /// The form of the tunnel is one of two words, and given in the Main Profile only, which the first option says.
    Tunnel(&'static str, &'static str),
    /// Options of the session of a gateway's inputs are given with its profile only.
    Incoming,
    /// The first sequence number is one of its width.
    First,
    /// `--pcap` and `--udp` are given both or neither, and the port is one of the profile.
    Pcap,
    /// How requests are written is one of two words.
    Nack,
    /// There are one to sixteen links, and each is one that receives.
    Links,
    /// There are one to sixteen links, and each is one that sends.
    SendLinks,
    /// Some of the links receive, and not all.
    Inputs,
    /// Each of a gateway's links is one, in the profile of its end.
    GateLinks,
    /// Each link of a sending has a weight, where they share.
    SendShare,
    /// Each link of a gateway that sends has a weight, where they share.
    GateShare,
    /// There are one to eight outputs, each is one, and no two have one port or one name.
    Outs,
    /// The passphrase of an option has its length, in a command that is always in the Main Profile.
    MainPass(&'static str),
    /// The form of the tunnel is one of two words, in a command that is always in the Main Profile.
    MainTunnel(&'static str),
    /// `--pcap` and `--udp` are given both or neither, in a command that is always in the Main Profile.
    MainPcap,
    /// There are one to sixteen links, and each is one, in a command that is always in the Main Profile.
    MainLinks,
    /// The name of an option isn't empty, where it is given.
    NameIf(&'static str),
    /// The number of an option is one that it takes, where it is given.
    NumberIf(&'static str, Numbers),
    /// A file for statistics is named only where these are told.
    Watching,
}

/// Those of a replay, and of a report.
static REPLAY_TESTS: [Test; 12] = [
    Test::Name("capture"),
    Test::Name("out"),
    Test::Profile("profile"),
    Test::Number("port", PORT),
    Test::Pass("profile", "pass"),
    Test::Number("bits", BITS),
    Test::MainFlag("profile", "full"),
    Test::Tunnel("profile", "tunnel"),
    Test::Number("delay", DELAY),
    Test::Number("span", SPAN),
    Test::Number("restart", RESTART),
    Test::Pcap,
];

static SHOW_TESTS: [Test; 8] = [
    Test::Name("capture"),
    Test::Profile("profile"),
    Test::Number("port", PORT),
    Test::Pass("profile", "pass"),
    Test::Number("bits", BITS),
    Test::MainFlag("profile", "full"),
    Test::Tunnel("profile", "tunnel"),
    Test::Pcap,
];

static COUNT_TESTS: [Test; 11] = [
    Test::Name("capture"),
    Test::Profile("profile"),
    Test::Number("port", PORT),
    Test::Pass("profile", "pass"),
    Test::Number("bits", BITS),
    Test::MainFlag("profile", "full"),
    Test::Tunnel("profile", "tunnel"),
    Test::Number("delay", DELAY),
    Test::Number("span", SPAN),
    Test::Number("restart", RESTART),
    Test::Pcap,
];

static PACK_TESTS: [Test; 13] = [
    Test::Name("source"),
    Test::Name("capture"),
    Test::Profile("profile"),
    Test::Number("port", PORT),
    Test::Pass("profile", "pass"),
    Test::Number("bits", BITS),
    Test::MainFlag("profile", "full"),
    Test::Tunnel("profile", "tunnel"),
    Test::MainFlag("profile", "nulls"),
    Test::MainFlag("profile", "wide"),
    Test::Number("flow", FLOW),
    Test::First,
    Test::Number("gap", GAP),
];

static SPLIT_TESTS: [Test; 9] = [
    Test::Name("capture"),
    Test::Outs,
    Test::MainPass("pass"),
    Test::Number("bits", BITS),
    Test::MainTunnel("tunnel"),
    Test::Number("delay", DELAY),
    Test::Number("span", SPAN),
    Test::Number("restart", RESTART),
    Test::MainPcap,
];

static SEND_TESTS: [Test; 23] = [
    Test::Name("source"),
    Test::Profile("profile"),
    Test::Number("port", PORT),
    Test::Pass("profile", "pass"),
    Test::Number("bits", BITS),
    Test::MainFlag("profile", "full"),
    Test::Tunnel("profile", "tunnel"),
    Test::MainFlag("profile", "listen"),
    Test::SendLinks,
    Test::MainFlag("profile", "nulls"),
    Test::MainFlag("profile", "wide"),
    Test::Number("flow", FLOW),
    Test::First,
    Test::Number("gap", GAP),
    Test::Number("lead", LEAD),
    Test::Number("store", STORE),
    Test::Number("hold", HOLD),
    Test::SendShare,
    Test::Number("linger", LINGER),
    Test::Number("turns", TURNS),
    Test::NumberIf("stats", STATS),
    Test::NameIf("stats-file"),
    Test::Watching,
];

static RECV_TESTS: [Test; 24] = [
    Test::Name("out"),
    Test::Profile("profile"),
    Test::Number("port", PORT),
    Test::Pass("profile", "pass"),
    Test::Number("bits", BITS),
    Test::MainFlag("profile", "full"),
    Test::Tunnel("profile", "tunnel"),
    Test::MainFlag("profile", "call"),
    Test::Links,
    Test::Number("delay", DELAY),
    Test::Number("span", SPAN),
    Test::Number("restart", RESTART),
    Test::Number("reorder", REORDER),
    Test::Number("least", LEAST),
    Test::Number("tries", TRIES),
    Test::Nack,
    Test::Number("own", OWN),
    Test::Number("turns", TURNS),
    Test::Number("idle", IDLE),
    Test::Number("keep", KEEP),
    Test::NameIf("record"),
    Test::NumberIf("stats", STATS),
    Test::NameIf("stats-file"),
    Test::Watching,
];

static FAN_TESTS: [Test; 19] = [
    Test::Outs,
    Test::MainPass("pass"),
    Test::Number("bits", BITS),
    Test::MainTunnel("tunnel"),
    Test::MainLinks,
    Test::Number("delay", DELAY),
    Test::Number("span", SPAN),
    Test::Number("restart", RESTART),
    Test::Number("reorder", REORDER),
    Test::Number("least", LEAST),
    Test::Number("tries", TRIES),
    Test::Nack,
    Test::Number("own", OWN),
    Test::Number("turns", TURNS),
    Test::Number("idle", IDLE),
    Test::NameIf("record"),
    Test::NumberIf("stats", STATS),
    Test::NameIf("stats-file"),
    Test::Watching,
];

static GATE_TESTS: [Test; 37] = [
    Test::Profile("profile"),
    Test::Number("port", PORT),
    Test::Pass("profile", "pass"),
    Test::Number("bits", BITS),
    Test::MainFlag("profile", "full"),
    Test::Tunnel("profile", "tunnel"),
    Test::Profile("in-profile"),
    Test::Incoming,
    Test::Number("in-port", PORT),
    Test::Pass("in-profile", "in-pass"),
    Test::Number("in-bits", BITS),
    Test::MainFlag("in-profile", "in-full"),
    Test::Tunnel("in-profile", "in-tunnel"),
    Test::Inputs,
    Test::GateLinks,
    Test::Number("delay", DELAY),
    Test::Number("span", SPAN),
    Test::Number("restart", RESTART),
    Test::Number("reorder", REORDER),
    Test::Number("least", LEAST),
    Test::Number("tries", TRIES),
    Test::Nack,
    Test::Number("own", OWN),
    Test::Number("turns", TURNS),
    Test::Number("idle", IDLE),
    Test::Number("keep", KEEP),
    Test::MainFlag("profile", "nulls"),
    Test::MainFlag("profile", "wide"),
    Test::Number("flow", FLOW),
    Test::First,
    Test::Number("store", STORE),
    Test::Number("hold", HOLD),
    Test::GateShare,
    Test::NameIf("record"),
    Test::NumberIf("stats", STATS),
    Test::NameIf("stats-file"),
    Test::Watching,
];

static DRILL_TESTS: [Test; 4] = [
    Test::NumberAt("number", NUMBER),
    Test::NumberAt("count", COUNT),
    Test::NumberAt("links", LINKS),
    Test::NumberAt("loss", LOSS),
];

/// The tests of a command's values.
pub fn tests_of(command: &str) -> &'static [Test]
    ensures value { map shown_test result.now ≡ checks_of command.now }
    ensures sound { list_all is_sound result.now ≡ true }
{
    if command == "replay" {
        &REPLAY_TESTS
    } else if command == "show" {
        &SHOW_TESTS
    } else if command == "count" {
        &COUNT_TESTS
    } else if command == "report" {
        &REPLAY_TESTS
    } else if command == "pack" {
        &PACK_TESTS
    } else if command == "split" {
        &SPLIT_TESTS
    } else if command == "send" {
        &SEND_TESTS
    } else if command == "recv" {
        &RECV_TESTS
    } else if command == "fan" {
        &FAN_TESTS
    } else if command == "gate" {
        &GATE_TESTS
    } else {
        &DRILL_TESTS
    }
}

/// The first of these tests that the values fail.
pub fn first_failing(
    alloc: Global,
    values: &ArgMatches<'_>,
    tests: &'static [Test],
) -> Result<Option<Test>, NoMemory>
    requires sound { list_all is_sound tests.now ≡ true }
    ensures { IfOk result (λ failing. option_map shown_test failing
        ≡ first_failing (rows_of (found_of values.now)) (map shown_test tests.now)) }
{
    for test in tests {
        if does_fail(alloc, values, *test)? {
            return Ok(Some(*test));
        }
    }
    Ok(None)
}

/// Whether the values fail a test.
fn does_fail(alloc: Global, values: &ArgMatches<'_>, test: Test) -> Result<bool, NoMemory>
    requires sound { is_sound test ≡ true }
    ensures { IfOk result (λ fails. fails ≡ does_fail (rows_of (found_of values.now)) (shown_test test)) }
{
    match test {
        Test::Name(position) => Ok(name(values, position).is_none()),
        Test::NumberAt(position, numbers) => Ok(number_at(values, position, numbers).is_none()),
        Test::Number(option, numbers) => Ok(number(values, option, numbers).is_none()),
        Test::Profile(option) => Ok(profile(values, option).is_none()),
        Test::Pass(by, option) => Ok(phrase(values, option, profile_by(values, by)).is_none()),
        Test::MainFlag(by, name) => Ok(flag(values, name, profile_by(values, by)).is_none()),
        Test::Tunnel(by, option) => Ok(tunnel(values, option, profile_by(values, by)).is_none()),
        Test::Incoming => Ok(fails_incoming(values)),
        Test::First => Ok(fails_first(values)),
        Test::Pcap => Ok(pcap(values, profile_in(values)).is_none()),
        Test::Nack => Ok(nack(values, "nack").is_none()),
        Test::Links => fails_links(alloc, values, receivers_role(values), profile_in(values)),
        Test::SendLinks => fails_links(alloc, values, senders_role(values), profile_in(values)),
        Test::Inputs => Ok(fails_inputs(values)),
        Test::GateLinks => fails_gate_links(alloc, values),
        Test::SendShare => fails_send_share(alloc, values),
        Test::GateShare => fails_gate_share(alloc, values),
        Test::Outs => fails_outs(alloc, values),
        Test::MainPass(option) => Ok(phrase(values, option, Profile::Main).is_none()),
        Test::MainTunnel(option) => Ok(tunnel(values, option, Profile::Main).is_none()),
        Test::MainPcap => Ok(pcap(values, Profile::Main).is_none()),
        Test::MainLinks => fails_links(alloc, values, receivers_role(values), Profile::Main),
        Test::NameIf(option) => Ok(name_if(values, option).is_none()),
        Test::NumberIf(option, numbers) => Ok(number_if(values, option, numbers).is_none()),
        Test::Watching => Ok(watching(values).is_none()),
    }
}

/// The profile that values give by an option of this name, the Simple Profile where they have none.
pub fn profile_by(values: &ArgMatches<'_>, option: &str) -> Profile
    ensures { result ≡ profile_by option.now (rows_of (found_of values.now)) }
{
    match profile(values, option) {
        Some(profile) => profile,
        None => Profile::Simple,
    }
}

/// The profile of the values.
pub fn profile_in(values: &ArgMatches<'_>) -> Profile
    ensures { result ≡ profile_in (rows_of (found_of values.now)) }
{
    profile_by(values, "profile")
}

/// The profile of the links that a gateway receives on: their own where it is given.
pub fn incoming_in(values: &ArgMatches<'_>) -> Profile
    ensures { result ≡ incoming_in (rows_of (found_of values.now)) }
{
    match given(values, "in-profile") {
        Some(_) => profile_by(values, "in-profile"),
        None => profile_in(values),
    }
}

fn fails_incoming(values: &ArgMatches<'_>) -> bool
    ensures { result ≡ does_fail (rows_of (found_of values.now)) Incoming }
{
    given(values, "in-profile").is_none() && !are_unset(values, INCOMING)
}

fn fails_first(values: &ArgMatches<'_>) -> bool
    ensures { result ≡ does_fail (rows_of (found_of values.now)) First }
{
    let wide = is_set(values, "wide");
    number(values, "first", firsts(wide)).is_none()
}

/// The role of the links of a receiver's command.
pub fn receivers_role(values: &ArgMatches<'_>) -> Role
    ensures { result ≡ receivers_role (rows_of (found_of values.now)) }
{
    receiving_role(is_set(values, "call"))
}

/// The role of those of a sender's.
pub fn senders_role(values: &ArgMatches<'_>) -> Role
    ensures { result ≡ senders_role (rows_of (found_of values.now)) }
{
    sending_role(is_set(values, "listen"))
}

/// Whether the links fail in a role and a profile.
fn fails_links(
    alloc: Global,
    values: &ArgMatches<'_>,
    role: Role,
    profile: Profile,
) -> Result<bool, NoMemory>
    ensures { IfOk result (λ fails. fails
        ≡ is_none (links_of role profile (all_of (codes "link") (rows_of (found_of values.now))))) }
{
    match links(alloc, values, role, profile) {
        Ok(_) => Ok(false),
        Err(Refused::Usage) => Ok(true),
        Err(Refused::Memory) => Err(NoMemory),
    }
}

fn fails_inputs(values: &ArgMatches<'_>) -> bool
    ensures { result ≡ does_fail (rows_of (found_of values.now)) Inputs }
{
    match link_texts(values) {
        Some(texts) => inputs_of(values, texts.len()).is_none(),
        None => true,
    }
}

/// The links of a gateway, each in the profile of its end; none where they aren't.
fn gate_links_in(
    alloc: Global,
    values: &ArgMatches<'_>,
) -> Result<Option<(Vec<LinkSpec>, Vec<LinkSpec>)>, NoMemory>
    ensures value { IfOk result (λ links. option_map (λ l. (l.0.items, l.1.items)) links
        ≡ gate_links_in (rows_of (found_of values.now))) }
    ensures some { IfOk result (λ links. IfSome links (λ l. 1 ≤ length l.1.items)) }
{
    match gate_links(alloc, values, incoming_in(values), profile_in(values)) {
        Ok(links) => Ok(Some(links)),
        Err(Refused::Usage) => Ok(None),
        Err(Refused::Memory) => Err(NoMemory),
    }
}

fn fails_gate_links(alloc: Global, values: &ArgMatches<'_>) -> Result<bool, NoMemory>
    ensures { IfOk result (λ fails. fails ≡ does_fail (rows_of (found_of values.now)) GateLinks) }
{
    Ok(gate_links_in(alloc, values)?.is_none())
}

fn fails_send_share(alloc: Global, values: &ArgMatches<'_>) -> Result<bool, NoMemory>
    ensures { IfOk result (λ fails. fails ≡ does_fail (rows_of (found_of values.now)) SendShare) }
{
    match links(alloc, values, senders_role(values), profile_in(values)) {
        Ok(links) => fails_share(alloc, values, links.len()),
        Err(Refused::Usage) => Ok(true),
        Err(Refused::Memory) => Err(NoMemory),
    }
}

fn fails_gate_share(alloc: Global, values: &ArgMatches<'_>) -> Result<bool, NoMemory>
    ensures { IfOk result (λ fails. fails ≡ does_fail (rows_of (found_of values.now)) GateShare) }
{
    match gate_links_in(alloc, values)? {
        Some((_, outputs)) => fails_share(alloc, values, outputs.len()),
        None => Ok(true),
    }
}

/// Whether the weights of so many links fail.
fn fails_share(alloc: Global, values: &ArgMatches<'_>, links: usize) -> Result<bool, NoMemory>
    requires some { 1 ≤ links }
    ensures { IfOk result (λ fails. fails
        ≡ is_none (shares_of links (first_of (codes "share") (rows_of (found_of values.now))))) }
{
    match share(alloc, values, links) {
        Ok(_) => Ok(false),
        Err(Refused::Usage) => Ok(true),
        Err(Refused::Memory) => Err(NoMemory),
    }
}

fn fails_outs(alloc: Global, values: &ArgMatches<'_>) -> Result<bool, NoMemory>
    ensures { IfOk result (λ fails. fails ≡ does_fail (rows_of (found_of values.now)) Outs) }
{
    match outs(alloc, values) {
        Ok(_) => Ok(false),
        Err(Refused::Usage) => Ok(true),
        Err(Refused::Memory) => Err(NoMemory),
    }
}
