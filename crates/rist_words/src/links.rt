//! Links, and the weights by which they share a stream.
ghost use Rattle.std.specs.Prelude.{◌≡◌, ◌<◌, ◌≤◌, ◌++◌, ◌∷◌, [], Err, Some, None, IfOk, IfSome, OnOk, codes, length, map, option_map};
ghost use Rattle.clap.specs.Words.{all_of, first_of, found_of, rows_of};
ghost use Rattle.rist_words.specs.Links.{each_link, gate_links_of, input_counts, inputs_of, link_of, link_ports, link_texts, links_of, receiving_role, sending_role, settings_in, shares_of, split_at, weights_in};

use crate::lines::Refused;
use crate::values::{Numbers, given, number, number_in};
use clap::ArgMatches;
use host_text::{Settings, first_part, place_of};
use link_channels::{MAX_LINKS, Profile};
use outside_net::{LinkSpec, Role};
use std::alloc::{AllocError, Global};
use std::net::IpAddr;

const WEIGHT: Numbers = Numbers {
    default: 1,
    least: 1,
    most: 100,
    multiple_of: 1,
};

/// The links of a command, one to sixteen, all in a role.
pub fn links(
    alloc: Global,
    values: &ArgMatches<'_>,
    role: Role,
    profile: Profile,
) -> Result<Vec<LinkSpec>, Refused>
    ensures ok { IfOk result (λ links.
        links_of role profile (all_of (codes "link") (rows_of (found_of values.now))) ≡ Some links.items) }
    ensures usage { result ≡ Err Refused.Usage
        → links_of role profile (all_of (codes "link") (rows_of (found_of values.now))) ≡ None }
    ensures some { IfOk result (λ links. 1 ≤ length links.items) }
{
    match link_texts(values) {
        Some(texts) => each_link(alloc, role, profile, texts),
        None => Err(Refused::Usage),
    }
}

/// The texts of links, one to sixteen.
pub fn link_texts<'m, 'a>(values: &'m ArgMatches<'a>) -> Option<&'m [&'a str]>
    ensures value { option_map (λ texts. map (λ t. t.now) texts.now) result
        ≡ link_texts (all_of (codes "link") (rows_of (found_of values.now))) }
    ensures count { IfSome result (λ texts. (1 ≤ length texts.now) × (length texts.now ≤ 16)) }
{
    match all_given(values, "link") {
        Some(texts) if !texts.is_empty() && texts.len() <= MAX_LINKS => Some(texts),
        _ => None,
    }
}

/// The links of a gateway: those that receive, which are given first, in one profile, and those that send in another.
pub fn gate_links(
    alloc: Global,
    values: &ArgMatches<'_>,
    incoming: Profile,
    onward: Profile,
) -> Result<(Vec<LinkSpec>, Vec<LinkSpec>), Refused>
    ensures ok { IfOk result (λ links.
        gate_links_of incoming onward (all_of (codes "link") (rows_of (found_of values.now)))
        (first_of (codes "in") (rows_of (found_of values.now))) ≡ Some (links.0.items, links.1.items)) }
    ensures usage { result ≡ Err Refused.Usage
        → gate_links_of incoming onward (all_of (codes "link") (rows_of (found_of values.now)))
        (first_of (codes "in") (rows_of (found_of values.now))) ≡ None }
    ensures some { IfOk result (λ links. 1 ≤ length links.1.items) }
{
    let texts = link_texts(values).ok_or(Refused::Usage)?;
    let count = inputs_of(values, texts.len()).ok_or(Refused::Usage)?;
    let (received, sent) = texts.split_at(count);
    let inputs = each_link(alloc, Role::Receives, incoming, received)?;
    let outputs = each_link(alloc, Role::Forwards, onward, sent)?;
    Ok((inputs, outputs))
}

/// How many of the links receive: fewer than all.
pub fn inputs_of(values: &ArgMatches<'_>, links: usize) -> Option<usize>
    ensures value { result ≡ inputs_of links (first_of (codes "in") (rows_of (found_of values.now))) }
    ensures fewer { IfSome result (λ n. n < links) }
{
    if links < 2 {
        return None;
    }
    Some(number(values, "in", input_counts(links))? as usize)
}

/// The numbers of links that can receive, of two or more.
pub fn input_counts(links: usize) -> Numbers
    requires two { 2 ≤ links }
    ensures value { result ≡ input_counts links }
{
    Numbers {
        default: 1,
        least: 1,
        most: links as u64 - 1,
        multiple_of: 1,
    }
}

/// The texts that are given at a position.
pub fn all_given<'m, 'a>(matches: &'m ArgMatches<'a>, id: &str) -> Option<&'m [&'a str]>
    ensures { option_map (λ texts. map (λ t. t.now) texts.now) result ≡ all_of id.now (rows_of (found_of matches.now)) }
{
    matches.get_strs(id)
}

/// These texts as links.
fn each_link(
    alloc: Global,
    role: Role,
    profile: Profile,
    texts: &[&str],
) -> Result<Vec<LinkSpec>, Refused>
    ensures ok { IfOk result (λ links. each_link role profile (map (λ t. t.now) texts.now) ≡ Some links.items) }
    ensures usage { result ≡ Err Refused.Usage → each_link role profile (map (λ t. t.now) texts.now) ≡ None }
    ensures count { IfOk result (λ links. length links.items ≡ length texts.now) }
{
    let mut links = Vec::new(alloc);
    for text in texts {
        match link_of(role, profile, text) {
            Some(link) => push(&mut links, link)?,
            None => return Err(Refused::Usage),
        }
    }
    Ok(links)
}

/// A link in a role: `a.b.c.d:port` or `[ADDRESS]:port`, and behind a question mark, where it calls, how datagrams leave this
/// machine.
pub fn link_of(role: Role, profile: Profile, text: &str) -> Option<LinkSpec>
    ensures { result ≡ link_of role profile text.now }
{
    let (place, settings) = first_part(text, '?');
    let (address, port) = place_of(place)?;
    let port = number_in(port, link_ports(profile))? as u16;
    let settings = settings_in(role, address, settings)?;
    Some(LinkSpec {
        address,
        port,
        from: settings.from,
        ttl: settings.ttl,
    })
}

/// The role of the links that a stream is received on: they call, or they listen.
pub fn receiving_role(calls: bool) -> Role
    ensures value { result ≡ receiving_role calls }
{
    if calls {
        Role::ReceivesCalling
    } else {
        Role::Receives
    }
}

/// The role of the links that a source is sent on: they listen, or they call.
pub fn sending_role(listens: bool) -> Role
    ensures value { result ≡ sending_role listens }
{
    if listens {
        Role::SendsListening
    } else {
        Role::Sends
    }
}

/// How datagrams of a link to an address leave this machine. Of one that listens nothing is written.
fn settings_in(role: Role, address: IpAddr, text: Option<&str>) -> Option<Settings>
    ensures { result ≡ settings_in role address (option_map (λ t. t.now) text.entry) }
{
    match (role, text) {
        (Role::Receives | Role::SendsListening, None) => Some(Settings::none()),
        (Role::Receives | Role::SendsListening, Some(_)) => None,
        (Role::ReceivesCalling | Role::Sends | Role::Forwards, text) => Settings::to(address, text),
    }
}

/// The ports that a link can have: in the Simple Profile even ones, since RTCP has the next one.
pub fn link_ports(profile: Profile) -> Numbers
    ensures value { result ≡ link_ports profile }
    ensures step { 0 < result.multiple_of }
    ensures most { result.most ≤ 65535 }
{
    match profile {
        Profile::Simple => Numbers {
            default: 2,
            least: 2,
            most: 65_534,
            multiple_of: 2,
        },
        Profile::Main => Numbers {
            default: 1,
            least: 1,
            most: 65_535,
            multiple_of: 1,
        },
    }
}

/// The text before the first of a mark, and the text behind it.
pub(crate) fn split_at<'a>(text: &'a str, mark: char) -> Option<(&'a str, &'a str)>
    requires ascii { mark < 128 }
    ensures { option_map (λ s. (s.0.now, s.1.now)) result ≡ split_at mark text.now }
{
    text.split_once(mark)
}

/// The weights of so many links, if some are given.
pub fn share(
    alloc: Global,
    values: &ArgMatches<'_>,
    links: usize,
) -> Result<Option<Vec<u8>>, Refused>
    requires some { 1 ≤ links }
    ensures ok { IfOk result (λ share. shares_of links (first_of (codes "share") (rows_of (found_of values.now)))
        ≡ Some (option_map (λ weights. weights.items) share)) }
    ensures usage { result ≡ Err Refused.Usage
        → shares_of links (first_of (codes "share") (rows_of (found_of values.now))) ≡ None }
{
    match given(values, "share") {
        None => Ok(None),
        Some(text) => match weights_in(alloc, links, text) {
            Ok(weights) => Ok(Some(weights)),
            Err(refused) => Err(refused),
        },
    }
}

/// So many weights.
fn weights_in(alloc: Global, links: usize, text: &str) -> Result<Vec<u8>, Refused>
    requires some { 1 ≤ links }
    ensures ok { IfOk result (λ weights. weights_in links text.now ≡ Some weights.items) }
    ensures usage { result ≡ Err Refused.Usage → weights_in links text.now ≡ None }
{
    let mut weights = Vec::new(alloc);
    let mut rest = text;
    for _ in 1..links {
        let Some((front, back)) = split_at(rest, ':') else {
            return Err(Refused::Usage);
        };
        match number_in(front, WEIGHT) {
            Some(weight) => push(&mut weights, weight as u8)?,
            None => return Err(Refused::Usage),
        }
        rest = back;
    }
    match number_in(rest, WEIGHT) {
        Some(weight) => push(&mut weights, weight as u8)?,
        None => return Err(Refused::Usage),
    }
    Ok(weights)
}

/// Adds one more behind the others.
pub(crate) fn push<T: Drop>(list: &mut Vec<T>, item: T) -> Result<(), AllocError>
    ensures ok { OnOk result (list.new.items ≡ list.old.items ++ item ∷ []) }
{
    list.push(item)?;
    Ok(())
}
