//! The tests of a compound, packet by packet, in their order.
ghost use Rattle.std.specs.Prelude.{◌≡◌, ◌≤◌, ◌<◌, ◌+◌, ◌-◌, ◌*◌, ◌^◌, length, IfOk, IfErr, OnOk, Some, None, true, false, option_map};
ghost use Rattle.rtcp_compound.specs.Chunks.{after_items, after_chunk, has_chunks};
ghost use Rattle.rtcp_compound.specs.Reading.{length_in, padding_in, body_in, pads_well, is_reason, has_body, fault_at, fault_of};

use crate::refusal::{RtcpBad, RtcpWhy};
use octet_fields::u16_at;

/// Octets of a report block.
pub(crate) const BLOCK_LEN: usize = 24;

/// The length of the packet at the front, header and padding included, as its header says.
#[tactic(auto, unfolding(crate::specs::Reading::length_in))]
pub(crate) fn packet_len(octets: &[u8]) -> usize
    requires { 4 ≤ length octets.now }
    ensures value { result ≡ length_in octets.now }
    ensures least { 4 ≤ result }
    ensures most { result ≤ 2 ^ 18 }
{
    4 * (usize::from(u16_at(octets, 2)) + 1)
}

/// The octets of padding that the packet's last octet counts; 0 where P isn't set.
fn padding_len(octets: &[u8]) -> usize
    requires header { 4 ≤ length octets.now }
    requires whole { length_in octets.now ≤ length octets.now }
    ensures { result ≡ padding_in octets.now }
{
    if octets[0] / 32 % 2 == 1 {
        octets[packet_len(octets) - 1] as usize
    } else {
        0
    }
}

/// The body of the packet at the front, without padding.
pub(crate) fn body_of(octets: &[u8]) -> &[u8]
    requires header { 4 ≤ length octets.now }
    requires whole { length_in octets.now ≤ length octets.now }
    requires padded { padding_in octets.now + 4 ≤ length_in octets.now }
    ensures { result.now ≡ body_in octets.now }
{
    let end = packet_len(octets) - padding_len(octets);
    &octets[4..end]
}

/// Whether padding stands in the last packet alone, and is one or more whole words of the body.
fn pads(octets: &[u8]) -> bool
    requires header { 4 ≤ length octets.now }
    requires whole { length_in octets.now ≤ length octets.now }
    ensures { result ≡ pads_well octets.now }
{
    if octets[0] / 32 % 2 != 1 {
        return true;
    }
    let length = packet_len(octets);
    let padding = padding_len(octets);
    length == octets.len() && padding != 0 && padding % 4 == 0 && padding <= length - 4
}

// What stands after the items of a chunk and the zero octet that ends them.
#[tactic(auto, using(crate::proofs::ChunkLemmas::item_cases))]
fn past_items(octets: &[u8]) -> Option<&[u8]>
    ensures { option_map (λ r. r.now) result ≡ after_items 0 octets.now }
{
    let mut rest = octets;
    while !rest.is_empty() {
        if rest[0] == 0 {
            return Some(&rest[1..]);
        }
        if rest.len() < 2 {
            return None;
        }
        let end = 2 + rest[1] as usize;
        if rest.len() < end {
            return None;
        }
        rest = &rest[end..];
    }
    None
}

/// What stands after one chunk, in a body of whole words.
fn past_chunk(body: &[u8]) -> Option<&[u8]>
    ensures { option_map (λ r. r.now) result ≡ after_chunk body.now }
{
    if body.len() < 4 {
        return None;
    }
    match past_items(&body[4..]) {
        Some(rest) => Some(&rest[rest.len() % 4..]),
        None => None,
    }
}

/// Whether a body of whole words begins with so many chunks.
fn describes(count: u8, body: &[u8]) -> bool
    ensures { result ≡ has_chunks count body.now }
{
    let mut rest = body;
    for _ in 0..count {
        match past_chunk(rest) {
            Some(next) => rest = next,
            None => return false,
        }
    }
    true
}

/// Whether nothing stands here, or a length and at least so many octets.
fn gives_reason(octets: &[u8]) -> bool
    ensures { result ≡ is_reason octets.now }
{
    match octets {
        [] => true,
        [size, text @ ..] => *size as usize <= text.len(),
    }
}

/// Whether the body holds what its type and count say.
fn holds(kind: u8, count: u8, body: &[u8]) -> bool
    ensures { result ≡ has_body kind count body.now }
{
    let blocks = BLOCK_LEN * count as usize;
    let sources = 4 * count as usize;
    match kind {
        200 => 24 + blocks <= body.len(),
        201 => 4 + blocks <= body.len(),
        202 => describes(count, body),
        203 => sources <= body.len() && gives_reason(&body[sources..]),
        204..=206 => 8 <= body.len(),
        _ => true,
    }
}

/// The length of the packet at the front, or the first test that it fails.
fn tested(octets: &[u8], first: bool) -> Result<usize, RtcpWhy>
    ensures length { IfOk result (λ n. n ≡ length_in octets.now) }
    ensures within { IfOk result (λ n. (4 ≤ n) × (n ≤ length octets.now)) }
    ensures accepted { OnOk result (fault_at first octets.now ≡ None) }
    ensures refused { IfErr result (λ why. fault_at first octets.now ≡ Some why) }
{
    if octets.len() < 4 {
        return Err(RtcpWhy::Short);
    }
    if octets[0] / 64 != 2 {
        return Err(RtcpWhy::Version);
    }
    let kind = octets[1];
    if kind < 192 || kind > 223 {
        return Err(RtcpWhy::Kind);
    }
    if first && kind != 200 && kind != 201 {
        return Err(RtcpWhy::First);
    }
    let length = packet_len(octets);
    if octets.len() < length {
        return Err(RtcpWhy::Length);
    }
    if !pads(octets) {
        return Err(RtcpWhy::Padding);
    }
    if !holds(kind, octets[0] % 32, body_of(octets)) {
        return Err(RtcpWhy::Body);
    }
    Ok(length)
}

/// Tests all packets, from the front.
pub(crate) fn test_all(octets: &[u8]) -> Result<(), RtcpBad>
    ensures accepted { OnOk result (fault_of octets.now ≡ None) }
    ensures refused { IfErr result (λ bad. fault_of octets.now ≡ Some bad) }
{
    let mut place = 0;
    'packets: loop {
        let rest = &octets[place..];
        match tested(rest, place == 0) {
            Err(why) => return Err(RtcpBad { why, place }),
            Ok(length) if length == rest.len() => return Ok(()),
            Ok(length) => place += length,
        }
    }
}
