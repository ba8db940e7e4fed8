//! The packets of a compound, one after another, with the requests among them.
ghost use Rattle.std.specs.Prelude.{◌≡◌, ◌≤◌, ◌<◌, ◌+◌, ◌^◌, [], ◌++◌, length, take, drop, None, Some, MatchOption, option_map};
ghost use Rattle.rtcp_compound.specs.Seen.{seen};
ghost use Rattle.rist_nack.specs.Requests.{flow_of, request_in, upper_in};
ghost use Rattle.rist_nack.specs.Asked.{newer, upper_after, is_wanted};
ghost use Rattle.rist_nack.specs.Seen.{request_seen, asks_given};

use crate::words::Words;
use octet_fields::u16_at;
use rtcp_compound::{Compound, Packet, Packets, is_rist};
use std::marker::Model;

/// The flow of a source: its SSRC with the lowest bit cleared, which marks retransmissions (VSF TR-06-1).
pub fn flow(ssrc: u32) -> u32
    ensures value { result ≡ flow_of ssrc }
{
    ssrc / 2 * 2
}

// Whether a flow's requests are wanted.
fn wants(wanted: Option<u32>, media: u32) -> bool
    ensures { result ≡ is_wanted wanted media }
{
    match wanted {
        None => true,
        Some(one) => flow(one) == media,
    }
}

// A packet that is a request.
#[derive(Clone, Copy)]
struct Found<'a> {
    media: u32,
    is_mask: bool,
    words: &'a [u8],
}

// The request that a packet is, if it is one.
fn request_of(packet: Packet<'_>) -> Option<Found<'_>>
    ensures { option_map request_seen result ≡ request_in (seen packet.entry) }
{
    match packet {
        Packet::App {
            subtype,
            ssrc,
            name,
            words,
        } if subtype == 0 && is_rist(&name) => Some(Found {
            media: flow(ssrc),
            is_mask: false,
            words,
        }),
        Packet::Feedback {
            kind,
            format,
            media,
            words,
            ..
        } if kind == 205 && format == 1 => Some(Found {
            media: flow(media),
            is_mask: true,
            words,
        }),
        _ => None,
    }
}

// The upper half that a packet sets for a flow, if it does.
fn upper_of(packet: Packet<'_>, media: u32) -> Option<u16>
    ensures { result ≡ upper_in media (seen packet.entry) }
{
    match packet {
        Packet::App {
            subtype,
            ssrc,
            name,
            words,
        } if subtype == 1 && is_rist(&name) && flow(ssrc) == media && 4 <= words.len() => {
            Some(u16_at(words, 0))
        }
        _ => None,
    }
}

// The newer of two upper halves.
fn newer_of(upper: Option<u16>, half: Option<u16>) -> Option<u16>
    ensures { result ≡ newer half upper }
{
    match half {
        Some(half) => Some(half),
        None => upper,
    }
}

// The upper half that holds for a flow behind so many packets of a compound.
fn upper_behind(compound: &Compound<'_>, count: usize, media: u32) -> Option<u16>
    requires { count ≤ length compound.now }
    ensures { result ≡ upper_after media None (take count compound.now) }
{
    let mut upper = None;
    let mut packets = compound.packets();
    for _ in 0..count {
        let Some(packet) = packets.next() else {
            return upper;
        };
        upper = newer_of(upper, upper_of(packet, media));
    }
    upper
}

// The upper half that holds for a flow, where that of another is known.
fn upper_for(
    compound: &Compound<'_>,
    count: usize,
    known: u32,
    upper: Option<u16>,
    media: u32,
) -> Option<u16>
    requires within { count ≤ length compound.now }
    requires known { upper ≡ upper_after known None (take count compound.now) }
    ensures { result ≡ upper_after media None (take count compound.now) }
{
    if known == media {
        return upper;
    }
    upper_behind(compound, count, media)
}

/// A compound that is read packet by packet. The upper half that holds for the last flow is kept, so
/// that a compound of one flow is read once.
#[derive(Debug, Drop)]
pub(crate) struct Requests<'a> {
    wanted: Option<u32>,
    compound: &'a Compound<'a>,
    count: usize,
    packets: Packets<'a>,
    media: u32,
    upper: Option<u16>,
}

impl<'a> Model for Requests<'a> {
    ghost use Rattle.std.specs.Prelude.{◌≡◌, ◌≤◌, ◌<◌, ◌^◌, None, length, take, drop};
    ghost use Rattle.rist_nack.specs.Asked.{upper_after};
    ghost use Rattle.rist_nack.specs.State.{Left};

    ghost Value = { Left };

    ghost view = { λ r. record { wanted = r.wanted; before = take r.count r.compound.now; packets = r.packets } };

    ghost invariant = { λ r. (r.packets ≡ drop r.count r.compound.now) × (r.count ≤ length r.compound.now) × (length r.compound.now < 2 ^ 64) × (r.upper ≡ upper_after r.media None (take r.count r.compound.now)) };
}

impl<'a> Requests<'a> {
    ghost use Rattle.rist_nack.specs.State.{Left, asks_left};

    // A compound from its first packet on.
    pub(crate) fn of(compound: &'a Compound<'a>, wanted: Option<u32>) -> Requests<'a>
        ensures { result ≡ record { wanted = wanted; before = []; packets = compound.now } }
    {
        Requests {
            wanted,
            compound,
            count: 0,
            packets: compound.packets(),
            media: 0,
            upper: None,
        }
    }

    // Reads one packet: `None` behind the last one, and else its asks, if it is a request that is wanted.
    pub(crate) fn step(&mut self) -> Option<Option<Words<'a>>>
        ensures asks { MatchOption result ((asks_left self.old ≡ []) × (asks_left self.new ≡ []))
            (λ words. asks_left self.old ≡ asks_given words ++ asks_left self.new) }
        ensures shorter { MatchOption result (self.new ≡ self.old) (λ words. length self.new.packets
            < length self.old.packets) }
    {
        let packet = self.packets.next()?;
        let before = self.count;
        let held = self.upper;
        self.count += 1;
        self.upper = newer_of(held, upper_of(packet, self.media));
        let Some(found) = request_of(packet) else {
            return Some(None);
        };
        if !wants(self.wanted, found.media) {
            return Some(None);
        }
        let upper = upper_for(self.compound, before, self.media, held, found.media);
        self.media = found.media;
        self.upper = newer_of(upper, upper_of(packet, found.media));
        Some(Some(Words::of(found.is_mask, upper, found.media, found.words)))
    }
}
