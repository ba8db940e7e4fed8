//! The echoes of a compound: requests and answers, in its order (this profile).
ghost use Rattle.std.specs.Prelude.{◌≡◌, ◌≤◌, length, option_map};
ghost use Rattle.rtcp_compound.specs.Seen.{seen};
ghost use Rattle.rist_rtt.specs.Echo.{stamp_in, delay_in, echo_seen, echo_in, echoes_in};

use octet_fields::{u32_at, u64_at};
use rtcp_compound::{Packet, Packets, is_rist};
use std::marker::Model;

/// A request to measure the round-trip time, or an answer.
#[derive(Clone, Copy, Debug, PartialEq, Eq)]
pub struct Echo<'a> {
    /// An answer (subtype 3), or a request (subtype 2).
    pub answer: bool,
    /// The packet's SSRC, as it stands there.
    pub flow: u32,
    /// The requester's clock when it asked, in microseconds.
    pub stamp: u64,
    /// How long the other end took to answer, in microseconds.
    pub delay: u32,
    /// The octets of further words, which an answer copies.
    pub more: &'a [u8],
}

#[tactic(auto, unfolding(crate::specs::Echo::stamp_in))]
fn stamp_of(words: &[u8]) -> u64
    requires { 12 ≤ length words.now }
    ensures { result ≡ stamp_in words.now }
{
    u64_at(words, 0)
}

#[tactic(auto, unfolding(crate::specs::Echo::delay_in))]
fn delay_of(words: &[u8]) -> u32
    requires { 12 ≤ length words.now }
    ensures { result ≡ delay_in words.now }
{
    u32_at(words, 8)
}

// The echo that a packet is, if it is one.
fn echo_of(packet: Packet<'_>) -> Option<Echo<'_>>
    ensures { option_map echo_seen result ≡ echo_in (seen packet.entry) }
{
    match packet {
        Packet::App {
            subtype,
            ssrc,
            name,
            words,
        } if (subtype == 2 || subtype == 3) && is_rist(&name) && words.len() >= 12 => Some(Echo {
            answer: subtype == 3,
            flow: ssrc,
            stamp: stamp_of(words),
            delay: delay_of(words),
            more: &words[12..],
        }),
        _ => None,
    }
}

/// The echoes of a compound that are left to give.
#[derive(Debug, Drop)]
pub struct Echoes<'a> {
    packets: Packets<'a>,
}

impl<'a> Model for Echoes<'a> {
    ghost use Rattle.std.specs.Prelude.{List};
    ghost use Rattle.rist_rtt.specs.Echo.{EchoOf, echoes_in};

    ghost Value = { List EchoOf };

    ghost view = { λ e. echoes_in e.packets };
}

impl<'a> Echoes<'a> {
    /// Those of these packets.
    pub(crate) fn of(packets: Packets<'a>) -> Echoes<'a>
        ensures { result ≡ echoes_in packets.entry }
    {
        Echoes { packets }
    }
}

impl<'a> Iterator for Echoes<'a> {
    type Item = Echo<'a>;

    ghost use Rattle.std.specs.Iterator.{YieldsFirstBy, item_count};
    ghost use Rattle.rist_rtt.specs.Echo.{echo_seen};

    ghost next_gives = { YieldsFirstBy echo_seen (λ es. es) };

    ghost remaining = { item_count (λ es. es) };

    fn next(&mut self) -> Option<Echo<'a>> {
        while let Some(packet) = self.packets.next() {
            if let Some(echo) = echo_of(packet) {
                return Some(echo);
            }
        }
        None
    }
}
