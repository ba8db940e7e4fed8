//! A link in memory.
ghost use Rattle.std.specs.Prelude.{◌≡◌, ◌<◌, ◌≤◌, ◌++◌, ◌∷◌, [], length, take, vec_capacity};
ghost use Rattle.outside_net.specs.Links.{IsWithin, answer_of, KnowsAfter, has_read_failed, has_come_to_end};
ghost use Rattle.outside_net.specs.Scripts.{answer_in, FitsDatagram};

use crate::call_list::CallList;
use crate::peers::Known;
use crate::{Got, Link, Octets};
use link_channels::{Channel, MAX_DATAGRAM};
use outside_io::{Failed, NoMemory, copy_front};
use std::alloc::Global;
use std::marker::Model;

/// What a read is to answer.
#[derive(Drop)]
pub enum ScriptRead {
    /// A datagram.
    Datagram(Channel, Octets),
    /// No datagram.
    Quiet,
}

/// A datagram that was taken.
#[derive(Drop)]
struct Taken {
    channel: Channel,
    length: usize,
    block: [u8; MAX_DATAGRAM],
}

impl Model for Taken {
    ghost use Rattle.link_channels.specs.declared.bounds.TheConstants.{MAX_DATAGRAM};
    ghost use Rattle.std.specs.Prelude.{◌≤◌, take};
    ghost use Rattle.outside_net.specs.Links.{Datagram};

    ghost Value = { Datagram };

    ghost view = { λ t. record { channel = t.channel; octets = take t.length t.block } };

    ghost invariant = { λ t. t.length ≤ MAX_DATAGRAM };
}

/// Answers its reads by a script, and then that no datagram will come any more. It takes datagrams where the channel's
/// peer is known, up to its room. Calls that are listed fail.
#[derive(Drop)]
pub struct ScriptLink {
    script: Vec<ScriptRead>,
    at: usize,
    reads: CallList,
    writes: CallList,
    known: Known,
    /// The peers that were known before the last datagram.
    before: Known,
    taken: Vec<Taken>,
    room: usize,
    faults: u64,
    ends: u64,
}

impl Model for ScriptLink {
    ghost use Rattle.std.specs.Prelude.{◌≤◌, length, drop, vec_capacity};
    ghost use Rattle.std.specs.List.{All};
    ghost use Rattle.outside_net.specs.Scripts.{ScriptState, FitsDatagram};

    ghost Value = { ScriptState };

    ghost view = { λ l. record {
      script = drop l.at l.script.items;
      reads = l.reads;
      writes = l.writes;
      known = l.known;
      before = l.before;
      taken = l.taken.items;
      room = l.room;
      faults = l.faults;
      ends = l.ends;
    } };

    ghost invariant = { λ l. (l.at ≤ length l.script.items) × (l.room ≤ vec_capacity l.taken)
        × (length l.taken.items ≤ l.room) × All FitsDatagram l.script.items };
}

impl ScriptLink {
    ghost use Rattle.std.specs.Prelude.{◌≡◌, ◌↔◌, [], ℕ, IfOk, IsTrue, option_map, slice_get};
    ghost use Rattle.std.specs.List.{All};
    ghost use Rattle.link_channels.specs.declared.channel.Channel.{Channel as ChannelValue};
    ghost use Rattle.outside_net.specs.Scripts.{ScriptState, FitsDatagram, knows_in, IsNewLink};

    /// A link of this script, whose datagrams have at most 2,048 octets each. `peer` says whether every channel's peer
    /// is known at the start. It has room for so many datagrams, which it takes when it is made. The reads and writes
    /// that are to fail are listed by their places, from 0.
    pub fn with(
        alloc: Global,
        reads: Vec<ScriptRead>,
        peer: bool,
        room: usize,
        failing_reads: &[u64],
        failing_writes: &[u64],
    ) -> Result<ScriptLink, NoMemory>
        requires { All FitsDatagram reads.items }
        ensures value { IfOk result (λ link.
            IsNewLink reads.items peer room failing_reads.now failing_writes.now link) }
    {
        Ok(ScriptLink {
            script: reads,
            at: 0,
            reads: CallList::with(alloc, failing_reads)?,
            writes: CallList::with(alloc, failing_writes)?,
            known: Known::all(peer),
            before: Known::all(peer),
            taken: Vec::with_capacity(alloc, room)?,
            room,
            faults: 0,
            ends: 0,
        })
    }

    /// Whether it took no datagram.
    pub fn is_unwritten(&self) -> bool
        ensures value { IsTrue result ↔ (self.now.taken ≡ []) }
    {
        self.taken.is_empty()
    }

    /// Whether the peer of a channel is known.
    pub fn has_peer(&self, channel: Channel) -> bool
        ensures value { result ≡ knows_in self.now.known channel }
    {
        self.known.has(channel)
    }

    /// The channel and the octets of a datagram that was taken, by its place from 0.
    pub fn taken(&self, place: usize) -> Option<(Channel, &[u8])>
        ensures value { option_map (λ d. record { channel = d.0; octets = d.1.now }) result
            ≡ slice_get self.now.taken place }
    {
        match self.taken.get(place) {
            Some(taken) => Some((taken.channel, &taken.block[..taken.length])),
            None => None,
        }
    }
}

// Answers a read as the script says.
fn answer(read: &ScriptRead, block: &mut [u8; MAX_DATAGRAM]) -> Got
    requires { FitsDatagram read.now }
    ensures within { IsWithin result }
    ensures value { answer_of result block.new ≡ answer_in read.now }
{
    match read {
        ScriptRead::Datagram(channel, octets) => {
            let count = copy_front(octets.as_slice(), block);
            Got::Datagram(*channel, count)
        }
        ScriptRead::Quiet => Got::Quiet,
    }
}

// A datagram as it is kept.
fn kept_of(channel: Channel, octets: &[u8]) -> Taken
    requires { length octets.now ≤ MAX_DATAGRAM }
    ensures value { result ≡ record { channel = channel; octets = octets.now } }
{
    let mut block = [0; MAX_DATAGRAM];
    block[..octets.len()].copy_from_slice(octets);
    Taken {
        channel,
        length: octets.len(),
        block,
    }
}

// Adds one more where there is room.
fn push_within(taken: &mut Vec<Taken>, one: Taken)
    requires room { length taken.old.items < vec_capacity taken.old }
    ensures items { taken.new.items ≡ taken.old.items ++ one ∷ [] }
    ensures room { vec_capacity taken.old ≤ vec_capacity taken.new }
{
    let _ = taken.push(one);
}

impl Link for ScriptLink {
    ghost use Rattle.std.specs.Prelude.{Some};
    ghost use Rattle.outside_net.specs.Scripts.{answers_of, knows_in};

    ghost reads = { λ link. Some (answers_of link.reads link.script) };

    ghost taken = { λ link. Some link.taken };

    ghost knows = { λ link. knows_in link.known };

    ghost knew = { λ link. knows_in link.before };

    ghost faults = { λ link. link.faults };

    ghost ends = { λ link. link.ends };

    fn read(&mut self, buf: &mut [u8; MAX_DATAGRAM]) -> Got {
        if self.reads.next_fails() {
            self.faults = self.faults.saturating_add(1);
            return Got::Failed;
        }
        if self.at == self.script.len() {
            self.ends = self.ends.saturating_add(1);
            return Got::End;
        }
        let got = answer(&self.script[self.at], buf);
        self.at += 1;
        if let Got::Datagram(channel, _) = got {
            self.before = self.known;
            self.known.learn(channel);
        }
        got
    }

    fn refuse(&mut self) {
        self.known = self.before;
    }

    fn write(&mut self, channel: Channel, octets: &[u8]) -> Result<bool, Failed> {
        if self.writes.next_fails() {
            self.faults = self.faults.saturating_add(1);
            return Err(Failed);
        }
        if !self.known.has(channel) {
            return Ok(false);
        }
        if self.taken.len() == self.room || octets.len() > MAX_DATAGRAM {
            self.faults = self.faults.saturating_add(1);
            return Err(Failed);
        }
        push_within(&mut self.taken, kept_of(channel, octets));
        Ok(true)
    }
}
