//! Writes the records of a capture.
ghost use Rattle.std.specs.Prelude.{◌≡◌, ◌≤◌, ◌<◌, ◌+◌, true, false, length, take, OnOk, OnErr};
ghost use Rattle.link_channels.specs.declared.bounds.TheConstants.{MAX_LINKS};
ghost use Rattle.link_channels.specs.declared.bounds.TheConstants.{MAX_DATAGRAM};
ghost use Rattle.outside_io.specs.Causes.{HasCause};
ghost use Rattle.outside_io.specs.Told.{Appends, AppendsPart};
ghost use Rattle.capture_file.specs.Capture.{magic, channel_code, spelling};
ghost use Rattle.capture_file.specs.Heads.{head_octets, record_of};
ghost use Rattle.capture_file.specs.Writer.{WriterState, new_writer, onward_writer};

use crate::Head;
use crate::reader::MAGIC;
use link_channels::Channel;
use outside_io::{Sink, WriteFault};
use std::marker::Model;

// Octets of the longest record with its head.
const RECORD_LEN: usize = 2060;

fn code_of(channel: Channel) -> u8
    ensures value { result ≡ channel_code channel }
{
    match channel {
        Channel::Media => 0,
        Channel::Control => 1,
        Channel::Tunnel => 2,
    }
}

// The twelve octets of a head.
fn spelled_head(head: &Head) -> [u8; 12]
    ensures value { result ≡ head_octets head.now }
{
    let length = head.length.to_be_bytes();
    let us = head.us.to_be_bytes();
    [
        head.link,
        code_of(head.channel),
        length[0],
        length[1],
        us[0],
        us[1],
        us[2],
        us[3],
        us[4],
        us[5],
        us[6],
        us[7],
    ]
}

// Spells a record into the front of a block, and says how long it is.
fn spell(head: &Head, octets: &[u8], block: &mut [u8; RECORD_LEN]) -> usize
    requires fits { length octets.now ≤ MAX_DATAGRAM }
    requires length { head.now.length ≡ length octets.now }
    ensures value { take result block.new ≡ spelling (record_of head.now octets.now) }
    ensures within { result ≤ 2060 }
{
    let end = 12 + octets.len();
    block[..12].copy_from_slice(&spelled_head(head));
    block[12..end].copy_from_slice(octets);
    end
}

/// Writes a capture: the name first, and then the records, each by one call of the sink.
#[derive(Drop)]
pub struct Writer<K: Sink> {
    sink: K,
    begun: bool,
}

impl<K: Sink> Model for Writer<K> {
    ghost Value = { WriterState };

    ghost view = { λ w. record { contents = K.contents w.sink; begun = w.begun; faults = K.faults w.sink } };
}

impl<K: Sink> Writer<K> {
    /// A writer to the sink, which has written nothing yet.
    pub fn over(sink: K) -> Writer<K>
        ensures value { result ≡ new_writer (K.contents sink) (K.faults sink) }
    {
        Writer { sink, begun: false }
    }

    /// A writer of further records, to a sink in which the name stands already.
    pub fn onward(sink: K) -> Writer<K>
        ensures value { result ≡ onward_writer (K.contents sink) (K.faults sink) }
    {
        Writer { sink, begun: true }
    }

    /// Gives the sink back.
    pub fn back(self) -> K
        ensures value { K.contents result ≡ self.contents }
        ensures same { K.faults result ≡ self.faults }
    {
        self.sink
    }

    /// Writes the name, once and before any record. At a fault a front part of it was written.
    pub fn begin(&mut self) -> Result<(), WriteFault>
        requires fresh { self.old.begun ≡ false }
        ensures ok { OnOk result (Appends self.old.contents self.new.contents magic) }
        ensures err { OnErr result (AppendsPart self.old.contents self.new.contents magic) }
        ensures begun { self.new.begun ≡ true }
        ensures cause { HasCause self.old.faults self.new.faults result }
    {
        self.begun = true;
        match self.sink.put(&MAGIC) {
            Ok(()) => Ok(()),
            Err(_) => Err(WriteFault),
        }
    }

    /// Writes a record of these octets. At a fault a front part of it was written.
    pub fn add(&mut self, head: &Head, octets: &[u8]) -> Result<(), WriteFault>
        requires begun { self.old.begun ≡ true }
        requires link { head.now.link < MAX_LINKS }
        requires fits { length octets.now ≤ MAX_DATAGRAM }
        requires length { head.now.length ≡ length octets.now }
        ensures ok { OnOk result
            (Appends self.old.contents self.new.contents (spelling (record_of head.now octets.now))) }
        ensures err { OnErr result
            (AppendsPart self.old.contents self.new.contents (spelling (record_of head.now octets.now))) }
        ensures begun { self.new.begun ≡ true }
        ensures cause { HasCause self.old.faults self.new.faults result }
    {
        let mut block = [0; RECORD_LEN];
        let end = spell(head, octets, &mut block);
        match self.sink.put(&block[..end]) {
            Ok(()) => Ok(()),
            Err(_) => Err(WriteFault),
        }
    }
}
