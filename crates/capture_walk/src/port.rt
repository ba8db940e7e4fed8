//! The records of the datagrams in a pcap file.
ghost use Rattle.std.specs.Prelude.{◌≡◌, ◌<◌, ◌≤◌, ◌^◌, [], false, length, take, IfSome};
ghost use Rattle.outside_io.specs.Causes.{HasReadCause};
ghost use Rattle.capture_file.specs.Capture.{Fits};
ghost use Rattle.capture_file.specs.Heads.{record_of};
ghost use Rattle.pcap_file.specs.Converted.{datagram_of, records_at};
ghost use Rattle.pcap_file.specs.Reader.{new_reader};
ghost use Rattle.capture_walk.specs.Inside.Frames.{HasReadPort, IsTurn, IfGiven, IfFrame, length_given, records_given, spent_after, turn_fault};
ghost use Rattle.capture_walk.specs.declared.walk_bad.WalkBad.TheVariants.{ReadFault, WriteFault, Memory};

use crate::records::Records;
use crate::walk_bad::WalkBad;
use capture_file::Head;
use link_channels::{MAX_DATAGRAM, Profile};
use outside_io::{Source, copy_front};
use pcap_file::{PcapReader, datagram_in};
use std::marker::Model;

/// The most octets of a frame that are given.
const FRAME_LEN: usize = 4096;

/// Reads the datagrams that the frames of a pcap file carry to a UDP port: in the Main Profile the tunnel, in the Simple
/// Profile media at the port and control at the next one. Each is a record on link 0 at its frame's time; other frames are
/// stepped over.
#[derive(Drop)]
pub struct PortReader<S: Source> {
    frames: PcapReader<S>,
    profile: Profile,
    port: u16,
    frame: [u8; FRAME_LEN],
    block: [u8; MAX_DATAGRAM],
    /// How many octets of the block the record has that was read last.
    length: usize,
}

impl<S: Source> Model for PortReader<S> {
    ghost use Rattle.std.specs.Prelude.{◌≤◌, take};
    ghost use Rattle.link_channels.specs.declared.bounds.TheConstants.{MAX_DATAGRAM};
    ghost use Rattle.capture_walk.specs.Port.{PortState};

    ghost Value = { PortState };

    ghost view = { λ r. record {
      frames = r.frames;
      profile = r.profile;
      port = r.port;
      octets = take r.length r.block;
    } };

    ghost invariant = { λ r. r.length ≤ MAX_DATAGRAM };
}

/// What a turn of a reader comes to.
#[derive(Clone, Copy)]
enum Turn {
    /// A frame, and the head of the record that it carries, if it carries one to the port.
    Frame(Option<Head>),
    /// The end of the file.
    End,
    /// No frame stands there, or the source failed.
    Bad(WalkBad),
}

impl<S: Source> PortReader<S> {
    /// A reader of what the source gives. A pcap file's header stands first.
    #[tactic(auto, using(crate::proofs::PortLemmas::new_has_read))]
    pub fn over(source: S, profile: Profile, port: u16) -> PortReader<S>
        ensures value { result ≡ record {
          frames = new_reader (S.remaining source) (S.faults source);
          profile = profile;
          port = port;
          octets = [];
        } }
        // Nothing is read yet.
        ensures start { HasReadPort result.frames.remaining result [] }
    {
        PortReader {
            frames: PcapReader::over(source),
            profile,
            port,
            frame: [0; FRAME_LEN],
            block: [0; MAX_DATAGRAM],
            length: 0,
        }
    }

    // Reads a frame, and the datagram that it carries to the port, if it carries one.
    fn turn(&mut self) -> Turn
        requires running { self.old.frames.spent ≡ false }
        ensures value { IsTurn self.old self.new self.new.octets result }
        ensures fits { IfGiven result (λ head. Fits (record_of head self.new.octets)) }
        ensures size { IfGiven result (λ head. length self.new.octets ≡ head.length) }
        ensures same { (self.new.profile ≡ self.old.profile) × (self.new.port ≡ self.old.port) }
        ensures progress { IfFrame result ((self.old.frames.at < self.new.frames.at)
            × (self.new.frames.at ≤ 2 ^ 40)) }
        ensures spent { self.new.frames.spent ≡ spent_after result }
        ensures own { (result ≡ Turn.Bad WriteFault → ⊥) × (result ≡ Turn.Bad Memory → ⊥) }
        ensures ahead { result ≡ Turn.Bad ReadFault → self.new.frames.ahead ≡ [] }
        ensures cause { HasReadCause (turn_fault result) self.old.frames.faults self.new.frames.faults }
    {
        match self.frames.next(&mut self.frame) {
            Ok(Some(frame)) => {
                let octets = &self.frame[..frame.length];
                let given = taken(
                    frame.at_us,
                    frame.link_type,
                    octets,
                    self.profile,
                    self.port,
                    &mut self.block,
                );
                self.length = length_given(given);
                Turn::Frame(given)
            }
            Ok(None) => Turn::End,
            Err(bad) => Turn::Bad(WalkBad::from(bad)),
        }
    }
}

// The head of the record that a frame of this time carries to a port, if it carries one. The record's octets then stand in
// the front of the block.
fn taken(
    us: u64,
    link_type: u16,
    octets: &[u8],
    profile: Profile,
    port: u16,
    block: &mut [u8; MAX_DATAGRAM],
) -> Option<Head>
    ensures value { records_at us (datagram_of profile port link_type octets.now)
        ≡ records_given result (take (length_given result) block.new) }
    ensures fits { IfSome result (λ head. Fits (record_of head (take head.length block.new))) }
    ensures size { IfSome result (λ head. length (take head.length block.new) ≡ head.length) }
{
    let (channel, octets) = datagram_in(link_type, octets, profile, port)?;
    let length = copy_front(octets, block);
    Some(Head {
        link: 0,
        channel,
        length: length as u16,
        us,
    })
}

// How many octets a record has, if there is one.
fn length_given(given: Option<Head>) -> usize
    ensures value { result ≡ length_given given }
{
    match given {
        Some(head) => head.length as usize,
        None => 0,
    }
}

impl<S: Source> Records for PortReader<S> {
    ghost use Rattle.capture_walk.specs.Form.{Pcap};

    type Input = S;

    ghost form = { λ r. Pcap r.profile r.port };

    ghost remaining = { λ r. r.frames.remaining };

    ghost ahead = { λ r. r.frames.ahead };

    ghost faults = { λ r. r.frames.faults };

    ghost at = { λ r. r.frames.at };

    ghost spent = { λ r. r.frames.spent };

    ghost octets = { λ r. r.octets };

    ghost has_read = { λ r first done. HasReadPort first r done };

    fn next_record(&mut self) -> Result<Option<Head>, WalkBad> {
        loop {
            match self.turn() {
                Turn::Frame(Some(head)) => return Ok(Some(head)),
                Turn::Frame(None) => {}
                Turn::End => return Ok(None),
                Turn::Bad(bad) => return Err(bad),
            }
        }
    }

    fn lend<A, B, R, F: FnOnce(&mut [u8], &mut A, &mut B) -> R>(
        &mut self,
        one: &mut A,
        other: &mut B,
        call: F,
    ) -> R {
        call(&mut self.block[..self.length], one, other)
    }

    fn back(self) -> S {
        self.frames.back()
    }
}
