//! A sink whose pieces go in datagrams.
ghost use Rattle.std.specs.Prelude.{◌≡◌, ◌<◌, ◌≤◌, [], length, Ok, OnOk, OnErr};
ghost use Rattle.std.specs.Option.{option_map};
ghost use Rattle.link_channels.specs.declared.bounds.TheConstants.{MAX_PAYLOAD as max_payload};
ghost use Rattle.outside_io.specs.Causes.{HasCause};
ghost use Rattle.outside_io.specs.Real.{silent};
ghost use Rattle.outside_io.specs.Told.{Appends, AppendsPart};
ghost use Rattle.outside_net.specs.Streams.{later};
ghost use Rattle.datagram_ends.specs.Ends.{IsHeadAt, Sends, SendsFront, SendsParts, number_after};

use crate::out::DatagramOut;
use link_channels::{MAX_DATAGRAM, MAX_PAYLOAD};
use media_address::Form;
use outside_io::{Failed, Sink};
use outside_net::Clock;
use receiver_rules::tick_of;
use rtp_packet::{RtpHead, write};
use std::marker::Model;

/// How many timestamps there are.
const STAMPS: u64 = 1 << 32;

/// Each piece of up to 1,500 octets goes in a datagram of its own, as it is or as the payload of an RTP packet (RFC 3550, section
/// 5.1; RFC 2250, section 2): payload type 33, numbers of its own that rise by one, and the clock's moment as the timestamp, in
/// ticks of 1/90,000 s. A longer piece goes in several, each but the last of 1,500 octets; an empty one in none. What it holds is not told as one list of octets, but
/// the datagrams are, where what sends them tells.
#[derive(Drop)]
pub struct DatagramSink<D: DatagramOut, C> {
    form: Form,
    out: D,
    clock: C,
    number: u16,
    ssrc: u32,
}

impl<D: DatagramOut, C> Model for DatagramSink<D, C> {
    ghost use Rattle.datagram_ends.specs.Ends.{DatagramSinkState};

    ghost Value = { DatagramSinkState C };

    ghost view = { λ sink. record {
      form = sink.form;
      number = sink.number;
      ssrc = sink.ssrc;
      clock = sink.clock;
      sent = D.sent sink.out;
      faults = D.faults sink.out;
    } };
}

impl<D: DatagramOut, C: Drop> DatagramSink<D, C> {
    /// Gives back what sends its datagrams.
    pub fn back(self) -> D
        ensures sent { D.sent result ≡ self.sent }
        ensures faults { D.faults result ≡ self.faults }
    {
        self.out
    }
}

impl<D: DatagramOut, C: Clock> DatagramSink<D, C> {
    /// A sink in this form. Of RTP the first packet has this number and all have this source.
    pub fn over(form: Form, out: D, clock: C, number: u16, ssrc: u32) -> DatagramSink<D, C>
        ensures value { result ≡ record {
          form = form;
          number = number;
          ssrc = ssrc;
          clock = clock;
          sent = D.sent out;
          faults = D.faults out;
        } }
    {
        DatagramSink {
            form,
            out,
            clock,
            number,
            ssrc,
        }
    }

    /// The header of the next RTP packet, at the clock's moment.
    fn next_head(&mut self) -> RtpHead
        ensures value { IsHeadAt C.moments self.old result }
        ensures state { self.new ≡ record self.old { number = number_after self.old.number; clock = self.new.clock } }
        ensures moments { C.moments self.new.clock ≡ option_map later (C.moments self.old.clock) }
    {
        let number = self.number;
        self.number = number.wrapping_add(1);
        RtpHead {
            number,
            stamp: (tick_of(self.clock.now()) % STAMPS) as u32,
            ssrc: self.ssrc,
        }
    }

    /// Sends a payload in a datagram.
    fn send(&mut self, payload: &[u8]) -> Result<(), Failed>
        requires fits { length payload.now ≤ max_payload }
        ensures sent { OnOk result (Sends C.moments self.old self.new payload.now) }
        ensures err { OnErr result (self.new.sent ≡ self.old.sent) }
        ensures cause { HasCause self.old.faults self.new.faults result }
    {
        match self.form {
            Form::Udp => self.out.send(payload),
            Form::Rtp => {
                let head = self.next_head();
                let mut datagram = [0; MAX_DATAGRAM];
                let count = write(&head, None, payload, &mut datagram);
                self.out.send(&datagram[..count])
            }
        }
    }

    /// Sends a piece in as many datagrams as it takes.
    fn send_parts(&mut self, piece: &[u8]) -> Result<(), Failed>
        ensures parts { OnOk result (SendsParts C.moments self.old self.new piece.now) }
        ensures front { OnErr result (SendsFront C.moments self.old self.new piece.now) }
        ensures cause { HasCause self.old.faults self.new.faults result }
    {
        let mut rest = piece;
        while rest.len() > MAX_PAYLOAD {
            let (part, more) = rest.split_at(MAX_PAYLOAD);
            self.send(part)?;
            rest = more;
        }
        self.send(rest)
    }
}

impl<D: DatagramOut, C: Clock> Sink for DatagramSink<D, C> {
    ghost contents = { λ _. silent };

    ghost faults = { λ sink. sink.faults };

    fn put(&mut self, piece: &[u8]) -> Result<(), Failed>
        ensures ok { OnOk result (Appends silent silent piece.now) }
        ensures err { OnErr result (AppendsPart silent silent piece.now) }
        ensures cause { HasCause self.old.faults self.new.faults result }
        ensures none { piece.now ≡ [] → (result ≡ Ok tt) × (self.new ≡ self.old) }
        ensures one { 0 < length piece.now → length piece.now ≤ max_payload → OnOk result (Sends C.moments self.old self.new piece.now) }
        ensures unsent { length piece.now ≤ max_payload → OnErr result (self.new.sent ≡ self.old.sent) }
        ensures parts { max_payload < length piece.now → OnOk result (SendsParts C.moments self.old self.new piece.now) }
        ensures front { OnErr result (SendsFront C.moments self.old self.new piece.now) }
    {
        if piece.is_empty() {
            return Ok(());
        }
        if piece.len() <= MAX_PAYLOAD {
            return self.send(piece);
        }
        self.send_parts(piece)
    }
}
