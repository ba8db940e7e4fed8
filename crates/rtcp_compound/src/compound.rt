//! A compound that was read, and its packets. A contract sees each as the list of the contents that
//! are left to give.
ghost use Rattle.std.specs.Prelude.{◌≡◌, ◌^◌, ◌<◌, List, length, IfOk, IfErr, IsOkAnd, OnOk, Some, None};
ghost use Rattle.rtcp_compound.specs.Compound.{Content, IsCompound};
ghost use Rattle.rtcp_compound.specs.Reading.{fault_of, packets_in};

use crate::packet::{Packet, packet_of};
use crate::reading::{packet_len, test_all};
use crate::refusal::RtcpBad;
use std::marker::Model;

/// A datagram's RTCP packets, tested once.
#[derive(Debug, Drop)]
pub struct Compound<'a> {
    octets: &'a [u8],
}

impl<'a> Model for Compound<'a> {
    ghost use Rattle.std.specs.Prelude.{◌≡◌, List, None};
    ghost use Rattle.rtcp_compound.specs.Compound.{Content};
    ghost use Rattle.rtcp_compound.specs.Reading.{fault_of, packets_in};

    ghost Value = { List Content };

    ghost view = { λ c. packets_in c.octets.now };

    ghost invariant = { λ c. fault_of c.octets.now ≡ None };
}

impl<'a> Compound<'a> {
    /// Reads a compound: one or more packets to the end of the octets, the first a report.
    pub fn read(octets: &'a [u8]) -> Result<Compound<'a>, RtcpBad>
        // What is read is spelled so.
        ensures ok { IfOk result (λ c. IsCompound c octets.now) }
        // What is spelled so is read.
        ensures only { (ps : List Content) → IsCompound ps octets.now → IsOkAnd result (λ c. c ≡ ps) }
        // The same by functions of the octets.
        ensures value { IfOk result (λ c. c ≡ packets_in octets.now) }
        ensures accepted { OnOk result (fault_of octets.now ≡ None) }
        // An error is the first test that fails, and where.
        ensures refused { IfErr result (λ bad. fault_of octets.now ≡ Some bad) }
    {
        match test_all(octets) {
            Ok(()) => Ok(Compound { octets }),
            Err(bad) => Err(bad),
        }
    }

    /// The packets in order.
    pub fn packets(&self) -> Packets<'a>
        ensures value { result ≡ self.now }
        ensures within { length result < 2 ^ 64 }
    {
        Packets { rest: self.octets }
    }
}

/// The packets of a compound that are left to give.
#[derive(Debug, Drop)]
pub struct Packets<'a> {
    rest: &'a [u8],
}

impl<'a> Model for Packets<'a> {
    ghost use Rattle.std.specs.Prelude.{List, length};
    ghost use Rattle.rtcp_compound.specs.Compound.{Content};
    ghost use Rattle.rtcp_compound.specs.Reading.{ArePackets, packets_in};

    ghost Value = { List Content };

    ghost view = { λ p. packets_in p.rest.now };

    ghost invariant = { λ p. ArePackets (length p.rest.now) p.rest.now };
}

impl<'a> Iterator for Packets<'a> {
    type Item = Packet<'a>;

    ghost use Rattle.std.specs.Iterator.{YieldsFirstBy, item_count};
    ghost use Rattle.rtcp_compound.specs.Seen.{seen};

    ghost next_gives = { YieldsFirstBy seen (λ ps. ps) };

    ghost remaining = { item_count (λ ps. ps) };

    fn next(&mut self) -> Option<Packet<'a>> {
        if self.rest.is_empty() {
            return None;
        }
        let packet = packet_of(self.rest);
        self.rest = &self.rest[packet_len(self.rest)..];
        Some(packet)
    }
}
