//! A payload: it is made into one datagram, stored, and written on its links.

ghost use Rattle.link_channels.specs.declared.bounds.TheConstants.{MAX_PAYLOAD};

use crate::answer::is_failed;
use crate::media::sent_as;
use crate::sender::Sender;
use bond_links::Plan;
use link_channels::{Channel, MAX_DATAGRAM};
use outside_net::{Link, TellingLink};
use psk_seal::Spent;
use retransmit_store::Sent;
use sender_rules::SendBad;

/// Sequence numbers end here (this profile).
const NUMBERS: u64 = 1 << 62;

impl Sender {
    ghost use Rattle.std.specs.Prelude.{◌≡◌, ◌≤◌, ◌<◌, ◌+◌, ◌-◌, ◌%◌, ◌^◌, Option, length, is_err, List, ◌∷◌, false};
    ghost use Rattle.link_channels.specs.declared.bounds.TheConstants.{MAX_LINKS};
    ghost use Rattle.rist_sender.specs.Sender.{IsSenderAfter, StaysSet, DoesWork, rules_of};
    ghost use Rattle.rist_sender.specs.Calls.{Work, is_sharing, links_tried, Sends};
    ghost use Rattle.std.specs.List.{range_with_len};
    ghost use Rattle.sender_rules.specs.Bonding.{link_count};
    ghost use Rattle.rist_sender.specs.Inside.Puts.{IsPacketIn, CopiesOn, SpreadsPart, SpreadsAll, SendsOne};
    ghost use Rattle.psk_seal.specs.declared.sealer.Pair.{Pair};
    ghost use Rattle.rist_sender.specs.Inside.Kept.{IsSendable};
    ghost use Rattle.rist_sender.specs.Messages.{Original};
    ghost use Rattle.sender_rules.specs.Sendings.{Packet, Sending, First};
    ghost use Rattle.retransmit_store.specs.State.{IsStoreAfter};

    // Stores the packet that was sent for the first time.
    fn keep(&mut self, sent: Sent)
        requires sendable { IsSendable self.old.session.nulls sent }
        requires number { sent.number ≡ self.old.first + self.old.count }
        requires within { self.old.first + self.old.count < 2 ^ 62 }
        ensures state { self.new ≡ record self.old {
          store = self.new.store;
          count = self.old.count + 1;
          octets = (self.old.octets + length sent.payload) % 2 ^ 32;
        } }
        ensures size { self.new.store.size ≡ self.old.store.size }
        ensures store { (history : List Sending) → IsStoreAfter self.old.store history
            → IsStoreAfter self.new.store (First sent ∷ history) }
    {
        self.count += 1;
        self.octets = self.octets.wrapping_add(sent.payload().len() as u32);
        self.store.put(sent);
    }

    // Writes the datagram of a payload on a link, unless that is down. True where one link is enough, this one is up
    // and the write didn't fail.
    fn copy_on<L: Link>(
        &mut self,
        one: bool,
        link: u8,
        channel: Channel,
        octets: &[u8],
        links: &mut [L],
    ) -> bool
        requires among { link < length links.old }
        requires few { length links.old ≤ MAX_LINKS }
        ensures set { StaysSet self.old self.new }
        ensures time { self.new.time ≡ self.old.time }
        ensures does { (from : Work) (packet : Packet) (pair : Option Pair) → IsSenderAfter self.old from
            → IsPacketIn self.old pair packet channel octets.now → DoesWork
            ⟦<L as TellingLink>⟧.tells
            self.old self.new links.old links.new from
            (CopiesOn one self.old.time pair (Original packet) link result from) }
    {
        if self.is_down(link) {
            return false;
        }
        let answer = self.write(links, link, channel, octets);
        one && !is_failed(answer)
    }

    // The same on links between two; where one is enough, up to the first write that doesn't fail.
    fn spread_over<L: Link>(
        &mut self,
        one: bool,
        start: u8,
        end: u8,
        channel: Channel,
        octets: &[u8],
        links: &mut [L],
    ) -> bool
        requires ordered { start ≤ end }
        requires among { end ≤ length links.old }
        requires few { length links.old ≤ MAX_LINKS }
        ensures set { StaysSet self.old self.new }
        ensures time { self.new.time ≡ self.old.time }
        ensures does { (from : Work) (packet : Packet) (pair : Option Pair) → IsSenderAfter self.old from
            → IsPacketIn self.old pair packet channel octets.now → DoesWork
            ⟦<L as TellingLink>⟧.tells
            self.old self.new links.old links.new from (SpreadsPart one self.old.time pair (Original packet)
            (range_with_len start (end - start)) result from) }
    {
        for link in start..end {
            if self.copy_on(one, link, channel, octets, links) {
                return true;
            }
        }
        false
    }

    // Writes the datagram of payload k on its links.
    fn spread<L: Link>(&mut self, k: u64, channel: Channel, octets: &[u8], links: &mut [L])
        requires links { length links.old ≡ link_count self.old.bonding }
        requires few { length links.old ≤ MAX_LINKS }
        ensures set { StaysSet self.old self.new }
        ensures does { (from : Work) (packet : Packet) (pair : Option Pair) → IsSenderAfter self.old from
            → IsPacketIn self.old pair packet channel octets.now → DoesWork
            ⟦<L as TellingLink>⟧.tells
            self.old self.new links.old links.new from (SpreadsAll (is_sharing self.old.bonding) self.old.time pair
            (Original packet) (links_tried self.old.bonding k) from) }
    {
        let count = links.len() as u8;
        match self.bond.plan(k) {
            Plan::All => {
                self.spread_over(false, 0, count, channel, octets, links);
            }
            Plan::One(link) => {
                if !self.spread_over(true, link, count, channel, octets, links) {
                    self.spread_over(true, 0, link, channel, octets, links);
                }
            }
        }
    }

    // Sends the next payload.
    fn send_next<L: Link>(&mut self, payload: &[u8], links: &mut [L]) -> Result<(), Spent>
        requires payload { length payload.now ≤ MAX_PAYLOAD }
        requires links { length links.old ≡ link_count self.old.bonding }
        requires few { length links.old ≤ MAX_LINKS }
        ensures set { StaysSet self.old self.new }
        ensures does { (from : Work) → IsSenderAfter self.old from → from.is_short ≡ false → DoesWork
            ⟦<L as TellingLink>⟧.tells
            self.old self.new links.old links.new from (SendsOne (rules_of self.old) payload.now (is_err result) from) }
    {
        let k = self.count;
        let number = u64::from(self.first) + k;
        if number >= NUMBERS {
            return Err(Spent);
        }
        let sent = sent_as(self.nulls, number, self.time, payload);
        let mut out = [0; MAX_DATAGRAM];
        let (channel, length) = match self.seal_first(&sent, &mut out) {
            Ok(made) => made,
            Err(spent) => return Err(spent),
        };
        self.keep(sent);
        self.spread(k, channel, &out[..length], links);
        Ok(())
    }

    /// Sends a payload of at most 1,500 octets under the next number, with the effective time as its timestamp, and
    /// stores it. Its datagram is made once, and goes on each link that isn't down, or on the one whose turn it is;
    /// where that is down, or its write fails, the next links are tried cyclically, each once. `Spent` where the
    /// sealer has no pair left or the number would be 2^62: then nothing is written or stored. Else `LinksDown` where
    /// every link is down: the payload counts as sent all the same.
    pub fn send<L: Link>(&mut self, us: u64, payload: &[u8], links: &mut [L]) -> Result<(), SendBad>
        requires payload { length payload.now ≤ MAX_PAYLOAD }
        requires links { length links.old ≡ link_count self.old.bonding }
        requires few { length links.old ≤ MAX_LINKS }
        ensures work { (from : Work) → IsSenderAfter self.old from → DoesWork
            ⟦<L as TellingLink>⟧.tells
            self.old self.new links.old links.new from
            (Sends (rules_of self.old) (length links.old) us payload.now result from) }
        ensures set { StaysSet self.old self.new }
    {
        self.begin(us);
        match self.send_next(payload, links) {
            Ok(()) => self.check_up(links.len()),
            Err(_) => Err(SendBad::Spent),
        }
    }
}
