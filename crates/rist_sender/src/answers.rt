//! What a compound brings: the answer to its RTT request, and the packets that it asks for.
ghost use Rattle.std.specs.Prelude.{◌≡◌, if◌then◌else◌};
ghost use Rattle.rist_sender.specs.Links.{is_failed};

use crate::answer::{Answer, is_failed};
use crate::control::answer_of;
use crate::numbers::{Number, Numbers};
use crate::sender::Sender;
use link_channels::MAX_DATAGRAM;
use outside_net::{Link, TellingLink};
use psk_seal::Spent;
use rist_rtt::{Echo, first_request};
use rtcp_compound::Compound;
use sender_rules::{MAX_SENT_AGAIN, SendBad};

impl Sender {
    ghost use Rattle.std.specs.Prelude.{◌≡◌, ◌≤◌, ◌<◌, length, map, slice_index_or, is_err, List, ◌∷◌, IsSome, IfSome};
    ghost use Rattle.std.specs.Prelude.{Some, false};
    ghost use Rattle.link_channels.specs.declared.bounds.TheConstants.{MAX_LINKS};
    ghost use Rattle.rist_sender.specs.Sender.{IsSenderAfter, StaysSet, DoesWork, rules_of};
    ghost use Rattle.rist_sender.specs.Calls.{Work, status_at, on_link, rtt_answer, packets_again, FeedsBack};
    ghost use Rattle.rist_sender.specs.History.{effective_time};
    ghost use Rattle.sender_rules.specs.Bonding.{link_count};
    ghost use Rattle.rist_rtt.specs.Echo.{echo_seen, echoes_in, first_request};
    ghost use Rattle.rist_sender.specs.Inside.Puts.{PutsOn, PutsAgain, WritesDues, AnswersNumber, SendsAll, AnswersAll};
    ghost use Rattle.rist_sender.specs.Inside.Numbers.{number_again, number_seen};
    ghost use Rattle.rist_sender.specs.Messages.{RttAnswer, Retransmission};
    ghost use Rattle.sender_rules.specs.Sendings.{Packet, Sending, Again};
    ghost use Rattle.sender_rules.specs.Stored.{stored_packets, packet_with, packet_for};
    ghost use Rattle.retransmit_store.specs.State.{packets_in, IsStoreAfter};

    // Notes that a stored packet was sent again now.
    fn mark(&mut self, number: u64)
        requires stored { IsSome (packet_with (packets_in self.old.store) number) }
        ensures state { self.new ≡ record self.old { store = self.new.store } }
        ensures size { self.new.store.size ≡ self.old.store.size }
        ensures store { (history : List Sending) → IsStoreAfter self.old.store history
            → IsStoreAfter self.new.store (Again number self.old.time ∷ history) }
    {
        self.store.mark(number, self.time);
    }

    // The number of the stored packet that a number asks for, unless it was sent again within the hold time.
    fn number_again(&self, asked: Number) -> Option<u64>
        ensures value { (history : List Sending) → IsStoreAfter self.now.store history
            → result ≡ number_again self.now.hold self.now.time history
            (packet_for (stored_packets self.now.store.size history) asked.width asked.word) }
        ensures stored { IfSome result (λ number. IsSome (packet_with (packets_in self.now.store) number)) }
    {
        let number = self.store.find(asked.width, asked.word)?;
        match self.store.marked(number) {
            Some(at) if self.time < at.saturating_add(self.hold) => None,
            _ => Some(number),
        }
    }

    // Answers an RTT request on a link that is up.
    fn put_answer<L: Link>(
        &mut self,
        us: u64,
        link: u8,
        echo: &Echo<'_>,
        links: &mut [L],
    ) -> Result<(), Spent>
        requires among { link < length links.old }
        requires few { length links.old ≤ MAX_LINKS }
        requires up { slice_index_or self.old.down link false ≡ false }
        ensures set { StaysSet self.old self.new }
        ensures does { (from : Work) → IsSenderAfter self.old from → from.is_short ≡ false → DoesWork
            ⟦<L as TellingLink>⟧.tells
            self.old self.new links.old links.new from (PutsOn self.old.time link
            (RttAnswer (status_at us from.history) (echo_seen echo.now)) (is_err result) from) }
    {
        let compound = answer_of(self.flow, us, self.count, self.octets, echo);
        let mut out = [0; MAX_DATAGRAM];
        let (channel, length) = match self.seal_control(compound.octets(), &mut out) {
            Ok(made) => made,
            Err(spent) => return Err(spent),
        };
        self.write(links, link, channel, &out[..length]);
        Ok(())
    }

    // Sends a stored packet again on a link that is up. The answer is what became of it.
    fn put_again<L: Link>(
        &mut self,
        number: u64,
        link: u8,
        links: &mut [L],
    ) -> Result<Answer, Spent>
        requires among { link < length links.old }
        requires few { length links.old ≤ MAX_LINKS }
        requires up { slice_index_or self.old.down link false ≡ false }
        requires stored { IsSome (packet_with (packets_in self.old.store) number) }
        ensures set { StaysSet self.old self.new }
        ensures does { (from : Work) (packet : Packet) → IsSenderAfter self.old from → from.is_short ≡ false
            → packet_with (packets_in self.old.store) number ≡ Some packet → packet.number ≡ number → DoesWork
            ⟦<L as TellingLink>⟧.tells
            self.old self.new links.old links.new from (PutsAgain self.old.time link packet result from) }
    {
        let mut out = [0; MAX_DATAGRAM];
        let (channel, length) = match self.seal_again(number, &mut out) {
            Ok(made) => made,
            Err(spent) => return Err(spent),
        };
        let answer = self.write(links, link, channel, &out[..length]);
        self.mark(number);
        Ok(answer)
    }

    // Answers the first RTT request of a compound on its link, unless that is down.
    fn answer_request<L: Link>(
        &mut self,
        us: u64,
        link: u8,
        compound: &Compound<'_>,
        links: &mut [L],
    ) -> Result<(), Spent>
        requires among { link < length links.old }
        requires few { length links.old ≤ MAX_LINKS }
        ensures set { StaysSet self.old self.new }
        ensures does { (from : Work) → IsSenderAfter self.old from → from.is_short ≡ false → DoesWork
            ⟦<L as TellingLink>⟧.tells
            self.old self.new links.old links.new from (WritesDues (effective_time from.history)
            (on_link link (rtt_answer (status_at us from.history) (first_request (echoes_in compound.now))))
            (is_err result) from) }
    {
        if self.is_down(link) {
            return Ok(());
        }
        match first_request(compound) {
            Some(echo) => self.put_answer(us, link, &echo, links),
            None => Ok(()),
        }
    }

    // Sends again the stored packet that a number asks for, on a link that is up, unless it was sent again within the
    // hold time. The answer is what became of it.
    fn answer_number<L: Link>(
        &mut self,
        asked: Number,
        link: u8,
        links: &mut [L],
    ) -> Result<Option<Answer>, Spent>
        requires among { link < length links.old }
        requires few { length links.old ≤ MAX_LINKS }
        requires up { slice_index_or self.old.down link false ≡ false }
        ensures set { StaysSet self.old self.new }
        ensures does { (from : Work) → IsSenderAfter self.old from → from.is_short ≡ false → DoesWork
            ⟦<L as TellingLink>⟧.tells
            self.old self.new links.old links.new from (AnswersNumber self.old.store.size self.old.hold
            (effective_time from.history) link (number_seen asked) result from) }
    {
        match self.number_again(asked) {
            Some(number) => match self.put_again(number, link, links) {
                Ok(answer) => Ok(Some(answer)),
                Err(spent) => Err(spent),
            },
            None => Ok(None),
        }
    }

    // Sends again what a compound asks for, on its link, and says how many packets were sent again.
    fn send_again<L: Link>(
        &mut self,
        link: u8,
        compound: &Compound<'_>,
        links: &mut [L],
    ) -> Result<u32, Spent>
        requires among { link < length links.old }
        requires few { length links.old ≤ MAX_LINKS }
        ensures set { StaysSet self.old self.new }
        ensures does { (from : Work) → IsSenderAfter self.old from → from.is_short ≡ false → DoesWork
            ⟦<L as TellingLink>⟧.tells
            self.old self.new links.old links.new from (SendsAll (effective_time from.history)
            (on_link link (map Retransmission (packets_again (rules_of self.old) from.history compound.now)))
            result (is_err result) from) }
    {
        let mut numbers = Numbers::of(compound, self.flow);
        let mut left = MAX_SENT_AGAIN;
        let mut count = 0;
        while let Some(asked) = numbers.next() {
            if left == 0 || self.is_down(link) {
                return Ok(count);
            }
            match self.answer_number(asked, link, links) {
                Ok(None) => {}
                Ok(Some(answer)) => {
                    left -= 1;
                    count += counted(answer);
                }
                Err(spent) => return Err(spent),
            }
        }
        Ok(count)
    }

    // Answers a compound on its link.
    fn answer_compound<L: Link>(
        &mut self,
        us: u64,
        link: u8,
        compound: &Compound<'_>,
        links: &mut [L],
    ) -> Result<u32, Spent>
        requires among { link < length links.old }
        requires few { length links.old ≤ MAX_LINKS }
        ensures set { StaysSet self.old self.new }
        ensures does { (from : Work) → IsSenderAfter self.old from → from.is_short ≡ false → DoesWork
            ⟦<L as TellingLink>⟧.tells
            self.old self.new links.old links.new from (AnswersAll (rules_of self.old) us link compound.now
            result (is_err result) from) }
    {
        match self.answer_request(us, link, compound, links) {
            Ok(()) => self.send_again(link, compound, links),
            Err(spent) => Err(spent),
        }
    }

    /// A compound came on a link, and is answered there, unless that link is down. First comes the answer to its first
    /// RTT request. Then the stored packets that it asks for are sent again, in the order of its requests: of its
    /// first 65,536 numbers, each packet once and at most 256, but for those that were sent again within the hold
    /// time. The answer is how many were sent again. `Spent` where the sealer had no pair for the next datagram, and
    /// else `LinksDown` where every link is down.
    pub fn feedback<L: Link>(
        &mut self,
        us: u64,
        link: u8,
        compound: &Compound<'_>,
        links: &mut [L],
    ) -> Result<u32, SendBad>
        requires among { link < length links.old }
        requires links { length links.old ≡ link_count self.old.bonding }
        requires few { length links.old ≤ MAX_LINKS }
        ensures work { (from : Work) → IsSenderAfter self.old from → DoesWork
            ⟦<L as TellingLink>⟧.tells
            self.old self.new links.old links.new from
            (FeedsBack (rules_of self.old) (length links.old) us link compound.now result from) }
        ensures set { StaysSet self.old self.new }
    {
        self.begin(us);
        match self.answer_compound(us, link, compound, links) {
            Ok(count) => match self.check_up(links.len()) {
                Ok(()) => Ok(count),
                Err(bad) => Err(bad),
            },
            Err(_) => Err(SendBad::Spent),
        }
    }
}

// One where a packet was sent again.
fn counted(answer: Answer) -> u32
    ensures value { result ≡ if is_failed answer then 0 else 1 }
{
    if is_failed(answer) { 0 } else { 1 }
}
