//! What a tick of the sender's clock writes: reports and keepalives.
ghost use Rattle.std.specs.Prelude.{◌≡◌, ◌≤◌, ◌<◌, ◌^◌};

use crate::control::told_of;
use crate::sender::Sender;
use link_channels::{KEEPALIVE_INTERVAL, MAX_DATAGRAM, REPORT_INTERVAL, has_passed_since};
use outside_net::{Link, TellingLink};
use psk_seal::Spent;
use sender_rules::SendBad;

impl Sender {
    ghost use Rattle.std.specs.Prelude.{◌≡◌, ◌≤◌, ◌<◌, length, set, slice_index_or, is_err, Some, true, false};
    ghost use Rattle.link_channels.specs.declared.bounds.TheConstants.{MAX_LINKS};
    ghost use Rattle.rist_sender.specs.Sender.{IsSenderAfter, StaysSet, DoesWork, rules_of, has_keepalives};
    ghost use Rattle.rist_sender.specs.Calls.{Work, status_at, on_link, report_due, keepalive_due, Ticks};
    ghost use Rattle.rist_sender.specs.History.{effective_time};
    ghost use Rattle.std.specs.List.{range_with_len};
    ghost use Rattle.sender_rules.specs.Bonding.{link_count};
    ghost use Rattle.rist_sender.specs.Inside.Puts.{PutsOn, WritesDues, TicksLink, TicksLinks};
    ghost use Rattle.rist_sender.specs.Messages.{Report, Alive};

    // Notes that a link had a report now.
    fn note_report(&mut self, link: u8)
        requires few { link < MAX_LINKS }
        ensures state { self.new ≡ record self.old { reports = set self.old.reports link (Some self.old.time) } }
    {
        self.reports[usize::from(link)] = Some(self.time);
    }

    // Notes that a link had a keepalive now.
    fn note_keepalive(&mut self, link: u8)
        requires few { link < MAX_LINKS }
        ensures state { self.new ≡ record self.old { keepalives = set self.old.keepalives link (Some self.old.time) } }
    {
        self.keepalives[usize::from(link)] = Some(self.time);
    }

    // Writes the report of a link that is up, which asks for the round-trip time where the session's reports do.
    fn put_report<L: Link>(&mut self, us: u64, link: u8, links: &mut [L]) -> Result<(), Spent>
        requires among { link < length links.old }
        requires few { length links.old ≤ MAX_LINKS }
        requires up { slice_index_or self.old.down link false ≡ false }
        ensures set { StaysSet self.old self.new }
        ensures does { (from : Work) → IsSenderAfter self.old from → from.is_short ≡ false → DoesWork
            ⟦<L as TellingLink>⟧.tells
            self.old self.new links.old links.new from (PutsOn self.old.time link
            (Report (status_at us from.history)) (is_err result) from) }
    {
        let asks = self.shutter.echo();
        let compound = told_of(asks, self.flow, us, self.count, self.octets);
        let mut out = [0; MAX_DATAGRAM];
        let (channel, length) = match self.seal_control(compound.octets(), &mut out) {
            Ok(made) => made,
            Err(spent) => return Err(spent),
        };
        self.write(links, link, channel, &out[..length]);
        self.note_report(link);
        Ok(())
    }

    // Writes the keepalive of a link that is up.
    fn put_keepalive<L: Link>(&mut self, link: u8, links: &mut [L]) -> Result<(), Spent>
        requires among { link < length links.old }
        requires few { length links.old ≤ MAX_LINKS }
        requires up { slice_index_or self.old.down link false ≡ false }
        requires main { has_keepalives self.old.session.profile ≡ true }
        ensures set { StaysSet self.old self.new }
        ensures does { (from : Work) → IsSenderAfter self.old from → from.is_short ≡ false → DoesWork
            ⟦<L as TellingLink>⟧.tells
            self.old self.new links.old links.new from (PutsOn self.old.time link Alive (is_err result) from) }
    {
        let mut out = [0; MAX_DATAGRAM];
        let (channel, length) = match self.seal_keepalive(&mut out) {
            Ok(made) => made,
            Err(spent) => return Err(spent),
        };
        self.write(links, link, channel, &out[..length]);
        self.note_keepalive(link);
        Ok(())
    }

    // Writes the report of a link, where it is due.
    fn tick_report<L: Link>(&mut self, us: u64, link: u8, links: &mut [L]) -> Result<(), Spent>
        requires among { link < length links.old }
        requires few { length links.old ≤ MAX_LINKS }
        ensures set { StaysSet self.old self.new }
        ensures does { (from : Work) → IsSenderAfter self.old from → from.is_short ≡ false → DoesWork
            ⟦<L as TellingLink>⟧.tells
            self.old self.new links.old links.new from (WritesDues (effective_time from.history)
            (on_link link (report_due us from.history link)) (is_err result) from) }
    {
        if self.is_down(link)
            || !has_passed_since(REPORT_INTERVAL, self.time, self.reports[usize::from(link)])
        {
            return Ok(());
        }
        self.put_report(us, link, links)
    }

    // Writes the keepalive of a link, where it is due.
    fn tick_keepalive<L: Link>(&mut self, link: u8, links: &mut [L]) -> Result<(), Spent>
        requires among { link < length links.old }
        requires few { length links.old ≤ MAX_LINKS }
        ensures set { StaysSet self.old self.new }
        ensures does { (from : Work) → IsSenderAfter self.old from → from.is_short ≡ false → DoesWork
            ⟦<L as TellingLink>⟧.tells
            self.old self.new links.old links.new from (WritesDues (effective_time from.history)
            (on_link link (keepalive_due (has_keepalives self.old.session.profile) from.history link))
            (is_err result) from) }
    {
        if !self.alive
            || self.is_down(link)
            || !has_passed_since(
                KEEPALIVE_INTERVAL,
                self.time,
                self.keepalives[usize::from(link)],
            )
        {
            return Ok(());
        }
        self.put_keepalive(link, links)
    }

    // Writes what a tick makes due on a link.
    fn tick_link<L: Link>(&mut self, us: u64, link: u8, links: &mut [L]) -> Result<(), Spent>
        requires among { link < length links.old }
        requires few { length links.old ≤ MAX_LINKS }
        ensures set { StaysSet self.old self.new }
        ensures does { (from : Work) → IsSenderAfter self.old from → from.is_short ≡ false → DoesWork
            ⟦<L as TellingLink>⟧.tells
            self.old self.new links.old links.new from
            (TicksLink (has_keepalives self.old.session.profile) us link (is_err result) from) }
    {
        match self.tick_report(us, link, links) {
            Ok(()) => self.tick_keepalive(link, links),
            Err(spent) => Err(spent),
        }
    }

    // Writes what a tick makes due, link after link.
    fn tick_links<L: Link>(&mut self, us: u64, links: &mut [L]) -> Result<(), Spent>
        requires few { length links.old ≤ MAX_LINKS }
        ensures set { StaysSet self.old self.new }
        ensures does { (from : Work) → IsSenderAfter self.old from → from.is_short ≡ false → DoesWork
            ⟦<L as TellingLink>⟧.tells
            self.old self.new links.old links.new from (TicksLinks (has_keepalives self.old.session.profile) us
            (range_with_len 0 (length links.old)) (is_err result) from) }
    {
        for link in 0..links.len() as u8 {
            match self.tick_link(us, link, links) {
                Ok(()) => {}
                Err(spent) => return Err(spent),
            }
        }
        Ok(())
    }

    /// The sender's own clock ticks. For each link that isn't down, in order: a report where its last is 100 ms old or
    /// it had none, and then, in the Main Profile, a keepalive where its last is a second old or it had none. `Spent`
    /// where the sealer had no pair for the next datagram, and else `LinksDown` where every link is down.
    pub fn tick<L: Link>(&mut self, us: u64, links: &mut [L]) -> Result<(), SendBad>
        requires links { length links.old ≡ link_count self.old.bonding }
        requires few { length links.old ≤ MAX_LINKS }
        ensures work { (from : Work) → IsSenderAfter self.old from → DoesWork
            ⟦<L as TellingLink>⟧.tells
            self.old self.new links.old links.new from (Ticks (rules_of self.old) (length links.old) us result from) }
        ensures set { StaysSet self.old self.new }
    {
        self.begin(us);
        match self.tick_links(us, links) {
            Ok(()) => self.check_up(links.len()),
            Err(_) => Err(SendBad::Spent),
        }
    }
}
