//! The sending end as a sink.
ghost use Rattle.std.specs.Prelude.{◌≡◌, [], OnOk, OnErr, None, Some, min, ◌+◌, ◌-◌, ◌^◌};
ghost use Rattle.outside_io.specs.Causes.{HasCause};
ghost use Rattle.outside_io.specs.Told.{Appends, AppendsPart};
ghost use Rattle.rist_gateway.specs.Onward.{IsOnward, IsUncalled, Puts, LooksOnce, onward_of, passed_of, shows};
ghost use Rattle.rist_gateway.specs.Onward.{why_of, bad_after};

use crate::cuts::send_parts;
use crate::handed::Handed;
use crate::look::look;
use crate::origin::OnwardOrigin;
use outside_io::{Failed, Sink};
use outside_net::{Clock, Link, TellingLink};
use rist_desk::{Beside, Side};
use rist_sender::Sender;
use rist_wire::Opener;
use sender_rules::SendBad;
use std::marker::{Model, PhantomData};

/// A sender with its links, its clock, and an opener for what comes back. Each piece that is put to it is one payload,
/// sent at its clock's moment. A contract sees what the sender keeps, and what the links tell.
#[derive(Drop)]
pub struct Onward<G: OnwardOrigin, L: Link + Drop, C: Clock + Drop> {
    sender: Sender,
    opener: Opener,
    links: Vec<L>,
    clock: C,
    handed: Handed,
    puts: u64,
    faults: u64,
    put_bad: Option<SendBad>,
    aside_bad: Option<SendBad>,
    of: PhantomData<G>,
}

impl<G: OnwardOrigin, L: Link + Drop, C: Clock + Drop> Model for Onward<G, L, C> {
    ghost use Rattle.rist_gateway.specs.Onward.{OnwardParts, IsOnward, onward_of, passed_of};

    ghost Value = { OnwardParts L C };

    ghost view = { λ o. record {
      sender = o.sender;
      opener = o.opener;
      links = o.links.items;
      clock = o.clock;
      handed = o.handed;
      puts = o.puts;
      faults = o.faults;
      put_bad = o.put_bad;
      aside_bad = o.aside_bad;
    } };

    // An invariant can't name what `TellingLink` gives, so the record stands here.
    ghost invariant = { λ o. IsOnward G.first (onward_of
        (record { reads = L.reads; taken = L.taken; knows = L.knows; ends = L.ends; faults = L.faults })
        o.sender o.opener o.links.items (passed_of (C.moments o.clock) o.handed) o.puts o.faults o.put_bad o.aside_bad) };
}

impl<G: OnwardOrigin, L: Link + Drop, C: Clock + Drop> Onward<G, L, C> {
    /// A new sender over its 1 to 16 links, with an opener of the same session and a clock.
    pub fn with(sender: Sender, opener: Opener, links: Vec<L>, clock: C) -> Onward<G, L, C>
        requires first { G.first ≡ onward_of ⟦<L as TellingLink>⟧.tells
            sender opener links.items (passed_of (C.moments clock) []) 0 0 None None }
        requires uncalled { IsUncalled (onward_of ⟦<L as TellingLink>⟧.tells
            sender opener links.items (passed_of (C.moments clock) []) 0 0 None None) }
        ensures value { result ≡ record {
          sender = sender;
          opener = opener;
          links = links.items;
          clock = clock;
          handed = [];
          puts = 0;
          faults = 0;
          put_bad = None;
          aside_bad = None;
        } }
    {
        Onward {
            sender,
            opener,
            links,
            clock,
            handed: Handed::none(),
            puts: 0,
            faults: 0,
            put_bad: None,
            aside_bad: None,
            of: PhantomData,
        }
    }

    /// Why the last put that was refused was; where none was, why the last refused aside was; and none where neither
    /// was. What it did since it was made stands in what holds of its type.
    pub fn why(&self) -> Option<SendBad>
        ensures value { result ≡ why_of self.now.put_bad self.now.aside_bad }
        ensures since { IsOnward G.first (shows ⟦<L as TellingLink>⟧.tells C.moments self.now) }
    {
        match self.put_bad {
            Some(bad) => Some(bad),
            None => self.aside_bad,
        }
    }

    /// Why the last put that was refused was, and why the last aside, where one was.
    pub fn refusals(&self) -> (Option<SendBad>, Option<SendBad>)
        ensures value { result ≡ (self.now.put_bad, self.now.aside_bad) }
        ensures since { IsOnward G.first (shows ⟦<L as TellingLink>⟧.tells C.moments self.now) }
    {
        (self.put_bad, self.aside_bad)
    }

    /// Its links and its clock.
    pub fn apart(self) -> (Vec<L>, C)
        ensures parts { (result.0.items ≡ self.links) × (result.1 ≡ self.clock) }
        ensures since { IsOnward G.first (shows ⟦<L as TellingLink>⟧.tells C.moments self) }
    {
        let Onward {
            sender: _,
            opener: _,
            links,
            clock,
            handed: _,
            puts: _,
            faults: _,
            put_bad: _,
            aside_bad: _,
            of: _,
        } = self;
        (links, clock)
    }
}

impl<G: OnwardOrigin, L: Link + Drop, C: Clock + Drop> Sink for Onward<G, L, C> {
    ghost contents = { λ o. Some o.handed };

    ghost faults = { λ o. o.faults };

    fn put(&mut self, piece: &[u8]) -> Result<(), Failed>
        ensures ok { OnOk result (Appends (Some self.old.handed) (Some self.new.handed) piece.now) }
        ensures err { OnErr result (AppendsPart (Some self.old.handed) (Some self.new.handed) piece.now) }
        ensures cause { HasCause self.old.faults self.new.faults result }
        // The piece is sent on at the clock's moment, as one payload of at most 1,500 octets, and a longer one in
        // parts.
        ensures work { Puts (shows ⟦<L as TellingLink>⟧.tells C.moments self.old)
            (shows ⟦<L as TellingLink>⟧.tells C.moments self.new) piece.now result }
        ensures puts { self.new.puts ≡ min (self.old.puts + 1) (2 ^ 64 - 1) }
        ensures aside { self.new.aside_bad ≡ self.old.aside_bad }
    {
        self.puts = self.puts.saturating_add(1);
        match send_parts(
            &mut self.sender,
            &mut self.links,
            &mut self.clock,
            &mut self.handed,
            piece,
        ) {
            Ok(()) => Ok(()),
            Err(bad) => {
                self.put_bad = Some(bad);
                self.faults = self.faults.saturating_add(1);
                Err(Failed)
            }
        }
    }
}

/// What is kept of refused asides, after one more.
fn bad_after(was: Option<SendBad>, side: Side) -> Option<SendBad>
    ensures value { result ≡ bad_after was side }
{
    match side {
        Side::Bad(bad) => Some(bad),
        Side::Took(_) | Side::Quiet(_) | Side::End | Side::Failed => was,
    }
}

impl<G: OnwardOrigin, L: Link + Drop, C: Clock + Drop> Beside for Onward<G, L, C> {
    ghost looks = { λ old new us link side. LooksOnce G.first (shows ⟦<L as TellingLink>⟧.tells C.moments old)
        (shows ⟦<L as TellingLink>⟧.tells C.moments new) us link side };

    fn aside(&mut self, us: u64, link: u8) -> Side
        ensures looks { LooksOnce G.first (shows ⟦<L as TellingLink>⟧.tells C.moments self.old)
            (shows ⟦<L as TellingLink>⟧.tells C.moments self.new) us link result }
        ensures faults { self.new.faults ≡ self.old.faults }
        ensures bad { self.new.aside_bad ≡ bad_after self.old.aside_bad result }
        ensures puts { (self.new.puts ≡ self.old.puts) × (self.new.put_bad ≡ self.old.put_bad) }
        ensures clock { (self.new.clock ≡ self.old.clock) × (self.new.handed ≡ self.old.handed) }
    {
        let side = look(
            &mut self.sender,
            &mut self.opener,
            &mut self.links,
            us,
            link,
            self.puts,
        );
        self.aside_bad = bad_after(self.aside_bad, side);
        side
    }
}
