//! A source whose octets are gathered as they come.
ghost use Rattle.std.specs.Prelude.{◌≡◌, ◌≤◌, ◌<◌, ◌+◌, ◌-◌, ◌||◌, [], ℕ, Bool, true, false, length, take, min, IfOk, OnErr, OnOk};
ghost use Rattle.std.specs.Io.{ReadsAtMost};
ghost use Rattle.outside_io.specs.Causes.{HasCause, RoseWhere, has_failed};
ghost use Rattle.outside_io.specs.Told.{Takes, IsPrefix, IsEmpty};
ghost use Rattle.block_source.specs.Block.{between};
ghost use Rattle.gathered_source.specs.Gathered.{most_gathered, HasGathered};

use crate::ReadySource;
use link_channels::MAX_PAYLOAD;
use live_source::LiveSource;
use outside_io::{Failed, Source, copy_front};
use std::marker::Model;

/// How many octets are gathered at most.
const ROOM: usize = 16384;

/// A source, and what was gathered of it ahead of the reads, which give that first. A fault that comes while octets are gathered is
/// told by the read behind them. What it has still to give is not told by the trait, since it says whether octets are there.
#[derive(Drop)]
pub struct Gathered<S: Source> {
    source: S,
    octets: [u8; ROOM],
    from: usize,
    to: usize,
    /// The source has come to its end, as it was gathered.
    has_ended: bool,
    /// A read of the source has failed, as it was gathered, and no read has told that yet.
    has_failed: bool,
    faults: u64,
}

impl<S: Source> Model for Gathered<S> {
    ghost use Rattle.std.specs.Prelude.{◌≡◌, ◌≤◌, true};
    ghost use Rattle.outside_io.specs.Told.{IsEmpty};
    ghost use Rattle.block_source.specs.Block.{between, behind};
    ghost use Rattle.gathered_source.specs.Gathered.{GatheredState};

    ghost Value = { GatheredState S };

    ghost view = { λ g. record {
      source = g.source;
      left = behind (between g.octets g.from g.to) (S.remaining g.source);
      ahead = between g.octets g.from g.to;
      has_ended = g.has_ended;
      has_failed = g.has_failed;
      faults = g.faults;
    } };

    ghost invariant = { λ g. (g.from ≤ g.to) × (g.to ≤ 16384) × (g.has_ended ≡ true → IsEmpty (S.remaining g.source)) };
}

impl<S: Source> Gathered<S> {
    /// Nothing is gathered at first.
    pub fn over(source: S) -> Gathered<S>
        ensures value { result ≡ record {
          source = source;
          left = S.remaining source;
          ahead = [];
          has_ended = false;
          has_failed = false;
          faults = 0;
        } }
    {
        Gathered {
            source,
            octets: [0; ROOM],
            from: 0,
            to: 0,
            has_ended: false,
            has_failed: false,
            faults: 0,
        }
    }

    /// Gives octets that were gathered, as many as fit.
    fn give(&mut self, buf: &mut [u8]) -> usize
        ensures within { result ≤ length buf.new }
        ensures count { result ≡ min (length buf.new) (length self.old.ahead) }
        ensures value { Takes self.old.left self.new.left (take result buf.new) }
        ensures faults { self.new.faults ≡ self.old.faults }
        ensures source { self.new.source ≡ self.old.source }
        ensures waits { self.new.has_failed ≡ self.old.has_failed }
    {
        let count = copy_front(&self.octets[self.from..self.to], buf);
        self.from += count;
        count
    }

    /// Reads a piece of the source behind what was gathered, which moves to the front. Says how many octets came.
    fn read_on(&mut self) -> Result<usize, Failed>
        requires room { length self.old.ahead < most_gathered }
        requires going { self.old.has_ended ≡ false }
        ensures left { self.new.left ≡ self.old.left }
        ensures more { IfOk result (λ count. length self.new.ahead ≡ length self.old.ahead + count) }
        ensures front { IsPrefix self.old.ahead self.new.ahead }
        ensures end { IfOk result (λ count. count ≡ 0 → IsEmpty (S.remaining self.new.source)) }
        ensures cause { HasCause (S.faults self.old.source) (S.faults self.new.source) result }
        ensures faults { self.new.faults ≡ self.old.faults }
        ensures ended { self.new.has_ended ≡ self.old.has_ended }
        ensures waits { self.new.has_failed ≡ self.old.has_failed }
    {
        let end = move_to_front(&mut self.octets, self.from, self.to);
        self.from = 0;
        self.to = end;
        match self.source.read(&mut self.octets[end..]) {
            Ok(count) => {
                self.to = end + count;
                Ok(count)
            }
            Err(bad) => Err(bad),
        }
    }
}

impl<S: ReadySource> Gathered<S> {
    /// Gathers what is there until so many octets are, the source ends or a read of it fails. Whether one of these is so.
    fn gather_on(&mut self, count: usize) -> bool
        requires room { count ≤ most_gathered }
        ensures value { HasGathered count result self.new }
        ensures left { self.new.left ≡ self.old.left }
        ensures front { IsPrefix self.old.ahead self.new.ahead }
        ensures cause { self.old.has_failed ≡ false
            → RoseWhere self.new.has_failed (S.faults self.old.source) (S.faults self.new.source) }
        ensures faults { self.new.faults ≡ self.old.faults }
        ensures done { (self.old.has_ended || self.old.has_failed) ≡ true → self.new ≡ self.old }
    {
        while self.to - self.from < count {
            if self.has_ended || self.has_failed {
                return true;
            }
            if !self.source.is_ready() {
                return false;
            }
            match self.read_on() {
                Ok(0) => {
                    self.has_ended = true;
                    return true;
                }
                Ok(_) => {}
                Err(_) => {
                    self.has_failed = true;
                    return true;
                }
            }
        }
        true
    }
}

/// Moves the octets between two places of a block to its front, and says how many they are.
fn move_to_front(octets: &mut [u8; ROOM], from: usize, to: usize) -> usize
    requires { (from ≤ to) × (to ≤ most_gathered) }
    ensures count { result ≡ to - from }
    ensures front { take result octets.new ≡ between octets.old from to }
{
    octets.copy_within(from..to, 0);
    to - from
}

impl<S: Source> Source for Gathered<S> {
    ghost use Rattle.std.specs.Prelude.{None};

    ghost remaining = { λ _. None };

    ghost ahead = { λ g. g.ahead };

    ghost faults = { λ g. g.faults };

    /// Reads what was gathered, and then the source behind.
    fn read(&mut self, buf: &mut [u8]) -> Result<usize, Failed>
        ensures within { ReadsAtMost result buf.new }
        ensures left { IfOk result (λ count. Takes self.old.left self.new.left (take count buf.new)) }
        ensures end { IfOk result (λ count. count ≡ 0 → 0 < length buf.new → IsEmpty self.new.left) }
        ensures err { OnErr result (self.new.left ≡ self.old.left) }
        // Behind its end the source isn't read again.
        ensures over { self.old.has_ended ≡ true → self.new.source ≡ self.old.source }
        // A fault comes behind what was gathered.
        ensures ahead { OnErr result (self.new.ahead ≡ []) }
        ensures cause { HasCause self.old.faults self.new.faults result }
        ensures behind { self.old.has_failed ≡ false
            → HasCause (S.faults self.old.source) (S.faults self.new.source) result }
        // One that came while octets were gathered is told once, by the first read that finds none of them.
        ensures told { self.old.has_failed ≡ true → self.old.ahead ≡ [] → has_failed result ≡ true }
        ensures waits { OnOk result (self.new.has_failed ≡ self.old.has_failed) }
        ensures once { OnErr result (self.new.has_failed ≡ false) }
    {
        if self.from < self.to {
            return Ok(self.give(buf));
        }
        if self.has_failed {
            self.has_failed = false;
            self.faults = self.faults.saturating_add(1);
            return Err(Failed);
        }
        if self.has_ended {
            return Ok(0);
        }
        match self.source.read(buf) {
            Ok(count) => Ok(count),
            Err(bad) => {
                self.faults = self.faults.saturating_add(1);
                Err(bad)
            }
        }
    }
}

impl<S: ReadySource> LiveSource for Gathered<S> {
    ghost use Rattle.std.specs.Prelude.{min, true};

    ghost stands = { λ g count. HasGathered (min count most_gathered) true g };

    /// What was gathered has no bounds.
    fn is_in_datagrams(&self) -> bool {
        false
    }

    /// Of more than 16,384 octets it answers for these.
    fn gather(&mut self, count: usize) -> bool
        ensures stands { result ≡ true → HasGathered (min count most_gathered) true self.new }
        ensures fewer { result ≡ false → HasGathered (min count most_gathered) false self.new }
        ensures left { self.new.left ≡ self.old.left }
        ensures ahead { IsPrefix self.old.ahead self.new.ahead }
        ensures cause { self.old.has_failed ≡ false
            → RoseWhere self.new.has_failed (S.faults self.old.source) (S.faults self.new.source) }
        ensures faults { self.new.faults ≡ self.old.faults }
        // Behind its end or a fault nothing more is gathered.
        ensures done { (self.old.has_ended || self.old.has_failed) ≡ true → self.new ≡ self.old }
    {
        self.gather_on(count.min(ROOM))
    }

    fn read_payload(&mut self, _block: &mut [u8; MAX_PAYLOAD]) -> Result<usize, Failed> {
        Ok(0)
    }
}
