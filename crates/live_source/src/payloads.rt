//! A source in memory that comes in datagrams.
ghost use Rattle.std.specs.Prelude.{◌≡◌, ◌≤◌, ◌<◌, ◌++◌, ◌∷◌, [], length, take, OnOk};
ghost use Rattle.link_channels.specs.declared.bounds.TheConstants.{MAX_PAYLOAD as max_payload};
ghost use Rattle.live_source.specs.Payloads.{given_of, is_payload};

use crate::LiveSource;
use link_channels::MAX_PAYLOAD;
use outside_io::{Failed, NoMemory, Source, copy_front};
use std::alloc::Global;
use std::marker::Model;

/// A source that gives these payloads, one after another. Each has an octet at least, and 1,500 at most.
#[derive(Drop)]
pub struct PayloadSource {
    alloc: Global,
    payloads: Vec<Vec<u8>>,
    at: usize,
}

impl Model for PayloadSource {
    ghost use Rattle.std.specs.Prelude.{◌≤◌, ℕ, List, drop, length, map, All, IsTrue};
    ghost use Rattle.live_source.specs.Payloads.{is_payload};

    ghost Value = { List (List ℕ) };

    ghost view = { λ s. map (λ p. p.items) (drop s.at s.payloads.items) };

    ghost invariant = { λ s. (s.at ≤ length s.payloads.items) × All (λ p. IsTrue (is_payload p.items)) s.payloads.items };
}

impl PayloadSource {
    /// It has no payload yet.
    pub fn new(alloc: Global) -> PayloadSource
        ensures value { result ≡ [] }
    {
        PayloadSource {
            alloc,
            payloads: Vec::new(alloc),
            at: 0,
        }
    }

    /// Gives one more payload behind the others. An empty one and one of more than 1,500 octets are dropped.
    pub fn add(&mut self, payload: &[u8]) -> Result<(), NoMemory>
        ensures ok { OnOk result (self.new ≡ self.old ++ given_of payload.now) }
    {
        if !is_payload(payload) {
            return Ok(());
        }
        let octets = Vec::from_slice(self.alloc, payload)?;
        match self.payloads.push(octets) {
            Ok(()) => Ok(()),
            Err(_) => Err(NoMemory),
        }
    }

    /// Gives the next payload, as much of it as fits.
    fn give(&mut self, buf: &mut [u8]) -> usize
        ensures within { result ≤ length buf.new }
        ensures size { length buf.new ≡ length buf.old }
        ensures some { 0 < result → max_payload ≤ length buf.old → self.old ≡ take result buf.new ∷ self.new }
        ensures none { result ≡ 0 → max_payload ≤ length buf.old → (self.old ≡ []) × (self.new ≡ self.old) }
    {
        let Some(payload) = self.payloads.get(self.at) else {
            return 0;
        };
        let count = copy_front(payload, buf);
        self.at += 1;
        count
    }
}

/// Whether a payload is given: it has an octet, and 1,500 at most.
fn is_payload(payload: &[u8]) -> bool
    ensures value { result ≡ is_payload payload.now }
{
    1 <= payload.len() && payload.len() <= MAX_PAYLOAD
}

impl Source for PayloadSource {
    ghost use Rattle.std.specs.Prelude.{None};

    ghost remaining = { λ _. None };

    ghost faults = { λ _. 0 };

    /// Gives the next payload. What of it doesn't fit is lost.
    fn read(&mut self, buf: &mut [u8]) -> Result<usize, Failed> {
        Ok(self.give(buf))
    }
}

impl LiveSource for PayloadSource {
    ghost use Rattle.std.specs.Prelude.{Some, true};

    ghost ready = { λ _. Some (λ _. true) };

    ghost payloads = { λ source. Some source };

    fn is_in_datagrams(&self) -> bool {
        true
    }

    fn gather(&mut self, _count: usize) -> bool {
        true
    }

    fn read_payload(&mut self, block: &mut [u8; MAX_PAYLOAD]) -> Result<usize, Failed> {
        Ok(self.give(block))
    }
}
