//! A sealer's pairs of nonce and sequence number.
ghost use Rattle.std.specs.Prelude.{◌≡◌, ◌≤◌, ◌<◌, ◌+◌, ◌-◌, ◌^◌, IfOk, OnOk, OnErr, Some, codes};
ghost use Rattle.outside_io.specs.Causes.{HasCause};
ghost use Rattle.psk_seal.specs.Nonces.{AreNonces, Draws, EndsAtFault};
ghost use Rattle.psk_seal.specs.Sealer.{SealerState};
ghost use Rattle.psk_seal.specs.Pairs.{pair_at};

use crate::nonces::first_free;
use outside_io::Entropy;
use std::fmt::{self, Display, Formatter, Write};
use std::marker::Model;

/// How many nonces a sealer has.
pub const NONCE_COUNT: usize = 16;

/// How many pairs a sealer gives: under each nonce every sequence number once.
pub const MAX_PAIRS: u64 = 1 << 36;

/// What one datagram is sealed under: the nonce of its key, and its sequence number, the key and sequence fields of
/// the GRE header.
#[derive(Clone, Copy, Debug, PartialEq, Eq)]
pub struct Pair {
    /// The key field.
    pub nonce: u32,
    /// The sequence field.
    pub sequence: u32,
}

/// A sealer gave all its pairs.
#[derive(Clone, Copy, Debug, PartialEq, Eq)]
pub struct Spent;

impl Display for Spent {
    ghost output = { λ _. Some (codes "keys spent") };

    fn fmt<W: Write>(&self, f: &mut Formatter<W>) -> fmt::Result {
        f.write_str("keys spent")
    }
}

/// The source of random words failed.
#[derive(Clone, Copy, Debug, PartialEq, Eq)]
pub struct EntropyFault;

impl Display for EntropyFault {
    ghost output = { λ _. Some (codes "no randomness") };

    fn fmt<W: Write>(&self, f: &mut Formatter<W>) -> fmt::Result {
        f.write_str("no randomness")
    }
}

/// Gives pairs of nonce and sequence number, each once.
#[derive(Drop)]
pub struct Sealer {
    nonces: [u32; NONCE_COUNT],
    given: u64,
}

impl Model for Sealer {
    ghost use Rattle.std.specs.Prelude.{◌≤◌};
    ghost use Rattle.psk_seal.specs.Nonces.{AreNonces};
    ghost use Rattle.psk_seal.specs.Sealer.{SealerState};
    ghost use Rattle.psk_seal.specs.declared.sealer.TheConstants.{MAX_PAIRS};

    ghost Value = { SealerState };

    ghost view = { λ s. record { nonces = s.nonces; given = s.given } };

    ghost invariant = { λ s. AreNonces s.nonces × (s.given ≤ MAX_PAIRS) };
}

impl Sealer {
    /// Draws sixteen random words, each of which gives a nonce.
    pub fn with<E: Entropy>(entropy: &mut E) -> Result<Sealer, EntropyFault>
        ensures ok { IfOk result (λ sealer.
            Draws (E.remaining entropy.old) (E.remaining entropy.new) sealer.nonces NONCE_COUNT) }
        ensures nonces { IfOk result (λ sealer. AreNonces sealer.nonces) }
        ensures fresh { IfOk result (λ sealer. sealer.given ≡ 0) }
        // What was drawn before a fault was drawn, and nothing more.
        ensures err { OnErr result (EndsAtFault E.remaining E.faults entropy.old entropy.new) }
        ensures cause { HasCause (E.faults entropy.old) (E.faults entropy.new) result }
    {
        let mut nonces = [0; NONCE_COUNT];
        for place in 0..NONCE_COUNT {
            let Ok(word) = entropy.word() else {
                return Err(EntropyFault);
            };
            nonces[place] = first_free(&nonces[..place], word);
        }
        Ok(Sealer { nonces, given: 0 })
    }

    /// The next pair: under each nonce the sequence numbers from 0 on, and then those of the next nonce.
    pub fn next(&mut self) -> Result<Pair, Spent>
        ensures value { IfOk result (λ pair. pair ≡ pair_at self.old.nonces self.old.given) }
        ensures state { OnOk result (self.new ≡ record self.old { given = self.old.given + 1 }) }
        ensures complete { OnOk result (self.old.given < MAX_PAIRS) }
        ensures spent { OnErr result (self.old.given ≡ MAX_PAIRS) }
        ensures same { OnErr result (self.new ≡ self.old) }
    {
        if self.given == MAX_PAIRS {
            return Err(Spent);
        }
        let pair = Pair {
            nonce: self.nonces[(self.given / (1 << 32)) as usize],
            sequence: (self.given % (1 << 32)) as u32,
        };
        self.given += 1;
        Ok(pair)
    }

    /// How many pairs it has still to give.
    pub fn left(&self) -> u64
        ensures value { result ≡ MAX_PAIRS - self.now.given }
        ensures within { self.now.given ≤ MAX_PAIRS }
    {
        MAX_PAIRS - self.given
    }

    // Goes to the pair of this number.
    #[cfg(test)]
    pub(crate) fn skip_to(&mut self, given: u64)
        requires within { given ≤ MAX_PAIRS }
    {
        self.given = given;
    }
}
