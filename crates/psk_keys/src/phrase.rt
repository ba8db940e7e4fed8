//! The passphrase of a session.

ghost use Rattle.std.specs.Prelude.{◌≡◌, ◌≤◌, ℕ, length};

use std::marker::Model;

/// How many octets the longest passphrase has (this profile).
pub const MAX_PHRASE_LEN: usize = 128;

/// A passphrase that both ends of a session share: 1 to 128 octets (this profile). A contract sees the
/// octets.
#[derive(Drop)]
pub struct Phrase {
    octets: [u8; MAX_PHRASE_LEN],
    count: usize,
}

impl Model for Phrase {
    ghost use Rattle.std.specs.Prelude.{ℕ, List, ◌≤◌, take};

    ghost Value = { List ℕ };

    ghost view = { λ p. take p.count p.octets };

    ghost invariant = { λ p. (1 ≤ p.count) × (p.count ≤ 128) };
}

impl Phrase {
    /// The passphrase of these octets.
    pub fn of(octets: &[u8]) -> Phrase
        requires least { 1 ≤ length octets.now }
        requires most { length octets.now ≤ MAX_PHRASE_LEN }
        ensures octets { result ≡ octets.now }
    {
        let mut kept = [0; MAX_PHRASE_LEN];
        kept[..octets.len()].copy_from_slice(octets);
        Phrase {
            octets: kept,
            count: octets.len(),
        }
    }

    /// The octets of the passphrase.
    pub fn octets(&self) -> &[u8]
        ensures octets { result.now ≡ self.now }
        ensures least { 1 ≤ length result.now }
        ensures most { length result.now ≤ MAX_PHRASE_LEN }
    {
        &self.octets[..self.count]
    }
}
