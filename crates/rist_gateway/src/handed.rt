//! Octets that clauses see alone.
ghost use Rattle.std.specs.Prelude.{◌≡◌, ◌++◌, []};

use octet_log::OctetLog;
use std::marker::Model;

/// The octets of the payloads that a sender took, one after another, as a contract sees them. A program does nothing for them.
#[derive(Drop)]
pub struct Handed {
    log: OctetLog,
}

impl Model for Handed {
    ghost use Rattle.std.specs.Prelude.{ℕ, List};

    ghost Value = { List ℕ };

    ghost view = { λ h. h.log.octets };
}

impl Handed {
    /// None yet.
    pub fn none() -> Handed
        ensures value { result ≡ [] }
    {
        Handed {
            log: OctetLog::new(),
        }
    }

    /// These too.
    pub fn add(&mut self, octets: &[u8])
        ensures value { self.new ≡ self.old ++ octets.now }
    {
        self.log.add(octets);
    }
}
