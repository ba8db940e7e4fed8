//! A log of octets. It takes no memory, and nothing is done for it when a program runs.

ghost use Rattle.std.specs.Prelude.{◌≡◌, ℕ, List, [], ◌++◌};
ghost use Rattle.std.specs.Borrow.{ftrue};

use std::marker::Model;

/// Octets that were added one after another. A clause reads them as `octets`; no code can.
#[derive(Drop)]
pub struct OctetLog {
    pub ghost octets: { List ℕ },
}

impl Model for OctetLog {
    ghost also_owns = { λ _. ftrue };
}

// A log owns nothing, so it may go to another thread.
unsafe impl Send for OctetLog {}

impl OctetLog {
    /// None yet.
    pub fn new() -> OctetLog
        ensures { result.octets ≡ [] }
    {
        OctetLog {}
    }

    /// These too.
    pub fn add(&mut self, _octets: &[u8])
        ensures { self.new.octets ≡ self.old.octets ++ _octets.now }
    {}
}
