ghost use Rattle.std.specs.Prelude.{◌≡◌};
ghost use Rattle.nack_timer.specs.State.{policy_of, IsInRange};

use request_rules::{NackKind, Policy};

/// When missing packets are asked for.
#[derive(Clone, Copy, Debug, PartialEq, Eq)]
pub struct Settings {
    /// How long a packet may be missing before it is asked for, since it may only be out of order, in milliseconds: at
    /// most 1,000.
    pub reorder: u64,
    /// The least time between two requests for one packet, in milliseconds: at most 1,000. A longer round-trip time
    /// counts in its place.
    pub least: u64,
    /// How often one packet is asked for: at most 32 times.
    pub tries: u64,
    /// How requests are written.
    pub nack: NackKind,
}

impl Settings {
    /// The same in ticks.
    pub(crate) fn policy(&self) -> Policy
        requires { IsInRange self.now }
        ensures { result ≡ policy_of self.now }
    {
        Policy {
            reorder_tolerance: 90 * self.reorder,
            retry_interval: 90 * self.least,
            retry_limit: self.tries,
            kind: self.nack,
        }
    }
}
