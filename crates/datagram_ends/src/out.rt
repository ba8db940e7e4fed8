//! What sends datagrams.
ghost use Rattle.std.specs.Prelude.{◌≡◌, ◌++◌, ◌∷◌, [], ℕ, List, OnErr, OnOk};
ghost use Rattle.std.specs.Option.{option_map};
ghost use Rattle.std.specs.declared.option.Option.{Option};
ghost use Rattle.outside_io.specs.Causes.{HasCause};

use outside_io::Failed;

/// Sends datagrams, in order.
pub trait DatagramOut {
    /// The datagrams that were sent, the oldest first, where it tells them.
    ghost sent: { Self → Option (List (List ℕ)) };

    /// How many calls failed. It never falls.
    ghost faults: { Self → ℕ };

    /// Sends one. Whether anybody takes it isn't known.
    fn send(&mut self, octets: &[u8]) -> Result<(), Failed>
        ensures sent { OnOk result (sent self.new ≡ option_map (λ all. all ++ octets.now ∷ []) (sent self.old)) }
        ensures err { OnErr result (sent self.new ≡ sent self.old) }
        ensures cause { HasCause (faults self.old) (faults self.new) result };
}
