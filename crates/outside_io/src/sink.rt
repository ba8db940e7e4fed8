//! What octets go to.
ghost use Rattle.std.specs.Prelude.{List, OnErr, OnOk, ℕ};
ghost use Rattle.std.specs.declared.option.Option.{Option};
ghost use Rattle.outside_io.specs.Causes.{HasCause};
ghost use Rattle.outside_io.specs.Told.{Appends, AppendsPart};

use crate::Failed;

/// Takes pieces of octets, in order.
pub trait Sink {
    /// The octets that it holds, where it tells.
    ghost contents: { Self → Option (List ℕ) };

    /// How many calls failed. It never falls.
    ghost faults: { Self → ℕ };

    /// Appends the piece. A call that fails appends a front part of it.
    fn put(&mut self, piece: &[u8]) -> Result<(), Failed>
        ensures ok { OnOk result (Appends (contents self.old) (contents self.new) piece.now) }
        ensures err { OnErr result (AppendsPart (contents self.old) (contents self.new) piece.now) }
        ensures cause { HasCause (faults self.old) (faults self.new) result };
}
