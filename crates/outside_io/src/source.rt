//! What octets come from.
ghost use Rattle.std.specs.Prelude.{◌≡◌, ◌<◌, ℕ, List, [], Some, codes, IfOk, OnErr, take, length};
ghost use Rattle.std.specs.declared.option.Option.{Option};
ghost use Rattle.std.specs.Io.{ReadsAtMost};
ghost use Rattle.outside_io.specs.Causes.{HasCause};
ghost use Rattle.outside_io.specs.Told.{Takes, IsEmpty};

use std::fmt::{self, Display, Formatter, Write};

/// A call on the outside failed.
#[derive(Clone, Copy, Debug, PartialEq, Eq)]
pub struct Failed;

impl Display for Failed {
    ghost output = { λ _. Some (codes "call failed") };

    fn fmt<W: Write>(&self, f: &mut Formatter<W>) -> fmt::Result {
        f.write_str("call failed")
    }
}

/// Gives octets, in order.
pub trait Source {
    /// The octets that it has still to give, where it tells.
    ghost remaining: { Self → Option (List ℕ) };

    /// The octets that it took from another source ahead of need, where it reads through one.
    ghost ahead: { Self → List ℕ } = { λ _. [] };

    /// How many calls failed. It never falls.
    ghost faults: { Self → ℕ };

    /// Reads into the front of a slice, and says how many octets it gave. 0, for a slice that isn't empty, is the end.
    fn read(&mut self, buf: &mut [u8]) -> Result<usize, Failed>
        ensures within { ReadsAtMost result buf.new }
        ensures ok { IfOk result (λ count. Takes (remaining self.old) (remaining self.new) (take count buf.new)) }
        ensures end { IfOk result (λ count. count ≡ 0 → 0 < length buf.new → IsEmpty (remaining self.new)) }
        ensures err { OnErr result (remaining self.new ≡ remaining self.old) }
        // It gives all that was taken ahead before it fails.
        ensures ahead { OnErr result (ahead self.new ≡ []) }
        ensures cause { HasCause (faults self.old) (faults self.new) result };
}
