//! What octets come from, where it is known whether some are there.
ghost use Rattle.std.specs.Prelude.{◌≡◌};

use outside_io::Source;

/// A source that says whether a read of it waits.
pub trait ReadySource: Source {
    /// Whether a read gives something now: octets, the end or a fault. It doesn't wait.
    fn is_ready(&mut self) -> bool
        ensures same { Self.remaining self.new ≡ Self.remaining self.old }
        ensures ahead { Self.ahead self.new ≡ Self.ahead self.old }
        ensures faults { Self.faults self.new ≡ Self.faults self.old };
}
