//! What random words come from.
ghost use Rattle.std.specs.Prelude.{◌≡◌, ℕ, List, [], ◌∷◌, IfOk, OnErr};
ghost use Rattle.std.specs.declared.option.Option.{Option};
ghost use Rattle.outside_io.specs.Causes.{HasCause};
ghost use Rattle.outside_io.specs.Told.{Takes};

use crate::Failed;

/// Gives random words, one after another.
pub trait Entropy {
    /// The words that it has still to give, where it tells.
    ghost remaining: { Self → Option (List ℕ) };

    /// How many calls failed. It never falls.
    ghost faults: { Self → ℕ };

    /// The next word.
    fn word(&mut self) -> Result<u32, Failed>
        ensures ok { IfOk result (λ word. Takes (remaining self.old) (remaining self.new) (word ∷ [])) }
        ensures err { OnErr result (remaining self.new ≡ remaining self.old) }
        ensures cause { HasCause (faults self.old) (faults self.new) result };
}
