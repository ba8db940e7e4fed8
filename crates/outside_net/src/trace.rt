//! What keeps a list.
ghost use Rattle.std.specs.Prelude.{◌≡◌, ◌++◌, ◌∷◌, [], List, ℕ, false, unwrap_or};
ghost use Rattle.std.specs.Option.{option_map};
ghost use Rattle.std.specs.declared.option.Option.{Option};
ghost use Rattle.outside_io.specs.Causes.{has_failed};
ghost use Rattle.outside_net.specs.Traces.{is_full};

/// A trace keeps as much as it can.
#[derive(Clone, Copy, Debug, PartialEq, Eq)]
pub struct Full;

/// Keeps what it is told, in order.
pub trait Trace<E> {
    /// What it keeps, the oldest first, where it tells.
    ghost list: { Self → Option (List E) };

    /// How many it keeps at most, where there is a limit.
    ghost limit: { Self → Option ℕ };

    /// Whether one more may be added: `Full` exactly where it keeps as many as its limit.
    fn room(&self) -> Result<(), Full>
        ensures full { has_failed result ≡ is_full (limit self.now) (list self.now) };

    /// Adds one more behind the others.
    fn add(&mut self, item: E)
        requires room { is_full (limit self.old) (list self.old) ≡ false }
        ensures list { list self.new ≡ option_map (λ kept. kept ++ item ∷ []) (list self.old) }
        ensures limit { limit self.new ≡ limit self.old };

    /// What it keeps, and nothing where it doesn't tell.
    fn kept(&self) -> &[E]
        ensures list { result.now ≡ unwrap_or (list self.now) [] };
}
