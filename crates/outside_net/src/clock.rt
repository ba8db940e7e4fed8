//! What tells the time.
ghost use Rattle.std.specs.Prelude.{◌≡◌, ℕ};
ghost use Rattle.std.specs.Option.{option_map};
ghost use Rattle.std.specs.declared.option.Option.{Option};
ghost use Rattle.outside_net.specs.Streams.{later, IsFirst};

/// Tells the time in microseconds. It may go back.
pub trait Clock {
    /// The moments that it has still to give, by the number of the call from the next one on, where it tells them.
    ghost moments: { Self → Option (ℕ → ℕ) };

    /// The moment now.
    fn now(&mut self) -> u64
        ensures value { IsFirst (moments self.old) result }
        ensures moments { moments self.new ≡ option_map later (moments self.old) };
}
