//! What the definition of the nearest number means.
ghost use Rattle.std.specs.Prelude.{◌≡◌, ℕ, ◌/◌, ◌<◌, ◌≤◌, ◌↔◌};
ghost use Rattle.seq_unwrap.specs.Nearest.{cycle_of, nearest, IsNearest};
ghost use Rattle.seq_unwrap.specs.declared.width.Width.{Width};

/// Exactly one number is nearest, and it is the one that `nearest` computes.
pub fn one_number_is_nearest()
    ensures { (width : Width) (reference word x : ℕ) → word < cycle_of width
        → cycle_of width / 2 ≤ reference
        → (IsNearest (cycle_of width) reference word x ↔ (x ≡ nearest (cycle_of width) reference word)) }
{}
