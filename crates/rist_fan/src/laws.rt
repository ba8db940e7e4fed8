//! Laws of several receivers that are told as one.
ghost use Rattle.std.specs.Prelude.{◌≡◌, ◌∷◌, ℕ, List, Option, Some, slice_get};
ghost use Rattle.turn_lock.specs.History.{added};
ghost use Rattle.request_rules.specs.Steps.{Step as ReceiverStep, buffer_history};
ghost use Rattle.rist_ends.specs.declared.told.Told.{Told};
ghost use Rattle.rist_ends.specs.declared.outcome.Outcome.{Outcome};
ghost use Rattle.rist_desk.specs.Made.{step_after};
ghost use Rattle.rist_fan.specs.Seen.{AreAlikeIn, FanStep, fan_step, is_for, seen, told_for};

/// What a receiver sees of a history with one more step is its own step, of what it was told and what it answered, before
/// what it saw: what the others were told and answered is nothing to it.
pub fn each_sees_its_own_steps()
    ensures { (place : Option ℕ) (told : Told) (outcomes : List Outcome) (history : List FanStep) (v : ℕ)
        (outcome : Outcome) → slice_get outcomes v ≡ Some outcome
        → seen v (fan_step place told outcomes ∷ history)
        ≡ added (step_after (told_for (is_for place v) told) outcome) (seen v history) }
{}

/// A buffer plays out the same whether a keepalive came or a datagram was refused: so each flow of a tunnel is played out
/// as by a receiver of its own session, which would take a keepalive at any place.
pub fn a_keepalive_moves_time_alone()
    ensures { (one other : List ReceiverStep) → AreAlikeIn one other → buffer_history one ≡ buffer_history other }
{}
