//! Steps that leave a timer as it is: a caller tells it only of a highest number that rises, and asks it at ticks.
ghost use Rattle.std.specs.Prelude.{◌≡◌, ◌∷◌, ℕ, List, Some};
ghost use Rattle.receiver_rules.specs.declared.limits.Limits.{Limits};
ghost use Rattle.receiver_rules.specs.Steps.{Arrival};
ghost use Rattle.request_rules.specs.Steps.{Input, Step, buffer_history};
ghost use Rattle.nack_timer.specs.State.{TimerState};
ghost use Rattle.nack_timer.specs.Steps.{media_step, IsSilent};
ghost use Rattle.nack_timer.specs.TimerAfter.{IsTimerAfter, highest_number};
ghost use Rattle.nack_timer.specs.OneMore.{IsOfEpoch};

/// A step that is neither a media packet nor a tick.
pub fn silent_steps_leave_a_timer()
    ensures { (t : TimerState) (limits : Limits) (before : List Step) (link tick : ℕ) (input : Input)
        → IsSilent input → IsTimerAfter t limits before
        → IsTimerAfter t limits (record { link = link; tick = tick; input = input } ∷ before) }
{}

/// A media packet that opens no epoch and after which the highest number is what it was.
pub fn packets_below_the_highest_leave_a_timer()
    ensures { (t : TimerState) (limits : Limits) (before : List Step) (link tick high : ℕ) (arrival : Arrival)
        → IsTimerAfter t limits before → IsOfEpoch limits before link tick arrival → t.high ≡ Some high
        → highest_number limits (buffer_history (media_step link tick arrival ∷ before)) ≡ Some high
        → IsTimerAfter t limits (media_step link tick arrival ∷ before) }
{}
