//! Laws of the figures.
ghost use Rattle.std.specs.Prelude.{◌≡◌, ◌+◌, List, true};
ghost use Rattle.receiver_rules.specs.declared.limits.Limits.{Limits};
ghost use Rattle.receiver_rules.specs.Steps.{has_ended};
ghost use Rattle.request_rules.specs.Steps.{Step, buffer_history};
ghost use Rattle.rist_ends.specs.Numbers.{missing_count, sent_count};
ghost use Rattle.session_figures.specs.Figures.{first_count, recovered_count};

/// Once the end has come each packet that was sent, by its number, came first time, was recovered, or is missing.
pub fn what_was_sent_came_or_is_missing()
    ensures { (limits : Limits) (history : List Step) → has_ended (buffer_history history) ≡ true
        → sent_count limits (buffer_history history)
        ≡ (first_count limits history + recovered_count limits history)
        + missing_count limits (buffer_history history) }
{}
