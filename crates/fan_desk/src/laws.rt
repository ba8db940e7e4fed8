//! Laws of several receivers that threads share in turns.
ghost use Rattle.std.specs.Prelude.{◌≡◌, ◌↔◌, ◌∷◌, [], ℕ, List, Option, Some, false, map, slice_get};
ghost use Rattle.std.specs.Option.{option_map};
ghost use Rattle.rist_ends.specs.declared.told.Told.{Told};
ghost use Rattle.rist_ends.specs.declared.outcome.Outcome.{Outcome};
ghost use Rattle.rist_desk.specs.declared.step.Step.{Step};
ghost use Rattle.rist_desk.specs.Desk.{Given};
ghost use Rattle.turn_lock.specs.declared.rule.Turn.{Turn};
ghost use Rattle.turn_lock.specs.Turns.{entries, of};
ghost use Rattle.turn_desk.specs.Stands.{Answers as AnswersAlone, Stands, step_added};
ghost use Rattle.rist_fan.specs.declared.flow.Came.{Came};
ghost use Rattle.rist_fan.specs.declared.flow.Flow.{Flow};
ghost use Rattle.rist_fan.specs.Seen.{FanStep, fan_step, is_for, seen};
ghost use Rattle.rist_fan.specs.Fan.{AreNew, FanStands};
ghost use Rattle.fan_desk.specs.Origin.{AreUntold, given_at};
ghost use Rattle.fan_desk.specs.Rows.{Answers, AreBeside, row_added, row_of, turns_at};

use outside_io::Sink;

/// Receivers that were told nothing, over sinks that hold nothing, are as what is given of each of their places says, where
/// that is what they stand as: so a desk can be opened over any such.
pub fn what_was_told_nothing_is_new<K: Sink>()
    ensures { (flows : List (Flow K)) → AreUntold K.contents flows
        → AreNew (given_at K.contents K.faults flows) K.contents K.faults flows }
{}

/// What a place sees is its own: whichever datagrams came for other places, or for none, on a link at a moment, it sees the
/// same of them.
pub fn what_came_for_others_is_the_same_to_a_place()
    ensures { (place other : Option ℕ) (told instead : Told) (outcomes others : List Outcome) (outcome : Outcome)
        (v : ℕ) (history : List FanStep) → is_for place v ≡ false → is_for other v ≡ false → AreBeside told instead
        → slice_get outcomes v ≡ Some outcome → slice_get others v ≡ Some outcome
        → seen v (fan_step place told outcomes ∷ history) ≡ seen v (fan_step other instead others ∷ history) }
{}

/// The turns that were taken at a desk of several flows are to each place turns of its own: their history is what the place
/// saw of the rows, and what each pass added to it is what the place saw of the rows of that pass.
pub fn each_place_has_turns_of_its_own()
    ensures history { (turns : List (Turn FanStep)) (v : ℕ)
        → entries (turns_at v turns) ≡ seen v (entries turns) }
    ensures own { (turns : List (Turn FanStep)) (v k : ℕ) → of k (turns_at v turns) ≡ seen v (of k turns) }
{}

/// A desk of one flow is the desk of one receiver: the step that it adds is the only member of the row, the receiver stands
/// for the same steps, and it answers the same.
pub fn a_fan_of_one_is_one_receiver<K: Sink>()
    ensures seen { (steps : List Step) → seen 0 (map row_of steps) ≡ steps }
    ensures added { (told : Told) (came : Came) → row_added (record { place = Some 0; told = told }) (came ∷ []) tt
        ≡ option_map row_of (step_added told came.outs came.answer) }
    ensures stands { (given : ℕ → Given) (flow : Flow K) (steps : List Step)
        → (FanStands given K.contents K.faults (flow ∷ []) (map row_of steps)
        ↔ Stands (given 0) K.contents K.faults flow.receiver flow.sink steps) }
    ensures answers { (given : ℕ → Given) (steps : List Step) (told : Told) (was is : Came)
        → (Answers given (map row_of steps) (record { place = Some 0; told = told }) (was ∷ []) (is ∷ []) tt
        ↔ AnswersAlone (given 0) steps told was.outs is.outs is.answer) }
{}
