//! Laws of a run of receiving.
ghost use Rattle.std.specs.Prelude.{◌≡◌, ◌<◌, ◌≤◌, ◌++◌, ◌∷◌, ℕ, false, List, [], length, reverse, slice_get, Option, Some};
ghost use Rattle.std.specs.List.{concat};
ghost use Rattle.receiver_rules.specs.Sent.{SentStream, Delivery, HasSteadyTimestamps, AreDeliveriesOf};
ghost use Rattle.rist_desk.specs.declared.step.Step.{Step};
ghost use Rattle.rist_desk.specs.Desk.{Given};
ghost use Rattle.rist_desk.specs.Sending.{Made, one};
ghost use Rattle.rist_desk.specs.Work.{Gains, Holds, IsOlder};
ghost use Rattle.rist_compare.specs.Tears.{Agree};
ghost use Rattle.turn_lock.specs.declared.rule.Turn.{Turn};
ghost use Rattle.turn_lock.specs.Turns.{entries, of};
ghost use Rattle.turn_desk.specs.Own.{AreOf};
ghost use Rattle.desk_run.specs.Receiving.{IsWhole};
ghost use Rattle.receiver_rules.specs.SentEpochs.{SentStreams, Transfer, AreTransfersOf, sent_epochs, reached_payloads as payloads_of_epochs};
ghost use Rattle.desk_run.specs.Exact.{IsRunOf, IsRunOfAll, reached_payloads};

/// Where the steps before the end are a run of copies of what one sender sent, near enough for their words to tell them
/// apart, and the base of deadlines stays, the sink holds the payloads of the numbers that were reached, by rising
/// number, each once, and nothing else.
pub fn what_was_reached_is_received()
    ensures { (given : Given) (p : SentStream) (run : List Delivery) (steps : List Step) (kept : Option (List Step))
        (contents : Option (List ℕ)) (octets : List ℕ)
        → IsWhole given (Some steps) kept contents → contents ≡ Some octets → IsRunOf p run steps
        → 1 ≤ given.settings.limits.playout_delay → HasSteadyTimestamps p
        → given.settings.limits.drift ≡ false → AreDeliveriesOf given.settings.limits p run
        → octets ≡ concat (reached_payloads given.settings.limits p run) }
{}

/// Where flows restart and the steps before the end are copies of what was sent in each epoch, and other packets that
/// are free, the sink holds epoch after epoch the payloads of the numbers that were reached in it, by rising number.
pub fn what_was_reached_is_received_epoch_after_epoch()
    ensures { (given : Given) (streams : SentStreams) (run : List Transfer) (steps : List Step)
        (kept : Option (List Step)) (contents : Option (List ℕ)) (octets : List ℕ)
        → IsWhole given (Some steps) kept contents → contents ≡ Some octets → IsRunOfAll streams run steps
        → 1 ≤ given.settings.limits.playout_delay → ((epoch : ℕ) → HasSteadyTimestamps (streams epoch))
        → AreTransfersOf given.settings.limits streams run
        → octets ≡ concat (payloads_of_epochs streams (sent_epochs given.settings.limits streams run)) }
{}

/// Where the turns of each pass added steps of its own link alone, the history is made of the passes' own lists: each step
/// is of a link that has a list, and the steps of each link are what its pass added, each once and in their order. Passes
/// behind these added nothing.
pub fn what_passes_own_is_what_links_made()
    ensures { (turns : List (Turn Step)) (own : List (List Step))
        → ((k : ℕ) → length own ≤ k → of k turns ≡ [])
        → ((k : ℕ) (steps : List Step) → slice_get own k ≡ Some steps → steps ≡ reverse (of k turns))
        → ((k : ℕ) → AreOf k (of k turns))
        → Agree (reverse (entries turns)) own }
{}

/// Where a worker had seen no step at first, and what it has seen at last stands at the front of a history: each step that
/// it made stands there right behind all that had been made before it, by which its datagrams are due; and of two the
/// second was made after the first.
pub fn each_step_stands_behind_those_before_it()
    ensures behind { (desk : Option Given) (was is : Holds Step) (ms : List Made) (seen whole : List Step) (i : ℕ)
        (m : Made) → Gains (one desk) was is ms → was.own.seen ≡ Some [] → is.own.seen ≡ Some seen
        → IsOlder seen whole → slice_get ms i ≡ Some m → IsOlder (m.before ++ m.step ∷ []) whole }
    ensures order { (desk : Option Given) (was is : Holds Step) (ms : List Made) (seen : List Step) (i j : ℕ)
        (m n : Made) → Gains (one desk) was is ms → was.own.seen ≡ Some [] → is.own.seen ≡ Some seen
        → i < j → slice_get ms i ≡ Some m → slice_get ms j ≡ Some n → IsOlder (m.before ++ m.step ∷ []) n.before }
{}
