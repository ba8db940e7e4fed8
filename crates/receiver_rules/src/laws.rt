ghost use Rattle.std.specs.Prelude.{◌≡◌, ◌≤◌, ◌∷◌, ◌++◌, ◌&&◌, ℕ, List, Bool, map, not, length, false};
ghost use Rattle.receiver_rules.specs.declared.limits.Limits.{Limits};
ghost use Rattle.receiver_rules.specs.declared.verdict.Verdict.TheVariants.{Stranger};
ghost use Rattle.receiver_rules.specs.Steps.{Arrival, Step, end_step, has_ended};
ghost use Rattle.receiver_rules.specs.Packets.{Packet, IsRising};
ghost use Rattle.std.specs.List.{All, flat_map};
ghost use Rattle.receiver_rules.specs.Epochs.{Epoch, opens_next};
ghost use Rattle.receiver_rules.specs.History.{anchor_of, accepted_packets, played_out_packets, released_payloads, verdict};
ghost use Rattle.receiver_rules.specs.OneFlow.{one_anchor, one_accepted, one_verdict, one_release};
ghost use Rattle.receiver_rules.specs.SentEpochs.{SentStreams, Transfer, CopyIn, Foreign, AreTransfersOf, SentEpoch, numbers_in, is_reached, reaches, shipped_steps, sent_epochs, reached_payloads};
ghost use Rattle.receiver_rules.specs.Playouts.{playouts_of};
ghost use Rattle.receiver_rules.specs.Sent.{SentStream, Delivery, CopyOf, IsKnown, IsOrdinary, copy_of, HasSteadyTimestamps, AreDeliveriesOf, arrives_in_window, steps_of, reached_numbers, rising_numbers};

/// Whatever arrives, what goes out is that of one epoch after another, within each the numbers rise strictly, and what
/// is out stays as it is: a step only adds behind it.
pub fn numbers_rise()
    ensures strictly { (limits : Limits) (history : List Step)
        → All (IsRising 0) (playouts_of limits history) }
    ensures joined { (limits : Limits) (history : List Step)
        → played_out_packets limits history ≡ flat_map (λ ps. ps) (playouts_of limits history) }
    ensures behind { (limits : Limits) (step : Step) (history : List Step) → has_ended history ≡ false
        → (more : List Packet) × (played_out_packets limits (step ∷ history)
        ≡ played_out_packets limits history ++ more) }
{}

/// Where all that comes are copies of what one sender sent, near enough for their words to tell them apart, and the
/// base of deadlines stays, what is written in the end are the payloads of the numbers that were reached, by rising
/// number, and nothing else.
pub fn release_set()
    ensures { (limits : Limits) (p : SentStream) (run : List Delivery) → HasSteadyTimestamps p
        → 1 ≤ limits.playout_delay → limits.drift ≡ false → AreDeliveriesOf limits p run
        → released_payloads limits (end_step ∷ steps_of p run)
        ≡ map p.payload (rising_numbers (reached_numbers limits p run)) }
{}

/// There no copy of what one sender sent is a stranger, exhausts the numbers, or comes behind what was played out
/// without being late.
pub fn copies_are_ordinary()
    ensures { (limits : Limits) (p : SentStream) (run : List Delivery) (tick n : ℕ) (again : Bool)
        → HasSteadyTimestamps p → 1 ≤ limits.playout_delay → limits.drift ≡ false
        → AreDeliveriesOf limits p (record { tick = tick; what = CopyOf n again } ∷ run)
        → IsOrdinary (verdict limits (steps_of p run) tick (copy_of p n again)) }
{}

/// Where each packet of an epoch's flow is a copy of what was sent in that epoch, and any other packet is free, what is
/// written in the end is, epoch after epoch, the payloads of the numbers that were reached, by rising number, and
/// nothing else.
pub fn release_set_by_epochs()
    ensures { (limits : Limits) (streams : SentStreams) (run : List Transfer)
        → ((epoch : ℕ) → HasSteadyTimestamps (streams epoch)) → 1 ≤ limits.playout_delay
        → AreTransfersOf limits streams run
        → released_payloads limits (end_step ∷ shipped_steps streams run)
        ≡ reached_payloads streams (sent_epochs limits streams run) }
{}

/// There a copy is never a stranger and exhausts no numbers, and where the base of deadlines stays it comes not behind
/// what was played out without being late; and each other packet is a stranger.
pub fn transfers_are_ordinary()
    ensures copies { (limits : Limits) (streams : SentStreams) (run : List Transfer) (tick epoch n : ℕ) (again : Bool)
        → ((epoch : ℕ) → HasSteadyTimestamps (streams epoch)) → 1 ≤ limits.playout_delay
        → AreTransfersOf limits streams (record { tick = tick; what = CopyIn epoch n again } ∷ run)
        → IsKnown (verdict limits (shipped_steps streams run) tick (copy_of (streams epoch) n again)) }
    ensures ahead { (limits : Limits) (streams : SentStreams) (run : List Transfer) (tick epoch n : ℕ) (again : Bool)
        → ((epoch : ℕ) → HasSteadyTimestamps (streams epoch)) → 1 ≤ limits.playout_delay → limits.drift ≡ false
        → AreTransfersOf limits streams (record { tick = tick; what = CopyIn epoch n again } ∷ run)
        → IsOrdinary (verdict limits (shipped_steps streams run) tick (copy_of (streams epoch) n again)) }
    ensures others { (limits : Limits) (streams : SentStreams) (run : List Transfer) (tick : ℕ) (arrival : Arrival)
        → ((epoch : ℕ) → HasSteadyTimestamps (streams epoch)) → 1 ≤ limits.playout_delay
        → AreTransfersOf limits streams (record { tick = tick; what = Foreign arrival } ∷ run)
        → verdict limits (shipped_steps streams run) tick arrival ≡ Stranger }
{}

/// Where the base of deadlines stays, what it means that a copy reaches its number is simpler: it arrives in its
/// window, and none did before.
pub fn without_drift_windows_are_fixed()
    ensures { (limits : Limits) (streams : SentStreams) (run : List Transfer) (current : SentEpoch)
        (earlier : List SentEpoch) (t n : ℕ) → ((epoch : ℕ) → HasSteadyTimestamps (streams epoch))
        → limits.drift ≡ false → AreTransfersOf limits streams run
        → sent_epochs limits streams run ≡ current ∷ earlier
        → reaches limits (streams (length earlier)) current t n
        ≡ (arrives_in_window limits (streams (length earlier)) current.start (numbers_in current.reached) t n
        && not (is_reached current.reached n)) }
{}

/// Without a restart time no other flow ever takes the first one's place, and without compensation of drift the base of
/// deadlines stays: anchor, kept packets, verdicts and release are those of one flow.
pub fn without_a_restart_time_there_is_one_flow()
    ensures anchor { (limits : Limits) (history : List Step) → limits.restart_time ≡ 0 → limits.drift ≡ false
        → anchor_of limits history ≡ one_anchor history }
    ensures accepted { (limits : Limits) (history : List Step) → limits.restart_time ≡ 0 → limits.drift ≡ false
        → accepted_packets limits history ≡ one_accepted limits history }
    ensures verdicts { (limits : Limits) (history : List Step) (tick : ℕ) (arrival : Arrival)
        → limits.restart_time ≡ 0 → limits.drift ≡ false
        → verdict limits history tick arrival ≡ one_verdict limits history tick arrival }
    ensures release { (limits : Limits) (history : List Step) → limits.restart_time ≡ 0 → limits.drift ≡ false
        → released_payloads limits history ≡ one_release limits history }
{}

/// A packet of the current flow opens no epoch, whatever the restart time is.
pub fn a_flow_does_not_restart_itself()
    ensures { (limits : Limits) (current : Epoch) (t : ℕ) (arrival : Arrival)
        → arrival.flow ≡ current.anchor.flow → opens_next limits current t arrival ≡ false }
{}
