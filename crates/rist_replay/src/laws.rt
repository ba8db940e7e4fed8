//! Laws of a replay.
ghost use Rattle.std.specs.Prelude.{◌≡◌, ◌≤◌, ℕ, List, false};
ghost use Rattle.std.specs.List.{concat};
ghost use Rattle.outside_io.specs.Told.{IsPrefix};
ghost use Rattle.capture_file.specs.Capture.{Record};
ghost use Rattle.receiver_rules.specs.declared.limits.Limits.{Limits};
ghost use Rattle.receiver_rules.specs.Sent.{SentStream, Delivery, HasSteadyTimestamps, AreDeliveriesOf};
ghost use Rattle.rist_wire.specs.declared.session.Session.{Session};
ghost use Rattle.rist_replay.specs.Replay.{released_so_far, replayed};
ghost use Rattle.receiver_rules.specs.SentEpochs.{SentStreams, Transfer, AreTransfersOf, sent_epochs, reached_payloads as payloads_of_epochs};
ghost use Rattle.rist_replay.specs.Exact.{IsCaptureOf, IsCaptureOfAll, reached_payloads};

/// What is released while records come is a front of what they release in all.
pub fn what_is_released_stays()
    ensures { (session : Session) (limits : Limits) (rs : List Record)
        → IsPrefix (released_so_far session limits rs) (replayed session limits rs) }
{}

/// Where the base of deadlines stays, the records of a run of copies of what one sender sent release the payloads of
/// the numbers reached, by rising sent number, each once.
pub fn what_was_reached_is_released()
    ensures { (session : Session) (limits : Limits) (p : SentStream) (run : List Delivery) (rs : List Record)
        → 1 ≤ limits.playout_delay → limits.drift ≡ false → IsCaptureOf session p run rs
        → HasSteadyTimestamps p → AreDeliveriesOf limits p run
        → replayed session limits rs ≡ concat (reached_payloads limits p run) }
{}

/// Where flows restart, the records release epoch after epoch the payloads of the numbers reached in it, by rising sent
/// number, each once. Each packet of an epoch's flow is a copy of what was sent in it, and any other packet is free.
pub fn what_was_reached_is_released_epoch_after_epoch()
    ensures { (session : Session) (limits : Limits) (streams : SentStreams) (run : List Transfer) (rs : List Record)
        → 1 ≤ limits.playout_delay → IsCaptureOfAll session streams run rs
        → ((epoch : ℕ) → HasSteadyTimestamps (streams epoch)) → AreTransfersOf limits streams run
        → replayed session limits rs ≡ concat (payloads_of_epochs streams (sent_epochs limits streams run)) }
{}
