//! A receiver as a visitor of a capture's records.
ghost use Rattle.std.specs.Prelude.{◌≡◌, [], IfOk};
ghost use Rattle.rist_wire.specs.Session.{IsSession};
ghost use Rattle.rist_ends.specs.Settings.{limits_of};
ghost use Rattle.rist_replay.specs.Replay.{AreSettings};
ghost use Rattle.rist_replay.specs.Inside.Visiting.{answer_of};

use capture_file::Head;
use capture_walk::{VisitBad, Visitor};
use link_channels::MAX_PAYLOAD;
use outside_io::{Failed, NoMemory, Sink};
use rist_ends::{Answer, Outs, Receiver, Settings, Told, What, what_of};
use rist_wire::{Opener, Session};
use std::alloc::Global;

/// Opens a session's datagrams, and steps their items on a receiver.
#[derive(Drop)]
pub struct Replayer {
    /// Takes the datagrams of the session.
    pub opener: Opener,
    /// Is told their items.
    pub receiver: Receiver,
    /// Where it puts the datagrams that it makes. A muted one makes none.
    pub outs: Outs,
    /// Where a payload is put whose null packets were deleted.
    pub block: [u8; MAX_PAYLOAD],
}

impl Replayer {
    ghost use Rattle.rist_replay.specs.Replay.{HasReplayed};

    /// One in a session, with these settings, that was told nothing. All memory of a replay or a counting is taken here.
    pub fn with(alloc: Global, session: &Session, settings: &Settings) -> Result<Replayer, NoMemory>
        requires session { IsSession session.now }
        requires settings { AreSettings settings.now }
        ensures session { IfOk result (λ r. r.opener ≡ session.now) }
        ensures limits { IfOk result (λ r. r.receiver.buffer.limits ≡ limits_of settings.now) }
        ensures start { IfOk result (λ r. HasReplayed r.opener r.receiver []) }
    {
        let opener = Opener::with(alloc, session)?;
        let receiver = Receiver::with(alloc, settings, session, None)?;
        Ok(Replayer {
            opener,
            receiver,
            outs: Outs::none(),
            block: [0; MAX_PAYLOAD],
        })
    }
}

// Whether a step was made. A receiver that has ended makes none, and none ends before the walk does.
fn answer_of(answer: Answer) -> Result<(), VisitBad>
    ensures value { result ≡ answer_of answer }
{
    match answer {
        Answer::WriteFault => Err(VisitBad::WriteFault),
        Answer::Stopped | Answer::Verdict(_) | Answer::Spent | Answer::Made | Answer::Nothing => {
            Ok(())
        }
    }
}

impl Visitor for Replayer {
    ghost use Rattle.std.specs.Prelude.{◌++◌, ◌∷◌, List, OnOk, OnErr, IsErrOf, IsTrue, false};
    ghost use Rattle.capture_file.specs.Capture.{Record, Fits};
    ghost use Rattle.capture_file.specs.Heads.{record_of};
    ghost use Rattle.outside_io.specs.Causes.{HasWriteCause, fault_by};
    ghost use Rattle.outside_io.specs.Told.{Writes, WritesPart};
    ghost use Rattle.capture_walk.specs.Causes.{visit_fault};
    ghost use Rattle.capture_walk.specs.declared.visitor.VisitBad.TheVariants.{Memory};
    ghost use Rattle.rist_replay.specs.Replay.{released_so_far, replayed, HasReplayed};

    ghost so_far = { λ r. released_so_far r.opener r.receiver.buffer.limits };

    ghost whole = { λ r. replayed r.opener r.receiver.buffer.limits };

    ghost has_seen = { λ r rs. HasReplayed r.opener r.receiver rs };

    // Nothing is said of a receiver that was told the end.
    ghost has_ended = { λ r rs. Unit {0} };

    ghost wants_memory = { false };

    fn record<K: Sink>(
        &mut self,
        head: &Head,
        octets: &mut [u8],
        sink: &mut K,
    ) -> Result<(), VisitBad>
        requires fits { Fits (record_of head.now octets.old) }
        ensures seen { OnOk result ((done : List Record) → HasReplayed self.old.opener self.old.receiver done
            → HasReplayed self.new.opener self.new.receiver (done ++ record_of head.now octets.old ∷ [])) }
        ensures sink { OnOk result ((done : List Record) → HasReplayed self.old.opener self.old.receiver done
            → Writes (K.contents sink.old) (K.contents sink.new)
            (released_so_far self.old.opener self.old.receiver.buffer.limits done)
            (released_so_far self.old.opener self.old.receiver.buffer.limits
            (done ++ record_of head.now octets.old ∷ []))) }
        ensures part { OnErr result ((done : List Record) → HasReplayed self.old.opener self.old.receiver done
            → WritesPart (K.contents sink.old) (K.contents sink.new)
            (released_so_far self.old.opener self.old.receiver.buffer.limits done)
            (released_so_far self.old.opener self.old.receiver.buffer.limits
            (done ++ record_of head.now octets.old ∷ []))) }
        ensures none { IsErrOf result Memory → K.contents sink.new ≡ K.contents sink.old }
        ensures memory { IsErrOf result Memory → IsTrue false }
        ensures same { (released_so_far self.new.opener self.new.receiver.buffer.limits
            ≡ released_so_far self.old.opener self.old.receiver.buffer.limits)
            × (replayed self.new.opener self.new.receiver.buffer.limits
            ≡ replayed self.old.opener self.old.receiver.buffer.limits) }
        // Its session and its limits stay.
        ensures set { (self.new.opener ≡ self.old.opener)
            × (self.new.receiver.buffer.limits ≡ self.old.receiver.buffer.limits) }
        ensures cause { HasWriteCause (fault_by visit_fault result) (K.faults sink.old) (K.faults sink.new) }
    {
        let item = self.opener.take(head.channel, octets);
        let told = Told {
            link: head.link,
            us: head.us,
            what: what_of(&item, &mut self.block),
        };
        answer_of(self.receiver.step_into(&told, &mut self.outs, sink))
    }

    fn finish<K: Sink>(&mut self, sink: &mut K) -> Result<(), Failed> {
        let told = Told {
            link: 0,
            us: 0,
            what: What::End,
        };
        match answer_of(self.receiver.step_into(&told, &mut self.outs, sink)) {
            Ok(()) => Ok(()),
            Err(_) => Err(Failed),
        }
    }
}
