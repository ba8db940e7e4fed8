//! Turns, one after another.
ghost use Rattle.std.specs.Prelude.{◌≡◌, ◌≤◌, ◌^◌, ℕ, [], Err, length, map, is_err, true};
ghost use Rattle.outside_io.specs.Causes.{HasReadCause, NoFault, fault_by};
ghost use Rattle.sender_rules.specs.Bonding.{link_count};
ghost use Rattle.link_channels.specs.declared.bounds.TheConstants.{MAX_LINKS};
ghost use Rattle.rist_sender.specs.Calls.{Work};
ghost use Rattle.rist_sender.specs.Sender.{IsSenderAfter, StaysSet};
ghost use Rattle.rist_send.specs.Run.{Run, setup_of};
ghost use Rattle.rist_send.specs.Turns.{TicksOnce, ReadsAndTicks, Turn};
ghost use Rattle.rist_send.specs.Sending.{SendsSource, read_fault};
ghost use Rattle.rist_send.specs.Served.{Runs, new_run};
ghost use Rattle.rist_send.specs.Waiting.{IsNeverReady, LeavesUnread};
ghost use Rattle.rist_send.specs.Inside.Moves.{IsAt, Moves, MovesBy, IsPlace};

use crate::fault::refusal;
use crate::piece::bring_next;
use crate::progress::Progress;
use crate::reading::{read_links, rest};
use crate::{SendFault, SendSettings};
use live_source::LiveSource;
use outside_net::{Clock, Link, TellingLink};
use rist_sender::Sender;
use rist_wire::Opener;

// The sender's clock ticks.
fn tick<L: Link>(sender: &mut Sender, links: &mut [L], progress: &Progress) -> Result<(), SendFault>
    requires links { length links.old ≡ link_count sender.old.bonding }
    requires few { length links.old ≤ MAX_LINKS }
    ensures work { MovesBy ⟦<L as TellingLink>⟧.tells
        sender.old sender.new progress.now progress.now links.old links.new
        (λ setup from. TicksOnce setup result from) }
    ensures set { StaysSet sender.old sender.new }
    ensures source { fault_by read_fault result ≡ NoFault }
{
    match sender.tick(progress.moment, links) {
        Ok(()) => Ok(()),
        Err(bad) => Err(refusal(bad)),
    }
}

// Reads each link, and then ticks.
fn read_and_tick<L: Link>(
    sender: &mut Sender,
    opener: &mut Opener,
    links: &mut [L],
    progress: &mut Progress,
) -> Result<(), SendFault>
    requires links { length links.old ≡ link_count sender.old.bonding }
    requires few { length links.old ≤ MAX_LINKS }
    requires session { opener.old ≡ sender.old.session }
    ensures work { MovesBy ⟦<L as TellingLink>⟧.tells
        sender.old sender.new progress.old progress.new links.old links.new
        (λ setup from. ReadsAndTicks setup result from) }
    ensures set { StaysSet sender.old sender.new }
    ensures source { fault_by read_fault result ≡ NoFault }
    ensures opener { opener.new ≡ opener.old }
    ensures stage { progress.new.stage ≡ progress.old.stage }
{
    match read_links(sender, opener, links, progress) {
        Ok(()) => tick(sender, links, progress),
        Err(fault) => Err(fault),
    }
}

// Makes a turn: the next piece where it is due and there, one read of each link, and one tick.
fn turn<S: LiveSource, L: Link, C: Clock>(
    settings: &SendSettings,
    sender: &mut Sender,
    opener: &mut Opener,
    source: &mut S,
    links: &mut [L],
    clock: &mut C,
    progress: &mut Progress,
) -> Result<(), SendFault>
    requires gap { settings.now.gap ≤ 1000000 }
    requires at { IsPlace progress.old.stage }
    requires links { length links.old ≡ link_count sender.old.bonding }
    requires few { length links.old ≤ MAX_LINKS }
    requires session { opener.old ≡ sender.old.session }
    ensures work { (from : Run) → IsAt sender.old progress.old (record {
      moments = C.moments clock.old;
      octets = S.remaining source.old;
      payloads = S.payloads source.old;
      answers = map L.reads links.old;
    }) from
        → Moves ⟦<L as TellingLink>⟧.tells
        sender.old sender.new progress.new (record {
          moments = C.moments clock.new;
          octets = S.remaining source.new;
          payloads = S.payloads source.new;
          answers = map L.reads links.new;
        }) links.old links.new from
        (Turn (setup_of settings.now sender.old (length links.old)) result from) }
    ensures set { StaysSet sender.old sender.new }
    ensures opener { opener.new ≡ opener.old }
    ensures at { IsPlace progress.new.stage }
    ensures ahead { result ≡ Err SendFault.ReadFault → S.ahead source.new ≡ [] }
    ensures cause { HasReadCause (fault_by read_fault result) (S.faults source.old) (S.faults source.new) }
    ensures waits { IsNeverReady (S.ready source.old) → LeavesUnread (S.ready source.new)
        (S.faults source.old) (S.faults source.new) progress.old.stage progress.new.stage }
{
    let moment = clock.now();
    progress.begin(moment);
    match bring_next(settings, sender, source, links, progress) {
        Ok(()) => read_and_tick(sender, opener, links, progress),
        Err(fault) => Err(fault),
    }
}

/// Sends a source, piece after piece, onto links: of octets 1,316 each, and of datagrams the payload of each, as it came. A
/// turn takes one moment of the clock, and the first one's is the start; reads and sends the next piece, where its time
/// has come, piece k's being the lead and k gaps after the start, and the source has it there; reads each link once that
/// is up and gave no end and no failure, and answers what came; and lets
/// the sender tick. So a lead lets reports go out before the first piece, and a piece that is waited for goes out in the
/// first turn that finds it there, with that turn's moment as its timestamp. Where no piece went out, or the next isn't due
/// yet, it rests on a link before the next turn.
/// A turn stops where the sender refuses, and so does the run. The run is over after a turn whose moment is `linger` or
/// more after that of the turn in which the source ended. Where all turns were made before, it is `Ok` if the source had
/// ended.
pub fn send<S: LiveSource, L: Link, C: Clock>(
    settings: &SendSettings,
    sender: &mut Sender,
    opener: &mut Opener,
    source: &mut S,
    links: &mut [L],
    clock: &mut C,
) -> Result<(), SendFault>
    requires gap { settings.now.gap ≤ 1000000 }
    requires links { length links.old ≡ link_count sender.old.bonding }
    requires few { length links.old ≤ MAX_LINKS }
    requires session { opener.old ≡ sender.old.session }
    ensures work { (from : Work) → IsSenderAfter sender.old from
        → Runs ⟦<L as TellingLink>⟧.tells
        sender.old sender.new (record {
          moments = C.moments clock.new;
          octets = S.remaining source.new;
          payloads = S.payloads source.new;
          answers = map L.reads links.new;
        }) links.old links.new from
        (SendsSource (setup_of settings.now sender.old (length links.old)) result (new_run from (record {
          moments = C.moments clock.old;
          octets = S.remaining source.old;
          payloads = S.payloads source.old;
          answers = map L.reads links.old;
        }))) }
    ensures set { StaysSet sender.old sender.new }
    ensures opener { opener.new ≡ opener.old }
    ensures ahead { result ≡ Err SendFault.ReadFault → S.ahead source.new ≡ [] }
    ensures cause { HasReadCause (fault_by read_fault result) (S.faults source.old) (S.faults source.new) }
    // A source that says at no call that a piece is there isn't read, nor is its end come to.
    ensures waits { IsNeverReady (S.ready source.old)
        → (is_err result ≡ true) × (S.faults source.new ≡ S.faults source.old) }
{
    let mut progress = Progress::new();
    let mut count = 0;
    while count < settings.turns {
        let stage = progress.stage;
        match turn(
            settings,
            sender,
            opener,
            source,
            links,
            clock,
            &mut progress,
        ) {
            Ok(()) => {}
            Err(fault) => return Err(fault),
        }
        if progress.is_over(settings.linger) {
            return Ok(());
        }
        if progress.rests(settings, stage) {
            rest(sender, links, &progress);
        }
        count += 1;
    }
    if progress.has_ended() {
        Ok(())
    } else {
        Err(SendFault::TurnsSpent)
    }
}
