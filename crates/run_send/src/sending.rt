//! A sending, from its objects to its status.
ghost use Rattle.std.specs.Prelude.{◌*◌, ◌≡◌, ◌≢◌, IsTrue, length, map, is_some};
ghost use Rattle.outside_io.specs.Causes.{HasOpenCause, HasReadCause};
ghost use Rattle.outside_host.specs.Links.{AreAsTheyWere, AreFirstOf};
ghost use Rattle.rist_words.specs.Shown.{shown_send};
ghost use Rattle.rist_words.specs.Ranges.{IsInSend};
ghost use Rattle.run_parts.specs.Causes.{CanRefuse, fault_of};
ghost use Rattle.run_parts.specs.Places.{IsAsItWas};
ghost use Rattle.run_parts.specs.Sealing.{FailedAt, IsFreshFor};
ghost use Rattle.run_parts.specs.Sessions.{bonding_with};
ghost use Rattle.run_send.specs.Frame.{KeepsAround, KeepsTimes, OpensLinksAfter, links_opened};
ghost use Rattle.run_parts.specs.Frame.{KeepsLinksBut, KeepsButTiming, KeepsFiles};
ghost use Rattle.run_send.specs.Inside.Sending.{SendsAs, SendsByClock, SendsOnLinks};
ghost use Rattle.run_parts.specs.Hosts.{IsUnused};
ghost use Rattle.run_send.specs.Sent.{Sent, Unsent, send_status};
ghost use Rattle.run_send.specs.DoesSend.{DoesSend};
ghost use Rattle.run_send.specs.Ends.{IsSendEnd};

use bond_links::Bond;
use live_source::LiveSource;
use outside_host::{Host, back_links, open_links};
use outside_net::{Clock, Link, TellingLink};
use psk_seal::Sealer;
use rist_send::{SendFault, SendSettings, send};
use rist_sender::{Sender, Settings};
use rist_wire::Opener;
use rist_words::SendLine;
use rist_words::links::sending_role;
use run_parts::{Status, Telling, sealer_for, session_of, watch};
use std::alloc::Global;

// How the links of a line have its packets.
fn bond_of(line: &SendLine<'_>) -> Bond
    requires range { IsInSend (shown_send line.now) }
    ensures value { result ≡ bonding_with (length line.now.links.items) (shown_send line.now).share }
{
    match &line.share {
        None => Bond::duplicate(line.links.len() as u8),
        Some(weights) => Bond::share(weights.as_slice()),
    }
}

// How a line paces its sending.
fn pace_of(line: &SendLine<'_>) -> SendSettings
    requires range { IsInSend (shown_send line.now) }
    ensures value { result ≡ record {
      lead = 1000 * (shown_send line.now).lead;
      gap = (shown_send line.now).gap;
      linger = 1000 * (shown_send line.now).linger;
      turns = (shown_send line.now).turns;
    } }
{
    SendSettings {
        lead: 1000 * line.lead,
        gap: line.gap,
        linger: 1000 * line.linger,
        turns: line.turns,
    }
}

// How a sending ended.
fn send_status(end: Result<(), SendFault>) -> Status
    ensures value { result ≡ send_status end }
{
    match end {
        Ok(()) => Status::Done,
        Err(SendFault::ReadFault) => Status::ReadFault,
        Err(SendFault::LinksDown) => Status::LinksDown,
        Err(SendFault::Spent) => Status::Spent,
        Err(SendFault::TooLong) => Status::TooLong,
        Err(SendFault::TurnsSpent) => Status::TurnsSpent,
    }
}

// Sends a source onto links.
fn send_with<S: LiveSource, L: Link, C: Clock>(
    alloc: Global,
    line: &SendLine<'_>,
    sealer: Option<Sealer>,
    source: &mut S,
    links: &mut [L],
    clock: &mut C,
) -> Status
    requires range { IsInSend (shown_send line.now) }
    requires fresh { IsFreshFor (shown_send line.now).session sealer }
    requires count { length links.old ≡ length line.now.links.items }
    ensures work { (CanRefuse result → ⊥) → SendsAs
        ⟦<L as TellingLink>⟧.tells
        (shown_send line.now) sealer (record {
          moments = C.moments clock.old;
          octets = S.remaining source.old;
          payloads = S.payloads source.old;
          answers = map L.reads links.old;
        }) (record {
          moments = C.moments clock.new;
          octets = S.remaining source.new;
          payloads = S.payloads source.new;
          answers = map L.reads links.new;
        }) links.old links.new result }
    ensures memory { CanRefuse result → (result ≡ Status.Memory)
        × (source.new ≡ source.old) × (links.new ≡ links.old) × (clock.new ≡ clock.old) }
    ensures line { result ≢ Status.Usage }
    ensures ends { IsSendEnd (shown_send line.now) result }
    ensures read { HasReadCause (fault_of result) (S.faults source.old) (S.faults source.new) }
    ensures count { length links.new ≡ length links.old }
{
    let session = session_of(&line.session, line.stream.nulls, line.stream.wide);
    let settings = Settings {
        flow: line.stream.flow,
        first: line.stream.first,
        store: line.store as usize,
        hold: line.hold as u16,
        bond: bond_of(line),
    };
    let Ok(mut opener) = Opener::with(alloc, &session) else {
        return Status::Memory;
    };
    let Ok(mut sender) = Sender::with(alloc, settings, &session, sealer) else {
        return Status::Memory;
    };
    let pace = pace_of(line);
    let end = send(&pace, &mut sender, &mut opener, source, links, clock);
    send_status(end)
}

// Sends a source onto links by the host's next clock, under a sealer where the line has a passphrase.
fn send_by_clock<H: Host>(
    alloc: Global,
    host: &mut H,
    line: &SendLine<'_>,
    source: &mut H::Input,
    links: &mut [H::Wire],
) -> Status
    requires range { IsInSend (shown_send line.now) }
    requires count { length links.old ≡ length line.now.links.items }
    ensures sent { IsTrue H.tells → (H.shelf host.old).next_clock ≡ 0 → (H.shelf host.old).next_entropy ≡ 0
        → (CanRefuse result → ⊥) → SendsByClock ⟦<H as Telling>⟧.objects ⟦<H as Telling>⟧.live
        (H.shelf host.old) (H.shelf host.new) (shown_send line.now)
        source.old source.new result links.old links.new }
    ensures unsent { CanRefuse result → (source.new ≡ source.old) × (links.new ≡ links.old) }
    ensures clock { IsTrue H.tells → (H.shelf host.old).next_clock ≡ 0 → CanRefuse result
        → IsAsItWas ((H.shelf host.old).clocks 0) ((H.shelf host.new).clocks 0) }
    ensures random { IsTrue H.tells → (H.shelf host.old).next_entropy ≡ 0 → result ≡ Status.EntropyFault
        → FailedAt ⟦<H as Telling>⟧.objects (H.shelf host.old) (H.shelf host.new) }
    ensures others { IsTrue H.tells → KeepsButTiming (H.shelf host.old) (H.shelf host.new) }
    ensures times { IsTrue H.tells → (H.shelf host.old).next_clock ≡ 0 → (H.shelf host.old).next_entropy ≡ 0
        → KeepsTimes (H.shelf host.old) (H.shelf host.new) (is_some (shown_send line.now).session.pass) }
    ensures line { result ≢ Status.Usage }
    ensures ends { IsSendEnd (shown_send line.now) result }
    ensures opened { HasOpenCause (fault_of result) (H.faults host.old) (H.faults host.new) }
    ensures read { HasReadCause (fault_of result) (H.Input.faults source.old) (H.Input.faults source.new) }
    ensures count { length links.new ≡ length links.old }
{
    let mut clock = match host.clock() {
        Ok(clock) => clock,
        Err(bad) => return Status::from(bad),
    };
    let status = match sealer_for(host, &line.session) {
        Ok(sealer) => send_with(alloc, line, sealer, source, links, &mut clock),
        Err(status) => status,
    };
    host.back_clock(0, clock);
    status
}

// Sends a source onto the links of a line.
fn send_on_links<H: Host>(
    alloc: Global,
    host: &mut H,
    line: &SendLine<'_>,
    source: &mut H::Input,
) -> Status
    requires range { IsInSend (shown_send line.now) }
    ensures sent { IsUnused H.tells (H.shelf host.old)
        → (CanRefuse result → ⊥) → SendsOnLinks ⟦<H as Telling>⟧.objects ⟦<H as Telling>⟧.live
        (H.shelf host.old) (H.shelf host.new) (shown_send line.now) source.old source.new result }
    ensures unsent { CanRefuse result → source.new ≡ source.old }
    ensures others { IsTrue H.tells → KeepsFiles (H.shelf host.old) (H.shelf host.new) }
    ensures kept { IsUnused H.tells (H.shelf host.old)
        → KeepsLinksBut (length (shown_send line.now).links) (H.shelf host.old).links (H.shelf host.new).links }
    ensures links_opened { IsUnused H.tells (H.shelf host.old) → (CanRefuse result → ⊥)
        → (H.shelf host.new).opened_links ≡ links_opened (shown_send line.now) }
    ensures links_tried { IsUnused H.tells (H.shelf host.old)
        → AreFirstOf (H.shelf host.new).opened_links (links_opened (shown_send line.now)) }
    ensures times { IsUnused H.tells (H.shelf host.old)
        → KeepsTimes (H.shelf host.old) (H.shelf host.new) (is_some (shown_send line.now).session.pass) }
    ensures links { IsUnused H.tells (H.shelf host.old) → CanRefuse result
        → AreAsTheyWere (H.shelf host.old).links (H.shelf host.new).links }
    ensures clock { IsUnused H.tells (H.shelf host.old) → CanRefuse result
        → IsAsItWas ((H.shelf host.old).clocks 0) ((H.shelf host.new).clocks 0) }
    ensures random { IsUnused H.tells (H.shelf host.old) → result ≡ Status.EntropyFault
        → FailedAt ⟦<H as Telling>⟧.objects (H.shelf host.old) (H.shelf host.new) }
    ensures line { result ≢ Status.Usage }
    ensures ends { IsSendEnd (shown_send line.now) result }
    ensures opened { HasOpenCause (fault_of result) (H.faults host.old) (H.faults host.new) }
    ensures read { HasReadCause (fault_of result) (H.Input.faults source.old) (H.Input.faults source.new) }
{
    let mut links = match open_links(
        alloc,
        host,
        line.links.as_slice(),
        sending_role(line.listens),
        line.session.profile,
    ) {
        Ok(links) => links,
        Err(bad) => return Status::from(bad),
    };
    let status = send_by_clock(alloc, host, line, source, links.as_mut_slice());
    back_links(host, links);
    status
}

// Sends the source of a line. Each clause says a part of what that leaves.
fn send_from_source<H: Host>(alloc: Global, host: &mut H, line: &SendLine<'_>) -> Status
    requires range { IsInSend (shown_send line.now) }
    ensures sent { IsUnused H.tells (H.shelf host.old)
        → (CanRefuse result → ⊥) → Sent ⟦<H as Telling>⟧.objects ⟦<H as Telling>⟧.live
        (H.shelf host.old) (H.shelf host.new) (shown_send line.now) result }
    ensures unsent { IsUnused H.tells (H.shelf host.old) → CanRefuse result
        → Unsent (H.shelf host.old) (H.shelf host.new) (shown_send line.now) }
    ensures around { IsUnused H.tells (H.shelf host.old)
        → KeepsAround (H.shelf host.old) (H.shelf host.new) (shown_send line.now) }
    ensures links_opened { IsUnused H.tells (H.shelf host.old) → (CanRefuse result → ⊥)
        → (H.shelf host.new).opened_links ≡ links_opened (shown_send line.now) }
    ensures links_tried { IsUnused H.tells (H.shelf host.old)
        → AreFirstOf (H.shelf host.new).opened_links (links_opened (shown_send line.now)) }
    ensures order { IsTrue H.tells
        → OpensLinksAfter (H.shelf host.old) (H.shelf host.new) (shown_send line.now) }
    ensures random { IsUnused H.tells (H.shelf host.old) → result ≡ Status.EntropyFault
        → FailedAt ⟦<H as Telling>⟧.objects (H.shelf host.old) (H.shelf host.new) }
    ensures line { result ≢ Status.Usage }
    ensures ends { IsSendEnd (shown_send line.now) result }
    ensures opened { HasOpenCause (fault_of result) (H.faults host.old) (H.faults host.new) }
{
    let mut source = match host.source(line.source) {
        Ok(source) => source,
        Err(bad) => return Status::from(bad),
    };
    let status = send_on_links(alloc, host, line, &mut source);
    host.back_source(line.source, source);
    status
}

/// Does the line of a sending, once the host knows what is told of the run.
fn send_unwatched<H: Host>(alloc: Global, host: &mut H, line: &SendLine<'_>) -> Status
    requires range { IsInSend (shown_send line.now) }
    ensures does { DoesSend H.tells ⟦<H as Telling>⟧.objects ⟦<H as Telling>⟧.live (shown_send line.now)
        (H.faults host.old) (H.faults host.new) (H.shelf host.old) (H.shelf host.new) result }
    ensures line { result ≢ Status.Usage }
    ensures opened { HasOpenCause (fault_of result) (H.faults host.old) (H.faults host.new) }
{
    send_from_source(alloc, host, line)
}

/// Does the line of a sending.
pub fn send_line<H: Host>(alloc: Global, host: &mut H, line: &SendLine<'_>) -> Status
    requires range { IsInSend (shown_send line.now) }
    ensures does { DoesSend H.tells ⟦<H as Telling>⟧.objects ⟦<H as Telling>⟧.live (shown_send line.now)
        (H.faults host.old) (H.faults host.new) (H.shelf host.old) (H.shelf host.new) result }
    ensures line { result ≢ Status.Usage }
    ensures opened { HasOpenCause (fault_of result) (H.faults host.old) (H.faults host.new) }
{
    match watch(host, &line.watching) {
        Ok(()) => send_unwatched(alloc, host, line),
        Err(bad) => Status::from(bad),
    }
}
