//! Reading the links, and answering what came.
ghost use Rattle.std.specs.Prelude.{◌≡◌, ◌≤◌, ◌<◌, length};
ghost use Rattle.std.specs.List.{range_with_len};
ghost use Rattle.outside_io.specs.Causes.{NoFault, fault_by};
ghost use Rattle.outside_net.specs.Links.{Datagram, Gave, IsWithin, answer_of};
ghost use Rattle.sender_rules.specs.Bonding.{link_count};
ghost use Rattle.link_channels.specs.declared.bounds.TheConstants.{MAX_LINKS};
ghost use Rattle.rist_sender.specs.Sender.{IsSenderAfter, StaysSet};
ghost use Rattle.rist_send.specs.Run.{Run};
ghost use Rattle.rist_sender.specs.Incoming.{compound_in};
ghost use Rattle.rist_send.specs.Turns.{AnswersTo, AnswersIf, ReadsOn, ReadsLink, ReadsInTurn, is_read};
ghost use Rattle.rist_send.specs.Sending.{read_fault};
ghost use Rattle.rist_send.specs.Inside.Moves.{MovesBy};

use crate::SendFault;
use crate::fault::refusal;
use crate::progress::Progress;
use link_channels::{Channel, MAX_DATAGRAM};
use outside_net::{Got, Link, TellingLink};
use rist_sender::{Sender, read_at};
use rist_wire::{Item, Opener};
use rtcp_compound::Compound;

/// How long a turn rests on a link after which no piece is due, in milliseconds.
const REST_MS: u8 = 1;

// Answers a compound that came on a link.
fn feed<L: Link>(
    sender: &mut Sender,
    link: u8,
    compound: &Compound<'_>,
    links: &mut [L],
    progress: &Progress,
) -> Result<(), SendFault>
    requires among { link < length links.old }
    requires links { length links.old ≡ link_count sender.old.bonding }
    requires few { length links.old ≤ MAX_LINKS }
    ensures work { MovesBy ⟦<L as TellingLink>⟧.tells
        sender.old sender.new progress.now progress.now links.old links.new
        (λ setup from. AnswersTo setup link compound.now result from) }
    ensures set { StaysSet sender.old sender.new }
    ensures source { fault_by read_fault result ≡ NoFault }
{
    match sender.feedback(progress.moment, link, compound, links) {
        Ok(_) => Ok(()),
        Err(bad) => Err(refusal(bad)),
    }
}

// Answers a datagram that came on a link, if it is a compound.
fn answer<L: Link>(
    sender: &mut Sender,
    opener: &mut Opener,
    link: u8,
    channel: Channel,
    octets: &mut [u8],
    links: &mut [L],
    progress: &Progress,
) -> Result<(), SendFault>
    requires among { link < length links.old }
    requires links { length links.old ≡ link_count sender.old.bonding }
    requires few { length links.old ≤ MAX_LINKS }
    requires session { opener.old ≡ sender.old.session }
    ensures work { MovesBy ⟦<L as TellingLink>⟧.tells
        sender.old sender.new progress.now progress.now links.old links.new
        (λ setup from. AnswersIf setup link
        (compound_in sender.old.session (Gave (record { channel = channel; octets = octets.old }))) result from) }
    ensures set { StaysSet sender.old sender.new }
    ensures source { fault_by read_fault result ≡ NoFault }
    ensures opener { opener.new ≡ opener.old }
{
    match opener.take(channel, octets) {
        Ok(Item::Control(compound)) => feed(sender, link, &compound, links, progress),
        Ok(Item::Media(_)) => Ok(()),
        Ok(Item::Keepalive(_)) => Ok(()),
        Err(_) => Ok(()),
    }
}

// Whether a link is read: it is up, and no read of it came to an end or failed.
fn is_read(sender: &Sender, link: u8, progress: &Progress) -> bool
    requires few { link < MAX_LINKS }
    ensures value { (run : Run) → IsSenderAfter sender.now run.work → run.progress ≡ progress.now
        → result ≡ is_read link run }
{
    sender.up(link) && !progress.is_closed(link)
}

// Reads a link, once, and answers what came.
fn read_on<L: Link>(
    sender: &mut Sender,
    opener: &mut Opener,
    link: u8,
    links: &mut [L],
    progress: &mut Progress,
) -> Result<(), SendFault>
    requires among { link < length links.old }
    requires links { length links.old ≡ link_count sender.old.bonding }
    requires few { length links.old ≤ MAX_LINKS }
    requires session { opener.old ≡ sender.old.session }
    ensures work { MovesBy ⟦<L as TellingLink>⟧.tells
        sender.old sender.new progress.old progress.new links.old links.new
        (λ setup from. ReadsOn setup link result from) }
    ensures set { StaysSet sender.old sender.new }
    ensures source { fault_by read_fault result ≡ NoFault }
    ensures opener { opener.new ≡ opener.old }
    ensures stage { progress.new.stage ≡ progress.old.stage }
{
    let mut block = [0; MAX_DATAGRAM];
    match read_at(links, link, &mut block) {
        Got::Datagram(channel, count) => {
            let octets = &mut block[..count];
            answer(sender, opener, link, channel, octets, links, progress)
        }
        Got::Quiet => Ok(()),
        Got::End => {
            progress.close(link);
            Ok(())
        }
        Got::Failed => {
            progress.close(link);
            Ok(())
        }
    }
}

// The same of a link that is read.
fn read_link<L: Link>(
    sender: &mut Sender,
    opener: &mut Opener,
    link: u8,
    links: &mut [L],
    progress: &mut Progress,
) -> Result<(), SendFault>
    requires among { link < length links.old }
    requires links { length links.old ≡ link_count sender.old.bonding }
    requires few { length links.old ≤ MAX_LINKS }
    requires session { opener.old ≡ sender.old.session }
    ensures work { MovesBy ⟦<L as TellingLink>⟧.tells
        sender.old sender.new progress.old progress.new links.old links.new
        (λ setup from. ReadsLink setup link result from) }
    ensures set { StaysSet sender.old sender.new }
    ensures source { fault_by read_fault result ≡ NoFault }
    ensures opener { opener.new ≡ opener.old }
    ensures stage { progress.new.stage ≡ progress.old.stage }
{
    if is_read(sender, link, progress) {
        read_on(sender, opener, link, links, progress)
    } else {
        Ok(())
    }
}

/// Rests on the first link that is read, if there is one. The others are looked at without a rest, so that what comes on them is
/// read in the next turn.
pub(crate) fn rest<L: Link>(sender: &Sender, links: &[L], progress: &Progress)
    requires few { length links.now ≤ MAX_LINKS }
{
    let mut limit = REST_MS;
    for link in 0..links.len() as u8 {
        if is_read(sender, link, progress) {
            links[usize::from(link)].rest(limit);
            limit = 0;
        }
    }
}

/// Reads each link, once, and answers what came.
pub(crate) fn read_links<L: Link>(
    sender: &mut Sender,
    opener: &mut Opener,
    links: &mut [L],
    progress: &mut Progress,
) -> Result<(), SendFault>
    requires links { length links.old ≡ link_count sender.old.bonding }
    requires few { length links.old ≤ MAX_LINKS }
    requires session { opener.old ≡ sender.old.session }
    ensures work { MovesBy ⟦<L as TellingLink>⟧.tells
        sender.old sender.new progress.old progress.new links.old links.new
        (λ setup from. ReadsInTurn setup (range_with_len 0 (length links.old)) result from) }
    ensures set { StaysSet sender.old sender.new }
    ensures source { fault_by read_fault result ≡ NoFault }
    ensures opener { opener.new ≡ opener.old }
    ensures stage { progress.new.stage ≡ progress.old.stage }
{
    for link in 0..links.len() as u8 {
        match read_link(sender, opener, link, links, progress) {
            Ok(()) => {}
            Err(fault) => return Err(fault),
        }
    }
    Ok(())
}
