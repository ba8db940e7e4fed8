//! A look at a link, and what is due on it.
ghost use Rattle.std.specs.Prelude.{◌≡◌, ◌≤◌, ◌<◌, Some, length};
ghost use Rattle.link_channels.specs.declared.bounds.TheConstants.{MAX_LINKS};
ghost use Rattle.outside_net.specs.Links.{Gave, IsWithin, answer_of};
ghost use Rattle.sender_rules.specs.Bonding.{link_count};
ghost use Rattle.rist_sender.specs.Sender.{StaysSet};
ghost use Rattle.rist_sender.specs.Incoming.{compound_in};
ghost use Rattle.rist_gateway.specs.Course.{AnswersOnce, TicksOnce, AnswersAndTicks, ReadsOnce};
ghost use Rattle.rist_gateway.specs.Course.{LooksAt, side_of};
ghost use Rattle.rist_gateway.specs.Inside.Moves.{GoesBy};

use link_channels::{Channel, MAX_DATAGRAM};
use outside_net::{Got, Link, TellingLink};
use rist_desk::Side;
use rist_sender::{Sender, read_at};
use rist_wire::{Item, Opener};
use rtcp_compound::Compound;
use sender_rules::SendBad;

/// Lets the sender tick.
fn tick<L: Link>(sender: &mut Sender, links: &mut [L], us: u64) -> Result<(), SendBad>
    requires links { length links.old ≡ link_count sender.old.bonding }
    requires few { length links.old ≤ MAX_LINKS }
    ensures work { GoesBy ⟦<L as TellingLink>⟧.tells sender.old sender.new links.old links.new
        (λ setup from. TicksOnce setup us result from) }
    ensures set { StaysSet sender.old sender.new }
{
    sender.tick(us, links)
}

/// Answers a compound that came on a link.
fn feed<L: Link>(
    sender: &mut Sender,
    links: &mut [L],
    us: u64,
    link: u8,
    compound: &Compound<'_>,
) -> Result<u32, SendBad>
    requires among { link < length links.old }
    requires links { length links.old ≡ link_count sender.old.bonding }
    requires few { length links.old ≤ MAX_LINKS }
    ensures work { GoesBy ⟦<L as TellingLink>⟧.tells sender.old sender.new links.old links.new
        (λ setup from. AnswersOnce setup us link compound.now result from) }
    ensures set { StaysSet sender.old sender.new }
{
    sender.feedback(us, link, compound, links)
}

/// Answers a compound that came on a link, and then, unless that is refused, lets the sender tick.
fn feed_and_tick<L: Link>(
    sender: &mut Sender,
    links: &mut [L],
    us: u64,
    link: u8,
    compound: &Compound<'_>,
) -> Result<(), SendBad>
    requires among { link < length links.old }
    requires links { length links.old ≡ link_count sender.old.bonding }
    requires few { length links.old ≤ MAX_LINKS }
    ensures work { GoesBy ⟦<L as TellingLink>⟧.tells sender.old sender.new links.old links.new
        (λ setup from. AnswersAndTicks setup us link (Some compound.now) result from) }
    ensures set { StaysSet sender.old sender.new }
{
    match feed(sender, links, us, link, compound) {
        Ok(_) => tick(sender, links, us),
        Err(bad) => Err(bad),
    }
}

/// Answers a datagram that came on a link, if it is a compound, and lets the sender tick.
fn answer_and_tick<L: Link>(
    sender: &mut Sender,
    opener: &mut Opener,
    links: &mut [L],
    us: u64,
    link: u8,
    channel: Channel,
    octets: &mut [u8],
) -> Result<(), SendBad>
    requires among { link < length links.old }
    requires links { length links.old ≡ link_count sender.old.bonding }
    requires few { length links.old ≤ MAX_LINKS }
    requires session { opener.old ≡ sender.old.session }
    ensures work { GoesBy ⟦<L as TellingLink>⟧.tells sender.old sender.new links.old links.new
        (λ setup from. AnswersAndTicks setup us link
        (compound_in sender.old.session (Gave (record { channel = channel; octets = octets.old }))) result from) }
    ensures set { StaysSet sender.old sender.new }
    ensures opener { opener.new ≡ opener.old }
{
    match opener.take(channel, octets) {
        Ok(Item::Control(compound)) => feed_and_tick(sender, links, us, link, &compound),
        Ok(Item::Media(_)) => tick(sender, links, us),
        Ok(Item::Keepalive(_)) => tick(sender, links, us),
        Err(_) => tick(sender, links, us),
    }
}

/// What a look came to, where a datagram came or none was there.
fn side_of(came: bool, puts: u64, answer: Result<(), SendBad>) -> Side
    ensures value { result ≡ side_of came puts answer }
{
    match answer {
        Ok(()) => if came {
            Side::Took(puts)
        } else {
            Side::Quiet(puts)
        },
        Err(bad) => Side::Bad(bad),
    }
}

/// Reads a link that is there, once, and does what is due.
fn look_on<L: Link>(
    sender: &mut Sender,
    opener: &mut Opener,
    links: &mut [L],
    us: u64,
    link: u8,
    puts: u64,
) -> Side
    requires among { link < length links.old }
    requires links { length links.old ≡ link_count sender.old.bonding }
    requires few { length links.old ≤ MAX_LINKS }
    requires session { opener.old ≡ sender.old.session }
    ensures work { GoesBy ⟦<L as TellingLink>⟧.tells sender.old sender.new links.old links.new
        (λ setup from. ReadsOnce setup us link puts result from) }
    ensures set { StaysSet sender.old sender.new }
    ensures opener { opener.new ≡ opener.old }
{
    let mut block = [0; MAX_DATAGRAM];
    // Between two looks the side worker waits elsewhere: what came meanwhile is seen by this one.
    links[usize::from(link)].rest(0);
    match read_at(links, link, &mut block) {
        Got::Datagram(channel, count) => {
            let octets = &mut block[..count];
            let answer = answer_and_tick(sender, opener, links, us, link, channel, octets);
            side_of(true, puts, answer)
        }
        Got::Quiet => {
            let answer = tick(sender, links, us);
            side_of(false, puts, answer)
        }
        Got::End => Side::End,
        Got::Failed => Side::Failed,
    }
}

/// Looks at a link: reads it once, answers a compound that came, and lets the sender tick. One that isn't there is at
/// its end.
pub(crate) fn look<L: Link>(
    sender: &mut Sender,
    opener: &mut Opener,
    links: &mut [L],
    us: u64,
    link: u8,
    puts: u64,
) -> Side
    requires links { length links.old ≡ link_count sender.old.bonding }
    requires few { length links.old ≤ MAX_LINKS }
    requires session { opener.old ≡ sender.old.session }
    ensures work { GoesBy ⟦<L as TellingLink>⟧.tells sender.old sender.new links.old links.new
        (λ setup from. LooksAt setup us link puts result from) }
    ensures set { StaysSet sender.old sender.new }
    ensures opener { opener.new ≡ opener.old }
{
    if usize::from(link) < links.len() {
        look_on(sender, opener, links, us, link, puts)
    } else {
        Side::End
    }
}
