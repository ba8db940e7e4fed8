//! A piece, sent on in parts.
ghost use Rattle.std.specs.Prelude.{◌≡◌, ◌≤◌, length};
ghost use Rattle.link_channels.specs.declared.bounds.TheConstants.{MAX_LINKS};
ghost use Rattle.sender_rules.specs.Bonding.{link_count};
ghost use Rattle.rist_sender.specs.Sender.{StaysSet};
ghost use Rattle.rist_gateway.specs.Course.{Course, SendsPart, SendsOn};
ghost use Rattle.rist_gateway.specs.Onward.{passed_of};
ghost use Rattle.rist_gateway.specs.Inside.Moves.{IsFar, Goes, setup_with};

use crate::handed::Handed;
use link_channels::MAX_PAYLOAD;
use outside_net::{Clock, Link, TellingLink};
use rist_sender::Sender;
use sender_rules::SendBad;

/// Sends a part as one payload, at the clock's moment.
fn send_part<L: Link, C: Clock>(
    sender: &mut Sender,
    links: &mut [L],
    clock: &mut C,
    handed: &mut Handed,
    part: &[u8],
) -> Result<(), SendBad>
    requires part { length part.now ≤ MAX_PAYLOAD }
    requires links { length links.old ≡ link_count sender.old.bonding }
    requires few { length links.old ≤ MAX_LINKS }
    ensures work { (from : Course)
        → IsFar ⟦<L as TellingLink>⟧.tells sender.old
        (passed_of (C.moments clock.old) handed.old) links.old from
        → Goes ⟦<L as TellingLink>⟧.tells sender.old sender.new
        (passed_of (C.moments clock.new) handed.new) links.old links.new from
        (SendsPart (setup_with sender.old (length links.old)) part.now result from) }
    ensures set { StaysSet sender.old sender.new }
{
    let us = clock.now();
    match sender.send(us, part, links) {
        Ok(()) => {
            handed.add(part);
            Ok(())
        }
        Err(bad) => Err(bad),
    }
}

/// Sends a piece in parts, up to one that is refused.
pub(crate) fn send_parts<L: Link, C: Clock>(
    sender: &mut Sender,
    links: &mut [L],
    clock: &mut C,
    handed: &mut Handed,
    piece: &[u8],
) -> Result<(), SendBad>
    requires links { length links.old ≡ link_count sender.old.bonding }
    requires few { length links.old ≤ MAX_LINKS }
    ensures work { (from : Course)
        → IsFar ⟦<L as TellingLink>⟧.tells sender.old
        (passed_of (C.moments clock.old) handed.old) links.old from
        → Goes ⟦<L as TellingLink>⟧.tells sender.old sender.new
        (passed_of (C.moments clock.new) handed.new) links.old links.new from
        (SendsOn (setup_with sender.old (length links.old)) piece.now result from) }
    ensures set { StaysSet sender.old sender.new }
{
    let mut rest = piece;
    while rest.len() > MAX_PAYLOAD {
        let (part, more) = rest.split_at(MAX_PAYLOAD);
        match send_part(sender, links, clock, handed, part) {
            Ok(()) => {}
            Err(bad) => return Err(bad),
        }
        rest = more;
    }
    let left = rest.len();
    if left > 0 {
        send_part(sender, links, clock, handed, rest)
    } else {
        Ok(())
    }
}
