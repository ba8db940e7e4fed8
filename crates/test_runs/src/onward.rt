//! A sending end over a link in memory.
ghost use Rattle.std.specs.Prelude.{◌≡◌, [], None};
ghost use Rattle.rist_gateway.specs.Onward.{IsUncalled, onward_of, passed_of};

use crate::desk::simple;
use bond_links::Bond;
use link_channels::Channel;
use outside_io::Sink;
use outside_net::{Clock, Link, Octets, ScriptClock, ScriptLink, ScriptRead, TellingLink};
use rist_desk::{Beside, Side};
use rist_gateway::{Onward, OnwardOrigin};
use rist_sender::{Sender, Settings};
use rist_wire::Opener;
use sender_rules::SendBad;
use std::alloc::Global;
use std::marker::Brand;
use std::test::Fail;

/// What two asides came to, why one was refused if it was, and the links.
#[derive(Drop)]
struct Sent<L> {
    looked: Side,
    ended: Side,
    why: Option<SendBad>,
    links: Vec<L>,
}

/// A, B and C are put, and the link is looked at twice.
fn forwarded<G: OnwardOrigin, L: Link + Drop, C: Clock + Drop>(
    sender: Sender,
    opener: Opener,
    links: Vec<L>,
    clock: C,
) -> Sent<L>
    requires first { G.first ≡ onward_of ⟦<L as TellingLink>⟧.tells
        sender opener links.items (passed_of (C.moments clock) []) 0 0 None None }
    requires uncalled { IsUncalled (onward_of ⟦<L as TellingLink>⟧.tells
        sender opener links.items (passed_of (C.moments clock) []) 0 0 None None) }
{
    let mut onward: Onward<G, L, C> = Onward::with(sender, opener, links, clock);
    for letter in b"ABC" {
        let _ = onward.put(&[*letter]);
    }
    let looked = onward.aside(0, 0);
    let ended = onward.aside(0, 0);
    let why = onward.why();
    let (links, _clock) = onward.apart();
    Sent {
        looked,
        ended,
        why,
        links,
    }
}

/// A receiver's report and description, and then a generic NACK of number 1.
const ASKS_FOR_ONE: [u8; 40] = [
    0x80, 0xC9, 0, 1, 0, 0, 0, 7, 0x81, 0xCA, 0, 3, 0, 0, 0, 7, 1, 4, 0x72, 0x69, 0x73, 0x74, 0, 0,
    0x81, 0xCD, 0, 3, 0, 0, 0, 7, 0x10, 0x20, 0x30, 0x40, 0, 1, 0, 0,
];

/// The same over one link in memory, which gives that request and then ends.
fn in_memory(alloc: Global) -> Result<Sent<ScriptLink>, Fail> {
    let mut reads = Vec::new(alloc);
    reads.push(ScriptRead::Datagram(Channel::Control, Octets::of(alloc, &ASKS_FOR_ONE)?))?;
    let link = ScriptLink::with(alloc, reads, true, 64, &[], &[])?;
    let mut links = Vec::new(alloc);
    links.push(link)?;
    let settings = Settings {
        flow: 0x1020_3040,
        first: 0,
        store: 32,
        hold: 20,
        bond: Bond::duplicate(1),
    };
    let session = simple();
    let sender = Sender::with(alloc, settings, &session, None)?;
    let opener = Opener::with(alloc, &session)?;
    let clock = ScriptClock::with(alloc, &[0])?;
    Ok(forwarded::<Brand, ScriptLink, ScriptClock>(sender, opener, links, clock))
}

/// A packet of the flow, an original or a retransmission.
fn packet(number: u8, ssrc: u8, letter: u8) -> [u8; 13] {
    [
        0x80, 0x21, 0, number, 0, 0, 0, 0, 0x10, 0x20, 0x30, ssrc, letter,
    ]
}

#[test]
fn each_put_is_a_payload_and_a_request_is_answered(rt: HostRuntime) -> Result<(), Fail> {
    let sent = in_memory(rt.alloc())?;
    assert!(rt; sent.looked == Side::Took(3) && sent.ended == Side::End);
    assert!(rt; sent.why.is_none());
    let link = sent.links.get(0).ok_or("a link")?;
    for (number, letter) in b"ABC".iter().enumerate() {
        let wanted = packet(number as u8, 0x40, *letter);
        assert!(rt; link.taken(number) == Some((Channel::Media, wanted.as_slice())));
    }
    let again = packet(1, 0x41, b'B');
    assert!(rt; link.taken(3) == Some((Channel::Media, again.as_slice())));
    Ok(())
}
