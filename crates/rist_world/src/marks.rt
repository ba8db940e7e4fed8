//! Which of the datagrams that the sender put are media.
ghost use Rattle.std.specs.Prelude.{◌≡◌, length, slice_get, IfOk};
ghost use Rattle.world_rules.specs.Counts.{media_read, media_if};
ghost use Rattle.rist_world.specs.World.{AreMarked};

use crate::wire::Wire;
use link_channels::MAX_DATAGRAM;
use outside_io::NoMemory;
use rist_wire::{Item, Opener, WireBad};
use std::alloc::Global;
use std::marker::Model;

/// The marks of the datagrams that were put on a link, by their places: of media, whether it says that it is a
/// retransmission; nothing of what is no media.
#[derive(Drop)]
pub(crate) struct Marks {
    places: Vec<Option<bool>>,
}

impl Model for Marks {
    ghost use Rattle.std.specs.Prelude.{List, Option, Bool};

    ghost Value = { List (Option Bool) };

    ghost view = { λ m. m.places.items };
}

impl Marks {
    ghost use Rattle.std.specs.Prelude.{◌≡◌, [], get_or, None, IfOk};
    ghost use Rattle.rist_world.specs.World.{marked};

    /// No datagram is marked.
    pub(crate) fn with(alloc: Global) -> Marks
        ensures value { result ≡ [] }
    {
        Marks {
            places: Vec::new(alloc),
        }
    }

    /// The mark of the datagram at a place; nothing where none is marked there.
    pub(crate) fn at(&self, place: u64) -> Option<bool>
        ensures value { result ≡ get_or self.now place None }
    {
        match self.places.get(place as usize) {
            Some(mark) => *mark,
            None => None,
        }
    }

    /// Marks the datagrams that were put on the link since.
    fn add(&mut self, wire: &Wire, opener: &mut Opener) -> Result<(), NoMemory>
        ensures value { IfOk result (λ done. self.new ≡ marked opener.old self.old wire.now.put) }
        ensures same { opener.new ≡ opener.old }
    {
        for place in self.places.len()..wire.len() {
            if self.places.push(mark_at(wire, place, opener)).is_err() {
                return Err(NoMemory);
            }
        }
        Ok(())
    }
}

/// Of media, whether it says that it is a retransmission; nothing of what is no media.
pub(crate) fn media_in(item: &Result<Item<'_>, WireBad>) -> Option<bool>
    ensures value { result ≡ media_read item.now }
{
    match item {
        Ok(Item::Media(media)) => Some(media.again),
        Ok(Item::Control(_)) => None,
        Ok(Item::Keepalive(_)) => None,
        Err(_) => None,
    }
}

/// The mark of the datagram at a place of a link, which is opened.
fn mark_at(wire: &Wire, place: usize, opener: &mut Opener) -> Option<bool>
    ensures value { result ≡ media_if opener.old (slice_get wire.now.put place) }
    ensures same { opener.new ≡ opener.old }
{
    let mut datagram = [0; MAX_DATAGRAM];
    match wire.at(place as u64, &mut datagram) {
        Some((channel, length)) => media_in(&opener.take(channel, &mut datagram[..length])),
        None => None,
    }
}

/// Marks the datagrams that were put on the links since.
pub(crate) fn mark_all(
    wires: &[Wire],
    opener: &mut Opener,
    media: &mut [Marks],
) -> Result<(), NoMemory>
    ensures value { IfOk result (λ done. AreMarked opener.old media.old wires.now media.new) }
    ensures length { length media.new ≡ length media.old }
    ensures same { opener.new ≡ opener.old }
{
    for link in 0..wires.len() {
        if link < media.len() {
            media[link].add(&wires[link], opener)?;
        }
    }
    Ok(())
}
