//! Objects under names, in order: the first slot of a name counts.
ghost use Rattle.std.specs.Prelude.{◌≡◌, ◌<◌, length, MatchOption, IfSome, IfNone, IsTrue, false, []};
ghost use Rattle.outside_host.specs.MemHost.{HasNoEmptySink};
ghost use Rattle.outside_host.specs.declared.host.Place.TheVariants.{Here, Back};
ghost use Rattle.outside_host.specs.Slots.{place_of, IsFirstOf};
ghost use Rattle.outside_host.specs.Shelf.{Stays, HandsOut, TakesBack, IsAway};

use crate::Place;
use outside_io::Store8;
use std::mem;

/// An object under a name.
#[derive(Drop)]
pub struct Slot<T> {
    /// The name that it is asked for by.
    pub name: String,
    /// What stands under it.
    pub place: Place<T>,
}

// The first slot of this name.
fn find<T>(slots: &[Slot<T>], name: &str) -> Option<usize>
    ensures value { IsFirstOf slots.now name.now result }
{
    let mut i = 0;
    while i < slots.len() {
        if slots[i].name.as_str() == name {
            return Some(i);
        }
        i += 1;
    }
    None
}

// Hands out the object of this name, if it stands there.
pub(crate) fn take_out<T: Drop>(slots: &mut [Slot<T>], name: &str) -> Option<T>
    ensures some { IfSome result (λ object. HandsOut (place_of slots.old) (place_of slots.new) name.now object) }
    ensures none { IfNone result (Stays (place_of slots.old) (place_of slots.new)) }
    ensures away { IfNone result (IsAway (place_of slots.old name.now)) }
{
    let i = find(slots, name)?;
    if !matches!(slots[i].place, Place::Here(_)) {
        return None;
    }
    let slot = &mut slots[i];
    match mem::replace(&mut slot.place, Place::Out) {
        Place::Here(object) => Some(object),
        _ => None,
    }
}

// Takes back the object of this name, if it is out. Where it is not, lets the object go.
pub(crate) fn put_back<T: Drop>(slots: &mut [Slot<T>], name: &str, object: T)
    ensures state { TakesBack (place_of slots.old) (place_of slots.new) name.now object }
{
    if let Some(i) = find(slots, name) {
        if matches!(slots[i].place, Place::Out) {
            let slot = &mut slots[i];
            slot.place = Place::Back(object);
        }
    }
}

// The object that came back under this name.
pub(crate) fn returned<'a, T>(slots: &'a [Slot<T>], name: &str) -> Option<&'a T>
    ensures some { IfSome result (λ object. place_of slots.now name.now ≡ Back object.now) }
    ensures none { IfNone result ((object : _) → place_of slots.now name.now ≡ Back object → ⊥) }
{
    let i = find(slots, name)?;
    match &slots[i].place {
        Place::Back(object) => Some(object),
        _ => None,
    }
}

// Whether an empty sink stands under this name, to be handed out.
pub(crate) fn is_fresh(slots: &[Slot<Store8>], name: &str) -> bool
    ensures value { (sink : _) → IsTrue result → place_of slots.now name.now ≡ Here sink
        → sink.contents ≡ [] }
    ensures none { result ≡ false → HasNoEmptySink (place_of slots.now name.now) }
{
    match find(slots, name) {
        Some(i) => match &slots[i].place {
            Place::Here(sink) => sink.is_empty(),
            _ => false,
        },
        None => false,
    }
}
