//! Objects by place, from 0.
ghost use Rattle.std.specs.Prelude.{◌≡◌, ◌<◌, [], length, IfSome, IfNone, IsTrue, false};
ghost use Rattle.outside_net.specs.Scripts.{knows_in};
ghost use Rattle.outside_host.specs.MemHost.{HoldsNoneFor, IsFitFor, are_stated_known};
ghost use Rattle.outside_host.specs.declared.host.Place.TheVariants.{Here, Back};
ghost use Rattle.outside_host.specs.ByPlace.{object_at};
ghost use Rattle.outside_host.specs.Shelf.{Stays, HandsOut, TakesBack, IsAway};

use crate::Place;
use link_channels::{Channel, Profile};
use outside_net::{Role, ScriptLink};
use std::mem;

// Hands out the object of this place, if it stands there.
pub(crate) fn take_place<T: Drop>(places: &mut [Place<T>], at: usize) -> Option<T>
    ensures some { IfSome result (λ object. HandsOut (object_at places.old) (object_at places.new) at object) }
    ensures within { IfSome result (λ _. at < length places.old) }
    ensures none { IfNone result (Stays (object_at places.old) (object_at places.new)) }
    ensures away { IfNone result (IsAway (object_at places.old at)) }
{
    if at >= places.len() || !matches!(places[at], Place::Here(_)) {
        return None;
    }
    match mem::replace(&mut places[at], Place::Out) {
        Place::Here(object) => Some(object),
        _ => None,
    }
}

// Takes back the object of this place, if it is out. Where it is not, lets the object go.
pub(crate) fn put_place<T: Drop>(places: &mut [Place<T>], at: usize, object: T)
    ensures state { TakesBack (object_at places.old) (object_at places.new) at object }
{
    if at < places.len() && matches!(places[at], Place::Out) {
        places[at] = Place::Back(object);
    }
}

// The object that came back at this place.
pub(crate) fn returned_place<T>(places: &[Place<T>], at: usize) -> Option<&T>
    ensures some { IfSome result (λ object. object_at places.now at ≡ Back object.now) }
    ensures none { IfNone result ((object : _) → object_at places.now at ≡ Back object → ⊥) }
{
    if at >= places.len() {
        return None;
    }
    match &places[at] {
        Place::Back(object) => Some(object),
        _ => None,
    }
}

// Whether a link knows the peers that its address states in this role and profile.
fn knows_stated(link: &ScriptLink, role: Role, profile: Profile) -> bool
    ensures value { result ≡ are_stated_known (knows_in link.now.known) role profile }
{
    match (role, profile) {
        (Role::Receives | Role::SendsListening, _) => true,
        (Role::ReceivesCalling | Role::Sends | Role::Forwards, Profile::Simple) => {
            link.has_peer(Channel::Media) && link.has_peer(Channel::Control)
        }
        (Role::ReceivesCalling | Role::Sends | Role::Forwards, Profile::Main) => {
            link.has_peer(Channel::Tunnel)
        }
    }
}

// Whether a link stands at this place that may be handed out in this role and profile.
pub(crate) fn holds_link_for(
    places: &[Place<ScriptLink>],
    at: usize,
    role: Role,
    profile: Profile,
) -> bool
    ensures value { (link : _) → IsTrue result → object_at places.now at ≡ Here link → IsFitFor link role profile }
    ensures none { result ≡ false → HoldsNoneFor (object_at places.now at) role profile }
{
    if at >= places.len() {
        return false;
    }
    match &places[at] {
        Place::Here(link) => link.is_unwritten() && knows_stated(link, role, profile),
        _ => false,
    }
}
