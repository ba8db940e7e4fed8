//! What each of several receivers is told.
ghost use Rattle.std.specs.Prelude.{◌≡◌};
ghost use Rattle.rist_ends.specs.Told.{IsFit};
ghost use Rattle.rist_fan.specs.Seen.{is_for, told_for, what_for};

use rist_ends::{Told, What};

// What a receiver is told, where it is for it or not.
fn what_for<'a>(own: bool, what: &What<'a>) -> What<'a>
    ensures value { result ≡ what_for own what.now }
{
    if own {
        return *what;
    }
    match what {
        What::Media(_) | What::Control(_) | What::Keepalive | What::Refused => What::Refused,
        What::Tick => What::Tick,
        What::End => What::End,
    }
}

/// That at the step's link and moment.
pub(crate) fn told_for<'a>(own: bool, told: &Told<'a>) -> Told<'a>
    requires fits { IsFit told.now }
    ensures value { result ≡ told_for own told.now }
    ensures fits { IsFit result }
{
    Told {
        link: told.link,
        us: told.us,
        what: what_for(own, &told.what),
    }
}

/// Whether a step is for the receiver at this place.
pub(crate) fn is_for(place: Option<u8>, v: usize) -> bool
    ensures value { result ≡ is_for place v }
{
    match place {
        Some(place) => usize::from(place) == v,
        None => false,
    }
}
