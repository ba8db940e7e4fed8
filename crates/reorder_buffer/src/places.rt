//! The search among the places of a ring. From the place of the lowest number on the numbers rise with the places, and go on
//! rising from the first place.
ghost use Rattle.std.specs.Prelude.{◌≡◌, ◌<◌, ◌%◌, List, ℕ, length, slice_index_or, None};
ghost use Rattle.std.specs.Option.{ForSome, option_map};
ghost use Rattle.receiver_rules.specs.Packets.{IsRising};
ghost use Rattle.reorder_buffer.specs.Inside.Ring.{packets_in, first_number};
ghost use Rattle.reorder_buffer.specs.Inside.Around.{IsAround};

use crate::ring::Held;
use deadline_index::{DeadlineIndex, NEVER};

/// A number that waits, and its place.
#[derive(Clone, Copy)]
pub struct Standing {
    pub number: u64,
    pub place: usize,
}

/// The lowest number, where none is below the one whose place is `start`.
pub fn lowest_from(
    places: &[Option<Held>],
    index: &DeadlineIndex,
    start: usize,
    low: u64,
) -> Option<Standing>
    requires around { IsAround low places.now index.now }
    requires start { start ≡ low % length places.now }
    ensures number { (blocks : List (List ℕ)) → length blocks ≡ length places.now
        → IsRising 0 (packets_in places.now blocks)
        → option_map (λ s. s.number) result ≡ first_number (packets_in places.now blocks) }
    ensures place { ForSome result (λ s. s.place ≡ s.number % length places.now) }
{
    // Mostly this number waits itself.
    if let Some(lowest) = standing_at(places, start) {
        return Some(lowest);
    }
    let first = match index.first_by(start, NEVER - 1) {
        Some(place) => Some(place),
        None => index.first_by(0, NEVER - 1),
    };
    match first {
        Some(place) => standing_at(places, place),
        None => None,
    }
}

/// What stands at a place.
fn standing_at(places: &[Option<Held>], place: usize) -> Option<Standing>
    requires { place < length places.now }
    ensures number { option_map (λ s. s.number) result
        ≡ option_map (λ held. held.number) (slice_index_or places.now place None) }
    ensures place { ForSome result (λ s. s.place ≡ place) }
{
    match places[place] {
        Some(held) => Some(Standing {
            number: held.number,
            place,
        }),
        None => None,
    }
}
