//! The set bits of a mask, from the least significant one.
ghost use Rattle.std.specs.Prelude.{◌≡◌, ◌≤◌, ◌<◌, ◌-◌, [], ◌∷◌, MatchOption};
ghost use Rattle.rist_nack.specs.Requests.{set_places};

// The next set bit of a mask whose lowest bit has this place, up to place 16; the mask moves on behind it.
pub(crate) fn next_place(mask: &mut u16, place: &mut u8) -> Option<u8>
    requires { place.old ≤ 17 }
    ensures within { place.new ≤ 17 }
    ensures places { MatchOption result ((set_places (17 - place.old) mask.old place.old ≡ [])
        × (set_places (17 - place.new) mask.new place.new ≡ []))
        (λ i. (i < 17) × (set_places (17 - place.old) mask.old place.old ≡ i ∷ set_places (17 - place.new) mask.new place.new)) }
{
    while *place < 17 {
        let is_set = *mask % 2 == 1;
        let here = *place;
        *mask /= 2;
        *place += 1;
        if is_set {
            return Some(here);
        }
    }
    None
}
