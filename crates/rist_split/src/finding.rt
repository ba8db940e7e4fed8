//! What was found of a datagram.
ghost use Rattle.std.specs.Prelude.{◌≡◌};
ghost use Rattle.rist_split.specs.Inside.Telling.{item_found, place_found};

use rist_wire::{Item, WireBad};

/// The place of what was found, if anything was.
pub(crate) fn place_of(found: &Result<(u8, Item<'_>), WireBad>) -> Option<u8>
    ensures place { result ≡ place_found found.now }
{
    match found {
        Ok((place, _)) => Some(*place),
        Err(_) => None,
    }
}

/// Its item, or why there is none.
pub(crate) fn item_of<'a>(found: Result<(u8, Item<'a>), WireBad>) -> Result<Item<'a>, WireBad>
    ensures item { result ≡ item_found found.entry }
{
    match found {
        Ok((_, item)) => Ok(item),
        Err(bad) => Err(bad),
    }
}
