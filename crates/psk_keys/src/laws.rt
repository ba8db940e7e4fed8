//! What the definitions mean.
ghost use Rattle.std.specs.Prelude.{◌≡◌};

use crate::cached::CACHED_KEYS;
use crate::phrase::MAX_PHRASE_LEN;

/// So many keys are cached, and a passphrase has so many octets at most (this profile).
pub fn bounds_are_these()
    ensures cached { CACHED_KEYS ≡ 4 }
    ensures phrase { MAX_PHRASE_LEN ≡ 128 }
{}
