//! Laws of a sealer's pairs.
ghost use Rattle.std.specs.Prelude.{◌≡◌, ◌<◌, ◌^◌, ℕ, List};
ghost use Rattle.psk_seal.specs.Nonces.{AreNonces, GiveNonces};
ghost use Rattle.psk_seal.specs.Pairs.{pair_at};

use crate::sealer::{MAX_PAIRS, NONCE_COUNT};

/// The pairs of one sealer are all different.
pub fn pairs_differ()
    ensures { (nonces : List ℕ) (p q : ℕ) → AreNonces nonces → p < MAX_PAIRS → q < MAX_PAIRS
        → pair_at nonces p ≡ pair_at nonces q → p ≡ q }
{}

/// Sixteen words give one list of nonces.
pub fn one_list_of_nonces()
    ensures { (words xs ys : List ℕ) → GiveNonces words xs NONCE_COUNT → GiveNonces words ys NONCE_COUNT
        → xs ≡ ys }
{}

/// A sealer draws sixteen nonces and gives 2^36 pairs (this profile).
pub fn bounds_are_these()
    ensures nonces { NONCE_COUNT ≡ 16 }
    ensures pairs { MAX_PAIRS ≡ 2 ^ 36 }
{}
