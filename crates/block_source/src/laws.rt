//! What the pieces of octets mean.
ghost use Rattle.std.specs.Prelude.{◌≡◌, ◌+◌, ◌*◌, ◌<◌, ◌≤◌, ℕ, List, [], ◌∷◌, ◌++◌, All, length, flat_map};
ghost use Rattle.block_source.specs.Pieces.{pieces_of, whole_pieces_of, pieces_before_last};

/// The pieces are the octets that were cut, each of 1 to 1,316 octets.
pub fn the_pieces_are_the_whole()
    ensures whole { (b : List ℕ) → flat_map (λ piece. piece) (pieces_of b) ≡ b }
    ensures each { (b : List ℕ) → All (λ piece. (1 ≤ length piece) × (length piece ≤ 1316)) (pieces_of b) }
{}

/// Behind whole pieces the cut begins anew, and a piece at the front is the first.
pub fn pieces_stand_behind_whole_ones()
    ensures behind { (count : ℕ) (front rest : List ℕ)
        → length front ≡ 1316 * count → pieces_of (front ++ rest) ≡ pieces_of front ++ pieces_of rest }
    ensures first { (piece rest : List ℕ)
        → 0 < length piece → length piece ≤ 1316 → (length piece < 1316 → rest ≡ [])
        → pieces_of (piece ++ rest) ≡ piece ∷ pieces_of rest }
{}
