//! What the definitions of deleting null packets and of putting them back mean.
ghost use Rattle.std.specs.Prelude.{◌≡◌, ◌≤◌, ℕ, List, length, Some, None, Ok};
ghost use Rattle.ts_nulls.specs.Nulls.{blanking_of, restoring_of, stripping_of};
ghost use Rattle.ts_nulls.specs.Shape.{Shape, IsShape};

use crate::packets::{LONG_LEN, MAX_PACKETS, MAX_PACKETS_LEN, SHORT_LEN, SYNC_BYTE};

/// Null packets that are put back stand where they were deleted, each as the one that stands for it.
pub fn what_was_stripped_is_restored()
    ensures { (payload kept : List ℕ) (shape : Shape) → stripping_of payload ≡ Some (shape, kept)
        → restoring_of shape kept ≡ Ok (blanking_of payload) }
{}

/// What is told of a payload that was stripped fits its bits, and what was kept is no longer than the payload.
pub fn what_was_stripped_is_told()
    ensures shape { (payload kept : List ℕ) (shape : Shape) → stripping_of payload ≡ Some (shape, kept)
        → IsShape shape.units shape.nulls }
    ensures kept { (payload kept : List ℕ) (shape : Shape) → stripping_of payload ≡ Some (shape, kept)
        → length kept ≤ length payload }
{}

/// A payload that isn't stripped has nothing for which a null packet would stand.
pub fn what_is_not_stripped_stays()
    ensures { (payload : List ℕ) → stripping_of payload ≡ None → blanking_of payload ≡ payload }
{}

/// A packet begins with 0x47 and has 188 octets, or 204 (ISO/IEC 13818-1, section 2.4.3.2); a payload has seven at most.
pub fn packets_are_these()
    ensures sync { SYNC_BYTE ≡ 71 }
    ensures short { SHORT_LEN ≡ 188 }
    ensures long { LONG_LEN ≡ 204 }
    ensures most { MAX_PACKETS ≡ 7 }
    ensures octets { MAX_PACKETS_LEN ≡ 1428 }
{}
