//! Laws of the format.
ghost use Rattle.std.specs.Prelude.{◌≡◌, ℕ, List, true};
ghost use Rattle.rtcp_compound.specs.Compound.{Content, IsCompound};
ghost use Rattle.rtcp_compound.specs.Name.{is_rist, rist_name};

use crate::name::RIST_NAME;

/// Octets spell at most one list of packets.
pub fn one_reading()
    ensures { (octets : List ℕ) (ps qs : List Content) → IsCompound ps octets → IsCompound qs octets
        → ps ≡ qs }
{}

/// The name that is written is the one that is looked for.
pub fn the_name_is_read()
    ensures written { RIST_NAME ≡ rist_name }
    ensures read { is_rist rist_name ≡ true }
{}
