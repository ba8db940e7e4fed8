//! Reading echoes from a compound.
ghost use Rattle.std.specs.Prelude.{◌≡◌};
ghost use Rattle.rist_rtt.specs.Echo.{echoes_in};

use crate::echo::Echoes;
use rtcp_compound::Compound;

/// The echoes of a compound, in its order; an application's packet that is too short for one is skipped.
pub fn echoes<'a>(compound: &Compound<'a>) -> Echoes<'a>
    ensures { result ≡ echoes_in compound.now }
{
    Echoes::of(compound.packets())
}
