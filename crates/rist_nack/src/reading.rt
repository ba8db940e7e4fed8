//! Reading what a compound asks for.
ghost use Rattle.std.specs.Prelude.{◌≡◌};
ghost use Rattle.rist_nack.specs.Asked.{asks_in};

use crate::asking::Asks;
use rtcp_compound::Compound;

/// What a compound asks for, of one flow or of all: packet by packet, word by word. A number of a generic
/// NACK's mask is an ask of its own. The lowest bit of the SSRC doesn't count.
pub fn asks<'a>(compound: &'a Compound<'a>, flow: Option<u32>) -> Asks<'a>
    ensures { result ≡ asks_in flow compound.now }
{
    Asks::of(compound, flow)
}
