ghost use Rattle.std.specs.Prelude.{◌≡◌, IfOk, Ok};
ghost use Rattle.keepalive_msg.specs.Keepalive.{Message, Spells};
ghost use Rattle.keepalive_msg.specs.Reading.{reading_of, value_of};

use crate::keepalive::{KeepBad, Keepalive};

#[tactic(auto, unfolding(crate::specs::Reading::reading_of))]
fn value_of(octets: &[u8]) -> Result<Keepalive, KeepBad>
    ensures value { result ≡ reading_of octets.now }
{
    let [a, b, c, d, e, f, high, low, text @ ..] = octets else {
        return Err(KeepBad::Short);
    };
    Ok(Keepalive {
        mac: [*a, *b, *c, *d, *e, *f],
        capabilities: u16::from_be_bytes([*high, *low]),
        text: text.len(),
    })
}

/// Reads a keepalive message: what follows the GRE header of a datagram.
pub fn read(octets: &[u8]) -> Result<Keepalive, KeepBad>
    // The value, or the test that fails.
    ensures value { result ≡ reading_of octets.now }

    // What is read is the value of a message that the octets spell.
    ensures found { IfOk result (λ keepalive. (message : Message) × Spells message octets.now
        × (keepalive ≡ value_of message)) }

    // A message that is spelled is read.
    ensures only { (message : Message) → Spells message octets.now → result ≡ Ok (value_of message) }
{
    value_of(octets)
}
