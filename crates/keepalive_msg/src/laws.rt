//! What the definitions of a message's spelling and of its reading mean.
ghost use Rattle.std.specs.Prelude.{◌≡◌, ◌<◌, ℕ, List, All, Ok};
ghost use Rattle.keepalive_msg.specs.declared.keepalive.Keepalive.{Keepalive};
ghost use Rattle.keepalive_msg.specs.Keepalive.{Message, Spells};
ghost use Rattle.keepalive_msg.specs.Reading.{reading_of, value_of};

/// Octets spell one message at most.
pub fn one_message_is_spelled()
    ensures { (m n : Message) (octets : List ℕ) → Spells m octets → Spells n octets → m ≡ n }
{}

/// A message that is spelled is read.
pub fn what_is_spelled_is_read()
    ensures { (message : Message) (octets : List ℕ) → Spells message octets
        → reading_of octets ≡ Ok (value_of message) }
{}

/// What is read of octets is the value of a message that they spell.
pub fn what_is_read_is_spelled()
    ensures { (octets : List ℕ) (value : Keepalive) → All (λ octet. octet < 256) octets
        → reading_of octets ≡ Ok value
        → (message : Message) × Spells message octets × (value ≡ value_of message) }
{}
