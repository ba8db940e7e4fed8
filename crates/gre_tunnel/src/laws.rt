//! What the definitions of a header's spelling and of its reading mean.
ghost use Rattle.std.specs.Prelude.{◌≡◌, ◌<◌, ℕ, List, All, Ok, drop};
ghost use Rattle.gre_tunnel.specs.declared.gre.Gre.{Gre};
ghost use Rattle.gre_tunnel.specs.Gre.{Header, Spells, keepalive_protocol, datagram_protocol, full_protocol};
ghost use Rattle.gre_tunnel.specs.Reading.{reading_of, value_of};

use crate::reading::{DATAGRAM, FULL, KEEPALIVE};

/// Octets begin with one header at most, and with one rest behind it.
pub fn one_header_is_spelled()
    ensures { (g h : Header) (x y octets : List ℕ) → Spells g x octets → Spells h y octets
        → (g ≡ h) × (x ≡ y) }
{}

/// A header that is spelled is read, whatever follows it.
pub fn what_is_spelled_is_read()
    ensures { (header : Header) (rest octets : List ℕ) → Spells header rest octets
        → reading_of octets ≡ Ok (value_of header) }
{}

/// What is read of octets is the value of a header with which they begin.
pub fn what_is_read_is_spelled()
    ensures { (octets : List ℕ) (value : Gre) → All (λ octet. octet < 256) octets
        → reading_of octets ≡ Ok value
        → (header : Header) × Spells header (drop value.rest octets) octets × (value ≡ value_of header) }
{}

/// The protocols are named as they are defined.
pub fn protocols_are_named()
    ensures keepalive { KEEPALIVE ≡ keepalive_protocol }
    ensures datagram { DATAGRAM ≡ datagram_protocol }
    ensures full { FULL ≡ full_protocol }
{}
