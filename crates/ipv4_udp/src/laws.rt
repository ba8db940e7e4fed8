//! What the definitions of a datagram's spelling and of its reading mean.
ghost use Rattle.std.specs.Prelude.{◌≡◌, ◌<◌, ℕ, List, All, Ok};
ghost use Rattle.ipv4_udp.specs.declared.ip.Sums.{Sums};
ghost use Rattle.ipv4_udp.specs.declared.ip.Sums.TheVariants.{Test, Skip};
ghost use Rattle.ipv4_udp.specs.Ip.{Datagram, Spells};
ghost use Rattle.ipv4_udp.specs.Reading.{reading_of};

/// Octets spell one datagram at most.
pub fn one_datagram_is_spelled()
    ensures { (sums : Sums) (d e : Datagram) (octets : List ℕ) → Spells sums d octets → Spells sums e octets → d ≡ e }
{}

/// A datagram that is spelled is read.
pub fn what_is_spelled_is_read()
    ensures { (sums : Sums) (datagram : Datagram) (octets : List ℕ) → Spells sums datagram octets
        → reading_of sums octets ≡ Ok datagram }
{}

/// What is read of octets is a datagram that they spell.
pub fn what_is_read_is_spelled()
    ensures { (sums : Sums) (datagram : Datagram) (octets : List ℕ) → All (λ octet. octet < 256) octets
        → reading_of sums octets ≡ Ok datagram → Spells sums datagram octets }
{}

/// What is spelled with its checksums is spelled where they don't count.
pub fn sums_only_refuse()
    ensures { (datagram : Datagram) (octets : List ℕ) → Spells Test datagram octets → Spells Skip datagram octets }
{}
