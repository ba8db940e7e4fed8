ghost use Rattle.std.specs.Prelude.{◌≡◌, ◌+◌, ◌*◌, ◌%◌, ◌<◌, ◌≤◌, ◌||◌, ◌==◌, ℕ, List, IfOk, Ok, length, drop};
ghost use Rattle.std.specs.Int.{bit_at, from_bool};
ghost use Rattle.gre_tunnel.specs.Gre.{Header, Spells};
ghost use Rattle.gre_tunnel.specs.Reading.{number_at, is_known_protocol, reading_of, value_of};

use crate::gre::{Gre, GreBad};
use octet_fields::{is_set, u16_at, u32_at};

/// The protocol of a keepalive (this profile).
pub const KEEPALIVE: u16 = 0x88b5;

/// The protocol of a datagram with reduced overhead (this profile).
pub const DATAGRAM: u16 = 0x88b6;

/// The protocol of a full datagram: the EtherType of IPv4.
pub const FULL: u16 = 0x0800;

const FIXED_LEN: usize = 4;

// What the first word's first half says.
#[derive(Clone, Copy)]
struct Flags {
    version: u8,
    checksum: bool,
    reserved: bool,
    key: bool,
    sequence: bool,
}

fn flags_of(word: u16) -> Flags
    ensures version { result.version ≡ word % 8 }
    ensures checksum { result.checksum ≡ (bit_at word 15 == 1) }
    ensures reserved { result.reserved
        ≡ ((bit_at word 14 == 1) || ((bit_at word 11 == 1) || (bit_at word 10 == 1))) }
    ensures key { result.key ≡ (bit_at word 13 == 1) }
    ensures sequence { result.sequence ≡ (bit_at word 12 == 1) }
{
    Flags {
        version: (word & 7) as u8,
        checksum: is_set(word, 15),
        reserved: is_set(word, 14) || is_set(word, 11) || is_set(word, 10),
        key: is_set(word, 13),
        sequence: is_set(word, 12),
    }
}

// The number at this place, where the flag says that it is there.
fn number_at(flag: bool, at: usize, octets: &[u8]) -> Option<u32>
    requires { at + 4 * from_bool flag ≤ length octets.now }
    ensures { result ≡ number_at flag at octets.now }
{
    if !flag {
        return None;
    }
    Some(u32_at(octets, at))
}

fn is_known(protocol: u16) -> bool
    ensures { result ≡ is_known_protocol protocol }
{
    protocol == KEEPALIVE || protocol == DATAGRAM || protocol == FULL
}

#[tactic(auto, using(std::proofs::lemmas::Bool::Decides::nat_tests), unfolding(crate::specs::Reading::reading_of))]
fn value_of(octets: &[u8]) -> Result<Gre, GreBad>
    ensures value { result ≡ reading_of octets.now }
{
    if octets.len() < FIXED_LEN {
        return Err(GreBad::Short);
    }
    let flags = flags_of(u16_at(octets, 0));
    if flags.version != 0 {
        return Err(GreBad::Version);
    }
    if flags.checksum {
        return Err(GreBad::Checksum);
    }
    if flags.reserved {
        return Err(GreBad::Reserved);
    }
    if flags.key && !flags.sequence {
        return Err(GreBad::KeyedNoSequence);
    }
    let sequence_at = FIXED_LEN + if flags.key { 4 } else { 0 };
    let rest = sequence_at + if flags.sequence { 4 } else { 0 };
    if octets.len() < rest {
        return Err(GreBad::Short);
    }
    let protocol = u16_at(octets, 2);
    if !is_known(protocol) {
        return Err(GreBad::Protocol);
    }
    Ok(Gre {
        key: number_at(flags.key, FIXED_LEN, octets),
        sequence: number_at(flags.sequence, sequence_at, octets),
        protocol,
        rest,
    })
}

impl Gre {
    /// Reads the header at the front of a datagram. Seven of its bits are ignored.
    pub fn read(octets: &[u8]) -> Result<Gre, GreBad>
        // The value, or the first test that fails.
        ensures value { result ≡ reading_of octets.now }

        // What is read is the value of a header with which the octets begin.
        ensures found { IfOk result (λ gre. (header : Header)
            × Spells header (drop gre.rest octets.now) octets.now × (gre ≡ value_of header)) }

        // A header with which the octets begin is read, whatever follows.
        ensures only { (header : Header) (rest : List ℕ) → Spells header rest octets.now
            → result ≡ Ok (value_of header) }
    {
        value_of(octets)
    }
}
