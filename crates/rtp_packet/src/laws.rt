//! What the definitions of a packet's spelling and of its reading mean.
ghost use Rattle.std.specs.Prelude.{◌≡◌, ◌<◌, ◌≤◌, ℕ, List, length, All, if◌then◌else◌, nat_lt, Ok, Err};
ghost use Rattle.rtp_packet.specs.Reading.{RtpValue, value_of, reading_of};
ghost use Rattle.rtp_packet.specs.Rtp.{RtpPacket, Spells};
ghost use Rattle.rtp_packet.specs.declared.bad.RtpBad.TheVariants.{Long};

use crate::writing::PAYLOAD_TYPE_MP2T;
use link_channels::MAX_PAYLOAD;

/// Octets spell one packet at most.
pub fn one_packet_is_spelled()
    ensures { (p q : RtpPacket) (octets : List ℕ) → Spells p octets → Spells q octets → p ≡ q }
{}

/// A packet that is spelled is read, or is refused for the length of its payload alone.
pub fn what_is_spelled_is_read()
    ensures { (packet : RtpPacket) (octets : List ℕ) → Spells packet octets
        → reading_of octets ≡ (if nat_lt MAX_PAYLOAD (length packet.payload) then Err Long else Ok (value_of packet)) }
{}

/// What is read of octets is the value of a packet that they spell.
pub fn what_is_read_is_spelled()
    ensures { (octets : List ℕ) (value : RtpValue)
        → All (λ octet. octet < 256) octets → reading_of octets ≡ Ok value
        → (packet : RtpPacket) × Spells packet octets × (value ≡ value_of packet)
        × (length packet.payload ≤ MAX_PAYLOAD) }
{}

/// The payload type that is written is that of an MPEG-2 transport stream (RFC 3551, section 6).
pub fn the_payload_type_is_this()
    ensures mp2t { PAYLOAD_TYPE_MP2T ≡ 33 }
{}
