//! The payloads of a made script.
ghost use Rattle.std.specs.Prelude.{◌≡◌, ◌≤◌, ◌<◌, ◌+◌};
ghost use Rattle.made_script.specs.Payload.{octet_of, made_payload};

/// The octets of a transport packet (ISO/IEC 13818-1, section 2.4.3.2).
const PACKET_LEN: usize = 188;

/// The octets of a payload: seven transport packets.
pub const PAYLOAD_LEN: usize = 7 * PACKET_LEN;

// The octet at a place of a transport packet of a payload: of five packets one is null, and the others differ from one
// another.
fn octet_of(payload: u32, packet: usize, place: usize) -> u8
    requires packet { packet < 7 }
    requires place { place < PACKET_LEN }
    ensures value { result ≡ octet_of payload packet place }
{
    let total = u64::from(payload) + packet as u64;
    let is_null = total % 5 == 0;
    match (place, is_null) {
        (0, _) => 0x47,
        (1, true) => 0x1F,
        (1, false) => 0x01,
        (2, true) => 0xFF,
        (2, false) => 0x00,
        (3, _) => 0x10,
        (_, true) => 0xFF,
        (_, false) => ((total + place as u64) % 256) as u8,
    }
}

/// The payload of a number: seven transport packets of 188 octets (this profile).
pub fn payload_of(payload: u32) -> [u8; PAYLOAD_LEN]
    ensures value { result ≡ made_payload payload }
{
    let mut octets = [0; PAYLOAD_LEN];
    for place in 0..PAYLOAD_LEN {
        octets[place] = octet_of(payload, place / PACKET_LEN, place % PACKET_LEN);
    }
    octets
}
