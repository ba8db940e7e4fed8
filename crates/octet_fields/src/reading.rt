ghost use Rattle.std.specs.Prelude.{◌≡◌, ◌+◌, ◌<◌, ◌≤◌, ◌==◌, length, take, drop};
ghost use Rattle.std.specs.Int.{w16, w32, w64, from_be_bytes, bit_at};

/// Whether a bit of a word is set, counted from the least significant.
#[inline]
pub fn is_set(word: u16, bit: u32) -> bool
    requires within { bit < 16 }
    ensures value { result ≡ (bit_at word bit == 1) }
{
    (word >> bit) & 1 == 1
}

/// The number of 16 bits whose octets begin at this place.
#[inline]
pub fn u16_at(octets: &[u8], at: usize) -> u16
    requires within { at + 2 ≤ length octets.now }
    ensures value { result ≡ from_be_bytes w16 (take 2 (drop at octets.now)) }
{
    u16::from_be_bytes([octets[at], octets[at + 1]])
}

/// The number of 32 bits whose octets begin at this place.
#[inline]
pub fn u32_at(octets: &[u8], at: usize) -> u32
    requires within { at + 4 ≤ length octets.now }
    ensures value { result ≡ from_be_bytes w32 (take 4 (drop at octets.now)) }
{
    u32::from_be_bytes([octets[at], octets[at + 1], octets[at + 2], octets[at + 3]])
}

/// The number of 64 bits whose octets begin at this place.
#[inline]
pub fn u64_at(octets: &[u8], at: usize) -> u64
    requires within { at + 8 ≤ length octets.now }
    ensures value { result ≡ from_be_bytes w64 (take 8 (drop at octets.now)) }
{
    u64::from_be_bytes([
        octets[at],
        octets[at + 1],
        octets[at + 2],
        octets[at + 3],
        octets[at + 4],
        octets[at + 5],
        octets[at + 6],
        octets[at + 7],
    ])
}
