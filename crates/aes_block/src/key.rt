//! Keys of the cipher.

ghost use Rattle.std.specs.Prelude.{◌≡◌, ◌≤◌, ◌%◌, length};
ghost use Rattle.aes_block.specs.Cipher.{key_octets, round_count};

/// A key of the cipher.
#[derive(Clone, Copy)]
pub enum Key {
    /// 128 bits, for 10 rounds.
    Short([u8; 16]),
    /// 256 bits, for 14 rounds.
    Long([u8; 32]),
}

impl Key {
    /// Its octets, 16 or 32.
    pub fn octets(&self) -> &[u8]
        ensures octets { result.now ≡ key_octets self.now }
        ensures least { 16 ≤ length result.now }
        ensures most { length result.now ≤ 32 }
        ensures whole { length result.now % 4 ≡ 0 }
    {
        match self {
            Key::Short(octets) => octets,
            Key::Long(octets) => octets,
        }
    }

    // How many rounds it is for: six more than it has words (FIPS 197, section 5).
    #[inline(always)]
    pub(crate) fn rounds(&self) -> usize
        ensures count { result ≡ round_count (key_octets self.now) }
        ensures least { 10 ≤ result }
        ensures most { result ≤ 14 }
    {
        self.octets().len() / 4 + 6
    }
}
