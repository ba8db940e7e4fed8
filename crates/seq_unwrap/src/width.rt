ghost use Rattle.std.specs.Prelude.{◌≡◌};
ghost use Rattle.seq_unwrap.specs.Nearest.{cycle_of};

/// How many of a number's lowest bits are sent.
#[derive(Clone, Copy, Debug, PartialEq, Eq)]
pub enum Width {
    /// The 16 bits of the RTP header (RFC 3550, section 5.1).
    W16,
    /// 32 bits, the upper half in the RTP header extension (this profile).
    W32,
}

impl Width {
    /// How many numbers there are before the sent bits are the same again.
    pub fn cycle(self) -> u64
        ensures { result ≡ cycle_of self }
    {
        match self {
            Width::W16 => 1 << 16,
            Width::W32 => 1 << 32,
        }
    }
}
