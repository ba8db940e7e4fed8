ghost use Rattle.std.specs.Prelude.{◌≡◌, ◌<◌, ◌^◌};
ghost use Rattle.receiver_rules.specs.Steps.{tick_of};

/// A moment in microseconds as whole ticks of 1/90,000 s, the clock of RTP timestamps (RFC 3551, section 6),
/// rounded down.
pub fn tick_of(micros: u64) -> u64
    ensures value { result ≡ tick_of micros }
    ensures within { result < 2 ^ 61 }
{
    micros / 100 * 9 + micros % 100 * 9 / 100
}
