use link_channels::MAX_PAYLOAD;
use std::marker::Model;
use ts_nulls::Strip;

/// A media packet as it was sent (RFC 3550, section 5.1).
#[derive(Drop)]
pub struct Sent {
    number: u64,
    stamp: u32,
    strip: Option<Strip>,
    block: [u8; MAX_PAYLOAD],
    length: usize,
}

impl Model for Sent {
    ghost use Rattle.link_channels.specs.declared.bounds.TheConstants.{MAX_PAYLOAD};
    ghost use Rattle.std.specs.Prelude.{◌≤◌, take};
    ghost use Rattle.sender_rules.specs.Sendings.{Packet};

    ghost Value = { Packet };

    ghost view = { λ s. record { number = s.number; timestamp = s.stamp; strip = s.strip; payload = take s.length s.block } };

    ghost invariant = { λ s. s.length ≤ MAX_PAYLOAD };
}

impl Sent {
    ghost use Rattle.std.specs.Prelude.{◌≡◌, ◌≤◌, length};
    ghost use Rattle.link_channels.specs.declared.bounds.TheConstants.{MAX_PAYLOAD};

    /// A packet with its sequence number (all its bits), its timestamp in ticks of 1/90,000 s, which null packets were
    /// deleted from its payload, and the payload without them, of at most 1,500 octets.
    pub fn with(number: u64, stamp: u32, strip: Option<Strip>, payload: &[u8]) -> Sent
        requires { length payload.now ≤ MAX_PAYLOAD }
        ensures value { result ≡ record { number = number; timestamp = stamp; strip = strip; payload = payload.now } }
    {
        let mut block = [0; MAX_PAYLOAD];
        block[..payload.len()].copy_from_slice(payload);
        Sent {
            number,
            stamp,
            strip,
            block,
            length: payload.len(),
        }
    }

    /// Its sequence number, with all its bits.
    pub fn number(&self) -> u64
        ensures value { result ≡ self.now.number }
    {
        self.number
    }

    /// Its timestamp, in ticks of 1/90,000 s.
    pub fn stamp(&self) -> u32
        ensures value { result ≡ self.now.timestamp }
    {
        self.stamp
    }

    /// Which null packets were deleted from its payload.
    pub fn strip(&self) -> Option<Strip>
        ensures value { result ≡ self.now.strip }
    {
        self.strip
    }

    /// Its payload as it was sent, without the null packets that were deleted.
    pub fn payload(&self) -> &[u8]
        ensures value { result.now ≡ self.now.payload }
        ensures within { length result.now ≤ MAX_PAYLOAD }
    {
        &self.block[..self.length]
    }
}
