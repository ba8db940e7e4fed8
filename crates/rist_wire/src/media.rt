ghost use Rattle.std.specs.Prelude.{◌≡◌, ◌≤◌, ◌<◌, true, length, take, is_none};
ghost use Rattle.seq_unwrap.specs.Nearest.{cycle_of};
ghost use Rattle.rist_wire.specs.Media.{can_restore, content_of, restored_payload};

use link_channels::MAX_PAYLOAD;
use seq_unwrap::Width;
use std::marker::Model;
use ts_nulls::{Strip, put_back};

/// Media of a flow, a view of the octets of its datagram.
#[derive(Debug, Drop)]
pub struct Media<'a> {
    /// The flow: the SSRC with its lowest bit cleared (VSF TR-06-1).
    pub flow: u32,
    /// Whether it is a retransmission: the lowest bit of the SSRC (VSF TR-06-1).
    pub again: bool,
    /// How many bits of the number were sent.
    pub width: Width,
    /// These bits.
    pub word: u32,
    /// The RTP timestamp, in ticks of 1/90,000 s (RFC 3551, section 6).
    pub stamp: u32,
    pub(crate) strip: Option<Strip>,
    pub(crate) payload: &'a [u8],
}

impl<'a> Model for Media<'a> {
    ghost use Rattle.std.specs.Prelude.{◌≡◌, ◌≤◌, ◌<◌, true, length};
    ghost use Rattle.seq_unwrap.specs.Nearest.{cycle_of};
    ghost use Rattle.link_channels.specs.declared.bounds.TheConstants.{MAX_PAYLOAD};
    ghost use Rattle.rist_wire.specs.Media.{MediaValue, can_restore};

    ghost Value = { MediaValue };

    ghost view = { λ m. record {
      flow = m.flow;
      again = m.again;
      width = m.width;
      word = m.word;
      stamp = m.stamp;
      strip = m.strip;
      payload = m.payload.now;
    } };

    ghost invariant = { λ m. (length m.payload.now ≤ MAX_PAYLOAD) × (can_restore m.strip m.payload.now ≡ true)
        × (m.word < cycle_of m.width) };
}

// Copies a payload to the front of a block, with its null packets put back if some were deleted, and says how
// many octets that makes.
fn put_restored(strip: &Option<Strip>, payload: &[u8], out: &mut [u8; MAX_PAYLOAD]) -> usize
    requires payload { length payload.now ≤ MAX_PAYLOAD }
    requires whole { can_restore strip.now payload.now ≡ true }
    ensures octets { take result out.new ≡ restored_payload strip.now payload.now }
    ensures within { result ≤ MAX_PAYLOAD }
{
    let Some(strip) = strip else {
        out[..payload.len()].copy_from_slice(payload);
        return payload.len();
    };
    put_back(strip, payload, out)
}

impl<'a> Media<'a> {
    /// Copies the payload to the front of `out` with its null packets in their places, and says how many octets
    /// it has.
    pub fn content(&self, out: &mut [u8; MAX_PAYLOAD]) -> usize
        ensures octets { take result out.new ≡ content_of self.now }
        ensures within { result ≤ MAX_PAYLOAD }
    {
        put_restored(&self.strip, self.payload, out)
    }

    /// The payload as it was sent: without the null packets that were deleted.
    pub fn payload(&self) -> &'a [u8]
        ensures value { result.now ≡ self.now.payload }
        ensures within { length result.now ≤ MAX_PAYLOAD }
        // The bits of the number fit their width.
        ensures fits { self.now.word < cycle_of self.now.width }
    {
        self.payload
    }

    /// The bits of the number that were sent, which fit their width.
    pub fn word(&self) -> u32
        ensures value { result ≡ self.now.word }
        ensures fits { result < cycle_of self.now.width }
    {
        self.word
    }

    /// Which null packets were deleted, where some were.
    pub fn strip(&self) -> Option<Strip>
        ensures value { result ≡ self.now.strip }
    {
        self.strip
    }

    /// Whether nothing was deleted, so that the payload as it was sent is the content.
    pub fn is_whole(&self) -> bool
        ensures value { result ≡ is_none self.now.strip }
        ensures content { result ≡ true → content_of self.now ≡ self.now.payload }
    {
        self.strip.is_none()
    }
}
