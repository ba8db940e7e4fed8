//! A packet of a compound, as a view of its octets.
ghost use Rattle.std.specs.Prelude.{◌≡◌, ◌≤◌, ◌<◌, ◌+◌, length, None, true, false};
ghost use Rattle.rtcp_compound.specs.Compound.{kind_of, number_at, content_of};
ghost use Rattle.rtcp_compound.specs.Reading.{kind_in, count_in, body_in, has_body, fault_at};
ghost use Rattle.rtcp_compound.specs.Seen.{seen};

use crate::reading::{BLOCK_LEN, body_of};
use octet_fields::u32_at;

/// A packet by its type. Slices have no padding.
#[derive(Clone, Copy, Debug, PartialEq, Eq)]
pub enum Packet<'a> {
    /// A sender's report, type 200 (RFC 3550, section 6.4.1).
    Sr {
        /// The sender.
        ssrc: u32,
        /// Seconds of its NTP time.
        seconds: u32,
        /// Fraction of its NTP time, in units of 2^-32 s.
        fraction: u32,
        /// The RTP timestamp at that time.
        rtp_time: u32,
        /// Packets sent so far.
        packets: u32,
        /// Payload octets sent so far.
        octets: u32,
        /// The report blocks, 24 octets each.
        blocks: &'a [u8],
    },
    /// A receiver's report, type 201 (RFC 3550, section 6.4.2).
    Rr {
        /// The receiver.
        ssrc: u32,
        /// The report blocks, 24 octets each.
        blocks: &'a [u8],
    },
    /// A source description, type 202 (RFC 3550, section 6.5).
    Sdes {
        /// How many chunks there are.
        count: u8,
        /// The whole body: the chunks, and what stands after them.
        chunks: &'a [u8],
    },
    /// A goodbye, type 203 (RFC 3550, section 6.6).
    Bye {
        /// How many sources leave.
        count: u8,
        /// The whole body: an SSRC for each, and then the reason, if there is one.
        rest: &'a [u8],
    },
    /// A packet that an application defines, type 204 (RFC 3550, section 6.7).
    App {
        /// Five bits of the application's.
        subtype: u8,
        /// The source; in RIST the SSRC of the media.
        ssrc: u32,
        /// The application's name in four octets.
        name: [u8; 4],
        /// What stands after the name.
        words: &'a [u8],
    },
    /// Feedback, type 205 or 206 (RFC 4585, section 6.1).
    Feedback {
        /// 205 for the transport layer, 206 for the payload.
        kind: u8,
        /// The feedback message's type.
        format: u8,
        /// The SSRC of who sends it.
        sender: u32,
        /// The SSRC of the media.
        media: u32,
        /// The feedback control information.
        words: &'a [u8],
    },
    /// A packet of another type from 192 to 223, which is stepped over.
    Other {
        /// Its type.
        kind: u8,
        /// Five bits of its header.
        count: u8,
        /// What stands after its first four octets.
        body: &'a [u8],
    },
}

impl Packet<'_> {
    /// Its packet type, 192 to 223.
    pub fn kind(&self) -> u8
        ensures { result ≡ kind_of (seen self.now) }
    {
        match self {
            Packet::Sr { .. } => 200,
            Packet::Rr { .. } => 201,
            Packet::Sdes { .. } => 202,
            Packet::Bye { .. } => 203,
            Packet::App { .. } => 204,
            Packet::Feedback { kind, .. } => *kind,
            Packet::Other { kind, .. } => *kind,
        }
    }
}

// The 32-bit number at a place of the body.
#[tactic(auto, unfolding(crate::specs::Compound::number_at))]
fn number(body: &[u8], place: usize) -> u32
    requires { place + 4 ≤ length body.now }
    ensures { result ≡ number_at place body.now }
{
    u32_at(body, place)
}

// The packet of this type and count with this body.
fn content<'a>(kind: u8, count: u8, body: &'a [u8]) -> Packet<'a>
    requires count { count < 32 }
    requires body { has_body kind count body.now ≡ true }
    ensures { seen result ≡ content_of kind count body.now }
{
    let blocks = BLOCK_LEN * count as usize;
    match kind {
        200 => Packet::Sr {
            ssrc: number(body, 0),
            seconds: number(body, 4),
            fraction: number(body, 8),
            rtp_time: number(body, 12),
            packets: number(body, 16),
            octets: number(body, 20),
            blocks: &body[24..24 + blocks],
        },
        201 => Packet::Rr {
            ssrc: number(body, 0),
            blocks: &body[4..4 + blocks],
        },
        202 => Packet::Sdes {
            count,
            chunks: body,
        },
        203 => Packet::Bye { count, rest: body },
        204 => Packet::App {
            subtype: count,
            ssrc: number(body, 0),
            name: [body[4], body[5], body[6], body[7]],
            words: &body[8..],
        },
        205 | 206 => Packet::Feedback {
            kind,
            format: count,
            sender: number(body, 0),
            media: number(body, 4),
            words: &body[8..],
        },
        _ => Packet::Other { kind, count, body },
    }
}

// The packet at the front of octets that begin with one.
pub(crate) fn packet_of(octets: &[u8]) -> Packet<'_>
    requires { fault_at false octets.now ≡ None }
    ensures { seen result ≡ content_of (kind_in octets.now) (count_in octets.now) (body_in octets.now) }
{
    content(octets[1], octets[0] % 32, body_of(octets))
}
