ghost use Rattle.std.specs.Prelude.{◌≡◌, ◌+◌, ◌^◌, ◌<◌, ◌≤◌, IfSome, ◌++◌, Ok, Some, None, length, take, drop};
ghost use Rattle.link_channels.specs.declared.bounds.TheConstants.{MAX_PAYLOAD};
ghost use Rattle.std.specs.Option.{ForSome};
ghost use Rattle.octet_fields.specs.Writing.{KeepsFrom};
ghost use Rattle.rtp_packet.specs.Reading.{extension_shown, reading_of, value_of};
ghost use Rattle.rtp_packet.specs.Rtp.{AreWords, extension_octets, spelling};
ghost use Rattle.rtp_packet.specs.Writing.{packet_with, header_octets, IsHead};

use crate::rtp::FIXED_LEN;
use link_channels::MAX_DATAGRAM;
use octet_fields::put_at;

/// What the header of a packet to be written says.
#[derive(Clone, Copy, Debug, PartialEq, Eq)]
pub struct RtpHead {
    /// The sequence number.
    pub number: u16,
    /// The timestamp, in ticks of 1/90,000 s.
    pub stamp: u32,
    /// The source (SSRC).
    pub ssrc: u32,
}

/// An MPEG-2 transport stream (RFC 3551, section 6).
pub const PAYLOAD_TYPE_MP2T: u8 = 33;

fn put_header(out: &mut [u8], head: RtpHead, extended: bool)
    requires room { FIXED_LEN ≤ length out.old }
    ensures fits { IsHead head }
    ensures octets { take FIXED_LEN out.new ≡ header_octets head extended }
    ensures rest { KeepsFrom FIXED_LEN out.old out.new }
{
    let first = if extended { 0x90 } else { 0x80 };
    let at = put_at(out, 0, &[first, PAYLOAD_TYPE_MP2T]);
    let at = put_at(out, at, &head.number.to_be_bytes());
    let at = put_at(out, at, &head.stamp.to_be_bytes());
    put_at(out, at, &head.ssrc.to_be_bytes());
}

fn put_words(out: &mut [u8], at: usize, profile: u16, words: &[u8]) -> usize
    requires room { at + 4 + length words.now ≤ length out.old }
    requires few { length words.now ≤ 32 }
    ensures fits { profile < 2 ^ 16 }
    ensures end { result ≡ at + 4 + length words.now }
    ensures octets { take result out.new ≡ take at out.old ++ extension_octets (Some (profile, words.now)) }
    ensures rest { KeepsFrom result out.old out.new }
{
    let count = (words.len() / 4) as u16;
    let at = put_at(out, at, &profile.to_be_bytes());
    let at = put_at(out, at, &count.to_be_bytes());
    put_at(out, at, words)
}

// Writes the extension, if there is one, behind the twelve octets of a header.
fn put_extension(out: &mut [u8], extension: Option<(u16, &[u8])>) -> usize
    requires room { 48 ≤ length out.old }
    requires few { ForSome extension (λ e. length e.1.now ≤ 32) }
    ensures end { result ≡ FIXED_LEN + length (extension_octets (extension_shown extension.entry)) }
    ensures within { result ≤ 48 }
    ensures fits { IfSome (extension_shown extension.entry) (λ e. e.0 < 2 ^ 16) }
    ensures octets { take result out.new
        ≡ take FIXED_LEN out.old ++ extension_octets (extension_shown extension.entry) }
    ensures rest { KeepsFrom result out.old out.new }
{
    match extension {
        Some((profile, words)) => put_words(out, FIXED_LEN, profile, words),
        None => FIXED_LEN,
    }
}

/// Writes a packet at the front of `out`, and says how many octets it has: payload type 33, no marker,
/// no sources, no padding, and the extension's profile word with the octets of its words.
pub fn write(
    head: &RtpHead,
    extension: Option<(u16, &[u8])>,
    payload: &[u8],
    out: &mut [u8; MAX_DATAGRAM],
) -> usize
    requires extension { ForSome extension (λ e. AreWords 8 e.1.now) }
    requires payload { length payload.now ≤ MAX_PAYLOAD }
    ensures octets { take result out.new
        ≡ spelling (packet_with head.now (extension_shown extension.entry) payload.now) None }
    ensures rest { drop result out.new ≡ drop result out.old }
    ensures within { result ≤ 1548 }

    // What is written is read back as the value that was given.
    ensures read_back { reading_of (take result out.new)
        ≡ Ok (value_of (packet_with head.now (extension_shown extension.entry) payload.now)) }
{
    let head = *head;
    put_header(out, head, extension.is_some());
    let at = put_extension(out, extension);
    put_at(out, at, payload)
}
