ghost use Rattle.std.specs.Prelude.{◌≡◌, ◌+◌, ◌/◌, ◌%◌, ◌*◌, ◌≤◌, ◌==◌, nat_lt, length, drop, is_none, IfSome, IfOk};
ghost use Rattle.std.specs.Int.{bit_at};
ghost use Rattle.rtp_packet.specs.Reading.{extension_shown, extension_at, after_extension, is_cut_extension, payload_at, is_bad_padding, reading_of, value_of};
ghost use Rattle.rtp_packet.specs.Rtp.{RtpPacket, Spells};

use crate::bad::RtpBad;
use link_channels::MAX_PAYLOAD;
use octet_fields::{is_set, u16_at, u32_at};
use std::marker::Model;

/// How many octets a header without sources has (RFC 3550, section 5.1).
pub(crate) const FIXED_LEN: usize = 12;

const VERSION: u8 = 2;

/// A packet that was read, a view of the octets of its datagram.
#[derive(Debug, Drop)]
pub struct Rtp<'a> {
    number: u16,
    stamp: u32,
    ssrc: u32,
    extension: Option<(u16, &'a [u8])>,
    payload: &'a [u8],
}

impl<'a> Model for Rtp<'a> {
    ghost use Rattle.std.specs.Prelude.{◌≤◌, length};
    ghost use Rattle.rtp_packet.specs.Reading.{RtpValue, extension_shown};
    ghost use Rattle.link_channels.specs.declared.bounds.TheConstants.{MAX_PAYLOAD};

    ghost Value = { RtpValue };

    ghost view = { λ p. record {
      number = p.number;
      stamp = p.stamp;
      ssrc = p.ssrc;
      extension = extension_shown p.extension;
      payload = p.payload.now;
    } };

    ghost invariant = { λ p. length p.payload.now ≤ MAX_PAYLOAD };
}

// What the first octet says: the version, the flags of padding and extension, and how many sources
// are listed.
#[derive(Clone, Copy)]
struct Flags {
    version: u8,
    padding: bool,
    extension: bool,
    sources: u8,
}

fn flags_of(first: u8) -> Flags
    ensures version { result.version ≡ first / 64 }
    ensures padding { result.padding ≡ (bit_at first 5 == 1) }
    ensures extension { result.extension ≡ (bit_at first 4 == 1) }
    ensures sources { result.sources ≡ first % 16 }
{
    Flags {
        version: first >> 6,
        padding: is_set(u16::from(first), 5),
        extension: is_set(u16::from(first), 4),
        sources: first & 0x0f,
    }
}

// What follows so many sources. None where they pass the end.
fn after_sources(octets: &[u8], sources: u8) -> Option<&[u8]>
    ensures cut { is_none result ≡ nat_lt (length octets.now) (FIXED_LEN + 4 * sources) }
    ensures rest { IfSome result (λ rest. rest.now ≡ drop (FIXED_LEN + 4 * sources) octets.now) }
{
    octets.get(FIXED_LEN + 4 * usize::from(sources)..)
}

// The extension, where the flag says that one stands here, and what follows it. None where it passes
// the end.
fn split_extension(flag: bool, rest: &[u8]) -> Option<(Option<(u16, &[u8])>, &[u8])>
    ensures cut { is_none result ≡ is_cut_extension flag rest.now }
    ensures extension { IfSome result (λ x. extension_shown x.0 ≡ extension_at flag rest.now) }
    ensures rest { IfSome result (λ x. x.1.now ≡ after_extension flag rest.now) }
{
    if !flag {
        return Some((None, rest));
    }
    if rest.len() < 4 {
        return None;
    }
    let profile = u16_at(rest, 0);
    let end = 4 + 4 * usize::from(u16_at(rest, 2));
    if rest.len() < end {
        return None;
    }
    Some((Some((profile, &rest[4..end])), &rest[end..]))
}

// The payload, where the flag says whether padding follows it. None where that is no padding.
fn without_padding(flag: bool, rest: &[u8]) -> Option<&[u8]>
    ensures bad { is_none result ≡ is_bad_padding flag rest.now }
    ensures payload { IfSome result (λ x. x.now ≡ payload_at flag rest.now) }
{
    if !flag {
        return Some(rest);
    }
    let [.., last] = rest else {
        return None;
    };
    let count = usize::from(*last);
    if count == 0 || rest.len() < count {
        return None;
    }
    Some(&rest[..rest.len() - count])
}

#[tactic(auto, using(std::proofs::lemmas::Bool::Decides::nat_tests), unfolding(crate::specs::Reading::reading_of))]
fn view_of(octets: &[u8]) -> Result<Rtp<'_>, RtpBad>
    ensures value { result ≡ reading_of octets.now }
{
    if octets.len() < FIXED_LEN {
        return Err(RtpBad::Short);
    }
    let flags = flags_of(octets[0]);
    if flags.version != VERSION {
        return Err(RtpBad::Version);
    }
    let Some(rest) = after_sources(octets, flags.sources) else {
        return Err(RtpBad::Sources);
    };
    let Some((extension, rest)) = split_extension(flags.extension, rest) else {
        return Err(RtpBad::Extension);
    };
    let Some(payload) = without_padding(flags.padding, rest) else {
        return Err(RtpBad::Padding);
    };
    if payload.len() > MAX_PAYLOAD {
        return Err(RtpBad::Long);
    }
    Ok(Rtp {
        number: u16_at(octets, 2),
        stamp: u32_at(octets, 4),
        ssrc: u32_at(octets, 8),
        extension,
        payload,
    })
}

impl<'a> Rtp<'a> {
    /// Reads a datagram. Nothing is copied: the extension and the payload are slices of the octets. The
    /// payload type, the marker, the sources and the padding but for its count aren't tested.
    pub fn read(octets: &'a [u8]) -> Result<Rtp<'a>, RtpBad>
        // The value, or the first test that fails.
        ensures value { result ≡ reading_of octets.now }

        // What is read is the value of a packet that the octets spell.
        ensures found { IfOk result (λ rtp.
            (packet : RtpPacket) × Spells packet octets.now × (rtp ≡ value_of packet)) }

        // A packet that is spelled is read, if its payload isn't too long.
        ensures only { (packet : RtpPacket) → Spells packet octets.now → length packet.payload ≤ MAX_PAYLOAD
            → result ≡ Ok (value_of packet) }
    {
        view_of(octets)
    }

    /// The sequence number.
    pub fn number(&self) -> u16
        ensures value { result ≡ self.now.number }
    {
        self.number
    }

    /// The timestamp, in ticks of 1/90,000 s.
    pub fn stamp(&self) -> u32
        ensures value { result ≡ self.now.stamp }
    {
        self.stamp
    }

    /// The source (SSRC).
    pub fn ssrc(&self) -> u32
        ensures value { result ≡ self.now.ssrc }
    {
        self.ssrc
    }

    /// The extension's profile word, and the octets of its words.
    pub fn extension(&self) -> Option<(u16, &'a [u8])>
        ensures value { extension_shown result ≡ self.now.extension }
    {
        self.extension
    }

    /// The payload without padding.
    pub fn payload(&self) -> &'a [u8]
        ensures value { result.now ≡ self.now.payload }
        ensures within { length result.now ≤ MAX_PAYLOAD }
    {
        self.payload
    }
}
