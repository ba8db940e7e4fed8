//! The twelve octets before a record's own.
ghost use Rattle.std.specs.Prelude.{◌≡◌, ◌≤◌, ◌<◌, ◌+◌, ◌^◌, length, None, Some, IfOk, IfErr, IfSome, IfNone};
ghost use Rattle.link_channels.specs.declared.bounds.TheConstants.{MAX_LINKS};
ghost use Rattle.std.specs.Int.{w16, w64, to_be_bytes, from_be_bytes};
ghost use Rattle.capture_file.specs.Capture.{channel_code};
ghost use Rattle.capture_file.specs.Tests.{fault_of_head, length_said};
ghost use Rattle.capture_file.specs.Heads.{head_octets};

use crate::CapKind;
use link_channels::{Channel, MAX_DATAGRAM};

/// A record but for its octets.
#[derive(Clone, Copy, Debug, PartialEq, Eq)]
pub struct Head {
    /// The network path that the datagram came on, below 16.
    pub link: u8,
    /// What the datagram carries.
    pub channel: Channel,
    /// In octets, at most 2,048.
    pub length: u16,
    /// When it was captured, in microseconds.
    pub us: u64,
}

// A record may end here at last.
const MAX_END: u64 = 1 << 40;

const MAX_LENGTH: u16 = MAX_DATAGRAM as u16;

/// How many octets a head has.
pub(crate) const HEAD_LEN: usize = 12;

fn channel_of(code: u8) -> Option<Channel>
    ensures some { IfSome result (λ channel. channel_code channel ≡ code) }
    ensures none { IfNone result (2 < code) }
{
    match code {
        0 => Some(Channel::Media),
        1 => Some(Channel::Control),
        2 => Some(Channel::Tunnel),
        _ => None,
    }
}

fn number_16(octets: &[u8]) -> u16
    requires { length octets.now ≡ 2 }
    ensures value { result ≡ from_be_bytes w16 octets.now }
    ensures spelled { to_be_bytes w16 result ≡ octets.now }
{
    u16::from_be_bytes([octets[0], octets[1]])
}

fn number_64(octets: &[u8]) -> u64
    requires { length octets.now ≡ 8 }
    ensures value { result ≡ from_be_bytes w64 octets.now }
    ensures spelled { to_be_bytes w64 result ≡ octets.now }
{
    u64::from_be_bytes([
        octets[0], octets[1], octets[2], octets[3], octets[4], octets[5], octets[6], octets[7],
    ])
}

// The head that the octets spell at this offset, or the first test that fails.
pub(crate) fn head_of(octets: &[u8], at: u64) -> Result<Head, CapKind>
    requires { length octets.now ≡ 12 }
    ensures octets { IfOk result (λ head. head_octets head ≡ octets.now) }
    ensures said { IfOk result (λ head. length_said octets.now ≡ head.length) }
    ensures fits { IfOk result (λ head. (head.link < MAX_LINKS) × (head.length ≤ MAX_DATAGRAM)
        × (head.us < 2 ^ 64) × (at + 12 + head.length ≤ 2 ^ 40)) }
    ensures none { IfOk result (λ head. fault_of_head at octets.now ≡ None) }
    ensures fault { IfErr result (λ kind. fault_of_head at octets.now ≡ Some kind) }
{
    let link = octets[0];
    if link > 15 {
        return Err(CapKind::Link);
    }
    let Some(channel) = channel_of(octets[1]) else {
        return Err(CapKind::Channel);
    };
    let length = number_16(&octets[2..4]);
    if length > MAX_LENGTH {
        return Err(CapKind::Long);
    }
    if at.saturating_add(12 + length as u64) > MAX_END {
        return Err(CapKind::TooLong);
    }
    let us = number_64(&octets[4..12]);
    Ok(Head {
        link,
        channel,
        length,
        us,
    })
}
