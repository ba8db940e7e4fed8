//! The answer to a compound's first RTT request.
ghost use Rattle.std.specs.Prelude.{◌≡◌, ◌≤◌, ◌<◌, length};
ghost use Rattle.rist_rtt.specs.Echo.{echo_seen};
ghost use Rattle.rist_reporter.specs.Control.{answer_packets};

use crate::opening::opened;
use rist_rtt::{Echo, put_answer};
use rtcp_compound::CompoundOut;

/// The most octets of an answer: 24 of the opening, 24 of the echo, and 64 further words.
pub const ANSWER_LEN: usize = 304;

/// The compound that answers an RTT request at once, whatever SSRC it names: its SSRC, its stamp and its further words
/// are copied, and its delay isn't read.
pub fn answer_compound(own: u32, echo: &Echo<'_>) -> CompoundOut
    ensures packets { result.packets ≡ answer_packets own (echo_seen echo.now) }
    ensures begun { 0 < length result.octets }
    ensures within { length result.octets ≤ ANSWER_LEN }
{
    let mut out = opened(own);
    let Ok(()) = put_answer(&mut out, echo, 0) else {
        unreachable!()
    };
    out
}
