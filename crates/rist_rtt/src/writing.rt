//! Echoes as they are written (this profile).
ghost use Rattle.std.specs.Prelude.{◌≡◌, ◌<◌, ◌≤◌, ◌+◌, ◌↔◌, length, take, OnOk, OnErr, IsErr};
ghost use Rattle.rtcp_compound.specs.Writing.{Gains};
ghost use Rattle.rist_rtt.specs.Echo.{echo_seen, echo_words, copied, request, response, request_octets, response_octets};

use crate::echo::Echo;
use octet_fields::put_at;
use rtcp_compound::{CompoundOut, Full, OUT_LEN, RIST_NAME};

// An answer copies at most so many octets of further words.
const COPIED_LEN: usize = 256;

// Writes the body of an echo: stamp, delay and further words.
fn put_body(words: &mut [u8; 268], stamp: u64, delay: u32, more: &[u8]) -> usize
    requires { length more.now ≤ COPIED_LEN }
    ensures end { result ≡ 12 + length more.now }
    ensures octets { take result words.new ≡ echo_words stamp delay more.now }
{
    let at = put_at(words, 0, &stamp.to_be_bytes());
    let at = put_at(words, at, &delay.to_be_bytes());
    put_at(words, at, more)
}

/// Puts a request for the round-trip time: the SSRC of the media, and the requester's clock in
/// microseconds. `Full` where it doesn't fit.
pub fn put_request(out: &mut CompoundOut, media: u32, stamp: u64) -> Result<(), Full>
    requires { 0 < length out.old.octets }
    ensures ok { OnOk result (Gains out.old out.new (request media stamp) (request_octets media stamp)) }
    ensures full { IsErr result ↔ (OUT_LEN < length out.old.octets + 24) }
    ensures same { OnErr result (out.new ≡ out.old) }
{
    let mut words = [0; 268];
    let end = put_body(&mut words, stamp, 0, &[]);
    out.put_app(2, media, RIST_NAME, &words[..end])
}

/// Puts the answer to a request: its SSRC, its stamp and the first 64 of its further words, and how
/// long it took to answer in microseconds. `Full` where it doesn't fit.
pub fn put_answer(out: &mut CompoundOut, echo: &Echo<'_>, delay: u32) -> Result<(), Full>
    requires { 0 < length out.old.octets }
    ensures ok { OnOk result (Gains out.old out.new
        (response (echo_seen echo.now) delay)
        (response_octets (echo_seen echo.now) delay)) }
    ensures full { IsErr result ↔ (OUT_LEN < length out.old.octets + 24 + length (copied echo.now.more.now)) }
    ensures same { OnErr result (out.new ≡ out.old) }
{
    let mut words = [0; 268];
    let count = 4 * (echo.more.len() / 4).min(64);
    let end = put_body(&mut words, echo.stamp, delay, &echo.more[..count]);
    out.put_app(3, echo.flow, RIST_NAME, &words[..end])
}
