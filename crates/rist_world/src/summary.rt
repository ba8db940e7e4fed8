//! What came of a script, as text.
ghost use Rattle.std.specs.Prelude.{◌≡◌, ◌≤◌, take};
ghost use Rattle.hex.specs.Hex.{encode_lower};
ghost use Rattle.rist_world.specs.Summary.{summary_of};

use crate::running::Report;
use octet_fields::{MAX_COUNT_LEN, put_at, put_line};

/// The octets of a digest in hexadecimal digits.
const DIGEST_LEN: usize = 64;

/// The octets of the longest summary: six names of 34 letters in all, each with its count, and a line with the digest.
pub const SUMMARY_LEN: usize = 34 + 6 * MAX_COUNT_LEN + 8 + DIGEST_LEN;

// A digest in hexadecimal digits.
fn digits_of(digest: &[u8; 32]) -> [u8; DIGEST_LEN]
    ensures value { result ≡ encode_lower digest.now }
{
    let mut digits = [0; DIGEST_LEN];
    if hex::encode_to_slice(digest, &mut digits).is_err() {
        unreachable!();
    }
    digits
}

/// Puts a line for each count and one with the digest into the front of the block, and says how long they are.
pub fn put_summary(report: &Report, out: &mut [u8; SUMMARY_LEN]) -> usize
    ensures octets { take result out.new ≡ summary_of report.now }
    ensures within { result ≤ SUMMARY_LEN }
{
    let at = put_line(out, 0, "sent", report.sent);
    let at = put_line(out, at, "carried", report.carried);
    let at = put_line(out, at, "lost", report.lost);
    let at = put_line(out, at, "asked", report.asked);
    let at = put_line(out, at, "resent", report.resent);
    let at = put_line(out, at, "released", report.released);
    let at = put_at(out, at, b"sha256 ");
    let at = put_at(out, at, &digits_of(&report.digest));
    put_at(out, at, b"\n")
}
