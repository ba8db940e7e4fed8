//! Counts as text.
ghost use Rattle.std.specs.Prelude.{◌≡◌, ◌≤◌, take};
ghost use Rattle.rist_replay.specs.Counted.{text_of};

use octet_fields::{MAX_COUNT_LEN, put_line};
use rist_ends::Counts;

/// The octets of the longest text: nine names of 52 letters in all, each with its count.
pub const TEXT_LEN: usize = 52 + 9 * MAX_COUNT_LEN;

/// Puts a line for each verdict and one for what was refused into the front of the block, and says how long they are.
pub fn put_text(counts: &Counts, out: &mut [u8; TEXT_LEN]) -> usize
    ensures octets { take result out.new ≡ text_of counts.now }
    ensures within { result ≤ TEXT_LEN }
{
    let at = put_line(out, 0, "kept", counts.kept);
    let at = put_line(out, at, "stranger", counts.stranger);
    let at = put_line(out, at, "exhausted", counts.exhausted);
    let at = put_line(out, at, "late", counts.late);
    let at = put_line(out, at, "behind", counts.behind);
    let at = put_line(out, at, "early", counts.early);
    let at = put_line(out, at, "twice", counts.twice);
    let at = put_line(out, at, "span", counts.span);
    put_line(out, at, "refused", counts.refused)
}
