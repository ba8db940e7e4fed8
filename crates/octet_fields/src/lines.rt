//! One count as a line of text.
ghost use Rattle.std.specs.Prelude.{◌≡◌, ◌≤◌, ◌+◌, ◌++◌, length, take};
ghost use Rattle.octet_fields.specs.Writing.{KeepsFrom};
ghost use Rattle.octet_fields.specs.Lines.{line};

use crate::put_at;
use itoa::Buffer;

/// The most octets behind a name: a blank, twenty digits and a line feed.
pub const MAX_COUNT_LEN: usize = 22;

/// Puts a line to its place: a name, a blank, a count in decimal digits and a line feed. It says where the line ends.
#[tactic(auto, using(crate::proofs::LineLemmas::put_in_turn))]
pub fn put_line(out: &mut [u8], at: usize, name: &str, count: u64) -> usize
    requires room { at + length name.now + MAX_COUNT_LEN ≤ length out.old }
    ensures octets { take result out.new ≡ take at out.old ++ line name.now count }
    ensures within { result ≤ at + length name.now + MAX_COUNT_LEN }
    ensures rest { KeepsFrom result out.old out.new }
{
    let mut digits = Buffer::new();
    let at = put_at(out, at, name.as_bytes());
    let at = put_at(out, at, b" ");
    let at = put_at(out, at, digits.format(count).as_bytes());
    put_at(out, at, b"\n")
}
