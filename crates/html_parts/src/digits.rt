//! Numbers in decimal digits.
ghost use Rattle.std.specs.Prelude.{◌≡◌, ◌≤◌, ◌+◌, ◌*◌, ◌++◌, ◌∷◌, [], length, take};
ghost use Rattle.html_parts.specs.Numbers.{comma_before, with_digits, with_grouped, with_number, with_tenths};

use itoa::Buffer;
use octet_fields::put_at;

/// Puts a number to its place, and says where it ends.
pub fn put_number(out: &mut [u8], at: usize, number: u64) -> usize
    requires room { at + 20 ≤ length out.old }
    ensures octets { take result out.new ≡ with_number (take at out.old) number }
    ensures within { result ≤ at + 20 }
{
    let mut digits = Buffer::new();
    put_at(out, at, digits.format(number).as_bytes())
}

/// How many octets a number has at most whose digits stand in groups of three.
pub const GROUPED_LEN: usize = 40;

/// Puts a number whose digits stand in groups of three.
#[tactic(auto, unfolding(crate::specs::Numbers::with_grouped))]
pub fn put_grouped(out: &mut [u8], at: usize, number: u64) -> usize
    requires room { at + GROUPED_LEN ≤ length out.old }
    ensures octets { take result out.new ≡ with_grouped (take at out.old) number }
    ensures within { result ≤ at + GROUPED_LEN }
{
    let mut digits = Buffer::new();
    put_digits(out, at, digits.format(number).as_bytes())
}

// Puts digits, with a comma between groups of three.
fn put_digits(out: &mut [u8], at: usize, digits: &[u8]) -> usize
    requires room { at + 2 * length digits.now ≤ length out.old }
    ensures octets { take result out.new ≡ with_digits (take at out.old) digits.now }
    ensures within { result ≤ at + 2 * length digits.now }
{
    let mut end = at;
    for (place, digit) in digits.iter().enumerate() {
        end = put_digit(out, end, *digit, digits.len() - place - 1);
    }
    end
}

// Puts a digit, and a comma behind it where whole groups of three follow.
fn put_digit(out: &mut [u8], at: usize, digit: u8, following: usize) -> usize
    requires room { at + 2 ≤ length out.old }
    ensures octets { take result out.new
        ≡ (take at out.old ++ digit ∷ []) ++ comma_before following }
    ensures within { result ≤ at + 2 }
{
    let at = put_at(out, at, &[digit]);
    if following != 0 && following % 3 == 0 {
        return put_at(out, at, b",");
    }
    at
}

/// Puts a number of tenths: whole ones, and one digit behind the point.
pub fn put_tenths(out: &mut [u8], at: usize, tenths: u64) -> usize
    requires room { at + 41 ≤ length out.old }
    ensures octets { take result out.new ≡ with_tenths (take at out.old) tenths }
    ensures within { result ≤ at + 41 }
{
    let at = put_number(out, at, tenths / 10);
    let at = put_at(out, at, b".");
    put_number(out, at, tenths % 10)
}
