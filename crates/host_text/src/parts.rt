//! Parts of a text, and the numbers in them.
ghost use Rattle.std.specs.Prelude.{◌≡◌, ◌<◌, ◌≤◌, ◌^◌, IfNone, IfSome, option_map, true};
ghost use Rattle.std.specs.Char.{is_ascii_digit};
ghost use Rattle.std.specs.List.{list_all};
ghost use Rattle.std.specs.Str.Parse.{digits_value};
ghost use Rattle.host_text.specs.Parts.{behind, first_part, is_numeral, number_in, split_at};

/// What stands behind this front, where the text begins with it.
pub fn behind<'a>(front: &str, text: &'a str) -> Option<&'a str>
    ensures value { option_map (λ rest. rest.now) result ≡ behind front.now text.now }
{
    text.strip_prefix(front)
}

/// The text before the first of a mark, and the text behind it.
pub fn split_at<'a>(text: &'a str, mark: char) -> Option<(&'a str, &'a str)>
    requires ascii { mark < 128 }
    ensures value { option_map (λ s. (s.0.now, s.1.now)) result ≡ split_at mark text.now }
{
    text.split_once(mark)
}

/// A text before its first mark, and what stands behind that, where it has one.
pub fn first_part(text: &str, mark: char) -> (&str, Option<&str>)
    requires ascii { mark < 128 }
    ensures value { (result.0.now, option_map (λ rest. rest.now) result.1) ≡ first_part mark text.now }
{
    match split_at(text, mark) {
        Some((front, rest)) => (front, Some(rest)),
        None => (text, None),
    }
}

/// The number that a text is, if it lies between these two.
pub fn number_in(text: &str, least: u64, most: u64) -> Option<u64>
    ensures value { result ≡ number_in least most text.now }
    ensures within { IfSome result (λ n. n ≤ most) }
{
    if !is_numeral(text) {
        return None;
    }
    match digits_value(text) {
        Some(n) if least <= n && n <= most => Some(n),
        _ => None,
    }
}

/// The number that digits write, if it fits.
fn digits_value(text: &str) -> Option<u64>
    requires digits { is_numeral text.now ≡ true }
    ensures some { IfSome result (λ n. n ≡ digits_value 10 text.now) }
    ensures none { IfNone result (2 ^ 64 ≤ digits_value 10 text.now) }
{
    text.parse().ok()
}

/// Whether a text is 1 to 20 decimal digits.
fn is_numeral(text: &str) -> bool
    ensures value { result ≡ is_numeral text.now }
{
    !text.is_empty() && text.len() <= 20 && are_digits(text.as_bytes())
}

fn are_digits(octets: &[u8]) -> bool
    ensures value { result ≡ list_all is_ascii_digit octets.now }
{
    octets.iter().all(|c| c.is_ascii_digit())
}
