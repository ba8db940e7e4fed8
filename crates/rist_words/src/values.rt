//! The values of options and positions.
ghost use Rattle.std.specs.Prelude.{◌≡◌, ◌<◌, ◌≤◌, ◌^◌, IfNone, IfSome, option_map, true};
ghost use Rattle.std.specs.Char.{is_ascii_digit};
ghost use Rattle.std.specs.List.{list_all};
ghost use Rattle.std.specs.Str.Parse.{digits_value};
ghost use Rattle.clap.specs.Words.{first_of, found_of, rows_of};
ghost use Rattle.rist_words.specs.Values.{flag_of, is_among, is_numeral, is_set, nack_of, number_at, number_in, number_of, name_of, phrase_of, profile_of, tunnel_of};

use clap::ArgMatches;
use gre_tunnel::Tunnel;
use link_channels::Profile;
use request_rules::NackKind;

/// The numbers that an option takes.
#[derive(Clone, Copy)]
pub struct Numbers {
    /// The number where the option isn't given.
    pub default: u64,
    /// The least number.
    pub least: u64,
    /// The greatest number.
    pub most: u64,
    /// Each number is a multiple of this.
    pub multiple_of: u64,
}

/// The text that is given to an option or at a position.
pub fn given<'a>(matches: &ArgMatches<'a>, id: &str) -> Option<&'a str>
    ensures { option_map (λ s. s.now) result ≡ first_of id.now (rows_of (found_of matches.now)) }
{
    matches.get_str(id)
}

/// The number of an option, or its default.
pub fn number(matches: &ArgMatches<'_>, option: &str, numbers: Numbers) -> Option<u64>
    requires step { 0 < numbers.multiple_of }
    requires default { numbers.default ≤ numbers.most }
    ensures value { result ≡ number_of numbers (first_of option.now (rows_of (found_of matches.now))) }
    ensures within { IfSome result (λ n. n ≤ numbers.most) }
{
    match given(matches, option) {
        Some(text) => number_in(text, numbers),
        None => Some(numbers.default),
    }
}

/// The number at a position, which has to be given.
pub fn number_at(matches: &ArgMatches<'_>, position: &str, numbers: Numbers) -> Option<u64>
    requires step { 0 < numbers.multiple_of }
    ensures value { result ≡ number_at numbers (first_of position.now (rows_of (found_of matches.now))) }
    ensures within { IfSome result (λ n. n ≤ numbers.most) }
{
    number_in(given(matches, position)?, numbers)
}

/// The number that a text is, if it is one that the option takes.
pub fn number_in(text: &str, numbers: Numbers) -> Option<u64>
    requires step { 0 < numbers.multiple_of }
    ensures value { result ≡ number_in numbers text.now }
    ensures within { IfSome result (λ n. n ≤ numbers.most) }
{
    if !is_numeral(text) {
        return None;
    }
    match digits_value(text) {
        Some(n) if is_among(numbers, n) => Some(n),
        _ => None,
    }
}

/// Whether the option takes a number.
fn is_among(numbers: Numbers, n: u64) -> bool
    requires step { 0 < numbers.multiple_of }
    ensures { result ≡ is_among numbers n }
{
    numbers.least <= n && n <= numbers.most && n % numbers.multiple_of == 0
}

/// The number that digits write, if it fits.
fn digits_value(text: &str) -> Option<u64>
    requires digits { is_numeral text.now ≡ true }
    ensures some { IfSome result (λ n. n ≡ digits_value 10 text.now) }
    ensures none { IfNone result (2 ^ 64 ≤ digits_value 10 text.now) }
{
    text.parse().ok()
}

/// Whether a text is 1 to 20 decimal digits.
fn is_numeral(text: &str) -> bool
    ensures { result ≡ is_numeral text.now }
{
    !text.is_empty() && text.len() <= 20 && are_digits(text.as_bytes())
}

fn are_digits(octets: &[u8]) -> bool
    ensures { result ≡ list_all is_ascii_digit octets.now }
{
    octets.iter().all(|c| c.is_ascii_digit())
}

/// The name at a position, if it isn't empty.
pub fn name<'a>(matches: &ArgMatches<'a>, position: &str) -> Option<&'a str>
    ensures { option_map (λ s. s.now) result ≡ name_of (first_of position.now (rows_of (found_of matches.now))) }
{
    match given(matches, position) {
        Some(text) if !text.is_empty() => Some(text),
        _ => None,
    }
}

/// The profile, simple where it isn't given.
pub fn profile(matches: &ArgMatches<'_>, option: &str) -> Option<Profile>
    ensures { result ≡ profile_of (first_of option.now (rows_of (found_of matches.now))) }
{
    match given(matches, option) {
        None => Some(Profile::Simple),
        Some(text) if text == "simple" => Some(Profile::Simple),
        Some(text) if text == "main" => Some(Profile::Main),
        Some(_) => None,
    }
}

/// How requests are written, by ranges where it isn't given.
pub fn nack(matches: &ArgMatches<'_>, option: &str) -> Option<NackKind>
    ensures { result ≡ nack_of (first_of option.now (rows_of (found_of matches.now))) }
{
    match given(matches, option) {
        None => Some(NackKind::Range),
        Some(text) if text == "range" => Some(NackKind::Range),
        Some(text) if text == "mask" => Some(NackKind::Mask),
        Some(_) => None,
    }
}

/// Whose form the tunnel's datagrams have, this profile's own where it isn't given. Only the Main Profile takes one.
pub fn tunnel(matches: &ArgMatches<'_>, option: &str, profile: Profile) -> Option<Tunnel>
    ensures { result ≡ tunnel_of profile (first_of option.now (rows_of (found_of matches.now))) }
{
    let Some(text) = given(matches, option) else {
        return Some(Tunnel::Own);
    };
    match profile {
        Profile::Simple => None,
        Profile::Main if text == "own" => Some(Tunnel::Own),
        Profile::Main if text == "librist" => Some(Tunnel::Librist),
        Profile::Main => None,
    }
}

/// The passphrase, if one is given. Only the Main Profile takes one.
pub fn phrase<'a>(
    matches: &ArgMatches<'a>,
    option: &str,
    profile: Profile,
) -> Option<Option<&'a str>>
    ensures { option_map (option_map (λ s. s.now)) result
        ≡ phrase_of profile (first_of option.now (rows_of (found_of matches.now))) }
{
    match (given(matches, option), profile) {
        (None, _) => Some(None),
        (Some(text), Profile::Main) if !text.is_empty() && text.len() <= 128 => Some(Some(text)),
        _ => None,
    }
}

/// Whether a flag is given. Only the Main Profile takes it.
pub fn flag(matches: &ArgMatches<'_>, name: &str, profile: Profile) -> Option<bool>
    ensures { result ≡ flag_of profile (first_of name.now (rows_of (found_of matches.now))) }
{
    let set = is_set(matches, name);
    match profile {
        Profile::Main => Some(set),
        Profile::Simple if set => None,
        Profile::Simple => Some(false),
    }
}

/// Whether a flag is given.
pub fn is_set(matches: &ArgMatches<'_>, flag: &str) -> bool
    ensures { result ≡ is_set (first_of flag.now (rows_of (found_of matches.now))) }
{
    match given(matches, flag) {
        Some(text) => text == "true",
        None => false,
    }
}
