//! How a link is written: by an address, by a host's name, or by a URL (RFC 3986).
ghost use Rattle.std.specs.Prelude.{◌≡◌, None, option_map};
ghost use Rattle.link_words.specs.Urls.{behind_scheme, form_by, form_of, form_of_url, is_written, listening, shown_form, with_endpoint};

use crate::hosts::{endpoint_of, is_name};
use crate::texts::{first_part, split_at};

/// The scheme of a link's URL.
const SCHEME: &str = "rist";

/// A link with a name or a URL.
#[derive(Clone, Copy, Debug, PartialEq, Eq)]
pub struct Written<'a> {
    /// A name, numbers with dots between them, or an address of IPv6 without its brackets.
    pub host: &'a str,
    /// Decimal digits.
    pub port: &'a str,
    /// Whether an `@` stands before them.
    pub listens: bool,
    /// What stands behind the first `?`.
    pub parameters: Option<&'a str>,
}

/// A word in the place of a link.
#[derive(Clone, Copy, Debug, PartialEq, Eq)]
pub enum LinkWord<'a> {
    /// With neither a name nor a URL.
    Plain,
    /// A URL without a host and a port.
    Faulty,
    /// With a name or a URL.
    Written(Written<'a>),
}

/// How a word in the place of a link is written.
pub fn read_link<'a>(word: &'a str) -> LinkWord<'a>
    ensures { shown_form result ≡ form_of word.entry.now }
{
    match behind_scheme(word) {
        Some(text) => in_url(text),
        None => named(word),
    }
}

/// Whether it has a name or a URL.
pub(crate) fn is_written(word: &str) -> bool
    ensures { result ≡ is_written word.now }
{
    match read_link(word) {
        LinkWord::Plain => false,
        LinkWord::Faulty => true,
        LinkWord::Written(_) => true,
    }
}

/// What stands behind `rist://`.
fn behind_scheme<'a>(word: &'a str) -> Option<&'a str>
    ensures { option_map (λ t. t.now) result ≡ behind_scheme word.entry.now }
{
    let (scheme, rest) = split_at(word, ':')?;
    let (first, rest) = split_at(rest, '/')?;
    let (second, text) = split_at(rest, '/')?;
    if scheme == SCHEME && first.is_empty() && second.is_empty() {
        return Some(text);
    }
    None
}

/// The form of a URL, of what stands behind `rist://`.
fn in_url<'a>(text: &'a str) -> LinkWord<'a>
    ensures { shown_form result ≡ form_of_url text.entry.now }
{
    let (authority, parameters) = first_part(text, '?');
    let (listens, endpoint) = listening(authority);
    with_endpoint(listens, parameters, endpoint_of(endpoint))
}

/// The form of a URL with this host and port.
fn with_endpoint<'a>(
    listens: bool,
    parameters: Option<&'a str>,
    endpoint: Option<(&'a str, &'a str)>,
) -> LinkWord<'a>
    ensures { shown_form result ≡ with_endpoint listens (option_map (λ p. p.now) parameters.entry)
        (option_map (λ s. (s.0.now, s.1.now)) endpoint.entry) }
{
    match endpoint {
        Some((host, port)) => LinkWord::Written(Written {
            host,
            port,
            listens,
            parameters,
        }),
        None => LinkWord::Faulty,
    }
}

/// Whether a text begins with `@`, and the text without it.
fn listening<'a>(text: &'a str) -> (bool, &'a str)
    ensures { (result.0, result.1.now) ≡ listening text.entry.now }
{
    match split_at(text, '@') {
        Some((front, rest)) if front.is_empty() => (true, rest),
        _ => (false, text),
    }
}

/// The form of a word that is no URL. Behind a name may stand parameters, as in one.
fn named<'a>(word: &'a str) -> LinkWord<'a>
    ensures { shown_form result ≡ form_by word.entry.now None }
{
    let (endpoint, parameters) = first_part(word, '?');
    match endpoint_of(endpoint) {
        Some((host, port)) if is_name(host) => LinkWord::Written(Written {
            host,
            port,
            listens: false,
            parameters,
        }),
        _ => LinkWord::Plain,
    }
}
