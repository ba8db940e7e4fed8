//! The first line of a source, and the passphrase in it.
ghost use Rattle.std.specs.Prelude.{◌≡◌, ◌≢◌, ◌<◌, ◌≤◌, ◌∷◌, ◌⊎◌, [], ℕ, List, Ok, Err, Some, None, IfErr, IfOk, IfSome, length, take};
ghost use Rattle.std.specs.Option.{option_map};
ghost use Rattle.std.specs.Str.{IsUtf8};
ghost use Rattle.outside_io.specs.Told.{Takes, IsEmpty};
ghost use Rattle.outside_io.specs.Causes.{HasCause, Rose};
ghost use Rattle.pass_words.specs.Line.{behind_line, line_of, without_return};

use outside_io::{Failed, Source};
use std::fmt::{self, Display, Formatter, Write};

/// The octets of a passphrase at most.
pub const MAX_PASS_LEN: usize = 128;

/// Those of its line at most, with a carriage return behind it.
const MAX_LINE_LEN: usize = MAX_PASS_LEN + 1;

/// Why a first line has no passphrase.
#[derive(Clone, Copy, Debug, PartialEq, Eq)]
pub enum LineFault {
    /// A read failed.
    ReadFault,
    /// The line is empty.
    Empty,
    /// The line has more than 128 octets.
    TooLong,
    /// The line isn't UTF-8.
    NotText,
}

impl Display for LineFault {
    ghost use Rattle.std.specs.Prelude.{Some};
    ghost use Rattle.pass_words.specs.Text.{line_fault_text};

    ghost output = { λ fault. Some (line_fault_text fault) };

    fn fmt<W: Write>(&self, f: &mut Formatter<W>) -> fmt::Result {
        f.write_str(match self {
            LineFault::ReadFault => "a read failed",
            LineFault::Empty => "its first line has no passphrase",
            LineFault::TooLong => "its first line is above 128 octets",
            LineFault::NotText => "its first line isn't UTF-8",
        })
    }
}

/// The passphrase in the first line of a source, which is read into the block. Nothing behind the line is taken from the
/// source.
#[tactic(auto, using(crate::proofs::LineLemmas::return_long))]
pub fn read_phrase<'a, S: Source>(
    source: &mut S,
    block: &'a mut [u8; 129],
) -> Result<&'a str, LineFault>
    ensures ok { IfOk result (λ phrase. (text : List ℕ) → S.remaining source.old ≡ Some text
        → (phrase.now ≡ without_return (line_of text)) × (S.remaining source.new ≡ Some (behind_line text))) }
    ensures within { IfOk result (λ phrase. (1 ≤ length phrase.now) × (length phrase.now ≤ 128)) }
    // The other faults are told only where the line has them.
    ensures empty { result ≡ Err LineFault.Empty → (text : List ℕ) → S.remaining source.old ≡ Some text
        → without_return (line_of text) ≡ [] }
    ensures long { result ≡ Err LineFault.TooLong → (text : List ℕ) → S.remaining source.old ≡ Some text
        → 128 < length (without_return (line_of text)) }
    ensures text { result ≡ Err LineFault.NotText → (text : List ℕ) → S.remaining source.old ≡ Some text
        → ¬ (IsUtf8 (without_return (line_of text))) }
    ensures failed { result ≡ Err LineFault.ReadFault → Rose (S.faults source.old) (S.faults source.new) }
    ensures unfailed { (result ≡ Err LineFault.ReadFault → ⊥) → S.faults source.new ≡ S.faults source.old }
{
    let count = first_line(source, block)?;
    phrase_in(&block[..count])
}

/// Reads the first line of a source, up to its line feed or the source's end, and says how many octets come before that.
/// Nothing behind the line is taken from the source.
pub fn first_line<S: Source>(source: &mut S, line: &mut [u8; 129]) -> Result<usize, LineFault>
    ensures within { IfOk result (λ count. count ≤ 129) }
    ensures ok { IfOk result (λ count. (text : List ℕ) → S.remaining source.old ≡ Some text
        → (take count line.new ≡ line_of text) × (S.remaining source.new ≡ Some (behind_line text))) }
    ensures long { result ≡ Err LineFault.TooLong → (text : List ℕ) → S.remaining source.old ≡ Some text
        → 129 < length (line_of text) }
    ensures only { IfErr result (λ fault. (fault ≡ LineFault.ReadFault) ⊎ (fault ≡ LineFault.TooLong)) }
    ensures failed { result ≡ Err LineFault.ReadFault → Rose (S.faults source.old) (S.faults source.new) }
    ensures unfailed { (result ≡ Err LineFault.ReadFault → ⊥) → S.faults source.new ≡ S.faults source.old }
{
    let mut count = 0;
    loop {
        let octet = match next(source) {
            Ok(Some(octet)) => octet,
            Ok(None) => return Ok(count),
            Err(_) => return Err(LineFault::ReadFault),
        };
        if octet == b'\n' {
            return Ok(count);
        }
        if count == line.len() {
            return Err(LineFault::TooLong);
        }
        line[count] = octet;
        count += 1;
    }
}

/// The next octet of a source, or none at its end.
fn next<S: Source>(source: &mut S) -> Result<Option<u8>, Failed>
    ensures some { IfOk result (λ found. IfSome found (λ octet.
        Takes (S.remaining source.old) (S.remaining source.new) (octet ∷ []))) }
    ensures none { result ≡ Ok None → S.remaining source.new ≡ S.remaining source.old }
    ensures end { result ≡ Ok None → IsEmpty (S.remaining source.new) }
    ensures cause { HasCause (S.faults source.old) (S.faults source.new) result }
{
    let mut block = [0; 1];
    match source.read(&mut block) {
        Ok(0) => Ok(None),
        Ok(_) => Ok(Some(block[0])),
        Err(bad) => Err(bad),
    }
}

/// The passphrase in a line: all of it but the carriage return that ends it, if one does.
pub fn phrase_in(line: &[u8]) -> Result<&str, LineFault>
    ensures ok { IfOk result (λ phrase. phrase.now ≡ without_return line.now) }
    ensures within { IfOk result (λ phrase. (1 ≤ length phrase.now) × (length phrase.now ≤ 128)) }
    ensures empty { result ≡ Err LineFault.Empty → without_return line.now ≡ [] }
    ensures long { result ≡ Err LineFault.TooLong → 128 < length (without_return line.now) }
    ensures only { result ≢ Err LineFault.ReadFault }
    ensures text { result ≡ Err LineFault.NotText → ¬ (IsUtf8 (without_return line.now)) }
{
    let phrase = without_return(line);
    if phrase.is_empty() {
        return Err(LineFault::Empty);
    }
    if phrase.len() > MAX_PASS_LEN {
        return Err(LineFault::TooLong);
    }
    str::from_utf8(phrase).map_err(|_| LineFault::NotText)
}

/// A line without the carriage return that ends it, if one does.
fn without_return<'a>(line: &'a [u8]) -> &'a [u8]
    ensures { result.now ≡ without_return line.entry.now }
{
    match line {
        [front @ .., b'\r'] => front,
        _ => line,
    }
}
