//! The words of a command line with the passphrases that files and the variable stand for.
ghost use Rattle.std.specs.Prelude.{◌≡◌, ◌≤◌, ◌⊎◌, false, ℕ, List, Ok, Err, Some, None, IfErr, IfOk, length, map, string_bytes};
ghost use Rattle.pass_words.specs.Line.{line_of, without_return};
ghost use Rattle.pass_words.specs.Options.{pass_file_of, takes_variable};
ghost use Rattle.pass_words.specs.Placing.{IsByVariable, IsPlaced, IsPlacedInTurn, IsWithPhrase, phrase_word_of};

use crate::line::{LineFault, read_phrase};
use crate::options::{PassFault, PassOption, pass_file, takes_variable};
use crate::placing::{phrase_word, with_variable, with_word};
use outside_io::{NoMemory, Source, open_source};
use std::alloc::{Alloc, AllocError, Global};
use std::env::{self, Env, VarError};
use std::fmt::{self, Display, Formatter, Write};
use std::fs::Files;
use std::io::{self, Input};

/// The variable that stands for a passphrase.
const VARIABLE: &str = "RIST_PASS";

/// Why there is no passphrase.
#[derive(Drop)]
pub enum NoPass {
    /// Memory was refused.
    Memory,
    /// The words name no file.
    Words(PassFault),
    /// The file of this name can't be opened.
    Closed(String, io::Error),
    /// The first line of the file of this name has no passphrase.
    Line(String, LineFault),
    /// The variable isn't UTF-8.
    Variable,
}

impl From<AllocError> for NoPass {
    ghost use Rattle.std.specs.Prelude.{◌≡◌};
    ghost use Rattle.pass_words.specs.declared.resolving.NoPass.TheVariants.{Memory};

    ghost from_gives = { λ _ refused. refused ≡ Memory };

    fn from(_: AllocError) -> Self {
        NoPass::Memory
    }
}

impl From<NoMemory> for NoPass {
    ghost use Rattle.std.specs.Prelude.{◌≡◌};
    ghost use Rattle.pass_words.specs.declared.resolving.NoPass.TheVariants.{Memory};

    ghost from_gives = { λ _ refused. refused ≡ Memory };

    fn from(_: NoMemory) -> Self {
        NoPass::Memory
    }
}

impl Display for NoPass {
    fn fmt<W: Write>(&self, f: &mut Formatter<W>) -> fmt::Result {
        match self {
            NoPass::Memory => f.write_str("out of memory"),
            NoPass::Words(fault) => write!(f, "{fault}"),
            NoPass::Closed(name, error) => write!(f, "{name}: {error}"),
            NoPass::Line(name, fault) => write!(f, "{name}: {fault}"),
            NoPass::Variable => write!(f, "{VARIABLE} isn't UTF-8"),
        }
    }
}

/// The words, the program's name first, each passphrase of a file in place of what names this, and that of the variable where
/// it stands for one.
pub fn with_passphrases<R: Files + Input + Env + Alloc>(
    rt: &R,
    alloc: Global,
    words: Vec<String>,
) -> Result<Vec<String>, NoPass>
    // Words that name no file and for which no variable stands are as they are given.
    ensures same { IfOk result (λ r. pass_file_of PassOption.Own (map string_bytes words.items) ≡ Ok None
        → pass_file_of PassOption.Incoming (map string_bytes words.items) ≡ Ok None
        → takes_variable (map string_bytes words.items) ≡ false → r.items ≡ words.items) }
    // Else each passphrase stands in place of what names its file, and that of the variable behind the command.
    ensures placed { IfOk result (λ r. IsPlacedInTurn words.items r.items) }
    // Where a passphrase is given twice, or a file's name is missing, there are none.
    ensures refused { (fault : _) → pass_file_of PassOption.Own (map string_bytes words.items) ≡ Err fault
        → result ≡ Err (NoPass.Words fault) }
    ensures refused_incoming { (fault : _) → pass_file_of PassOption.Own (map string_bytes words.items) ≡ Ok None
        → pass_file_of PassOption.Incoming (map string_bytes words.items) ≡ Err fault
        → result ≡ Err (NoPass.Words fault) }
{
    let own = with_file(rt, alloc, PassOption::Own, words)?;
    let both = with_file(rt, alloc, PassOption::Incoming, own)?;
    Ok(by_variable(rt, alloc, both)?)
}

/// The words with the passphrase of a file in place of what names it, where they name one.
fn with_file<R: Files + Input>(
    rt: &R,
    alloc: Global,
    option: PassOption,
    words: Vec<String>,
) -> Result<Vec<String>, NoPass>
    ensures same { IfOk result (λ r. pass_file_of option (map string_bytes words.items) ≡ Ok None
        → r.items ≡ words.items) }
    ensures none { pass_file_of option (map string_bytes words.items) ≡ Ok None → result ≡ Ok words }
    ensures placed { IfOk result (λ r. IsPlaced option (pass_file_of option (map string_bytes words.items))
        words.items r.items) }
    ensures refused { (fault : _) → pass_file_of option (map string_bytes words.items) ≡ Err fault
        → result ≡ Err (NoPass.Words fault) }
{
    match pass_file(option, words.as_slice()) {
        Ok(Some(file)) => {
            let name = String::from_str(alloc, file.name)?;
            let at = file.at;
            let is_apart = file.is_apart;
            let word = word_of_file(rt, alloc, option, name)?;
            Ok(with_word(words, at, is_apart, word)?)
        }
        Ok(None) => Ok(words),
        Err(fault) => Err(NoPass::Words(fault)),
    }
}

/// The option of a passphrase and the passphrase that a file's first line is, as one word.
fn word_of_file<R: Files + Input>(
    rt: &R,
    alloc: Global,
    option: PassOption,
    name: String,
) -> Result<String, NoPass>
    ensures some { IfOk result (IsWithPhrase option) }
{
    match open_source(rt, name.as_str()) {
        Ok(mut source) => word_of_source(alloc, option, name, &mut source),
        Err(error) => Err(NoPass::Closed(name, error)),
    }
}

/// The option of a passphrase and the passphrase that a source's first line is, as one word. A fault of the line names the
/// source.
fn word_of_source<S: Source>(
    alloc: Global,
    option: PassOption,
    name: String,
    source: &mut S,
) -> Result<String, NoPass>
    ensures ok { IfOk result (λ word. (text : List ℕ) → S.remaining source.old ≡ Some text
        → string_bytes word ≡ phrase_word_of option (without_return (line_of text))) }
    ensures some { IfOk result (IsWithPhrase option) }
    // Memory is the answer only where the line has a passphrase.
    ensures memory { result ≡ Err NoPass.Memory → (text : List ℕ) → S.remaining source.old ≡ Some text
        → (1 ≤ length (without_return (line_of text))) × (length (without_return (line_of text)) ≤ 128) }
    ensures refused { IfErr result (λ e. (e ≡ NoPass.Memory)
        ⊎ ((fault : LineFault) × (e ≡ NoPass.Line name fault))) }
{
    let mut block = [0; 129];
    match read_phrase(source, &mut block) {
        Ok(phrase) => Ok(phrase_word(alloc, option, phrase)?),
        Err(fault) => Err(NoPass::Line(name, fault)),
    }
}

/// The words with the passphrase of the variable, where it is there and stands for one.
pub(crate) fn by_variable<R: Env + Alloc>(
    rt: &R,
    alloc: Global,
    words: Vec<String>,
) -> Result<Vec<String>, NoPass>
    ensures same { IfOk result (λ r. takes_variable (map string_bytes words.items) ≡ false
        → r.items ≡ words.items) }
    ensures placed { IfOk result (λ r. IsByVariable words.items r.items) }
{
    if !takes_variable(words.as_slice()) {
        return Ok(words);
    }
    match env::var(rt, VARIABLE) {
        Ok(phrase) => {
            let word = phrase_word(alloc, PassOption::Own, phrase.as_str())?;
            Ok(with_variable(words, word)?)
        }
        Err(VarError::NotPresent) => Ok(words),
        Err(VarError::NotUnicode) => Err(NoPass::Variable),
        Err(VarError::OutOfMemory) => Err(NoPass::Memory),
    }
}
