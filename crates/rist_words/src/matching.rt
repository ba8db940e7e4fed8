//! The parse of the words.
ghost use Rattle.std.specs.Prelude.{◌≡◌, [], Err, IfOk, map, string_bytes};
ghost use Rattle.clap.specs.Words.{subcommand_rows_of};
ghost use Rattle.rist_words.specs.Commands.{faults_of, command_in};

use crate::command::program;
use crate::lines::Refused;
use clap::ArgMatches;
use clap::error::ErrorKind;
use std::alloc::Global;

/// What the words are taken for, the program's name first.
pub fn matched<'a>(alloc: Global, words: &'a [String]) -> Result<ArgMatches<'a>, Refused>
    ensures taken { IfOk result (λ m. faults_of (map string_bytes words.entry.now) ≡ []) }
    ensures rows { IfOk result (λ m. subcommand_rows_of m ≡ command_in (map string_bytes words.entry.now)) }
    ensures usage { result ≡ Err Refused.Usage → faults_of (map string_bytes words.entry.now) ≡ [] → ⊥ }
{
    let program = match program(alloc) {
        Ok(program) => program,
        Err(_) => return Err(Refused::Memory),
    };
    match program.try_get_matches_from(words) {
        Ok(matches) => Ok(matches),
        Err(error) => match error.kind() {
            ErrorKind::OutOfMemory => Err(Refused::Memory),
            _ => Err(Refused::Usage),
        },
    }
}
