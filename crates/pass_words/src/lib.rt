//! The passphrase of a command line that gives it by a file or by a variable: where the words name the file, what its first
//! line is, and the words that have the passphrase itself in its place. A contract sees words, lines and what remains of a
//! source, where it tells.
#![tactic(auto)]

mod line;
mod options;
mod placing;
mod resolving;

pub use line::{LineFault, MAX_PASS_LEN, first_line, phrase_in, read_phrase};
pub use options::{PassFault, PassFile, PassOption, pass_file, takes_variable};
pub use placing::{phrase_word, with_variable, with_word};
pub use resolving::{NoPass, with_passphrases};

#[cfg(test)]
mod tests;
