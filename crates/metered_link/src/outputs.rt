//! What lines are put to. What it takes is not told: the trusted edge of the system.
ghost use Rattle.std.specs.Prelude.{◌≡◌};

use libc::net::{POLLOUT, poll};
use libc::types::pollfd;
use libc::{STDERR_FILENO, write};
use outside_io::{Failed, Sink};
use std::io::Write;

/// The error output, or a file. A line is one call of the system, so lines of several links don't mix. Where the error output
/// takes nothing now, since who reads it is slow, the line fails at once: nothing waits for a reader.
#[derive(Drop)]
pub struct LineOutput<F> {
    file: Option<F>,
    faults: u64,
}

impl<F> LineOutput<F> {
    /// The error output.
    pub fn error() -> LineOutput<F> {
        LineOutput {
            file: None,
            faults: 0,
        }
    }

    /// A file that was opened for this.
    pub fn file(file: F) -> LineOutput<F> {
        LineOutput {
            file: Some(file),
            faults: 0,
        }
    }
}

/// Whether the error output takes something now.
fn is_ready() -> bool {
    let mut output = [pollfd {
        fd: STDERR_FILENO,
        events: POLLOUT,
        revents: 0,
    }];
    poll(&mut output, 0) == 1 && output[0].revents & POLLOUT != 0
}

/// Writes a line to the error output, where all of it is taken at once.
fn write_error(line: &[u8]) -> bool {
    if !is_ready() {
        return false;
    }
    let count = write(STDERR_FILENO, line);
    count >= 0 && count as usize == line.len()
}

/// Writes a line to a file, where all of it is taken at once.
fn write_file<F: Write>(file: &mut F, line: &[u8]) -> bool {
    match file.write(line) {
        Ok(count) => count == line.len(),
        Err(_) => false,
    }
}

impl<F: Write> Sink for LineOutput<F> {
    ghost use Rattle.std.specs.Prelude.{None};

    ghost contents = { λ _. None };

    ghost faults = { λ output. output.faults };

    fn put(&mut self, piece: &[u8]) -> Result<(), Failed> {
        let is_whole = match &mut self.file {
            None => write_error(piece),
            Some(file) => write_file(file, piece),
        };
        if is_whole {
            return Ok(());
        }
        self.faults = self.faults.saturating_add(1);
        Err(Failed)
    }
}
