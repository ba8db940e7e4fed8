//! The line on a terminal that says how far the source was read. What a terminal shows is not told: the trusted edge of the
//! system.
ghost use Rattle.std.specs.Prelude.{◌≡◌};

use libc::{STDERR_FILENO, STDOUT_FILENO, isatty};
use metered_link::LineOutput;
use outside_io::Sink;
use progress_source::{Change, Lines, Outlet};
use std::alloc::Global;
use std::fs::{self, File, Files};
use std::sync::Arc;
use std::sync::atomic::{AtomicBool, Ordering};

/// The control characters that take a line of a terminal away: a carriage return, and EL of ECMA-48 (section 8.3.41).
const ERASE: &[u8; 4] = b"\r\x1b[K";

/// Whether the error output is a terminal.
pub(crate) fn is_error_terminal() -> bool {
    isatty(STDERR_FILENO) == 1
}

/// Whether standard output is one.
pub(crate) fn is_output_terminal() -> bool {
    isatty(STDOUT_FILENO) == 1
}

/// How many octets the regular file of this name has, or that of standard input. Of anything else that isn't known.
pub(crate) fn length_of<R: Files>(rt: &R, name: &str) -> Option<u64> {
    let name = if name == "-" { "/dev/stdin" } else { name };
    match fs::metadata(rt, name) {
        Ok(metadata) if metadata.is_file() => Some(metadata.len()),
        _ => None,
    }
}

/// Whether a line stands on the terminal of the error output. Several of these can stand for one terminal.
#[derive(Drop)]
pub struct StandingLine {
    stands: Arc<AtomicBool, Global>,
}

impl StandingLine {
    /// No line stands. Memory may be refused.
    pub(crate) fn none(alloc: Global) -> Option<StandingLine> {
        let stands = Arc::new(alloc, AtomicBool::new(false)).ok()?;
        Some(StandingLine { stands })
    }

    /// The same line once more.
    pub(crate) fn again(&self) -> Option<StandingLine> {
        let stands = Arc::try_clone(&self.stands).ok()?;
        Some(StandingLine { stands })
    }

    /// A line was shown, or went.
    fn note(&self, stands: bool) {
        self.stands.store(stands, Ordering::SeqCst);
    }

    /// Takes the line away, if one stands: what is printed next begins where it did.
    pub(crate) fn clear(&self) {
        if self.stands.swap(false, Ordering::SeqCst) {
            let mut output: LineOutput<File> = LineOutput::error();
            // A line that stays changes no answer.
            let _ = output.put(ERASE);
        }
    }
}

/// Shows lines on the error output, each in place of the one before. Where that takes nothing now the line is left out:
/// nothing waits for a terminal that was stopped.
#[derive(Drop)]
pub struct ShownLine {
    lines: Lines<LineOutput<File>>,
    line: StandingLine,
}

impl ShownLine {
    pub(crate) fn over(alloc: Global, line: StandingLine) -> ShownLine {
        ShownLine {
            lines: Lines::over(alloc, LineOutput::error()),
            line,
        }
    }
}

impl Outlet for ShownLine {
    ghost use Rattle.std.specs.Prelude.{None};

    ghost asked = { λ _. None };

    fn show(&mut self, change: Change) {
        self.line.note(matches!(change, Change::Line(_)));
        self.lines.show(change);
    }
}
