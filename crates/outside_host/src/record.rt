//! The file that what comes on links is recorded to.
ghost use Rattle.std.specs.Prelude.{◌≡◌, OnErr, OnOk};
ghost use Rattle.outside_io.specs.Causes.{HasCause};
ghost use Rattle.outside_io.specs.Real.{silent};
ghost use Rattle.outside_io.specs.Told.{Appends, AppendsPart};

use capture_file::Writer;
use outside_io::{Failed, Sink};
use std::fmt::{self, Display, Formatter};
use std::fs::{self, Files, OpenFile};
use std::io::{self, Eprint, ErrorKind, Write};

/// A file for records. Several of these can stand for one file: each writes behind what the others wrote, and a record is one
/// write. Where a write fails the file says so on the error output.
#[derive(Drop)]
pub struct RecordFile<'a, R: Files> {
    rt: &'a R,
    file: R::File,
    faults: u64,
}

impl<'a, R: Files> RecordFile<'a, R> {
    /// A new file of this name.
    fn create(rt: &'a R, name: &str) -> io::Result<RecordFile<'a, R>> {
        let file = fs::create(rt, name)?;
        Ok(RecordFile {
            rt,
            file,
            faults: 0,
        })
    }

    /// The same file once more.
    pub(crate) fn again(&self) -> io::Result<RecordFile<'a, R>> {
        let file = self.file.try_clone()?;
        Ok(RecordFile {
            rt: self.rt,
            file,
            faults: 0,
        })
    }
}

impl<'a, R: Files + Eprint> RecordFile<'a, R> {
    /// A new file of this name, in which the name of a capture stands.
    pub(crate) fn begin(rt: &'a R, name: &str) -> io::Result<RecordFile<'a, R>> {
        let mut writer = Writer::over(RecordFile::create(rt, name)?);
        match writer.begin() {
            Ok(()) => Ok(writer.back()),
            Err(_) => Err(io::Error::from(ErrorKind::WriteZero)),
        }
    }
}

impl<'a, R: Files + Eprint> Sink for RecordFile<'a, R> {
    ghost contents = { λ _. silent };

    ghost faults = { λ file. file.faults };

    fn put(&mut self, piece: &[u8]) -> Result<(), Failed>
        ensures ok { OnOk result (Appends silent silent piece.now) }
        ensures err { OnErr result (AppendsPart silent silent piece.now) }
        ensures cause { HasCause self.old.faults self.new.faults result }
    {
        match self.file.write_all(piece) {
            Ok(()) => Ok(()),
            Err(error) => {
                self.faults = self.faults.saturating_add(1);
                // A line that can't be written changes no answer.
                let _ = self.rt.eprintln(EndText(error));
                Err(Failed)
            }
        }
    }
}

/// The line of the error output where a record can't go on.
#[derive(Drop)]
struct EndText(io::Error);

impl Display for EndText {
    fn fmt<W: fmt::Write>(&self, f: &mut Formatter<W>) -> fmt::Result {
        let error = &self.0;
        write!(f, "rist: the record of a link ends here: {error}")
    }
}
