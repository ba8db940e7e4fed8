//! What tells one file from another.
ghost use Rattle.std.specs.Prelude.{◌↔◌, IsSome};
ghost use Rattle.std.specs.Fs.{file_type, IsFile};

use std::fs::Metadata;
use std::os::unix::fs::MetadataExt;

/// A regular file's device and its number there (POSIX, sys/stat.h: st_dev and st_ino).
#[derive(Clone, Copy, PartialEq, Eq)]
pub struct FileIdentity {
    device: u64,
    number: u64,
}

impl FileIdentity {
    /// The identity of a regular file. A device, a pipe or a socket can be read and written at once, and has none.
    pub fn of(metadata: &Metadata) -> Option<FileIdentity>
        ensures file { IsSome result ↔ IsFile (file_type metadata.now) }
    {
        if !metadata.is_file() {
            return None;
        }
        Some(FileIdentity {
            device: metadata.dev(),
            number: metadata.ino(),
        })
    }
}
