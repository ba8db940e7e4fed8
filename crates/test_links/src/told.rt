//! A runtime whose status file and clock are a test's, and whose files are else those of the system.
use std::alloc::Allocator;
use std::fs::{Files, Metadata, OpenOptions};
use std::io;
use std::sync::atomic::{AtomicU64, Ordering};
use std::time::{Clock, Duration};

/// Has another file for that of the process, counts how often it is opened, and a clock that goes on by 40 ms at each call.
#[derive(Drop)]
pub struct Told<'a> {
    rt: &'a HostRuntime,
    status: &'a str,
    looks: AtomicU64,
    millis: AtomicU64,
}

impl<'a> Told<'a> {
    pub fn new(rt: &'a HostRuntime, status: &'a str) -> Told<'a> {
        Told {
            rt,
            status,
            looks: AtomicU64::new(0),
            millis: AtomicU64::new(0),
        }
    }

    /// How often the status file was opened.
    pub fn looks(&self) -> u64 {
        self.looks.load(Ordering::Relaxed)
    }
}

impl<'a> Files for Told<'a> {
    type File = <HostRuntime as Files>::File;

    type Dir = <HostRuntime as Files>::Dir;

    fn open_file(&self, how: &OpenOptions, path: &str) -> io::Result<Self::File> {
        if path == "/proc/self/status" {
            self.looks.fetch_add(1, Ordering::Relaxed);
            return self.rt.open_file(how, self.status);
        }
        self.rt.open_file(how, path)
    }

    fn open_dir(&self, path: &str) -> io::Result<Self::Dir> {
        self.rt.open_dir(path)
    }

    fn metadata(&self, path: &str) -> io::Result<Metadata> {
        self.rt.metadata(path)
    }

    fn symlink_metadata(&self, path: &str) -> io::Result<Metadata> {
        self.rt.symlink_metadata(path)
    }

    fn copy(&self, from: &str, to: &str) -> io::Result<u64> {
        self.rt.copy(from, to)
    }

    fn rename(&self, from: &str, to: &str) -> io::Result<()> {
        self.rt.rename(from, to)
    }

    fn remove_file(&self, path: &str) -> io::Result<()> {
        self.rt.remove_file(path)
    }

    fn create_dir(&self, path: &str) -> io::Result<()> {
        self.rt.create_dir(path)
    }

    fn remove_dir(&self, path: &str) -> io::Result<()> {
        self.rt.remove_dir(path)
    }

    fn remove_dir_all<B: Allocator>(&self, alloc: B, path: &str) -> io::Result<()> {
        self.rt.remove_dir_all(alloc, path)
    }
}

impl<'a> Clock for Told<'a> {
    fn monotonic(&self) -> io::Result<Duration> {
        Ok(Duration::from_millis(self.millis.fetch_add(40, Ordering::Relaxed)))
    }

    fn since_1970(&self) -> io::Result<Duration> {
        self.rt.since_1970()
    }
}
