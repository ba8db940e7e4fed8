//! A runtime that hears what is said on the error output, and else is that of the system.
use std::alloc::Allocator;
use std::fmt::Display;
use std::fs::{Files, Metadata, OpenOptions};
use std::io::{self, Eprint, Input, Lines, Print};
use std::net::{Net, SocketAddr, UdpSocket};
use std::random::RandomSource;
use std::sync::atomic::{AtomicU64, Ordering};
use std::time::{Clock, Duration};

/// Counts the lines of this text.
#[derive(Drop)]
pub struct Heard<'a> {
    rt: &'a HostRuntime,
    line: &'a str,
    times: AtomicU64,
}

impl<'a> Heard<'a> {
    pub fn new(rt: &'a HostRuntime, line: &'a str) -> Heard<'a> {
        Heard {
            rt,
            line,
            times: AtomicU64::new(0),
        }
    }

    /// How often the line was said.
    pub fn times(&self) -> u64 {
        self.times.load(Ordering::Relaxed)
    }
}

impl<'a> Eprint for Heard<'a> {
    fn eprint<D: Display + Drop>(&self, value: D) -> io::Result<()> {
        self.rt.eprint(value)
    }

    fn eprintln<D: Display + Drop>(&self, value: D) -> io::Result<()> {
        let text = format!(in self.rt.alloc(); "{value}")?;
        if text.as_str() == self.line {
            self.times.fetch_add(1, Ordering::Relaxed);
        }
        Ok(())
    }
}

impl<'a> Print for Heard<'a> {
    fn print<D: Display + Drop>(&self, value: D) -> io::Result<()> {
        self.rt.print(value)
    }

    fn println<D: Display + Drop>(&self, value: D) -> io::Result<()> {
        self.rt.println(value)
    }

    fn write_all(&self, bytes: &[u8]) -> io::Result<()> {
        self.rt.write_all(bytes)
    }
}

impl<'a> Input for Heard<'a> {
    type Reader = <HostRuntime as Input>::Reader;

    fn read_line<A: Allocator + Clone>(&self, buf: &mut String<A>) -> io::Result<usize> {
        self.rt.read_line(buf)
    }

    fn lines<A: Allocator>(&self, alloc: A) -> Lines<Self::Reader, A> {
        self.rt.lines(alloc)
    }

    fn reader(&self) -> Self::Reader {
        self.rt.reader()
    }
}

impl<'a> Files for Heard<'a> {
    type File = <HostRuntime as Files>::File;

    type Dir = <HostRuntime as Files>::Dir;

    fn open_file(&self, how: &OpenOptions, path: &str) -> io::Result<Self::File> {
        self.rt.open_file(how, path)
    }

    fn open_dir(&self, path: &str) -> io::Result<Self::Dir> {
        self.rt.open_dir(path)
    }

    fn metadata(&self, path: &str) -> io::Result<Metadata> {
        self.rt.metadata(path)
    }

    fn symlink_metadata(&self, path: &str) -> io::Result<Metadata> {
        self.rt.symlink_metadata(path)
    }

    fn copy(&self, from: &str, to: &str) -> io::Result<u64> {
        self.rt.copy(from, to)
    }

    fn rename(&self, from: &str, to: &str) -> io::Result<()> {
        self.rt.rename(from, to)
    }

    fn remove_file(&self, path: &str) -> io::Result<()> {
        self.rt.remove_file(path)
    }

    fn create_dir(&self, path: &str) -> io::Result<()> {
        self.rt.create_dir(path)
    }

    fn remove_dir(&self, path: &str) -> io::Result<()> {
        self.rt.remove_dir(path)
    }

    fn remove_dir_all<B: Allocator>(&self, alloc: B, path: &str) -> io::Result<()> {
        self.rt.remove_dir_all(alloc, path)
    }
}

impl<'a> RandomSource for Heard<'a> {
    fn fill_bytes(&self, buf: &mut [u8]) -> io::Result<()> {
        self.rt.fill_bytes(buf)
    }
}

impl<'a> Net for Heard<'a> {
    type Stream = <HostRuntime as Net>::Stream;

    type Listener = <HostRuntime as Net>::Listener;

    fn bind(&self, addr: SocketAddr) -> io::Result<Self::Listener> {
        self.rt.bind(addr)
    }

    fn connect(&self, addr: SocketAddr) -> io::Result<Self::Stream> {
        self.rt.connect(addr)
    }

    fn bind_udp(&self, addr: SocketAddr) -> io::Result<UdpSocket> {
        self.rt.bind_udp(addr)
    }
}

impl<'a> Clock for Heard<'a> {
    fn monotonic(&self) -> io::Result<Duration> {
        self.rt.monotonic()
    }

    fn since_1970(&self) -> io::Result<Duration> {
        self.rt.since_1970()
    }
}
