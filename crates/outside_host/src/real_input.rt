//! What the system's host hands out as a source. What it gives is not told: the trusted edge of the system.
ghost use Rattle.std.specs.Prelude.{◌≡◌, IsSome, true, false};
ghost use Rattle.end_sign.specs.Until.{source_behind};
ghost use Rattle.outside_io.specs.Real.{silent};
ghost use Rattle.outside_host.specs.RealHost.{in_datagrams, no_payloads};

use datagram_ends::UdpSource;
use end_sign::{EndSign, ProcessSign, UntilSource};
use gathered_source::{Gathered, ReadySource};
use link_channels::MAX_PAYLOAD;
use live_source::LiveSource;
use outside_io::{Failed, Reading, RealSource, Source};
use std::fs::Files;
use std::io::Read;
use std::marker::PhantomData;
use std::time::Clock;

/// The descriptor of standard input.
const STANDARD_INPUT: i32 = 0;

/// A file or standard input, which comes to its end where the system asks the program to end.
#[derive(Drop)]
pub struct NamedInput<'a, R, F, I> {
    source: UntilSource<RealSource<F, I>, ProcessSign<'a, R>>,
    /// What reads the file, for the proof that it is let go alone.
    reader: PhantomData<Reading<F>>,
}

impl<'a, R: Files + Clock, F, I> NamedInput<'a, R, F, I> {
    /// Standard input is handed out once it gives something, has ended, or the program is to end: so the time of what is read from
    /// it begins with its first octets, however late these come.
    pub(crate) fn over(rt: &'a R, name: &str, source: RealSource<F, I>) -> NamedInput<'a, R, F, I>
        ensures source { source_behind result.source ≡ source }
    {
        let sign = ProcessSign::new(rt);
        let source = if name == "-" {
            awaited(source, sign)
        } else {
            UntilSource::over(source, sign)
        };
        NamedInput {
            source,
            reader: PhantomData,
        }
    }
}

/// A source at standard input, once that gives something, has ended, or the program is to end.
fn awaited<S, E: EndSign>(source: S, sign: E) -> UntilSource<S, E>
    ensures source { source_behind result ≡ source }
{
    let mut source = UntilSource::awaiting(source, sign, STANDARD_INPUT);
    source.wait();
    source
}

impl<'a, R: Files + Clock, F: Read, I: Read> ReadySource for NamedInput<'a, R, F, I> {
    /// A file is read at once. A pipe under a name of its own counts as one: a read of it may wait.
    fn is_ready(&mut self) -> bool {
        self.source.is_ready()
    }
}

impl<'a, R: Files + Clock, F: Read, I: Read> Source for NamedInput<'a, R, F, I> {
    ghost use Rattle.std.specs.Prelude.{None};
    ghost use Rattle.outside_host.specs.RealHost.{named_faults};

    ghost remaining = { λ _. None };

    ghost faults = { named_faults };

    fn read(&mut self, buf: &mut [u8]) -> Result<usize, Failed> {
        self.source.read(buf)
    }
}

/// A stream that comes in datagrams of UDP.
#[derive(Drop)]
pub struct NetworkInput<'a, R> {
    source: UdpSource<ProcessSign<'a, R>>,
}

impl<'a, R> NetworkInput<'a, R> {
    pub(crate) fn over(source: UdpSource<ProcessSign<'a, R>>) -> NetworkInput<'a, R>
        ensures source { result.source ≡ source.entry }
    {
        NetworkInput { source }
    }
}

impl<'a, R: Files + Clock> Source for NetworkInput<'a, R> {
    ghost use Rattle.std.specs.Prelude.{None};

    ghost remaining = { λ _. None };

    ghost faults = { λ input. input.source.faults };

    fn read(&mut self, buf: &mut [u8]) -> Result<usize, Failed> {
        self.source.read(buf)
    }
}

impl<'a, R: Files + Clock> LiveSource for NetworkInput<'a, R> {
    fn is_in_datagrams(&self) -> bool {
        true
    }

    fn gather(&mut self, _count: usize) -> bool {
        self.source.is_ready()
    }

    fn read_payload(&mut self, block: &mut [u8; MAX_PAYLOAD]) -> Result<usize, Failed> {
        self.source.read_payload(block)
    }
}

/// A file, standard input, or a stream that comes in datagrams of UDP. What is there can be gathered without a wait: of the first two so
/// many octets, of the third a payload. Each comes to its end where the system asks the program to end.
#[derive(Drop)]
pub enum RealInput<'a, R: Files + Clock, F: Read, I: Read> {
    /// Under a name.
    Named(Gathered<NamedInput<'a, R, F, I>>),
    /// Under an address.
    Network(NetworkInput<'a, R>),
}

impl<'a, R: Files + Clock, F: Read, I: Read> Source for RealInput<'a, R, F, I> {
    ghost use Rattle.std.specs.Prelude.{None};
    ghost use Rattle.outside_host.specs.RealHost.{input_ahead, input_faults};

    ghost remaining = { λ _. None };

    ghost ahead = { input_ahead };

    ghost faults = { input_faults };

    fn read(&mut self, buf: &mut [u8]) -> Result<usize, Failed> {
        match self {
            RealInput::Named(input) => input.read(buf),
            RealInput::Network(input) => input.read(buf),
        }
    }
}

impl<'a, R: Files + Clock, F: Read, I: Read> LiveSource for RealInput<'a, R, F, I> {
    ghost use Rattle.outside_host.specs.RealHost.{input_stands};

    ghost stands = { input_stands };

    fn is_in_datagrams(&self) -> bool
        ensures octets { IsSome silent → result ≡ false }
        ensures payloads { IsSome no_payloads → result ≡ true }
        ensures value { result ≡ in_datagrams self.now }
    {
        matches!(self, RealInput::Network(_))
    }

    fn gather(&mut self, count: usize) -> bool {
        match self {
            RealInput::Named(input) => input.gather(count),
            RealInput::Network(input) => input.gather(count),
        }
    }

    fn read_payload(&mut self, block: &mut [u8; MAX_PAYLOAD]) -> Result<usize, Failed> {
        match self {
            RealInput::Named(input) => input.read_payload(block),
            RealInput::Network(input) => input.read_payload(block),
        }
    }
}
