//! What the system's host hands out as a sink. What it takes is not told: the trusted edge of the system.
use crate::terminal::StandingLine;
use datagram_ends::{DatagramSink, UdpOut};
use outside_io::{Failed, RealSink, Sink};
use outside_net::ProcessClock;
use std::io::Write;
use std::time::Clock;

/// A file, standard output, or datagrams of UDP.
#[derive(Drop)]
pub enum RealOutput<'a, R, F, O> {
    /// Under a name. Where it is standard output on a terminal, the line that stands there goes first.
    Named(RealSink<F, O>, Option<StandingLine>),
    /// Under an address.
    Network(DatagramSink<UdpOut, ProcessClock<'a, R>>),
}

impl<'a, R: Clock, F: Write, O: Write> Sink for RealOutput<'a, R, F, O> {
    ghost use Rattle.std.specs.Prelude.{None};
    ghost use Rattle.outside_host.specs.RealHost.{output_faults};

    ghost contents = { λ _. None };

    ghost faults = { output_faults };

    fn put(&mut self, piece: &[u8]) -> Result<(), Failed> {
        match self {
            RealOutput::Named(sink, line) => {
                if let Some(line) = line {
                    line.clear();
                }
                sink.put(piece)
            }
            RealOutput::Network(sink) => sink.put(piece),
        }
    }
}
