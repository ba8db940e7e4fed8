//! What a link tells to.
ghost use Rattle.std.specs.Prelude.{◌≡◌, List, not};
ghost use Rattle.std.specs.Option.{option_map};
ghost use Rattle.std.specs.declared.option.Option.{Option};
ghost use Rattle.outside_io.specs.Causes.{RoseWhere};
ghost use Rattle.metered_link.specs.Tellers.{PutsLine, PutsReceiverLine, PutsText};
ghost use Rattle.metered_link.specs.Tellings.{Asked, OfLink, OfReceiver, asked_with, untold};

use crate::Telling;
use crate::line::link_line;
use crate::receiver::receiver_line;
use outside_io::Sink;
use outside_net::ReceiverFigures;
use std::alloc::Global;

/// Is told how a link does.
pub trait Teller {
    /// What it was asked for, the oldest first, where it tells.
    ghost asked: { Self → Option (List Asked) };

    /// What the link at a place came to. Whether it was told.
    fn tell(&mut self, place: u8, telling: &Telling) -> bool
        ensures asked { asked self.new ≡ option_map (asked_with (OfLink place telling.now) result) (asked self.old) };

    /// The figures of the receiver of the flow at a place, at a moment in microseconds. Whether they were told.
    fn tell_receiver(&mut self, us: u64, flow: u8, figures: &ReceiverFigures) -> bool
        ensures asked { asked self.new
            ≡ option_map (asked_with (OfReceiver us flow figures.now) result) (asked self.old) };
}

/// Puts a line to a sink, by one call. Whether that was done.
fn put_line<K: Sink>(sink: &mut K, line: &[u8]) -> bool
    ensures line { PutsText (K.contents sink.old) (K.contents sink.new) line.now result }
    ensures cause { RoseWhere (not result) (K.faults sink.old) (K.faults sink.new) }
{
    sink.put(line).is_ok()
}

/// Puts lines of JSON to a sink, each by one call. A line that can't be made or put is left out.
#[derive(Drop)]
pub struct Lines<K> {
    pub sink: K,
    alloc: Global,
}

impl<K> Lines<K> {
    /// Lines to this sink, in memory that is taken for each and given back.
    pub fn over(alloc: Global, sink: K) -> Lines<K>
        ensures sink { result.sink ≡ sink }
    {
        Lines { sink, alloc }
    }
}

impl<K: Sink> Teller for Lines<K> {
    ghost asked = { λ _. untold };

    fn tell(&mut self, place: u8, telling: &Telling) -> bool
        // Where the sink tells, it gained the line, or less where it wasn't told.
        ensures line { PutsLine (K.contents self.old.sink) (K.contents self.new.sink) place telling.now result }
        ensures asked { untold ≡ option_map (asked_with (OfLink place telling.now) result) untold }
    {
        match link_line(self.alloc, place, telling) {
            Ok(line) => put_line(&mut self.sink, &line),
            Err(_) => false,
        }
    }

    fn tell_receiver(&mut self, us: u64, flow: u8, figures: &ReceiverFigures) -> bool
        ensures line { PutsReceiverLine (K.contents self.old.sink) (K.contents self.new.sink) us flow figures.now result }
        ensures asked { untold ≡ option_map (asked_with (OfReceiver us flow figures.now) result) untold }
    {
        match receiver_line(self.alloc, us, flow, figures) {
            Ok(line) => put_line(&mut self.sink, &line),
            Err(_) => false,
        }
    }
}
