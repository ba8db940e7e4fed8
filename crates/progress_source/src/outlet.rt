//! What lines are shown by.
ghost use Rattle.std.specs.Prelude.{◌≡◌, ◌++◌, ◌∷◌, [], List, Bool, IfOk, not, string_bytes};
ghost use Rattle.std.specs.Option.{option_map};
ghost use Rattle.std.specs.declared.option.Option.{Option};
ghost use Rattle.progress_source.specs.declared.meter.Change.{Change as ChangeValue};
ghost use Rattle.progress_source.specs.declared.meter.Change.TheVariants.{Line};
ghost use Rattle.outside_io.specs.Causes.{RoseWhere};
ghost use Rattle.progress_source.specs.Outlets.{change_octets, HasPutCause, Puts, PutsChange};

use crate::{Change, Extent};
use outside_io::Sink;
use std::alloc::{AllocError, Global};

/// Shows a line in place of the one before. Whoever has something shown can't tell whether it was.
pub trait Outlet {
    /// What it was asked to show, the oldest first, where it tells.
    ghost asked: { Self → Option (List ChangeValue) };

    /// Shows what changes.
    fn show(&mut self, change: Change)
        ensures asked { asked self.new ≡ option_map (λ changes. changes ++ change ∷ []) (asked self.old) };
}

/// Puts lines to a sink. A line that can't be made or put is left out.
#[derive(Drop)]
pub struct Lines<K> {
    /// What the octets of a line are put to.
    pub sink: K,
    alloc: Global,
}

impl<K> Lines<K> {
    /// Lines to this sink, in memory that is taken for each and given back.
    pub fn over(alloc: Global, sink: K) -> Lines<K>
        ensures sink { result.sink ≡ sink }
    {
        Lines { sink, alloc }
    }
}

/// The octets of a line: it begins where the line of the terminal does, and what stood behind its end goes.
fn line_of(alloc: Global, extent: &Extent) -> Result<String, AllocError>
    ensures value { IfOk result (λ line. string_bytes line ≡ change_octets (Line extent.now)) }
{
    Ok(format!(in alloc; "\r{extent}\x1b[K")?)
}

/// Puts octets to a sink. Whether they were put: where they weren't, a call of the sink failed.
fn put_octets<K: Sink>(sink: &mut K, octets: &[u8]) -> bool
    ensures gained { Puts (K.contents sink.old) (K.contents sink.new) octets.now result }
    ensures cause { RoseWhere (not result) (K.faults sink.old) (K.faults sink.new) }
{
    sink.put(octets).is_ok()
}

impl<K: Sink> Lines<K> {
    /// Puts what changes to the sink. Whether it was put.
    fn put(&mut self, change: Change) -> bool
        ensures gained { PutsChange (K.contents self.old.sink) (K.contents self.new.sink) change result }
        ensures cause { HasPutCause change result (K.faults self.old.sink) (K.faults self.new.sink) }
    {
        match change {
            Change::Line(extent) => match line_of(self.alloc, &extent) {
                Ok(line) => put_octets(&mut self.sink, line.as_bytes()),
                Err(_) => false,
            },
            Change::Clears => put_octets(&mut self.sink, b"\r\x1b[K"),
        }
    }
}

impl<K: Sink> Outlet for Lines<K> {
    ghost use Rattle.progress_source.specs.Outlets.{untold};

    ghost asked = { λ _. untold };

    fn show(&mut self, change: Change)
        ensures asked { untold ≡ option_map (λ changes. changes ++ change ∷ []) untold }
        ensures shown { (done : Bool)
            × PutsChange (K.contents self.old.sink) (K.contents self.new.sink) change done
            × HasPutCause change done (K.faults self.old.sink) (K.faults self.new.sink) }
    {
        // Nothing rests on whether it was put.
        let _ = self.put(change);
    }
}
