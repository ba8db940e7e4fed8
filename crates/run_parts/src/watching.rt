//! What is kept and told of a run beside its own output.
ghost use Rattle.std.specs.Prelude.{◌≡◌, IsTrue};
ghost use Rattle.outside_host.specs.Shelf.{HasHostCause};

use outside_host::{Host, HostBad};
use rist_words::WatchingWords;

/// Says to a host what is kept of a run and told while it goes on, before its links are handed out.
pub fn watch<H: Host>(host: &mut H, watching: &WatchingWords<'_>) -> Result<(), HostBad>
    ensures same { IsTrue H.tells → H.shelf host.new ≡ H.shelf host.old }
    ensures cause { HasHostCause (H.faults host.old) (H.faults host.new) result }
{
    if let Some(name) = watching.capture {
        host.record(name)?;
    }
    match watching.stats {
        Some(every) => host.statistics(every, watching.stats_file),
        None => Ok(()),
    }
}
