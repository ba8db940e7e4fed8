//! What a receiver counted goes to its host.
ghost use Rattle.std.specs.Prelude.{◌≡◌, Some, IsTrue};
ghost use Rattle.outside_host.specs.Shelf.{ChangesReport};
ghost use Rattle.run_links.specs.Counting.{named_counts};

use outside_host::{Count, Host};
use rist_ends::Counts;

/// Gives a host the counts of a receiver, each by its name.
pub fn report<H: Host>(host: &mut H, counts: &Counts)
    ensures state { IsTrue H.tells → (H.shelf host.new).report ≡ Some (named_counts counts.now) }
    ensures same { IsTrue H.tells → ChangesReport (H.shelf host.old) (H.shelf host.new) }
    ensures cause { H.faults host.new ≡ H.faults host.old }
{
    host.report(&[
        Count {
            name: "kept",
            count: counts.kept,
        },
        Count {
            name: "late",
            count: counts.late,
        },
        Count {
            name: "behind",
            count: counts.behind,
        },
        Count {
            name: "early",
            count: counts.early,
        },
        Count {
            name: "twice",
            count: counts.twice,
        },
        Count {
            name: "span",
            count: counts.span,
        },
        Count {
            name: "stranger",
            count: counts.stranger,
        },
        Count {
            name: "exhausted",
            count: counts.exhausted,
        },
        Count {
            name: "refused",
            count: counts.refused,
        },
    ]);
}
