//! What the receivers counted goes to their host.
ghost use Rattle.std.specs.Prelude.{◌≡◌, length, Some, IsTrue};
ghost use Rattle.outside_host.specs.Shelf.{ChangesReport};
ghost use Rattle.run_fan.specs.Counting.{counts_at};
ghost use Rattle.run_fan.specs.Inside.Fanning.{IsReported};

use outside_host::{Count, Host};
use rist_ends::Counts;

/// Gives a host the counts of the receiver at a port, each by its name, behind the port.
fn report_at<H: Host>(host: &mut H, port: u16, counts: &Counts)
    ensures state { IsTrue H.tells → (H.shelf host.new).report ≡ Some (counts_at port counts.now) }
    ensures same { IsTrue H.tells → ChangesReport (H.shelf host.old) (H.shelf host.new) }
    ensures cause { H.faults host.new ≡ H.faults host.old }
{
    host.report(&[
        Count {
            name: "port",
            count: port as u64,
        },
        Count {
            name: "kept",
            count: counts.kept,
        },
        Count {
            name: "late",
            count: counts.late,
        },
        Count {
            name: "behind",
            count: counts.behind,
        },
        Count {
            name: "early",
            count: counts.early,
        },
        Count {
            name: "twice",
            count: counts.twice,
        },
        Count {
            name: "span",
            count: counts.span,
        },
        Count {
            name: "stranger",
            count: counts.stranger,
        },
        Count {
            name: "exhausted",
            count: counts.exhausted,
        },
        Count {
            name: "refused",
            count: counts.refused,
        },
    ]);
}

/// Gives a host the counts of each receiver behind the port of its place, one place after another.
pub(crate) fn report_all<H: Host>(host: &mut H, ports: &[u16], counts: &[Counts])
    requires places { length counts.now ≡ length ports.now }
    ensures last { IsTrue H.tells → IsReported (H.shelf host.new).report ports.now counts.now }
    ensures same { IsTrue H.tells → ChangesReport (H.shelf host.old) (H.shelf host.new) }
    ensures cause { H.faults host.new ≡ H.faults host.old }
{
    for place in 0..ports.len() {
        report_at(host, ports[place], &counts[place]);
    }
}
