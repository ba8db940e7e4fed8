//! What a worker's link is told of all places.
ghost use Rattle.std.specs.Prelude.{◌≡◌};
ghost use Rattle.rist_desk.specs.Links.{IsKept};

use outside_net::Link;
use rist_fan::Came;

/// Tells a link the figures of each place, in their order: it is as it was.
pub(crate) fn tell_row<L: Link>(link: &mut L, us: u64, came: &[Came])
    ensures taken { L.taken link.new ≡ L.taken link.old }
    ensures same { IsKept L.reads L.ends L.knows link.old link.new }
    ensures faults { L.faults link.new ≡ L.faults link.old }
{
    for v in 0..came.len() {
        let flow = u8::try_from(v).unwrap_or(u8::MAX);
        link.tell(us, flow, &came[v].figures);
    }
}

/// Tells them with a tick, where the link wants them.
pub(crate) fn tell_where_wanted<L: Link>(link: &mut L, us: u64, ticks: bool, came: &[Came])
    ensures taken { L.taken link.new ≡ L.taken link.old }
    ensures same { IsKept L.reads L.ends L.knows link.old link.new }
    ensures faults { L.faults link.new ≡ L.faults link.old }
{
    if ticks && link.wants(us) {
        tell_row(link, us, came);
    }
}
