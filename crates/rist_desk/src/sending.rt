//! What goes to a worker's link.
ghost use Rattle.std.specs.Prelude.{◌≡◌, ◌++◌, OnOk, OnErr};
ghost use Rattle.std.specs.Prelude.{option_map};
ghost use Rattle.outside_io.specs.Causes.{HasCause};
ghost use Rattle.rist_reporter.specs.OneMore.{outs_of};
ghost use Rattle.rist_desk.specs.Sending.{written};
ghost use Rattle.rist_desk.specs.Links.{IsKept, SentPart};

use outside_io::Failed;
use outside_net::Link;
use rist_ends::Outs;

/// Writes the datagrams that a step made to a link, in their order, up to the first write that fails: of those before that
/// one the link took exactly the ones whose channel's peer it knows.
pub fn send<L: Link>(link: &mut L, outs: &Outs) -> Result<(), Failed>
    ensures ok { OnOk result (L.taken link.new
        ≡ option_map (λ t. t ++ written (L.knows link.old) (outs_of outs.now)) (L.taken link.old)) }
    ensures err { OnErr result (SentPart (L.knows link.old) (outs_of outs.now) (L.taken link.old) (L.taken link.new)) }
    ensures same { IsKept L.reads L.ends L.knows link.old link.new }
    ensures cause { HasCause (L.faults link.old) (L.faults link.new) result }
{
    link.write(outs.first.channel(), outs.first.octets())?;
    if let Some(out) = &outs.second {
        link.write(out.channel(), out.octets())?;
    }
    Ok(())
}
