//! One datagram on one of several links.
ghost use Rattle.std.specs.Prelude.{◌<◌, length};
ghost use Rattle.rist_sender.specs.Links.{WritesOn};

use crate::answer::Answer;
use link_channels::Channel;
use outside_net::Link;

/// Writes a datagram on a link, and says what became of it.
pub(crate) fn write_on<L: Link>(
    links: &mut [L],
    link: u8,
    channel: Channel,
    octets: &[u8],
) -> Answer
    requires among { link < length links.old }
    ensures writes { WritesOn (record {
      taken = L.taken;
      knows = L.knows;
      faults = L.faults;
      reads = L.reads;
      ends = L.ends;
    }) link (record { channel = channel; octets = octets.now; answer = result }) links.old links.new }
{
    match links[usize::from(link)].write(channel, octets) {
        Ok(true) => Answer::Took,
        Ok(false) => Answer::NoPeer,
        Err(_) => Answer::Failed,
    }
}
