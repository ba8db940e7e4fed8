//! A read of one of a sender's links.
ghost use Rattle.std.specs.Prelude.{◌<◌, length};
ghost use Rattle.outside_net.specs.Links.{IsWithin, answer_of};
ghost use Rattle.rist_sender.specs.Served.{ReadsAt};

use link_channels::MAX_DATAGRAM;
use outside_net::{Got, Link, TellingLink};

/// Reads the link at a place, once, into a block. The others stay.
#[tactic(auto, using(crate::proofs::ServedLemmas::faults_by, crate::proofs::ServedLemmas::ends_by, crate::proofs::ServedLemmas::knows_by))]
pub fn read_at<L: Link>(links: &mut [L], link: u8, block: &mut [u8; MAX_DATAGRAM]) -> Got
    requires among { link < length links.old }
    ensures within { IsWithin result }
    ensures reads { ReadsAt ⟦<L as TellingLink>⟧.tells link (answer_of result block.new) links.old links.new }
{
    links[usize::from(link)].read(block)
}
