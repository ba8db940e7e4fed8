//! What a link tells, as one value of the contracts.
ghost use Rattle.outside_net.specs.Links.{LinkTells};

use crate::link::Link;

/// Each link: a contract names what it tells by one word.
pub trait TellingLink: Link {
    /// What it tells, and its counts.
    ghost tells: { LinkTells Self };
}

impl<L: Link> TellingLink for L {
    ghost tells = { record {
      reads = L.reads;
      taken = L.taken;
      knows = L.knows;
      ends = L.ends;
      faults = L.faults;
    } };
}
