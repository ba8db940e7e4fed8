ghost use Rattle.std.specs.Prelude.{◌≡◌, ◌≤◌, ◌<◌, ◌-◌, length, not, false, IfSome};
ghost use Rattle.std.specs.List.{find, range_with_len};
ghost use Rattle.bond_links.specs.Plans.{is_down};

use crate::plan::Plan;
use crate::weights::Weights;
use std::marker::Model;

/// How packets are spread over links.
#[derive(Debug, Drop)]
pub struct Bond {
    links: u8,
    weights: Option<Weights>,
}

impl Model for Bond {
    ghost use Rattle.link_channels.specs.declared.bounds.TheConstants.{MAX_LINKS};
    ghost use Rattle.std.specs.Prelude.{◌≡◌, ◌≤◌};
    ghost use Rattle.sender_rules.specs.Bonding.{Bonding, link_count};
    ghost use Rattle.bond_links.specs.Plans.{bonding_of};

    ghost Value = { Bonding };

    ghost view = { λ b. bonding_of b.links b.weights };

    ghost invariant = { λ b. (1 ≤ b.links) × (b.links ≤ MAX_LINKS) × (link_count (bonding_of b.links b.weights) ≡ b.links) };
}

impl Bond {
    ghost use Rattle.std.specs.Prelude.{◌≡◌, ◌≤◌, ◌<◌, length, false, IfSome};
    ghost use Rattle.std.specs.List.{All};
    ghost use Rattle.link_channels.specs.declared.bounds.TheConstants.{MAX_LINKS};
    ghost use Rattle.sender_rules.specs.Bonding.{Duplicate, Share, link_count, next_up, planned_links};
    ghost use Rattle.bond_links.specs.Plans.{HasItsPlace, plan_of, links_of, is_down};

    /// Each packet goes on each of `links` links: 1 to 16.
    pub fn duplicate(links: u8) -> Bond
        requires some { 1 ≤ links }
        requires few { links ≤ MAX_LINKS }
        ensures value { result ≡ Duplicate links }
    {
        Bond {
            links,
            weights: None,
        }
    }

    /// Each packet goes on one link, and of packets that follow one another each link takes as many as its
    /// weight says: one weight for each of 1 to 16 links, each 1 to 255.
    pub fn share(weights: &[u8]) -> Bond
        requires some { 1 ≤ length weights.now }
        requires few { length weights.now ≤ MAX_LINKS }
        requires each { All (λ weight. 1 ≤ weight) weights.now }
        ensures value { result ≡ Share weights.now }
    {
        let weights = Weights::of(weights);
        Bond {
            links: weights.count(),
            weights: Some(weights),
        }
    }

    /// The links of payload `k`, counted from 0, where none is down.
    pub fn plan(&self, k: u64) -> Plan
        ensures value { result ≡ plan_of self.now k }
        ensures links { links_of self.now result ≡ planned_links (λ link. false) self.now k }
        ensures place { HasItsPlace self.now k result }
    {
        match &self.weights {
            None => Plan::All,
            Some(weights) => Plan::One(weights.link_for(k)),
        }
    }

    /// The first link from `link` on, cyclically, that isn't down, and `None` exactly where all are. `down` says of each
    /// link whether it is.
    pub fn next_up(&self, link: u8, down: &[bool]) -> Option<u8>
        requires among { link < link_count self.now }
        requires each { length down.now ≡ link_count self.now }
        ensures value { result ≡ next_up (is_down down.now) link (link_count self.now) }
        ensures up { IfSome result (λ up. (up < link_count self.now) × (is_down down.now up ≡ false)) }
    {
        match first_up(down, link, self.links) {
            Some(up) => Some(up),
            None => first_up(down, 0, link),
        }
    }
}

/// The first link between two that isn't down.
fn first_up(down: &[bool], from: u8, to: u8) -> Option<u8>
    requires ordered { from ≤ to }
    requires within { to ≤ length down.now }
    ensures value { result ≡ find (λ link. not (is_down down.now link)) (range_with_len from (to - from)) }
    ensures up { IfSome result (λ up. (up < to) × (is_down down.now up ≡ false)) }
{
    for link in from..to {
        if !down[usize::from(link)] {
            return Some(link);
        }
    }
    None
}
