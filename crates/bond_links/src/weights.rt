ghost use Rattle.std.specs.Prelude.{◌≡◌, ◌≤◌, length};
ghost use Rattle.std.specs.List.{sum, All};
ghost use Rattle.sender_rules.specs.Bonding.{link_at};

use link_channels::MAX_LINKS;
use std::marker::Model;

/// The weights of links, one to sixteen of them, none of them 0.
#[derive(Debug, Drop)]
pub struct Weights {
    block: [u8; MAX_LINKS],
    count: usize,
    total: u64,
}

impl Model for Weights {
    ghost use Rattle.link_channels.specs.declared.bounds.TheConstants.{MAX_LINKS};
    ghost use Rattle.std.specs.Prelude.{◌≡◌, ◌≤◌, ℕ, List, take};
    ghost use Rattle.std.specs.List.{sum};

    ghost Value = { List ℕ };

    ghost view = { λ w. take w.count w.block };

    ghost invariant = { λ w. (1 ≤ w.total) × (w.count ≤ MAX_LINKS) × (w.total ≡ sum (take w.count w.block)) };
}

impl Weights {
    ghost use Rattle.std.specs.Prelude.{◌≡◌, ◌≤◌, ◌<◌, ◌%◌, length};
    ghost use Rattle.std.specs.List.{sum, All};
    ghost use Rattle.sender_rules.specs.Bonding.{HasPlace, link_for};

    pub fn of(weights: &[u8]) -> Weights
        requires some { 1 ≤ length weights.now }
        requires few { length weights.now ≤ MAX_LINKS }
        requires each { All (λ w. 1 ≤ w) weights.now }
        ensures value { result ≡ weights.now }
    {
        let mut block = [0; MAX_LINKS];
        block[..weights.len()].copy_from_slice(weights);
        Weights {
            block,
            count: weights.len(),
            total: total_of(weights),
        }
    }

    pub fn count(&self) -> u8
        ensures value { result ≡ length self.now }
    {
        self.count as u8
    }

    /// The link of payload `k`.
    pub fn link_for(&self, k: u64) -> u8
        ensures value { result ≡ link_for self.now k }
        ensures place { HasPlace self.now (k % sum self.now) result }
    {
        link_at(&self.block[..self.count], k % self.total)
    }
}

fn total_of(weights: &[u8]) -> u64
    requires some { 1 ≤ length weights.now }
    requires few { length weights.now ≤ MAX_LINKS }
    requires each { All (λ w. 1 ≤ w) weights.now }
    ensures value { result ≡ sum weights.now }
    ensures some { 1 ≤ result }
{
    let mut total = 0;
    for weight in weights {
        total += u64::from(*weight);
    }
    total
}

/// The link that has a place.
fn link_at(weights: &[u8], place: u64) -> u8
    requires few { length weights.now ≤ MAX_LINKS }
    ensures value { result ≡ link_at weights.now place }
{
    let mut left = place;
    for (link, weight) in weights.iter().enumerate() {
        if left < u64::from(*weight) {
            return link as u8;
        }
        left -= u64::from(*weight);
    }
    weights.len() as u8
}
