ghost use Rattle.std.specs.Prelude.{◌≡◌, ◌+◌, ◌/◌, ◌^◌, ◌<◌, ◌≤◌, IfSome};
ghost use Rattle.seq_unwrap.specs.Nearest.{cycle_of, nearest, unwrapped, IsNearest};

use crate::width::Width;

/// Numbers end below this one.
pub const MAX_NUMBER: u64 = 1 << 62;

/// The number whose lowest bits are `word` and that lies nearest to `reference`: from half a cycle
/// below it to less than half a cycle above it. A reference is at least 2^32, so that none of them lies
/// below 0.
#[tactic(auto, unfolding(crate::specs::Nearest::nearest))]
pub fn nearest(reference: u64, width: Width, word: u32) -> u64
    requires word { word < cycle_of width }
    requires low { 2 ^ 32 ≤ reference }
    requires high { reference < 2 ^ 62 }
    ensures value { result ≡ nearest (cycle_of width) reference word }
    ensures within { result < reference + 2 ^ 31 }
{
    let cycle = width.cycle();
    let low = reference - cycle / 2;
    low + (u64::from(word) + cycle - low % cycle) % cycle
}

/// The number that `word` stands for beside `reference`, and `None` exactly where that is `MAX_NUMBER`
/// or more: the number space has ended.
pub fn unwrap(reference: u64, width: Width, word: u32) -> Option<u64>
    requires word { word < cycle_of width }
    requires low { 2 ^ 32 ≤ reference }
    requires high { reference < 2 ^ 62 }
    ensures value { result ≡ unwrapped reference width word }
    ensures near { IfSome result (IsNearest (cycle_of width) reference word) }
{
    let number = nearest(reference, width, word);
    if number < MAX_NUMBER {
        Some(number)
    } else {
        None
    }
}
