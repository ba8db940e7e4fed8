//! Links and clocks, handed to the sending end and given back.
ghost use Rattle.std.specs.Prelude.{◌≡◌, ◌≤◌, ◌+◌, ◌++◌, ℕ, [], length, take, drop, vec_capacity};

/// Hands on all but the first ones, so many, in their order.
pub(crate) fn hand_on<X: Drop>(all: &mut Vec<X>, count: usize, onward: &mut Vec<X>)
    requires many { count ≤ length all.old.items }
    requires room { count ≤ vec_capacity onward.old }
    requires none { onward.old.items ≡ [] }
    ensures apart { (first : ℕ) → length all.old.items ≡ first + count
        → (all.new.items ≡ take first all.old.items) × (onward.new.items ≡ drop first all.old.items) }
    ensures room { vec_capacity all.new ≡ vec_capacity all.old }
{
    let mut left = count;
    while left > 0 {
        let Some(one) = all.pop() else { unreachable!() };
        left -= 1;
        let _ = onward.push(one);
    }
    onward.reverse();
}

/// Gives them back, behind those that are there.
pub(crate) fn give_back<X: Drop>(mut onward: Vec<X>, all: &mut Vec<X>)
    requires room { length all.old.items + length onward.items ≤ vec_capacity all.old }
    ensures value { all.new.items ≡ all.old.items ++ onward.items }
    ensures room { vec_capacity all.old ≤ vec_capacity all.new }
{
    onward.reverse();
    while let Some(one) = onward.pop() {
        let _ = all.push(one);
    }
}
