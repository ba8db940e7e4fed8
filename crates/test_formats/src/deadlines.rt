//! A change and each search, at few places.
use deadline_index::{DeadlineIndex, NEVER};
use std::process::Abort;
use std::test::Fail;

fn assert_first(
    rt: &impl Abort,
    index: &DeadlineIndex,
    start: usize,
    tick: u64,
    want: Option<usize>,
) {
    assert!(rt; index.first_by(start, tick) == want);
}

fn assert_any(rt: &impl Abort, index: &DeadlineIndex, tick: u64, want: bool) {
    assert!(rt; index.is_any_by(tick) == want);
}

#[test]
fn the_places_that_are_due_are_found_in_order(rt: HostRuntime) -> Result<(), Fail> {
    let mut index = DeadlineIndex::with_places(rt.alloc(), 5)?;
    assert_first(&rt, &index, 0, NEVER - 1, None);
    assert_any(&rt, &index, NEVER - 1, false);
    index.set(3, 70);
    index.set(1, 90);
    index.set(4, 80);
    assert_any(&rt, &index, 69, false);
    assert_any(&rt, &index, 70, true);
    assert_first(&rt, &index, 0, 90, Some(1));
    assert_first(&rt, &index, 2, NEVER - 1, Some(3));
    index.set(1, NEVER);
    assert_first(&rt, &index, 0, NEVER - 1, Some(3));
    Ok(())
}
