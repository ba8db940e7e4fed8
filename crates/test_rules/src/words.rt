//! Numbers become words.
use request_rules::{AskWord, Asked, NackKind};
use std::process::Abort;

/// 11 and 12 share a word of this kind.
fn assert_shared(rt: &impl Abort, kind: NackKind, second: u16) {
    let mut asked = Asked::none();
    assert!(rt; asked.is_empty());
    assert!(rt; asked.add(kind, 11));
    assert!(rt; asked.add(kind, 12));
    assert!(rt; asked.words() == [AskWord { first: 11, second }].as_slice());
    assert!(rt; !asked.is_empty());
}

#[test]
fn numbers_that_follow_one_another_share_a_word(rt: HostRuntime) {
    assert_shared(&rt, NackKind::Range, 1);
    assert_shared(&rt, NackKind::Mask, 1);
}
