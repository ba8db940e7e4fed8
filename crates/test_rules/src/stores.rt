//! Stores beside what the standards and the rules say of words, places and marks.
ghost use Rattle.std.specs.Prelude.{◌≡◌, ◌≤◌, ◌<◌, ◌+◌, ◌^◌, IsTrue, IsSome};
ghost use Rattle.sender_rules.specs.Stored.{packet_with};
ghost use Rattle.retransmit_store.specs.State.{packets_in};

use retransmit_store::{Sent, Store};
use seq_unwrap::Width;
use std::alloc::{AllocError, Global};
use std::process::Abort;
use std::test::Fail;

/// A packet whose payload is its number, in eight octets.
fn packet(number: u64) -> Sent
    ensures { result.number ≡ number }
{
    Sent::with(number, 7, None, &number.to_be_bytes())
}

/// A store after `count` packets, from `first` on.
fn filled(alloc: Global, size: usize, first: u64, count: u64) -> Result<Store, AllocError>
    requires some { 1 ≤ size }
    requires few { size ≤ 65536 }
    requires within { first + count < 2 ^ 64 }
{
    let mut store = Store::with_size(alloc, size)?;
    for number in first..first + count {
        store.put(packet(number));
    }
    Ok(store)
}

/// Whether the packet with a number is stored, with the payload that it had.
fn copies(store: &Store, number: u64) -> bool
    ensures { IsTrue result → IsSome (packet_with (packets_in store.now) number) }
{
    match store.copy(number) {
        Some(sent) => sent.number() == number && sent.payload() == number.to_be_bytes().as_slice(),
        None => false,
    }
}

fn assert_narrow(rt: &impl Abort, store: &Store, word: u16, want: Option<u64>) {
    assert!(rt; store.find(Width::W16, u32::from(word)) == want);
}

fn assert_wide(rt: &impl Abort, store: &Store, word: u32, want: Option<u64>) {
    assert!(rt; store.find(Width::W32, word) == want);
}

fn assert_stored(rt: &impl Abort, store: &Store, number: u64, want: bool) {
    assert!(rt; copies(store, number) == want);
}

fn assert_marked(rt: &impl Abort, store: &Store, number: u64, want: Option<u64>) {
    assert!(rt; store.marked(number) == want);
}

#[test]
fn words_find_the_last_packets_across_a_cycle(rt: HostRuntime) -> Result<(), Fail> {
    // 65,530 to 65,541 were sent, and eight are stored.
    let store = filled(rt.alloc(), 8, 65_530, 12)?;
    assert_narrow(&rt, &store, 65_533, None);
    assert_narrow(&rt, &store, 65_534, Some(65_534));
    assert_narrow(&rt, &store, 65_535, Some(65_535));
    assert_narrow(&rt, &store, 0, Some(65_536));
    assert_narrow(&rt, &store, 5, Some(65_541));
    assert_narrow(&rt, &store, 6, None);
    assert_wide(&rt, &store, 0, None);
    assert_wide(&rt, &store, 65_533, None);
    assert_wide(&rt, &store, 65_536, Some(65_536));
    Ok(())
}

#[test]
fn words_find_the_last_packets_across_a_wide_cycle(rt: HostRuntime) -> Result<(), Fail> {
    // 2^32 - 6 to 2^32 + 5 were sent, and eight are stored.
    let store = filled(rt.alloc(), 8, 4_294_967_290, 12)?;
    assert_wide(&rt, &store, 4_294_967_293, None);
    assert_wide(&rt, &store, 4_294_967_294, Some(4_294_967_294));
    assert_wide(&rt, &store, 0, Some(4_294_967_296));
    assert_wide(&rt, &store, 5, Some(4_294_967_301));
    assert_wide(&rt, &store, 6, None);
    assert_narrow(&rt, &store, 65_534, Some(4_294_967_294));
    assert_narrow(&rt, &store, 5, Some(4_294_967_301));
    Ok(())
}

#[test]
fn an_empty_store_finds_nothing(rt: HostRuntime) -> Result<(), Fail> {
    let store = filled(rt.alloc(), 1, 0, 0)?;
    assert_narrow(&rt, &store, 0, None);
    assert_stored(&rt, &store, 0, false);
    Ok(())
}

#[test]
fn a_store_of_one_keeps_the_newest(rt: HostRuntime) -> Result<(), Fail> {
    let store = filled(rt.alloc(), 1, 10, 3)?;
    assert_narrow(&rt, &store, 11, None);
    assert_narrow(&rt, &store, 12, Some(12));
    assert_stored(&rt, &store, 11, false);
    assert_stored(&rt, &store, 12, true);
    assert_stored(&rt, &store, 13, false);
    Ok(())
}

#[test]
fn a_store_of_a_whole_cycle_finds_every_word_once(rt: HostRuntime) -> Result<(), Fail> {
    // 0 to 65,536 were sent: 0 has just left, and its word is 65,536's.
    let store = filled(rt.alloc(), 65_536, 0, 65_537)?;
    assert_narrow(&rt, &store, 0, Some(65_536));
    assert_wide(&rt, &store, 0, None);
    assert_narrow(&rt, &store, 1, Some(1));
    assert_narrow(&rt, &store, 65_535, Some(65_535));
    assert_stored(&rt, &store, 0, false);
    assert_stored(&rt, &store, 1, true);
    assert_stored(&rt, &store, 65_536, true);
    Ok(())
}

/// Marks the packet with a number, if it is stored.
fn mark(store: &mut Store, number: u64, at: u64) {
    if copies(store, number) {
        store.mark(number, at);
    }
}

#[test]
fn a_mark_is_kept_with_its_packet_alone(rt: HostRuntime) -> Result<(), Fail> {
    let mut store = filled(rt.alloc(), 2, 100, 2)?;
    assert_marked(&rt, &store, 100, None);
    mark(&mut store, 100, 450);
    mark(&mut store, 100, 1_800);
    assert_marked(&rt, &store, 100, Some(1_800));
    assert_marked(&rt, &store, 101, None);
    assert_marked(&rt, &store, 102, None);
    Ok(())
}

#[test]
fn an_emptied_store_takes_any_number_next(rt: HostRuntime) -> Result<(), Fail> {
    let mut store = filled(rt.alloc(), 4, 100, 3)?;
    store.empty();
    assert_narrow(&rt, &store, 102, None);
    store.put(packet(7));
    assert_stored(&rt, &store, 7, true);
    assert_stored(&rt, &store, 102, false);
    assert_narrow(&rt, &store, 7, Some(7));
    Ok(())
}
