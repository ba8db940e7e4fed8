use receiver_rules::tick_of;

#[test]
fn microseconds_become_whole_ticks(rt: HostRuntime) {
    let ticks = [
        tick_of(111),
        tick_of(112),
        tick_of(1_000_000),
        tick_of(1_009_989),
        tick_of(1_010_000),
    ];
    assert!(rt; ticks == [9, 10, 90_000, 90_899, 90_900]);
}
