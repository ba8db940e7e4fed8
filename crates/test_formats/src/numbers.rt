use seq_unwrap::{MAX_NUMBER, Width, nearest, unwrap};

#[test]
fn a_word_stands_for_the_nearest_number(rt: HostRuntime) {
    let last = MAX_NUMBER - 1;
    let middle = (1 << 40) + 10;
    // The distance of half a cycle goes down.
    let numbers = [
        unwrap(last, Width::W16, 0),
        unwrap(last, Width::W16, 65_535),
        unwrap(middle, Width::W16, 32_778),
        unwrap(middle, Width::W16, 32_777),
        unwrap(middle, Width::W32, 0),
        unwrap(middle, Width::W32, (1 << 31) + 10),
        unwrap(middle, Width::W32, (1 << 31) + 9),
    ];
    let expected = [
        None,
        Some(last),
        Some((1 << 40) - 32_758),
        Some((1 << 40) + 32_777),
        Some(1 << 40),
        Some((1 << 40) + 10 - (1 << 31)),
        Some((1 << 40) + 9 + (1 << 31)),
    ];
    assert!(rt; numbers == expected);
    assert!(rt; nearest(last, Width::W16, 0) == MAX_NUMBER);
    assert!(rt; [Width::W16.cycle(), Width::W32.cycle()] == [65_536, 4_294_967_296]);
}
