use octet_fields::{is_set, put_at, u16_at, u32_at, u64_at};

#[test]
fn the_highest_octet_comes_first_and_the_least_bit_is_0(rt: HostRuntime) {
    let octets = [0xff, 1, 2, 3, 4, 5, 6, 7, 8, 0xff];
    assert!(rt; u16_at(&octets, 1) == 0x0102 && u16_at(&octets, 8) == 0x08ff);
    assert!(rt; u32_at(&octets, 1) == 0x01020304 && u64_at(&octets, 1) == 0x0102030405060708);
    assert!(rt;
        is_set(0x8001, 0) && is_set(0x8001, 15) && !is_set(0x8001, 1) && !is_set(0x8001, 14)
    );
}

#[test]
fn parts_stand_one_after_another(rt: HostRuntime) {
    let mut block = [0xff; 7];
    let first = put_at(&mut block, 1, &[1, 2]);
    let second = put_at(&mut block, first, &[]);
    let third = put_at(&mut block, second, &0x0304_u16.to_be_bytes());
    let last = put_at(&mut block, 7, &[]);
    assert!(rt; [first, second, third, last] == [3, 3, 5, 7]);
    assert!(rt; block == [0xff, 1, 2, 3, 4, 0xff, 0xff]);
}
