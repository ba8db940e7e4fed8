use bond_links::{Bond, Plan};
use std::process::Abort;

fn assert_plan(rt: &impl Abort, bond: &Bond, k: u64, want: Plan) {
    assert!(rt; bond.plan(k) == want);
}

#[test]
fn shared_packets_go_by_weight(rt: HostRuntime) {
    assert_plan(&rt, &Bond::share(&[100]), u64::MAX, Plan::One(0));
    let three_to_one = Bond::share(&[3, 1]);
    assert_plan(&rt, &three_to_one, 0, Plan::One(0));
    assert_plan(&rt, &three_to_one, 1, Plan::One(0));
    assert_plan(&rt, &three_to_one, 2, Plan::One(0));
    assert_plan(&rt, &three_to_one, 3, Plan::One(1));
    assert_plan(&rt, &three_to_one, 4, Plan::One(0));
    // 2^64 - 1 is 15 modulo 16.
    let sixteen = Bond::share(&[1; 16]);
    assert_plan(&rt, &sixteen, u64::MAX, Plan::One(15));
    assert_plan(&rt, &sixteen, u64::MAX - 15, Plan::One(0));
    // 2^64 - 1 is 15 modulo 100, and 2^64 - 16 is 0.
    let uneven = Bond::share(&[1, 14, 85]);
    assert_plan(&rt, &uneven, u64::MAX, Plan::One(2));
    assert_plan(&rt, &uneven, u64::MAX - 1, Plan::One(1));
    assert_plan(&rt, &uneven, u64::MAX - 15, Plan::One(0));
}

#[test]
fn duplicated_packets_go_on_each_link(rt: HostRuntime) {
    assert_plan(&rt, &Bond::duplicate(1), 0, Plan::All);
    assert_plan(&rt, &Bond::duplicate(16), u64::MAX, Plan::All);
}

#[test]
fn a_link_that_is_down_hands_its_packets_on(rt: HostRuntime) {
    let bond = Bond::share(&[3, 1, 1, 1]);
    let next = [
        bond.next_up(3, &[false, true, true, false]),
        bond.next_up(1, &[false, true, true, false]),
        bond.next_up(2, &[false, true, true, true]),
        bond.next_up(2, &[true, true, true, true]),
    ];
    assert!(rt; next == [Some(3), Some(3), Some(0), None]);
    let two = Bond::duplicate(2);
    assert!(rt; two.next_up(1, &[false, true]) == Some(0));
}
