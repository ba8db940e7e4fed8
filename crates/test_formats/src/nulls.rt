use std::test::Fail;
use ts_nulls::{NullBad, Strip, can_restore, restore, strip};

const NULL: [u8; 4] = [0x47, 0x1f, 0xff, 0x10];

// Begins a packet at this place, with these two octets of its PID.
fn mark(payload: &mut [u8; 2048], at: usize, high: u8, low: u8) {
    if at < 2044 {
        payload[at] = 0x47;
        payload[at + 1] = high;
        payload[at + 2] = low;
    }
}

#[test]
fn null_packets_return_to_their_places(rt: HostRuntime) -> Result<(), Fail> {
    let mut payload = [0xab; 2048];
    for (at, high) in [
        (0, 0xff),
        (188, 0x41),
        (376, 0x41),
        (564, 0x1f),
        (752, 0x41),
        (940, 0x41),
        (1128, 0x3f),
    ] {
        mark(&mut payload, at, high, 0xff);
    }
    let mut sent = [0; 1500];
    let (told, len) = strip(payload.get(..1316).ok_or("1316")?, &mut sent).ok_or("three nulls")?;
    assert!(rt; (told.units, told.long, told.nulls, len) == (7, false, 0x49, 752));
    let mut whole = [0; 1500];
    let part = sent.get(..len).ok_or("752")?;
    assert!(rt; can_restore(&told, part));
    assert!(rt; restore(&told, part, &mut whole) == Ok(1316));
    for at in [0, 564, 1128] {
        assert!(rt; whole.get(at..).ok_or("at")?.starts_with(&NULL), "at {at}");
    }
    assert!(rt; whole.get(188..564).ok_or("kept")? == payload.get(188..564).ok_or("kept")?);
    Ok(())
}

#[test]
fn nothing_is_written_of_a_payload_of_another_length(rt: HostRuntime) {
    let told = Strip {
        units: 2,
        long: false,
        nulls: 0x40,
    };
    let mut out = [9; 1500];
    // One packet of 188 octets was kept.
    for payload in [&[0x47; 187][..], &[0x47; 189], &[]] {
        assert!(rt; !can_restore(&told, payload));
        assert!(rt; restore(&told, payload, &mut out) == Err(NullBad::Shape));
    }
    assert!(rt; out == [9; 1500]);
}

#[test]
fn a_payload_of_nulls_alone_is_sent_empty(rt: HostRuntime) -> Result<(), Fail> {
    let mut payload = [0xff; 2048];
    for at in [0, 204, 408, 612, 816, 1020, 1224] {
        mark(&mut payload, at, 0x1f, 0xff);
    }
    let mut out = [0; 1500];
    let (told, len) = strip(payload.get(..1428).ok_or("1428")?, &mut out).ok_or("seven nulls")?;
    assert!(rt; (told.units, told.long, told.nulls, len) == (7, true, 0x7f, 0));
    assert!(rt; restore(&told, &[], &mut out) == Ok(1428));
    Ok(())
}

#[test]
fn other_payloads_stay_as_they_are(rt: HostRuntime) -> Result<(), Fail> {
    let mut payload = [0xff; 2048];
    mark(&mut payload, 0, 0x1f, 0xff);
    let mut out = [0; 1500];
    // No whole packets, or a second one that begins otherwise.
    for len in [0, 187, 376, 1317, 1504] {
        assert!(rt;
            strip(payload.get(..len).ok_or("len")?, &mut out).is_none(),
            "at {len}"
        );
    }
    assert!(rt; strip(payload.get(..188).ok_or("188")?, &mut out).is_some());
    mark(&mut payload, 0, 0x1f, 0xfe);
    assert!(rt; strip(payload.get(..188).ok_or("188")?, &mut out).is_none());
    assert!(rt; format!(in rt.alloc(); "{}", NullBad::Shape)?.as_str() == "nulls shape");
    Ok(())
}
