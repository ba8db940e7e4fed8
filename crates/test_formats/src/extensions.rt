use rist_ext::{ExtBad, ExtWord};
use std::process::Abort;
use std::test::Fail;

/// A word that is read: how many packets of which length there were, which of them were null, and the upper half. What
/// is written again is told last.
fn assert_word(
    rt: &impl Abort,
    octets: &[u8],
    packets: (u8, bool, u8),
    upper: Option<u16>,
    written: &[u8; 4],
) -> Result<(), Fail> {
    let word = ExtWord::read(0x5249, octets).ok().ok_or("a word")?;
    let strip = word.strip.ok_or("a strip")?;
    assert!(rt; (strip.units, strip.long, strip.nulls) == packets);
    assert!(rt; word.upper == upper);
    assert!(rt; word.write() == *written);
    Ok(())
}

#[test]
fn a_word_is_read_and_written_bit_by_bit(rt: HostRuntime) -> Result<(), Fail> {
    // Three of seven packets of 188 octets were null; the reserved bits and the unused half are set.
    let octets = b"\xbf\x49\xff\xff";
    assert_word(&rt, octets, (7, false, 0x49), None, b"\xb8\x49\x00\x00")?;
    // Two packets of 204 octets, bits past them, and an upper half.
    let octets = b"\xd0\xff\x01\x02";
    assert_word(
        &rt,
        octets,
        (2, true, 0x60),
        Some(0x0102),
        b"\xd0\xe0\x01\x02",
    )
}

fn assert_refused(rt: &impl Abort, profile: u16, words: &[u8], bad: ExtBad) {
    assert!(rt; ExtWord::read(profile, words).err() == Some(bad));
}

#[test]
fn the_first_test_that_fails_is_named(rt: HostRuntime) {
    assert_refused(&rt, 0x5248, b"", ExtBad::Profile);
    assert_refused(&rt, 0x5249, b"\x80\x00\x00", ExtBad::Length);
    let long = b"\x80\x40\x00\x00\x00\x00\x00\x00";
    assert_refused(&rt, 0x5249, long, ExtBad::Length);
    assert_refused(&rt, 0x5249, b"\x87\xff\x00\x00", ExtBad::Size);
    assert!(rt; ExtWord::read(0x5249, b"\x07\xff\x00\x00").is_ok());
}

// Extensions without a count of packets: the octets, how many are left of the payload, and how many packets of which length
// there were, which of them null.
static COUNTED: [(&[u8; 4], usize, (u8, bool, u8)); 8] = [
    // The first and the last of three packets: bits from the first place on, and bits of the last places.
    (b"\x80\x50\x00\x00", 188, (3, false, 0x50)),
    (b"\x80\x05\x00\x00", 188, (3, false, 0x50)),
    (b"\x80\xd0\x00\x00", 204, (3, true, 0x50)),
    // One packet, and seven.
    (b"\x80\x40\x00\x00", 0, (1, false, 0x40)),
    (b"\x80\x01\x00\x00", 0, (1, false, 0x40)),
    (b"\x80\x7f\x00\x00", 0, (7, false, 0x7f)),
    // The fourth of four: both would fit, and the bits from the first place on hold.
    (b"\x80\x08\x00\x00", 564, (4, false, 0x08)),
    // A size that is there.
    (b"\xb8\x49\x00\x00", 0, (7, false, 0x49)),
];

#[test]
fn packets_are_counted_where_the_size_is_0(rt: HostRuntime) -> Result<(), Fail> {
    for (octets, left, packets) in &COUNTED {
        let word = ExtWord::read_counted(*left, 0x5249, octets.as_slice());
        let strip = word.ok().ok_or("a word")?.strip.ok_or("a strip")?;
        assert!(rt; (strip.units, strip.long, strip.nulls) == *packets);
    }
    Ok(())
}

// No packet, eight of them, octets that are no whole packets, and bits that are neither of the first places nor of the last.
static NOT_COUNTED: [(&[u8; 4], usize); 4] = [
    (b"\x80\x00\x00\x00", 0),
    (b"\x80\x7f\x00\x00", 188),
    (b"\x80\x40\x00\x00", 100),
    (b"\x80\x14\x00\x00", 188),
];

// The first test that such an extension fails.
fn refusal(left: usize, profile: u16, octets: &[u8]) -> Option<ExtBad> {
    match ExtWord::read_counted(left, profile, octets) {
        Ok(_) => None,
        Err(bad) => Some(bad),
    }
}

#[test]
fn a_size_of_0_is_refused_where_it_says_no_packets(rt: HostRuntime) {
    for (octets, left) in &NOT_COUNTED {
        assert!(rt; refusal(*left, 0x5249, octets.as_slice()) == Some(ExtBad::Size));
    }
    assert!(rt; refusal(188, 0x5248, b"\x80\x40\x00\x00") == Some(ExtBad::Profile));
}

#[test]
fn a_refusal_is_printed_by_its_name(rt: HostRuntime) -> Result<(), Fail> {
    assert!(rt; format!(in rt.alloc(); "{}", ExtBad::Size)?.as_str() == "extension size");
    Ok(())
}
