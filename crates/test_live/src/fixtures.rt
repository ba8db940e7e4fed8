//! What several rows take: the words of a line, and RTP packets of one letter.
use std::alloc::Global;
use std::test::Fail;

/// The words between blanks.
pub(crate) fn words(alloc: Global, line: &str) -> Result<Vec<String>, Fail> {
    let mut words = Vec::new(alloc);
    for word in line.split(' ') {
        words.push(String::from_str(alloc, word)?)?;
    }
    Ok(words)
}

/// An RTP packet of one letter, with this timestamp and this last octet of the SSRC.
pub(crate) fn packet(number: u8, stamp: u16, ssrc: u8, letter: u8) -> [u8; 13] {
    let [high, low] = stamp.to_be_bytes();
    [
        0x80, 0x21, 0, number, 0, 0, high, low, 0x10, 0x20, 0x30, ssrc, letter,
    ]
}

/// The packet of a letter as it comes in: A has number 10, B 11, and so on, 10 ms apart.
pub(crate) fn brought(letter: u8) -> [u8; 13] {
    let place = letter.wrapping_sub(b'A');
    packet(
        place.wrapping_add(10),
        (place as u16).wrapping_mul(900),
        0x40,
        letter,
    )
}
