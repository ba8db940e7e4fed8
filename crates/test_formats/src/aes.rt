use aes_block::{Aes, Key};
use std::process::Abort;
use std::simd::prelude::*;

// The octets of two halves in base 16.
fn long_key(high: u128, low: u128) -> Key {
    let [
        a0,
        a1,
        a2,
        a3,
        a4,
        a5,
        a6,
        a7,
        a8,
        a9,
        a10,
        a11,
        a12,
        a13,
        a14,
        a15,
    ] = high.to_be_bytes();
    let [
        b0,
        b1,
        b2,
        b3,
        b4,
        b5,
        b6,
        b7,
        b8,
        b9,
        b10,
        b11,
        b12,
        b13,
        b14,
        b15,
    ] = low.to_be_bytes();
    Key::Long([
        a0, a1, a2, a3, a4, a5, a6, a7, a8, a9, a10, a11, a12, a13, a14, a15, b0, b1, b2, b3, b4,
        b5, b6, b7, b8, b9, b10, b11, b12, b13, b14, b15,
    ])
}

fn assert_enciphered(rt: &impl Abort, key: &Key, block: u128, expected: u128) {
    let expected = expected.to_be_bytes();
    let mut octets = block.to_be_bytes();
    let aes = Aes::new(key);
    assert!(rt; aes.key().octets() == key.octets());
    aes.encrypt(&mut octets);
    assert!(rt; octets == expected);
    let lanes = u8x16::from_array(block.to_be_bytes());
    let zeros = u8x16::splat(0);
    let (_, second, _, fourth) = aes.encrypt_four((zeros, lanes, zeros, lanes));
    assert!(rt; second.to_array() == expected);
    assert!(rt; fourth.to_array() == expected);
}

// FIPS 197, appendices B, C.1 and C.3.
#[test]
fn the_standards_examples_are_met(rt: HostRuntime) {
    let plain = 0x00112233445566778899aabbccddeeff;
    let short = 0x000102030405060708090a0b0c0d0e0f;
    assert_enciphered(
        &rt,
        &Key::Short(0x2b7e151628aed2a6abf7158809cf4f3c_u128.to_be_bytes()),
        0x3243f6a8885a308d313198a2e0370734,
        0x3925841d02dc09fbdc118597196a0b32,
    );
    assert_enciphered(
        &rt,
        &Key::Short(0x000102030405060708090a0b0c0d0e0f_u128.to_be_bytes()),
        plain,
        0x69c4e0d86a7b0430d8cdb78070b4c55a,
    );
    assert_enciphered(
        &rt,
        &long_key(short, 0x101112131415161718191a1b1c1d1e1f),
        plain,
        0x8ea2b7ca516745bfeafc49904b496089,
    );
}
