ghost use Rattle.std.specs.Prelude.{◌≤◌, length};

use aes_block::{Aes, Key};
use aes_ctr::apply;
use std::process::Abort;

// The keystream from the last counter block on: its first 33 octets, and those that end at 1,500 and
// at 2,048, after another implementation (OpenSSL 3.0).
static BEGIN: [u8; 33] = [
    0x8a, 0xf2, 0x86, 0x01, 0x42, 0xf7, 0x86, 0xf4, 0x09, 0x30, 0x7c, 0x1a, 0x3f, 0x7e, 0xaa, 0xac,
    0x7d, 0xf7, 0x6b, 0x0c, 0x1a, 0xb8, 0x99, 0xb3, 0x3e, 0x42, 0xf0, 0x47, 0xb9, 0x1b, 0x54, 0x6f,
    0x57,
];

static END_1500: [u8; 33] = [
    0xf6, 0x91, 0x05, 0x45, 0x6c, 0x28, 0xa2, 0x0c, 0x44, 0xbf, 0x10, 0xee, 0x3d, 0x11, 0x69, 0x50,
    0x43, 0x2c, 0x50, 0x8c, 0x22, 0x37, 0x7e, 0x51, 0xc1, 0x4e, 0x78, 0x8f, 0x1e, 0x22, 0xe4, 0x27,
    0x4b,
];

static END_2048: [u8; 33] = [
    0x1b, 0x77, 0x08, 0xd6, 0xea, 0x81, 0x3c, 0x95, 0xd3, 0x41, 0x6e, 0x02, 0x4a, 0x3e, 0xf3, 0xcc,
    0xd1, 0x3a, 0x53, 0x6d, 0xaa, 0xf7, 0x51, 0xde, 0x5d, 0x88, 0x81, 0x5b, 0x17, 0x4e, 0x85, 0x3a,
    0xa6,
];

// The key of SP 800-38A, section F.5.1.
fn short_key() -> Aes {
    Aes::new(&Key::Short(0x2b7e151628aed2a6abf7158809cf4f3c_u128.to_be_bytes()))
}

fn four_blocks(blocks: [u128; 4]) -> [u8; 64] {
    let mut octets = [0; 64];
    octets[..16].copy_from_slice(&blocks[0].to_be_bytes());
    octets[16..32].copy_from_slice(&blocks[1].to_be_bytes());
    octets[32..48].copy_from_slice(&blocks[2].to_be_bytes());
    octets[48..].copy_from_slice(&blocks[3].to_be_bytes());
    octets
}

// The text of SP 800-38A, section F.5, enciphered.
fn example(aes: &Aes) -> [u8; 64] {
    let mut text = four_blocks([
        0x6bc1bee22e409f96e93d7e117393172a,
        0xae2d8a571e03ac9c9eb76fac45af8e51,
        0x30c81c46a35ce411e5fbc1191a0a52ef,
        0xf69f2445df4f9b17ad2b417be66c3710,
    ]);
    let first = 0xf0f1f2f3f4f5f6f7f8f9fafbfcfdfeff_u128.to_be_bytes();
    apply(aes, first, &mut text);
    text
}

// SP 800-38A, sections F.5.1 and F.5.5.
#[test]
fn the_standards_four_blocks_are_met(rt: HostRuntime) {
    let expected = four_blocks([
        0x874d6191b620e3261bef6864990db6ce,
        0x9806f66b7970fdff8617187bb9fffdff,
        0x5ae4df3edbd5d35e5b4f09020db03eab,
        0x1e031dda2fbe03d1792170a0f3009cee,
    ]);
    assert!(rt; example(&short_key()) == expected);
    let mut long = [0; 32];
    long[..16].copy_from_slice(&0x603deb1015ca71be2b73aef0857d7781_u128.to_be_bytes());
    long[16..].copy_from_slice(&0x1f352c073b6108d72d9810a30914dff4_u128.to_be_bytes());
    let expected = four_blocks([
        0x601ec313775789a5b7a7f504bbf3d228,
        0xf443e3ca4d62b59aca84e990cacaf5c5,
        0x2b0930daa23de94ce87017ba2d84988d,
        0xdfc9c58db67aada613c2dd08457941a6,
    ]);
    assert!(rt; example(&Aes::new(&Key::Long(long))) == expected);
}

// The first octets of the keystream, and zeros.
fn keystream(count: usize) -> [u8; 2048]
    requires { count ≤ 2048 }
{
    let mut text = [0; 2048];
    apply(&short_key(), [0xff; 16], &mut text[..count]);
    text
}

// The keystream ends with the last so many of these octets, and nothing behind it is touched.
fn assert_keystream_ends(rt: &impl Abort, count: usize, expected: &[u8])
    requires fits { length expected.now ≤ count }
    requires most { count ≤ 2048 }
{
    let text = keystream(count);
    assert!(rt;
        text[count - expected.len()..count] == expected[..],
        "{count} octets"
    );
    assert!(rt;
        text[count..] == [0; 2048][count..],
        "behind {count} octets"
    );
}

#[test]
fn a_text_of_any_length_has_its_part_of_the_keystream_after_a_wrap(rt: HostRuntime) {
    for count in [0, 1, 15, 16, 17, 31, 33] {
        assert_keystream_ends(&rt, count, &BEGIN[..count]);
    }
    assert_keystream_ends(&rt, 1500, &END_1500);
    assert_keystream_ends(&rt, 2048, &END_2048);
}
