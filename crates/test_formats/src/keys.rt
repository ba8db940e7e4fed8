use aes_block::Key;
use psk_keys::{Keys, Phrase, hmac, pbkdf2};
use std::process::Abort;
use std::test::Fail;

static COUNT_TO_25: [u8; 25] = [
    1, 2, 3, 4, 5, 6, 7, 8, 9, 10, 11, 12, 13, 14, 15, 16, 17, 18, 19, 20, 21, 22, 23, 24, 25,
];

// Octets against their two halves in base 16.
fn assert_octets(rt: &impl Abort, octets: [u8; 32], high: u128, low: u128) {
    assert!(rt; octets[..16] == high.to_be_bytes()[..]);
    assert!(rt; octets[16..] == low.to_be_bytes()[..]);
}

fn assert_code(rt: &impl Abort, key: &[u8], text: &[u8], high: u128, low: u128) {
    assert_octets(rt, hmac(key, text), high, low);
}

// RFC 4231, test cases 1 to 4, 6 and 7.
#[test]
fn the_standards_codes_are_met(rt: HostRuntime) {
    assert_code(
        &rt,
        &[0x0b; 20],
        b"Hi There",
        0xb0344c61d8db38535ca8afceaf0bf12b,
        0x881dc200c9833da726e9376c2e32cff7,
    );
    assert_code(
        &rt,
        b"Jefe",
        b"what do ya want for nothing?",
        0x5bdcc146bf60754e6a042426089575c7,
        0x5a003f089d2739839dec58b964ec3843,
    );
    assert_code(
        &rt,
        &[0xaa; 20],
        &[0xdd; 50],
        0x773ea91e36800e46854db8ebd09181a7,
        0x2959098b3ef8c122d9635514ced565fe,
    );
    assert_code(
        &rt,
        &COUNT_TO_25,
        &[0xcd; 50],
        0x82558a389a443c0ea4cc819899f2083a,
        0x85f0faa3e578f8077a2e3ff46729665b,
    );
    assert_code(
        &rt,
        &[0xaa; 131],
        b"Test Using Larger Than Block-Size Key - Hash Key First",
        0x60e431591ee0b67f0d8a26aacbf5b77f,
        0x8e0bc6213728c5140546040f0ee37f54,
    );
    assert_code(
        &rt,
        &[0xaa; 131],
        b"This is a test using a larger than block-size key and a larger than block-size data. The key needs to be hashed before being used by the HMAC algorithm.",
        0x9b09ffa71b942fcb27635fbcd5b0e944,
        0xbfdc63644f0713938a7f51535c3a35e2,
    );
}

// RFC 4231, test case 5, whose code is cut to 16 octets.
#[test]
fn a_cut_code_is_met(rt: HostRuntime) {
    let code = hmac(&[0x0c; 20], b"Test With Truncation");
    assert!(rt; code[..16] == 0xa3b6167473100ee06e0c796c2955552b_u128.to_be_bytes()[..]);
}

#[test]
fn a_key_of_one_round_and_of_many_is_met(rt: HostRuntime) {
    assert_octets(
        &rt,
        pbkdf2(b"password", b"salt", 1),
        0x120fb6cffcf8b32c43e7225256c4f837,
        0xa86548c92ccc35480805987cb70be17b,
    );
    assert_octets(
        &rt,
        pbkdf2(b"password", b"salt", 4096),
        0xc5e478d59288c841aa530db6845c4c8d,
        0x962893a001ce4e11a4963873aa98134a,
    );
    // RFC 7914, section 11: the first half of its first key.
    assert_octets(
        &rt,
        pbkdf2(b"passwd", b"salt", 1),
        0x55ac046e56e3089fec1691c22544b605,
        0xf94185216dde0465e68b9d57c20dacbc,
    );
}

#[test]
fn a_phrase_keeps_its_octets(rt: HostRuntime) {
    assert!(rt; Phrase::of(b"p").octets() == b"p".as_slice());
    let longest = [0x7e; 128];
    assert!(rt; Phrase::of(&longest).octets() == longest.as_slice());
}

// Python's hashlib: pbkdf2_hmac('sha256', b'correct horse', nonce, 1024), of the nonces 1 and 5.
const FIRST: (u128, u128) = (
    0x89eab5119215f773089c8d36b10231b0,
    0x9ca4a1f6b726ceb7aba89a2140e0ccca,
);

const FIFTH: (u128, u128) = (
    0x6878b913e02d0be7fccdcb0f5d57bc9c,
    0x435db3971ca68005344b048ed2f9cc90,
);

#[test]
fn the_first_key_comes_again_after_a_fifth(rt: HostRuntime) -> Result<(), Fail> {
    let mut keys = Keys::with(rt.alloc(), Phrase::of(b"correct horse"), 256)?;
    for nonce in [1_u32, 2, 3, 4, 5, 1, 1] {
        let key = keys.key_for(nonce.to_be_bytes());
        let want = pbkdf2(b"correct horse", &nonce.to_be_bytes(), 1024);
        assert!(rt; key.octets() == want.as_slice(), "nonce {nonce}");
        if let Key::Long(octets) = key
            && (nonce == 1 || nonce == 5)
        {
            let (high, low) = if nonce == 1 { FIRST } else { FIFTH };
            assert_octets(&rt, octets, high, low);
        }
    }
    assert!(rt; keys.cached() == 4);
    let mut short = Keys::with(rt.alloc(), Phrase::of(b"correct horse"), 128)?;
    let key = short.key_for([0, 0, 0, 1]);
    assert!(rt; key.octets() == FIRST.0.to_be_bytes().as_slice());
    assert!(rt; short.cached() == 1);
    short.turn_to([0, 0, 0, 1]);
    assert!(rt; short.latest().key().octets() == FIRST.0.to_be_bytes().as_slice());
    assert!(rt; short.cached() == 1);
    Ok(())
}
