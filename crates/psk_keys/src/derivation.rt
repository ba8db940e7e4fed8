//! PBKDF2 with HMAC over SHA-256, one block (RFC 8018, section 5.2).

ghost use Rattle.std.specs.Prelude.{◌≡◌, ◌≤◌, bit_xor};
ghost use Rattle.std.specs.Simd.Lanes.{zip2};
ghost use Rattle.psk_keys.specs.Pbkdf2.{pbkdf2};

use crate::mac::Mac;

/// A key of 32 octets from a passphrase and a salt, after so many rounds (RFC 8018, section 5.2).
pub fn pbkdf2(pass: &[u8], salt: &[u8], rounds: u32) -> [u8; 32]
    requires rounds { 1 ≤ rounds }
    ensures key { result ≡ pbkdf2 pass.now salt.now rounds }
{
    let mac = Mac::of(pass);
    let mut value = mac.code_of_parts(salt, &[0, 0, 0, 1]);
    let mut sum = value;
    for _round in 1..rounds {
        value = mac.code(&value);
        add(&mut sum, &value);
    }
    sum
}

fn add(sum: &mut [u8; 32], value: &[u8; 32])
    ensures { sum.new ≡ zip2 bit_xor sum.old value.now }
{
    for place in 0..32 {
        sum[place] ^= value[place];
    }
}
