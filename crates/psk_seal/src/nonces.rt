//! Nonces from random words.
ghost use Rattle.std.specs.Prelude.{◌↔◌, ◌<◌, length, IsTrue};
ghost use Rattle.psk_seal.specs.Nonces.{IsFree, IsFirstFree};

// Whether this number can be the next nonce after these.
fn is_free(earlier: &[u32], number: u32) -> bool
    ensures value { IsTrue result ↔ IsFree earlier.now number }
{
    number != 0 && !earlier.contains(&number)
}

// The nonce that a random word gives after these.
pub(crate) fn first_free(earlier: &[u32], word: u32) -> u32
    requires few { length earlier.now < 16 }
    ensures value { IsFirstFree earlier.now word result }
{
    let mut number = word;
    while !is_free(earlier, number) {
        number = number.wrapping_add(1);
    }
    number
}
