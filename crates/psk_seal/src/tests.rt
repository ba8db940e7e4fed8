//! Drawn nonces, and pairs at the seams between nonces.
use crate::{EntropyFault, MAX_PAIRS, Pair, Sealer, Spent};
use outside_io::{Entropy, Words};
use std::alloc::Global;
use std::test::Fail;

// Words with repeats, with 0, and with numbers before 0; and the nonces that they give.
const WORDS: [u32; 16] = [
    7,
    7,
    0,
    0,
    u32::MAX,
    u32::MAX,
    7,
    1,
    1000,
    999,
    999,
    999,
    0x8000_0000,
    6,
    6,
    5,
];

const NONCES: [u32; 16] = [
    7,
    8,
    1,
    2,
    u32::MAX,
    3,
    9,
    4,
    1000,
    999,
    1001,
    1002,
    0x8000_0000,
    6,
    10,
    5,
];

fn sealer(alloc: Global) -> Result<Sealer, Fail> {
    match Sealer::with(&mut Words::with(alloc, &WORDS, &[])?) {
        Ok(sealer) => Ok(sealer),
        Err(_) => Err(Fail::new("no nonces")),
    }
}

#[test]
fn each_nonce_is_new_and_none_is_0(rt: HostRuntime) -> Result<(), Fail> {
    let mut sealer = sealer(rt.alloc())?;
    for (place, nonce) in NONCES.iter().enumerate() {
        sealer.skip_to((place as u64 % 16) << 32);
        assert_eq!(rt;
            sealer.next(),
            Ok(Pair {
                nonce: *nonce,
                sequence: 0
            }),
            "nonce {place}"
        );
    }
    Ok(())
}

#[test]
fn a_sequence_ends_where_the_next_nonce_begins(rt: HostRuntime) -> Result<(), Fail> {
    let mut sealer = sealer(rt.alloc())?;
    for sequence in 0..3 {
        assert_eq!(rt; sealer.next(), Ok(Pair { nonce: 7, sequence }));
    }
    assert_eq!(rt; sealer.left(), 68_719_476_733);
    sealer.skip_to(u32::MAX as u64);
    assert_eq!(rt;
        sealer.next(),
        Ok(Pair {
            nonce: 7,
            sequence: u32::MAX
        })
    );
    assert_eq!(rt;
        sealer.next(),
        Ok(Pair {
            nonce: 8,
            sequence: 0
        })
    );
    sealer.skip_to(MAX_PAIRS - 1);
    assert_eq!(rt; sealer.left(), 1);
    assert_eq!(rt;
        sealer.next(),
        Ok(Pair {
            nonce: 5,
            sequence: u32::MAX
        })
    );
    assert_eq!(rt; sealer.next(), Err(Spent));
    assert_eq!(rt; sealer.next(), Err(Spent));
    assert_eq!(rt; sealer.left(), 0);
    Ok(())
}

#[test]
fn a_fault_leaves_the_words_after_it(rt: HostRuntime) -> Result<(), Fail> {
    for (failing, next) in [(0, 7), (7, 1), (15, 5)] {
        let mut words = Words::with(rt.alloc(), &WORDS, &[failing])?;
        assert!(rt; matches!(Sealer::with(&mut words), Err(EntropyFault)));
        assert_eq!(rt; words.word(), Ok(next));
    }
    let mut few = Words::with(rt.alloc(), &WORDS[..15], &[])?;
    assert!(rt; matches!(Sealer::with(&mut few), Err(EntropyFault)));
    let shown = format!(in rt.alloc(); "{}, {}", EntropyFault, Spent)?;
    assert_eq!(rt; shown.as_str(), "no randomness, keys spent");
    Ok(())
}
