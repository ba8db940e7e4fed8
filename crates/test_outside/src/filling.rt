//! A random source of known octets.
use std::io::{self, ErrorKind};
use std::random::RandomSource;
use std::sync::atomic::{AtomicU64, Ordering};

/// Its calls give the numbers from 1 on, four of them each, and the third call fails.
#[derive(Drop)]
pub struct Filling {
    calls: AtomicU64,
}

impl Filling {
    pub fn new() -> Filling {
        Filling {
            calls: AtomicU64::new(0),
        }
    }
}

impl RandomSource for Filling {
    fn fill_bytes(&self, buf: &mut [u8]) -> io::Result<()> {
        let call = self.calls.fetch_add(1, Ordering::Relaxed);
        if call == 2 {
            return Err(io::Error::from(ErrorKind::Other));
        }
        let mut octet = ((call % 64) as u8).wrapping_mul(4);
        for place in buf.iter_mut() {
            octet = octet.wrapping_add(1);
            *place = octet;
        }
        Ok(())
    }
}
