//! Sources in memory are never waited for, and don't come in datagrams.
use crate::LiveSource;
use link_channels::MAX_PAYLOAD;
use outside_io::{Bytes, Failed, MemSource, Pieces};

impl LiveSource for Bytes {
    ghost use Rattle.std.specs.Prelude.{Some, true};

    ghost ready = { λ _. Some (λ _. true) };

    fn is_in_datagrams(&self) -> bool {
        false
    }

    fn gather(&mut self, _count: usize) -> bool {
        true
    }

    fn read_payload(&mut self, _block: &mut [u8; MAX_PAYLOAD]) -> Result<usize, Failed> {
        Ok(0)
    }
}

impl LiveSource for Pieces {
    ghost use Rattle.std.specs.Prelude.{Some, true};

    ghost ready = { λ _. Some (λ _. true) };

    fn is_in_datagrams(&self) -> bool {
        false
    }

    fn gather(&mut self, _count: usize) -> bool {
        true
    }

    fn read_payload(&mut self, _block: &mut [u8; MAX_PAYLOAD]) -> Result<usize, Failed> {
        Ok(0)
    }
}

impl LiveSource for MemSource {
    ghost use Rattle.std.specs.Prelude.{Some, true};

    ghost ready = { λ _. Some (λ _. true) };

    fn is_in_datagrams(&self) -> bool {
        false
    }

    fn gather(&mut self, _count: usize) -> bool {
        true
    }

    fn read_payload(&mut self, _block: &mut [u8; MAX_PAYLOAD]) -> Result<usize, Failed> {
        Ok(0)
    }
}
