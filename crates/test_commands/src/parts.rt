//! What the tests of the commands share: octets, a source and a sink in memory, and a session.
ghost use Rattle.std.specs.Prelude.{◌≡◌, None};
ghost use Rattle.rist_wire.specs.Session.{IsSession};

use link_channels::Profile;
use outside_io::{Pieces, Store8};
use rist_wire::{Session, Tunnel};
use seq_unwrap::Width;
use std::alloc::Global;
use std::test::Fail;

pub const NAME: &[u8] = b"RISTCAP1";

/// Where a source is cut, which of its reads and of a sink's puts fail, and how much room the sink has.
#[derive(Clone, Copy)]
pub struct Outside<'a> {
    pub cuts: &'a [usize],
    pub reads: &'a [u64],
    pub puts: &'a [u64],
    pub room: usize,
}

/// A whole source, no call that fails, and room enough.
pub const NOTHING: Outside<'static> = Outside {
    cuts: &[],
    reads: &[],
    puts: &[],
    room: 8192,
};

pub fn source_of(alloc: Global, octets: &[u8], outside: &Outside<'_>) -> Result<Pieces, Fail> {
    Ok(Pieces::with(alloc, octets, outside.cuts, outside.reads)?)
}

pub fn sink_of(alloc: Global, outside: &Outside<'_>) -> Result<Store8, Fail> {
    Ok(Store8::with(alloc, outside.room, outside.puts)?)
}

pub fn append(octets: &mut Vec<u8>, parts: &[&[u8]]) -> Result<(), Fail> {
    for part in parts {
        octets.extend_from_slice(part)?;
    }
    Ok(())
}

pub fn joined(alloc: Global, parts: &[&[u8]]) -> Result<Vec<u8>, Fail> {
    let mut octets = Vec::new(alloc);
    append(&mut octets, parts)?;
    Ok(octets)
}

/// These octets so many times.
pub fn repeated(alloc: Global, octets: &[u8], count: usize) -> Result<Vec<u8>, Fail> {
    let mut all = Vec::new(alloc);
    for _ in 0..count {
        all.extend_from_slice(octets)?;
    }
    Ok(all)
}

pub fn simple_session() -> Session
    ensures session { IsSession result }
    ensures pass { result.pass ≡ None }
{
    Session {
        profile: Profile::Simple,
        port: 1968,
        pass: None,
        bits: 128,
        nulls: false,
        width: Width::W16,
        full: false,
        tunnel: Tunnel::Own,
        echo: false,
    }
}
