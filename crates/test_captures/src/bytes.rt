//! What no clause says: that calls succeed.
use crate::asserts::{assert_given, assert_octets, assert_put, assert_read};
use outside_io::{Bytes, Failed, Pieces, Source, Store8, read_full};
use std::process::Abort;
use std::test::Fail;

/// The reads into a whole block answer so.
fn assert_filled<S: Source>(
    rt: &impl Abort,
    source: &mut S,
    buf: &mut [u8; 4],
    want: Result<usize, Failed>,
) {
    assert!(rt; read_full(source, buf) == want);
}

#[test]
fn a_read_gives_up_to_a_whole_block(rt: HostRuntime) -> Result<(), Fail> {
    let mut buf = [0; 4];
    let mut whole = Bytes::with(rt.alloc(), b"ABCDEF", &[])?;
    assert_read(&rt, &mut whole, &mut buf, Ok(4));
    assert_read(&rt, &mut whole, &mut buf, Ok(2));
    assert_read(&rt, &mut whole, &mut buf, Ok(0));
    Ok(())
}

#[test]
fn a_read_ends_at_a_cut(rt: HostRuntime) -> Result<(), Fail> {
    let mut buf = [0; 4];
    let mut cut = Pieces::with(rt.alloc(), b"ABCDEF", &[3, 1], &[])?;
    assert_read(&rt, &mut cut, &mut buf, Ok(1));
    assert_read(&rt, &mut cut, &mut buf, Ok(2));
    assert_given(&rt, &mut cut, &mut buf, b"DEF");
    assert_read(&rt, &mut cut, &mut buf, Ok(0));
    Ok(())
}

#[test]
fn a_block_is_filled_across_cuts(rt: HostRuntime) -> Result<(), Fail> {
    let mut buf = [0; 4];
    let mut cut = Pieces::with(rt.alloc(), b"ABCDEF", &[3, 1], &[3])?;
    assert_filled(&rt, &mut cut, &mut buf, Ok(4));
    assert_octets(&rt, &buf, b"ABCD");
    assert_filled(&rt, &mut cut, &mut buf, Err(Failed));
    assert_filled(&rt, &mut cut, &mut buf, Ok(2));
    Ok(())
}

#[test]
fn a_listed_read_fails_and_takes_nothing(rt: HostRuntime) -> Result<(), Fail> {
    let mut buf = [0; 4];
    let mut source = Bytes::with(rt.alloc(), b"ABCDEF", &[1])?;
    assert_read(&rt, &mut source, &mut buf, Ok(4));
    assert_read(&rt, &mut source, &mut buf, Err(Failed));
    assert_read(&rt, &mut source, &mut buf, Ok(2));
    Ok(())
}

#[test]
fn a_listed_write_fails_and_takes_nothing(rt: HostRuntime) -> Result<(), Fail> {
    let mut sink = Store8::with(rt.alloc(), 4, &[0])?;
    assert_put(&rt, &mut sink, b"A", Err(Failed));
    assert_put(&rt, &mut sink, b"BC", Ok(()));
    assert_put(&rt, &mut sink, b"DEF", Err(Failed));
    assert_octets(&rt, sink.octets(), b"BCDE");
    Ok(())
}
