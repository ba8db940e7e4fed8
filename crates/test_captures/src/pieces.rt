//! Sources in memory, read piece by piece.
ghost use Rattle.std.specs.Prelude.{◌≤◌, ◌*◌, ◌^◌};

use block_source::{PIECE_LEN, PieceFault, read_piece};
use outside_io::{Pieces, Source};
use std::alloc::Global;
use std::process::Abort;
use std::test::Fail;

/// The octets of a source: all the same but for one, the first of the second piece.
fn octets() -> [u8; 2632] {
    let mut octets = [0x47; 2632];
    if let Some(first) = octets.get_mut(1316) {
        *first = 9;
    }
    octets
}

/// The source's piece of this number is as long or fails so.
fn assert_piece<S: Source>(
    rt: &impl Abort,
    number: u64,
    source: &mut S,
    piece: &mut [u8; PIECE_LEN],
    want: Result<usize, PieceFault>,
)
    requires { 1316 * number ≤ 2 ^ 40 }
{
    assert!(rt; read_piece(number, source, piece) == want);
}

/// The octets that a source has, and those of its first piece and of its second.
static LENGTHS: [(usize, usize, usize); 6] = [
    (0, 0, 0),
    (1, 1, 0),
    (1315, 1315, 0),
    (1316, 1316, 0),
    (1317, 1316, 1),
    (2632, 1316, 1316),
];

/// Of a source of so many octets, which gives 7 octets in its first read, the first two pieces are so long.
fn assert_pieces(
    rt: &impl Abort,
    alloc: Global,
    length: usize,
    first: usize,
    second: usize,
) -> Result<(), Fail> {
    let octets = octets();
    let (front, rest) = octets.split_at(1316);
    let mut piece = [0; PIECE_LEN];
    let whole = octets.get(..length).ok_or("length")?;
    let mut source = Pieces::with(alloc, whole, &[7], &[])?;
    assert_piece(rt, 0, &mut source, &mut piece, Ok(first));
    assert!(rt; piece.get(..first) == front.get(..first));
    assert_piece(rt, 1, &mut source, &mut piece, Ok(second));
    assert!(rt; piece.get(..second) == rest.get(..second));
    Ok(())
}

#[test]
fn pieces_are_read_in_order(rt: HostRuntime) -> Result<(), Fail> {
    for (length, first, second) in &LENGTHS {
        assert_pieces(&rt, rt.alloc(), *length, *first, *second)?;
    }
    Ok(())
}

#[test]
fn a_failed_read_gives_no_piece(rt: HostRuntime) -> Result<(), Fail> {
    let mut piece = [0; PIECE_LEN];
    // The second read fails, in the middle of a piece: the seven octets before it are dropped.
    let mut source = Pieces::with(rt.alloc(), &[5; 1323], &[7], &[1])?;
    assert_piece(&rt, 0, &mut source, &mut piece, Err(PieceFault::ReadFault));
    assert_piece(&rt, 1, &mut source, &mut piece, Ok(1316));
    Ok(())
}

/// The last whole piece of 2^40 octets and what follows it: so many octets are read so.
fn assert_last(
    rt: &impl Abort,
    alloc: Global,
    length: usize,
    want: Result<usize, PieceFault>,
) -> Result<(), Fail> {
    let mut piece = [0; PIECE_LEN];
    let octets = [5; 1316];
    let whole = octets.get(..length).ok_or("length")?;
    let mut source = Pieces::with(alloc, whole, &[], &[])?;
    // So many whole pieces are 1,164 octets short of 2^40.
    assert_piece(rt, (1 << 40) / 1316, &mut source, &mut piece, want);
    Ok(())
}

#[test]
fn a_source_may_have_2_to_the_40_octets(rt: HostRuntime) -> Result<(), Fail> {
    assert_last(&rt, rt.alloc(), 1164, Ok(1164))?;
    assert_last(&rt, rt.alloc(), 1165, Err(PieceFault::TooLong))?;
    assert_last(&rt, rt.alloc(), 1316, Err(PieceFault::TooLong))
}
