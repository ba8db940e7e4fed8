//! Reading a source piece by piece.
ghost use Rattle.std.specs.Prelude.{◌≡◌, ◌≤◌, ◌+◌, ◌*◌, ◌^◌, [], Err, IfOk};
ghost use Rattle.outside_io.specs.Causes.{HasReadCause, fault_by};
ghost use Rattle.block_source.specs.Reading.{ReadsPiece, front_of, piece_fault};

use crate::PieceFault;
use outside_io::{Source, read_full};

/// Octets of a whole piece: seven transport stream packets of 188 octets (ISO/IEC 13818-1, section 2.4.3.2), as many as
/// VSF TR-06-1 has in one RTP packet.
pub const PIECE_LEN: usize = 1316;

/// Octets of the longest source (this profile).
pub const MAX_LEN: u64 = 1 << 40;

/// Reads piece k, or what the source has left of it, to the front of a block, and one octet past the longest source at
/// most. The answer is how many octets came. A piece that isn't whole is the last, and the end is a piece of none.
pub fn read_piece<S: Source>(
    k: u64,
    source: &mut S,
    piece: &mut [u8; PIECE_LEN],
) -> Result<usize, PieceFault>
    requires place { 1316 * k ≤ 2 ^ 40 }
    ensures value { ReadsPiece k (S.remaining source.old) (S.remaining source.new) (front_of piece.new result) }
    ensures within { IfOk result (λ count. (count ≤ 1316) × (1316 * k + count ≤ 2 ^ 40)) }
    ensures ahead { result ≡ Err PieceFault.ReadFault → S.ahead source.new ≡ [] }
    ensures cause { HasReadCause (fault_by piece_fault result) (S.faults source.old) (S.faults source.new) }
{
    let room = (MAX_LEN + 1 - k * PIECE_LEN as u64).min(PIECE_LEN as u64) as usize;
    match read_full(source, &mut piece[..room]) {
        Ok(count) if count == room && room < PIECE_LEN => Err(PieceFault::TooLong),
        Ok(count) => Ok(count),
        Err(_) => Err(PieceFault::ReadFault),
    }
}
