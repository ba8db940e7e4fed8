//! Reads as much as a slice holds, however the source cuts it.
ghost use Rattle.std.specs.Prelude.{◌≡◌, ◌≤◌, ◌<◌, [], ℕ, length, take, IfOk, OnErr};
ghost use Rattle.outside_io.specs.Causes.{HasCause};
ghost use Rattle.outside_io.specs.Told.{Takes, IsEmpty};

use crate::{Failed, Source};

/// Reads until the slice is full or the source ends, and says how many octets came. What came before a fault stands at
/// the front of the slice.
pub fn read_full<S: Source>(source: &mut S, buf: &mut [u8]) -> Result<usize, Failed>
    ensures within { IfOk result (λ count. count ≤ length buf.new) }
    ensures ok { IfOk result (λ count. Takes (S.remaining source.old) (S.remaining source.new) (take count buf.new)) }
    ensures end { IfOk result (λ count. count < length buf.new → IsEmpty (S.remaining source.new)) }
    ensures err { OnErr result ((count : ℕ) × (count < length buf.new)
        × Takes (S.remaining source.old) (S.remaining source.new) (take count buf.new)) }
    ensures ahead { OnErr result (S.ahead source.new ≡ []) }
    ensures cause { HasCause (S.faults source.old) (S.faults source.new) result }
{
    let mut filled = 0;
    while filled < buf.len() {
        let count = match source.read(&mut buf[filled..]) {
            Ok(count) => count,
            Err(bad) => return Err(bad),
        };
        if count == 0 {
            return Ok(filled);
        }
        filled += count;
    }
    Ok(filled)
}
