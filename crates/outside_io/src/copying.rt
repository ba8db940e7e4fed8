//! Copying into a slice of any length.
ghost use Rattle.std.specs.Prelude.{◌≡◌, length, min, take};

/// Copies the front of some octets into the front of a slice, as many as fit, and says how many.
pub fn copy_front(octets: &[u8], buf: &mut [u8]) -> usize
    ensures count { result ≡ min (length buf.old) (length octets.now) }
    ensures copied { take result buf.new ≡ take result octets.now }
    ensures size { length buf.new ≡ length buf.old }
{
    let count = buf.len().min(octets.len());
    buf[..count].copy_from_slice(&octets[..count]);
    count
}
