ghost use Rattle.std.specs.Prelude.{◌≡◌, ◌+◌, ◌≤◌, ◌++◌, length, take};
ghost use Rattle.octet_fields.specs.Writing.{KeepsFrom};

/// Copies a part to its place, and says where it ends, which is the place of the next one. What stands
/// before it and behind it stays.
#[inline]
pub fn put_at(out: &mut [u8], at: usize, part: &[u8]) -> usize
    requires room { at + length part.now ≤ length out.old }
    ensures end { result ≡ at + length part.now }
    ensures octets { take result out.new ≡ take at out.old ++ part.now }
    ensures rest { KeepsFrom result out.old out.new }
{
    let end = at + part.len();
    out[at..end].copy_from_slice(part);
    end
}
