//! Steps over octets of a source.
ghost use Rattle.std.specs.Prelude.{◌≡◌, ◌≤◌, [], IsErrOf};
ghost use Rattle.outside_io.specs.Causes.{HasReadCause, fault_by};
ghost use Rattle.pcap_file.specs.declared.bad.PcapBad.TheVariants.{ReadFault};
ghost use Rattle.pcap_file.specs.Reading.{read_fault};
ghost use Rattle.pcap_file.specs.Inside.Steps.{Skips};

use crate::bad::{PcapBad, PcapKind};
use block_source::Block;
use outside_io::{Source, read_full};

// Octets that are read at a time where they are dropped.
const PART: usize = 4096;

// Steps over so many octets of the record at this offset.
fn skip_part<S: Source>(source: &mut Block<S>, count: usize, at: u64) -> Result<(), PcapBad>
    requires part { count ≤ PART }
    ensures value { Skips at count source.old.remaining source.new.remaining result }
    ensures ahead { IsErrOf result ReadFault → source.new.ahead ≡ [] }
    ensures cause { HasReadCause (fault_by read_fault result) source.old.faults source.new.faults }
{
    let mut dropped = [0; PART];
    let Ok(got) = read_full(source, &mut dropped[..count]) else {
        return Err(PcapBad::ReadFault);
    };
    if got < count {
        return Err(PcapBad::Bad(PcapKind::Truncated, at));
    }
    Ok(())
}

// The same, in parts.
pub(crate) fn skip<S: Source>(source: &mut Block<S>, count: usize, at: u64) -> Result<(), PcapBad>
    ensures value { Skips at count source.old.remaining source.new.remaining result }
    ensures ahead { IsErrOf result ReadFault → source.new.ahead ≡ [] }
    ensures cause { HasReadCause (fault_by read_fault result) source.old.faults source.new.faults }
{
    let mut left = count;
    while left > 0 {
        let part = left.min(PART);
        match skip_part(source, part, at) {
            Ok(()) => left -= part,
            Err(bad) => return Err(bad),
        }
    }
    Ok(())
}
