//! The sixteen octets before a record's own.
ghost use Rattle.std.specs.Prelude.{◌≡◌, ◌≤◌, ◌<◌, ◌+◌, ◌^◌, length, None, Some, IfOk, IfErr};
ghost use Rattle.pcap_file.specs.Tests.{fault_of_head, kept_said};
ghost use Rattle.pcap_file.specs.Inside.Steps.{head_octets, IsHead};

use crate::bad::PcapKind;
use crate::format::{ByteOrder, number_32_at};

// How many octets a head has.
pub(crate) const HEAD_LEN: usize = 16;

// A record may end here at last.
const MAX_END: u64 = 1 << 40;

const MAX_KEPT: u32 = 1 << 18;

// A record but for its octets.
#[derive(Clone, Copy)]
pub(crate) struct Head {
    pub(crate) seconds: u32,
    pub(crate) fraction: u32,
    pub(crate) kept: u32,
    pub(crate) first_len: u32,
}

// The head that the octets spell at this offset, or the first test that fails.
pub(crate) fn head_of(order: ByteOrder, octets: &[u8], at: u64) -> Result<Head, PcapKind>
    requires { length octets.now ≡ 16 }
    ensures octets { IfOk result (λ head. head_octets order head ≡ octets.now) }
    ensures said { IfOk result (λ head. kept_said order octets.now ≡ head.kept) }
    ensures fits { IfOk result (λ head. IsHead at head) }
    ensures none { IfOk result (λ head. fault_of_head order at octets.now ≡ None) }
    ensures fault { IfErr result (λ kind. fault_of_head order at octets.now ≡ Some kind) }
{
    let kept = number_32_at(order, 8, octets);
    if kept > MAX_KEPT {
        return Err(PcapKind::Long);
    }
    if at.saturating_add(16 + kept as u64) > MAX_END {
        return Err(PcapKind::TooLong);
    }
    Ok(Head {
        seconds: number_32_at(order, 0, octets),
        fraction: number_32_at(order, 4, octets),
        kept,
        first_len: number_32_at(order, 12, octets),
    })
}
