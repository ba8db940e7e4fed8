//! How each compound begins.
ghost use Rattle.std.specs.Prelude.{◌≡◌, length};
ghost use Rattle.rist_reporter.specs.Control.{opening};

use rtcp_compound::CompoundOut;

/// A compound with a receiver's report and a source description.
pub(crate) fn opened(own: u32) -> CompoundOut
    ensures packets { result.packets ≡ opening own }
    ensures length { length result.octets ≡ 24 }
{
    let mut out = CompoundOut::new();
    let Ok(()) = out.put_rr(own) else {
        unreachable!()
    };
    let Ok(()) = out.put_sdes(own) else {
        unreachable!()
    };
    out
}
