use std::fmt::{self, Display, Formatter, Write};

/// A write to a sink failed.
#[derive(Clone, Copy, Debug, PartialEq, Eq)]
pub struct WriteFault;

impl Display for WriteFault {
    ghost use Rattle.std.specs.Prelude.{Some, codes};

    ghost output = { λ _. Some (codes "write failed") };

    fn fmt<W: Write>(&self, f: &mut Formatter<W>) -> fmt::Result {
        f.write_str("write failed")
    }
}
