//! Want of memory.
ghost use Rattle.std.specs.Prelude.{Some, codes};

use std::alloc::AllocError;
use std::fmt::{self, Display, Formatter, Write};

/// An object in memory could not be made for want of memory.
#[derive(Clone, Copy, Debug, PartialEq, Eq)]
pub struct NoMemory;

impl From<AllocError> for NoMemory {
    fn from(_: AllocError) -> Self {
        NoMemory
    }
}

impl Display for NoMemory {
    ghost output = { λ _. Some (codes "out of memory") };

    fn fmt<W: Write>(&self, f: &mut Formatter<W>) -> fmt::Result {
        f.write_str("out of memory")
    }
}
