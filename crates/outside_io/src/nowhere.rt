//! A sink that keeps nothing.
ghost use Rattle.std.specs.Prelude.{◌≡◌, None, Ok, OnErr, OnOk};
ghost use Rattle.outside_io.specs.Causes.{HasCause};
ghost use Rattle.outside_io.specs.Told.{Appends, AppendsPart};

use crate::{Failed, Sink};

/// Takes every piece, keeps none, and never fails: for work whose octets nobody wants.
#[derive(Clone, Copy)]
pub struct Nowhere;

impl Sink for Nowhere {
    ghost contents = { λ sink. None };

    ghost faults = { λ sink. 0 };

    fn put(&mut self, piece: &[u8]) -> Result<(), Failed>
        ensures ok { OnOk result (Appends None None piece.now) }
        ensures err { OnErr result (AppendsPart None None piece.now) }
        ensures cause { HasCause 0 0 result }
        ensures complete { result ≡ Ok tt }
    {
        Ok(())
    }
}
