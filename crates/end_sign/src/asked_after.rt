//! A sign in memory.
ghost use Rattle.std.specs.Prelude.{◌≡◌, ◌-◌};

use crate::EndSign;
use std::marker::Model;

/// Says no so many times, and then yes for ever. A contract sees how many times are left.
#[derive(Drop)]
pub struct AskedAfter {
    calls: u64,
}

impl Model for AskedAfter {
    ghost use Rattle.std.specs.Prelude.{ℕ};

    ghost Value = { ℕ };

    ghost view = { λ s. s.calls };
}

impl AskedAfter {
    /// Says no so many times.
    pub fn with(calls: u64) -> AskedAfter
        ensures value { result ≡ calls }
    {
        AskedAfter { calls }
    }
}

impl EndSign for AskedAfter {
    ghost use Rattle.std.specs.Prelude.{Some};
    ghost use Rattle.end_sign.specs.Status.{asked_after};

    ghost answers = { λ sign. Some (asked_after sign) };

    fn asked(&mut self) -> bool {
        if self.calls == 0 {
            return true;
        }
        self.calls -= 1;
        false
    }
}
