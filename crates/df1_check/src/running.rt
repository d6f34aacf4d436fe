//! A check over bytes that come one by one.

ghost use Rattle.std.specs.Prelude.{◌≡◌, ◌<◌, ◌^◌, ℕ, List, [], ◌∷◌, ◌++◌};
ghost use Rattle.df1_check.specs.declared.Check.{Check};
ghost use Rattle.df1_check.specs.Checks.{check_value, take_byte, taken};

use crate::{Check, crc_byte};
use std::marker::Model;

/// A check under way. Contracts see its kind and its value over the bytes so far.
#[derive(Drop)]
pub struct Running {
    check: Check,
    value: u16,
}

impl Model for Running {
    ghost use Rattle.std.specs.Prelude.{◌<◌};
    ghost use Rattle.df1_check.specs.Checks.{Taken};

    ghost Value = { Taken };

    ghost view = { λ r. record { check = r.check; value = r.value } };
}

impl Running {
    /// Returns a check that has taken no byte.
    pub fn new(check: Check) -> Running
        ensures { result ≡ taken check [] }
    {
        Running { check, value: 0 }
    }

    /// Takes one more byte.
    #[tactic(auto, unfolding(crate::specs::Checks::with_byte))]
    pub fn step(&mut self, b: u8)
        ensures after { self.new ≡ take_byte self.old b }
        ensures stands { (check : Check) (bytes : List ℕ) → self.old ≡ taken check bytes → self.new ≡ taken check (bytes ++ b ∷ []) }
    {
        self.value = match self.check {
            Check::Bcc => (self.value % 256 + 256 - u16::from(b)) % 256,
            Check::Crc => crc_byte(self.value, b),
        };
    }

    /// Returns the check of the bytes that were taken. A BCC stands in the low 8 bits, and the others are 0.
    pub fn value(&self) -> u16
        ensures value { result ≡ self.now.value }
        ensures stands { (check : Check) (bytes : List ℕ) → self.now ≡ taken check bytes → result ≡ check_value check bytes }
    {
        self.value
    }
}
