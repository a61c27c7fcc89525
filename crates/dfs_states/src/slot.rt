//! Slots of interfaces.

ghost use Rattle.std.specs.Prelude.{◌≡◌, ℕ, ◌≤◌, ◌<◌, MatchOption};

use std::marker::Model;

/// The slot of an interface among those of its radio, 0 to 7.
#[derive(Clone, Copy, Debug, PartialEq, Eq)]
pub struct IfSlot {
    number: u8,
}

impl Model for IfSlot {
    ghost Value = { ℕ };

    ghost view = { λ s. s.number };

    ghost invariant = { λ s. s.number ≤ 7 };

    ghost inverse = { λ n. record { number = n } };
}

impl IfSlot {
    /// The slot of this number. `None` exactly above 7.
    pub fn new(n: u8) -> Option<IfSlot>
        ensures slot { MatchOption result (7 < n) (λ slot. slot ≡ n) }
    {
        if n > 7 {
            return None;
        }
        Some(IfSlot { number: n })
    }

    /// Its number.
    pub fn get(self) -> u8
        ensures number { result ≡ self }
        ensures few { result ≤ 7 }
    {
        self.number
    }

    /// Its place among the eight.
    pub(crate) fn place(self) -> usize
        ensures number { result ≡ self }
        ensures few { result < 8 }
    {
        usize::from(self.number)
    }
}
