//! Numbers of radios.

ghost use Rattle.std.specs.Prelude.{◌≡◌, ℕ, ◌≤◌, ◌<◌, ◌↔◌, IsTrue, MatchOption};

use std::marker::Model;

/// The number of a radio, 0 to 7 (`phy0` to `phy7`).
#[derive(Clone, Copy, Debug, PartialEq, Eq)]
pub struct RadioNo {
    number: u8,
}

impl Model for RadioNo {
    ghost Value = { ℕ };

    ghost view = { λ r. r.number };

    ghost invariant = { λ r. r.number ≤ 7 };

    ghost inverse = { λ n. record { number = n } };
}

impl RadioNo {
    /// The radio of this number. `None` exactly above 7.
    pub fn new(n: u32) -> Option<RadioNo>
        ensures radio { MatchOption result (7 < n) (λ radio. radio ≡ n) }
    {
        if n > 7 {
            return None;
        }
        Some(RadioNo { number: n as u8 })
    }

    /// Its number.
    pub fn get(self) -> u32
        ensures number { result ≡ self }
        ensures few { result ≤ 7 }
    {
        u32::from(self.number)
    }

    /// Whether both are the same radio.
    pub fn is_same(&self, other: &RadioNo) -> bool
        ensures { IsTrue result ↔ (self.now ≡ other.now) }
    {
        self.number == other.number
    }
}
