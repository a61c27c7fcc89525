//! Indexes of interfaces.

ghost use Rattle.std.specs.Prelude.{◌≡◌, ℕ, ◌↔◌, IsTrue};

use std::marker::Model;

/// The index of an interface (`NL80211_ATTR_IFINDEX`).
#[derive(Clone, Copy, Debug, PartialEq, Eq)]
pub struct IfIndex(pub u32);

impl Model for IfIndex {
    ghost Value = { ℕ };

    ghost view = { λ i. i.0 };

    ghost inverse = { λ n. record { 0 = n } };
}

impl IfIndex {
    /// Whether both are the same index.
    pub fn is_same(&self, other: &IfIndex) -> bool
        ensures same { IsTrue result ↔ (self.now ≡ other.now) }
    {
        self.0 == other.0
    }
}
