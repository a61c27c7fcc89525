//! Names of interfaces.

ghost use Rattle.std.specs.Prelude.{◌≡◌, ℕ, ◌≤◌, ◌↔◌, List, length, All, IsTrue, MatchOption};
ghost use Rattle.radio_drv.specs.Names.{IsName, IsVisible};

use std::marker::Model;

/// The name of an interface (`IFNAMSIZ`): 1 to 15 bytes of visible ASCII, 0x21 to 0x7e.
#[derive(Clone, Copy, Debug, PartialEq, Eq)]
pub struct Name {
    /// The bytes, and zeros behind them.
    bytes: [u8; 15],
    count: usize,
}

impl Model for Name {
    ghost use Rattle.std.specs.Prelude.{ℕ, ◌-◌, ◌++◌, List, length, take, replicate};
    ghost use Rattle.radio_drv.specs.Names.{IsPadded, padded_bytes};

    ghost Value = { List ℕ };

    ghost view = { λ n. take n.count n.bytes };

    ghost invariant = { λ n. IsPadded n.bytes n.count };

    ghost inverse = { λ bytes. record { bytes = bytes ++ replicate (15 - length bytes) 0; count = length bytes } };

    ghost inverse_ok = { λ a padded. λ i. record {
      bytes = padded_bytes a.bytes a.count padded i;
      count = padded.counted i;
    } };
}

impl Name {
    /// The name of these bytes. `None` exactly where they are none, more than 15, or one of them isn't
    /// visible.
    pub fn new(b: &[u8]) -> Option<Name>
        ensures name { MatchOption result (IsName b.now → ⊥) (λ name. name ≡ b.now) }
    {
        if b.is_empty() || b.len() > 15 || !are_visible(b) {
            return None;
        }
        let mut bytes = [0u8; 15];
        bytes[..b.len()].copy_from_slice(b);
        Some(Name {
            bytes,
            count: b.len(),
        })
    }

    /// Its bytes.
    pub fn as_bytes(&self) -> &[u8]
        ensures bytes { result.now ≡ self.now }
        ensures name { IsName self.now }
    {
        &self.bytes[..self.count]
    }

    /// Whether both are the same name.
    pub fn is_same(&self, other: &Name) -> bool
        ensures same { IsTrue result ↔ (self.now ≡ other.now) }
    {
        self.as_bytes() == other.as_bytes()
    }
}

/// Whether the byte is visible in ASCII.
fn is_visible(byte: u8) -> bool
    ensures { IsTrue result ↔ IsVisible byte }
{
    0x21 <= byte && byte <= 0x7e
}

/// Whether all the bytes are.
fn are_visible(bytes: &[u8]) -> bool
    ensures { IsTrue result ↔ All IsVisible bytes.now }
{
    bytes.iter().all(|byte| is_visible(*byte))
}
