//! Where bytes go.

ghost use Rattle.std.specs.Prelude.{◌≡◌, List, ℕ, Option};
ghost use Rattle.reg_base.specs.Causes.{HasCause};
ghost use Rattle.reg_base.specs.Appended.{AppendsAtMost};

use crate::errors::Failed;

/// Bytes that are written in pieces. Its meaning is the bytes that it holds, where it tells them,
/// and the count of its faults, which never falls and stops at `u64::MAX`.
pub trait Sink {
    ghost held: { Self → Option (List ℕ) };

    ghost count: { Self → ℕ };

    /// Appends the piece. `Failed` appends a prefix of it, and comes only where the count rose.
    fn write_all(&mut self, piece: &[u8]) -> Result<(), Failed>
        ensures bytes { AppendsAtMost (held self.old) (held self.new) result piece.now }
        ensures cause { HasCause (count self.old) (count self.new) result };

    /// How often a write failed.
    fn faults(&self) -> u64
        ensures { result ≡ count self.now };
}
