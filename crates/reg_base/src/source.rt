//! Where bytes come from.

ghost use Rattle.std.specs.Prelude.{◌≡◌, ◌<◌, List, ℕ, Option, length};
ghost use Rattle.std.specs.Io.{ReadsAtMost};
ghost use Rattle.std.specs.Io.KnownBytes.{ReadConsumes};
ghost use Rattle.reg_base.specs.Causes.{HasCause};

use crate::errors::Failed;

/// Bytes that are read in pieces. Its meaning is the bytes that it has left, where it tells them,
/// and the count of its faults, which never falls and stops at `u64::MAX`.
pub trait Source {
    ghost left: { Self → Option (List ℕ) };

    ghost count: { Self → ℕ };

    /// Moves the next bytes into the front of the buffer, and answers how many: 0 exactly where none
    /// were left. `Failed` takes no byte, and comes only where the count rose.
    fn read(&mut self, buf: &mut [u8]) -> Result<usize, Failed>
        requires { 0 < length buf.old }
        ensures bound { ReadsAtMost result buf.new }
        ensures bytes { ReadConsumes (left self.old) (left self.new) result buf.new }
        ensures cause { HasCause (count self.old) (count self.new) result };

    /// How often a read failed.
    fn faults(&self) -> u64
        ensures { result ≡ count self.now };
}
