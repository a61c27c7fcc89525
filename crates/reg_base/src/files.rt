//! Files that are read by their names.

ghost use Rattle.std.specs.Prelude.{◌≡◌, ◌≤◌, List, ℕ, Option, IfErr, IfOk, length};
ghost use Rattle.reg_base.specs.Files.{AreAll, IsFileFault};

use crate::bytes::Bytes;
use crate::errors::FileFault;
use std::alloc::Global;

/// Files by their names. Its meaning is what the file of a name holds, where that is told, and the
/// count of its faults, which never falls and stops at `u64::MAX`.
pub trait Files {
    ghost holds: { Self → List ℕ → Option (List ℕ) };

    ghost count: { Self → ℕ };

    /// All bytes of the file of that name, read to its end. `Failed` comes only where the count rose,
    /// `TooLong` where the file gave more than `most` bytes. After an error what was read of the file
    /// is gone.
    fn read_file(&mut self, alloc: Global, name: &str, most: u64) -> Result<Bytes, FileFault>
        ensures all { IfOk result (AreAll (holds self.old name.now)) }
        ensures within { IfOk result (λ bytes. length bytes ≤ most) }
        ensures cause { IfErr result (IsFileFault most (holds self.old name.now) (count self.old) (count self.new)) }
        ensures later { count self.old ≤ count self.new };

    /// How often reading a file failed.
    fn faults(&self) -> u64
        ensures { result ≡ count self.now };
}
