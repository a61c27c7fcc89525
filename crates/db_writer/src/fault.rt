//! Why a database has no layout.

use reg_lists::OutOfMemory;
use thiserror::Error;

/// Why a database has no layout.
#[derive(Clone, Copy, Debug, PartialEq, Eq, Error)]
pub enum WriteFault {
    /// The last collection would stand at this place, in words of 4 bytes: above 65,535.
    #[error("{words} words")]
    TooLarge { words: u64 },
    /// No memory was found.
    #[error("no memory")]
    OutOfMemory,
}

impl From<OutOfMemory> for WriteFault {
    ghost use Rattle.std.specs.Prelude.{◌≡◌};
    ghost use Rattle.db_writer.specs.declared.fault.WriteFault.TheVariants.{OutOfMemory};

    ghost from_gives = { λ _ e. e ≡ OutOfMemory };

    fn from(_error: OutOfMemory) -> WriteFault {
        WriteFault::OutOfMemory
    }
}
