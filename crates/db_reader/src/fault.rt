//! Why bytes give no database.

ghost use Rattle.std.specs.Prelude.{◌≡◌};
ghost use Rattle.db_reader.specs.declared.fault.ReadFault.TheVariants.{Bad, OutOfMemory as NoMemory};

use reg_lists::OutOfMemory;
use rule_tables::DbFault;
use thiserror::Error;

/// Why bytes give no database.
#[derive(Clone, Copy, Debug, PartialEq, Eq, Error)]
pub enum ReadFault {
    /// They aren't a database file.
    #[error("{0}")]
    Bad(DbFault),
    /// No memory was found.
    #[error("no memory")]
    OutOfMemory,
}

impl From<DbFault> for ReadFault {
    ghost from_gives = { λ fault e. e ≡ Bad fault };

    fn from(fault: DbFault) -> ReadFault {
        ReadFault::Bad(fault)
    }
}

impl From<OutOfMemory> for ReadFault {
    ghost from_gives = { λ _ e. e ≡ NoMemory };

    fn from(_error: OutOfMemory) -> ReadFault {
        ReadFault::OutOfMemory
    }
}
