//! Why a database isn't printed.

use reg_lists::OutOfMemory;
use rule_tables::Alpha2;
use thiserror::Error;

/// Why a database has no text.
#[derive(Clone, Copy, Debug, PartialEq, Eq, Error)]
pub enum PrintFault {
    /// A rule, counted from 0 within its country, has a check time, which a text can't write.
    #[error("check time in rule {rule}")]
    CacTime { country: Alpha2, rule: usize },
    /// No memory was found.
    #[error("no memory")]
    OutOfMemory,
}

impl From<OutOfMemory> for PrintFault {
    ghost use Rattle.std.specs.Prelude.{◌≡◌};
    ghost use Rattle.db_text.specs.declared.print_fault.PrintFault.TheVariants.{OutOfMemory};

    ghost from_gives = { λ _ e. e ≡ OutOfMemory };

    fn from(_error: OutOfMemory) -> PrintFault {
        PrintFault::OutOfMemory
    }
}
