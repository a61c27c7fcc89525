//! Why a list of domains has no table.

ghost use Rattle.std.specs.Prelude.{◌≡◌};

use std::alloc::{AllocError, AllocFailed};

/// Why a list of domains has no table.
#[derive(Clone, Copy, Debug, PartialEq, Eq)]
pub enum ResolveFault {
    /// The first `after` domains of the list have `rows` rows, more than 1,024, and no fewer of them
    /// have more than that.
    TooManyRows { after: usize, rows: usize },
    /// No memory was found.
    OutOfMemory,
}

impl From<AllocError> for ResolveFault {
    ghost use Rattle.rule_intersect.specs.declared.fault.ResolveFault.TheVariants.{OutOfMemory};

    ghost from_gives = { λ _ e. e ≡ OutOfMemory };

    fn from(_error: AllocError) -> ResolveFault {
        ResolveFault::OutOfMemory
    }
}

impl<T: Drop> From<AllocFailed<T>> for ResolveFault {
    ghost use Rattle.rule_intersect.specs.declared.fault.ResolveFault.TheVariants.{OutOfMemory};

    ghost from_gives = { λ _ e. e ≡ OutOfMemory };

    fn from(_error: AllocFailed<T>) -> ResolveFault {
        ResolveFault::OutOfMemory
    }
}
