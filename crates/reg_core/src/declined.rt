//! Why a request changes nothing.

ghost use Rattle.std.specs.Prelude.{◌≡◌};

use reg_journal::Refusal;
use reg_lists::OutOfMemory;

/// Why a request changes nothing.
#[derive(Clone, Copy, Debug, PartialEq, Eq)]
pub(crate) enum Declined {
    Refused(Refusal),
    OutOfMemory,
}

impl From<OutOfMemory> for Declined {
    ghost use Rattle.reg_core.specs.declared.declined.Declined.TheVariants.{OutOfMemory};

    ghost from_gives = { λ _ e. e ≡ OutOfMemory };

    fn from(_error: OutOfMemory) -> Declined {
        Declined::OutOfMemory
    }
}
