//! Why a message is no request.

ghost use Rattle.std.specs.Prelude.{◌≡◌};
ghost use Rattle.nl80211_cmds.specs.declared.fault.FieldFault.TheVariants as field_faults;

use nl_attrs::Breach;
use reg_lists::OutOfMemory;

/// The errno of a message that isn't supported (`EOPNOTSUPP`).
pub const NOT_SUPPORTED: i32 = -95;

/// The errno of a message that isn't of the form of its command (`EINVAL`).
pub const INVALID: i32 = -22;

/// Why a message is no request.
#[derive(Clone, Copy, Debug, PartialEq, Eq)]
pub enum RequestFault {
    /// It is answered by an Error message with this code: -95 where it is none of the commands, or a
    /// hint that isn't a user's, and -22 where its attributes don't fit the command.
    Errno(i32),
    OutOfMemory,
}

/// Why attributes don't say what a command needs.
#[derive(Clone, Copy, Debug, PartialEq, Eq)]
pub enum FieldFault {
    /// One is missing, or isn't of its form, or out of its range.
    Malformed,
    OutOfMemory,
}

impl From<OutOfMemory> for FieldFault {
    ghost from_gives = { λ _ e. e ≡ field_faults.OutOfMemory };

    fn from(_error: OutOfMemory) -> FieldFault {
        FieldFault::OutOfMemory
    }
}

impl From<Breach> for FieldFault {
    ghost from_gives = { λ _ e. e ≡ field_faults.Malformed };

    fn from(_breach: Breach) -> FieldFault {
        FieldFault::Malformed
    }
}
