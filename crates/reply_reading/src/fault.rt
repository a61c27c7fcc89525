//! Why messages give no reply.

ghost use Rattle.std.specs.Prelude.{◌≡◌};
ghost use Rattle.reply_reading.specs.declared.fault.ReplyFault.TheVariants as faults;

use reg_lists::OutOfMemory;

/// Why messages give no reply.
#[derive(Clone, Copy, Debug, PartialEq, Eq)]
pub enum ReplyFault {
    /// They are no reply's.
    NotAReply,
    OutOfMemory,
}

impl From<OutOfMemory> for ReplyFault {
    ghost from_gives = { λ _ e. e ≡ faults.OutOfMemory };

    fn from(_error: OutOfMemory) -> ReplyFault {
        ReplyFault::OutOfMemory
    }
}
