//! Writes messages one behind the other.

ghost use Rattle.std.specs.Prelude.{◌≡◌, ◌≤◌, ◌++◌, All, OnOk, length};
ghost use Rattle.nl_attrs.specs.Messages.{IsInRange, all_spelled, spelled};
ghost use Rattle.wire_run.specs.inner.Steps.{AreShort};

use nl_attrs::{EncodeFault, Msg, put_message};
use reg_base::Bytes;
use reg_lists::OutOfMemory;

/// Appends the messages.
pub fn put_messages(out: &mut Bytes, messages: &[Msg]) -> Result<(), OutOfMemory>
    requires in_range { All IsInRange messages.now }
    requires short { AreShort messages.now }
    ensures { OnOk result (out.new ≡ out.old ++ all_spelled messages.now) }
{
    for message in messages {
        put_short(out, message)?;
    }
    Ok(())
}

/// Appends a message that isn't too long.
pub fn put_short(out: &mut Bytes, message: &Msg) -> Result<(), OutOfMemory>
    requires in_range { IsInRange message.now }
    requires short { length (spelled message.now) ≤ 65536 }
    ensures { OnOk result (out.new ≡ out.old ++ spelled message.now) }
{
    match put_message(out, message) {
        Ok(()) => Ok(()),
        Err(EncodeFault::Overlong(_)) => unreachable!(),
        Err(EncodeFault::OutOfMemory) => Err(OutOfMemory),
    }
}
