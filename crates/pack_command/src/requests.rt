//! The messages of lines.

ghost use Rattle.std.specs.Prelude.{◌≡◌, ◌+◌, ◌<◌, ◌≤◌, ◌++◌, [], IfErr, IfOk, OnOk};
ghost use Rattle.nl_attrs.specs.Messages.{IsMsg, spelled};
ghost use Rattle.nl80211_cmds.specs.Requests.{message_of};
ghost use Rattle.reg_journal.specs.Forms.{IsLineRequest};
ghost use Rattle.reg_journal.specs.Requests.{IsTyped};
ghost use Rattle.pack_command.specs.Packing.{PackGives};
ghost use Rattle.pack_command.specs.inner.Steps.{IsPutStop};

use crate::typed::type_request;
use iw_commands::{ReadLineFault, read_line};
use nl_attrs::{EncodeFault, put_message};
use nl80211_cmds::msg_of_request;
use reg_base::Bytes;
use reg_journal::Request;
use reg_lists::OutOfMemory;

/// Appends the message of a request, with this sequence number.
pub fn put_request(text: &mut Bytes, request: &Request, seq: u32) -> Result<(), OutOfMemory>
    requires { IsLineRequest request.now }
    ensures message { OnOk result (text.new ≡ text.old ++ spelled (message_of request.now seq)) }
    ensures is { OnOk result (IsMsg (message_of request.now seq)) }
    ensures typed { IsTyped request.now }
{
    type_request(request);
    let message = msg_of_request(text.allocator(), request, seq)?;
    match put_message(text, &message) {
        Ok(()) => Ok(()),
        Err(EncodeFault::Overlong(_)) => unreachable!(),
        Err(EncodeFault::OutOfMemory) => Err(OutOfMemory),
    }
}

/// Puts the message of the line's request into the buffer, numbered behind so many requests, or nothing
/// for a blank line or a comment. Answers how many requests there are then.
pub fn put_line(text: &mut Bytes, line: &[u8], requests: u32) -> Result<u32, ReadLineFault>
    requires room { requests < 4294967295 }
    ensures packed { IfOk result (λ next. PackGives requests line.now text.new [] next) }
    ensures one_more { IfOk result (λ next. next ≤ requests + 1) }
    ensures fault { IfErr result (IsPutStop line.now) }
{
    text.clear();
    match read_line(text.allocator(), line)? {
        None => Ok(requests),
        Some(request) => {
            put_request(text, &request, requests + 1)?;
            Ok(requests + 1)
        }
    }
}
