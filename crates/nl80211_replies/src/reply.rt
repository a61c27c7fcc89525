//! Replies as messages.

ghost use Rattle.std.specs.Prelude.{◌≡◌, ◌≤◌, length, All, IfOk};
ghost use Rattle.nl_attrs.specs.Messages.{IsInRange, spelled};
ghost use Rattle.nl80211_replies.specs.Dumps.{FitsMessages, reply_messages};

use crate::attribute::NEW_WIPHY;
use crate::channels::push_channels;
use crate::dump::{push_done, push_shown};
use crate::interfaces::iface_attrs;
use crate::plain::msgs_of_plain;
use crate::radios::radio_attrs;
use crate::sections::push_sections;
use nl_attrs::{Msg, MsgList};
use nl80211_cmds::{Command, Family};
use reg_journal::Reply;
use reg_lists::OutOfMemory;
use std::alloc::Global;

/// The messages of a reply to a request, with the request's sequence number and port. A plain reply has
/// one message with its answer and its effects, and an Error message with the errno or 0. A dump has its
/// messages and a Done message. The request is one that `encode` doesn't refuse as too long, and a
/// section has at most 1,024 rows, as each that a step gives. `OutOfMemory` is the one error.
pub fn msgs_of_reply(alloc: Global, request: &Msg, reply: &Reply) -> Result<MsgList, OutOfMemory>
    requires short { length (spelled request.now) ≤ 65536 }
    requires fits { FitsMessages reply.now }
    // They are exactly those of the reply,
    ensures messages { IfOk result (λ msgs. msgs ≡ reply_messages request.now reply.now) }
    // and each keeps what the writer of messages asks for.
    ensures in_range { IfOk result (All IsInRange) }
{
    let mut msgs = MsgList::new(alloc);
    match reply {
        Reply::Plain { answer, effects } => {
            return msgs_of_plain(alloc, request, answer, effects.as_slice());
        }
        Reply::Regs(sections) => push_sections(alloc, &mut msgs, request, sections.as_slice())?,
        Reply::Channels { radio, list } => {
            push_channels(alloc, &mut msgs, request, *radio, list.as_slice())?;
        }
        Reply::Radio(report) => {
            let attrs = radio_attrs(alloc, report)?;
            push_shown(&mut msgs, request, Family::Nl80211, NEW_WIPHY, attrs)?;
        }
        Reply::Iface(report) => {
            let attrs = iface_attrs(alloc, report)?;
            let command = Command::NewInterface.number();
            push_shown(&mut msgs, request, Family::Nl80211, command, attrs)?;
        }
    }
    push_done(&mut msgs, request)?;
    Ok(msgs)
}
