//! Plain replies as messages.

ghost use Rattle.std.specs.Prelude.{◌≡◌, ◌≤◌, length, All, IfOk};
ghost use Rattle.nl_attrs.specs.Messages.{IsInRange, spelled};
ghost use Rattle.nl80211_replies.specs.Plain.{plain_messages};

use crate::answer::{answer_errno, push_answer};
use crate::attribute::{REPLY, VERSION};
use crate::effect::push_effects;
use nl_attrs::{AttrList, Msg, MsgList};
use nl80211_cmds::{Family, msg_of_errno, seq_and_pid};
use reg_journal::{Answer, Effect};
use reg_lists::OutOfMemory;
use std::alloc::Global;

/// The messages of a plain reply to a request: its answer with what it tells and its effects, and an
/// Error message with the errno, or 0. The request is one that `encode` doesn't refuse as too long.
pub fn msgs_of_plain(
    alloc: Global,
    request: &Msg,
    answer: &Answer,
    effects: &[Effect],
) -> Result<MsgList, OutOfMemory>
    requires { length (spelled request.now) ≤ 65536 }
    ensures messages { IfOk result (λ msgs. msgs ≡ plain_messages request.now answer.now effects.now) }
    ensures in_range { IfOk result (All IsInRange) }
{
    let mut attrs = AttrList::new(alloc);
    push_answer(&mut attrs, answer)?;
    push_effects(&mut attrs, effects)?;
    let (seq, pid) = seq_and_pid(request);
    let mut msgs = MsgList::new(alloc);
    msgs.push(Msg::Generic {
        family: Family::Simulation.number(),
        flags: 0,
        seq,
        pid,
        cmd: REPLY,
        version: VERSION,
        attrs,
    })?;
    msgs.push(msg_of_errno(alloc, request, answer_errno(answer))?)?;
    Ok(msgs)
}
