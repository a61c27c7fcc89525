//! Reads replies.

ghost use Rattle.std.specs.Prelude.{◌≡◌, IfErr, IfOk};
ghost use Rattle.nl_attrs.specs.declared.message.Msg.{Msg};
ghost use Rattle.reg_journal.specs.declared.reply.Reply.{Reply};
ghost use Rattle.nl80211_replies.specs.Dumps.{reply_messages};
ghost use Rattle.reply_reading.specs.Replies.{AreReply, CanBeTold, GivesReply, IsReplyFault, IsRequest};
ghost use Rattle.reply_reading.specs.Typed.{IsTypedReply};
ghost use Rattle.reply_reading.specs.inner.Compared.{bare_request};

use crate::candidate::candidate;
use crate::compare::are_written;
use crate::fault::ReplyFault;
use crate::told::can_be_told;
use nl_attrs::{AttrList, Msg, MsgList};
use nl80211_cmds::{Family, seq_and_pid};
use nl80211_replies::msgs_of_reply;
use reg_journal::Reply;
use std::alloc::Global;

/// A request without attributes that has this sequence number and this port.
fn bare_request(alloc: Global, seq: u32, pid: u32) -> Msg
    ensures made { result ≡ bare_request seq pid }
    ensures request { IsRequest result }
{
    Msg::Generic {
        family: Family::Nl80211.number(),
        flags: 0,
        seq,
        pid,
        cmd: 0,
        version: 0,
        attrs: AttrList::new(alloc),
    }
}

/// The reply whose messages these are. `NotAReply` where they are no reply's to any request, and
/// `OutOfMemory` else.
pub fn reply_of(alloc: Global, msgs: &MsgList) -> Result<Reply, ReplyFault>
    // They are those of the reply that is given, to some request.
    ensures reply { IfOk result (AreReply msgs.now) }
    // `NotAReply` says that they are no reply's to any request.
    ensures none { IfErr result (IsReplyFault msgs.now) }
    // It undoes `msgs_of_reply`, unless memory runs out.
    ensures again { (request : Msg) (reply : Reply) → IsTypedReply reply → CanBeTold reply → IsRequest request
        → msgs.now ≡ reply_messages request reply → GivesReply result reply }
{
    let Some(first) = msgs.get(0) else {
        return Err(ReplyFault::NotAReply);
    };
    let Some(reply) = candidate(alloc, msgs.as_slice())? else {
        return Err(ReplyFault::NotAReply);
    };
    if !can_be_told(&reply) {
        return Err(ReplyFault::NotAReply);
    }
    let (seq, pid) = seq_and_pid(first);
    let written = msgs_of_reply(alloc, &bare_request(alloc, seq, pid), &reply)?;
    if !are_written(msgs.as_slice(), written.as_slice()) {
        return Err(ReplyFault::NotAReply);
    }
    Ok(reply)
}
